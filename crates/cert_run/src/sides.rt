//! Both sides of listed functions.

ghost use Rattle.std.specs.Prelude.{◌≡◌, ℕ, [], IfOk, List, OnOk, length, map};
ghost use Rattle.c_graph_spec.specs.Sizes.{UnitSizes};
ghost use Rattle.c_types_spec.specs.HasType.{IsTypedUnit};
ghost use Rattle.c_types.specs.Typed.{typed_of};
ghost use Rattle.pair_setup_calls.specs.Names.{texts_of};
ghost use Rattle.pair_setup.specs.Answers.{ArePairs, pairs_of};
ghost use Rattle.agreement_laws.specs.EntryFrame.{Pair};
ghost use Rattle.validity_laws.specs.Derivation.{Function};
ghost use Rattle.validity_laws.specs.CheckStatements.{listed_of};
ghost use Rattle.cert_check_frames.specs.Listed.{AreListed};
ghost use Rattle.cert_check_frames.specs.Entries.{AreConventions, AreEntries, AreGraphs, AreSites};
ghost use Rattle.cert_run.specs.Sides.{HasSides, IsRead};

use crate::functions::entries;
use crate::source::{Sources, source_graphs};
use attempt::attempt;
use c_types::typed::Typed;
use cert_check_frames::{Entry, File, Listed, PlaceNode, Sites, list};
use elf_read::Image;
use graph_core::Graph;
use indexmap::IndexMap;
use memory_spec::Run;
use pair_setup::Pairs;
use sim_rules_terms::Convention;
use std::alloc::{AllocError, Global};

/// Both sides of listed functions: graphs, the fixed bytes, and the frames at the entries.
#[derive(Drop)]
pub struct Sides<'a> {
    /// The graphs of the code of all functions that are reached, in the order of their entries.
    pub code: &'a [Graph],
    /// By the numbers of these graphs, the first node of each instruction, by address.
    pub firsts: &'a [IndexMap<u32, usize>],
    /// The graphs of all bodies, in the unit's order.
    pub source: Vec<Graph>,
    /// By the numbers of bodies, the nodes of their places.
    pub places: Vec<Vec<PlaceNode>>,
    /// The runs of fixed bytes.
    pub runs: Vec<Run>,
    /// What the frames at the entries of the listed functions are made of, in the list's order.
    pub entries: Vec<Entry<'a>>,
}

/// Adds what holds where each function returns.
fn add_conventions<'s>(
    alloc: Global,
    conventions: &mut Vec<Convention<'s>>,
    entries: &'s [Entry<'s>],
) -> Result<(), AllocError>
    requires { conventions.old.items ≡ [] }
    ensures are { (q : Pair) (functions : List Function) → AreEntries q functions entries.now
        → OnOk result (AreConventions q functions conventions.new.items) }
    ensures count { OnOk result (length entries.now ≡ length conventions.new.items) }
{
    for index in 0..entries.len() {
        let convention = attempt!(entries[index].convention(alloc));
        attempt!(conventions.push(convention), AllocError);
    }
    Ok(())
}

impl<'a> Sides<'a> {
    /// Those of the functions of a list, which have pairs.
    pub fn new(
        alloc: Global,
        image: &Image<'_>,
        unit: &Typed<'_>,
        list: &[&'a [u8]],
        pairs: &'a Pairs,
    ) -> Result<Self, AllocError>
        requires typed { IsTypedUnit (typed_of unit.now) }
        requires sizes { UnitSizes (typed_of unit.now) }
        requires paired { ArePairs image.now (typed_of unit.now) (texts_of list.now) pairs.now }
        ensures { IsRead image.now → IfOk result (HasSides image.now (typed_of unit.now)
            (pairs_of (texts_of list.now) pairs.now)) }
    {
        let runs = attempt!(image.runs(alloc));
        let Sources {
            graphs: source,
            places,
        } = attempt!(source_graphs(alloc, image, unit, runs.as_slice()));
        let file = File {
            pointer: image.global_pointer(),
            runs: runs.as_slice(),
        };
        let entries = attempt!(entries(alloc, unit, file, list, pairs));
        let code = pairs.code.as_slice();
        let firsts = pairs.firsts.as_slice();
        Ok(Sides {
            code,
            firsts,
            source,
            places,
            runs,
            entries,
        })
    }

    /// What holds where each function returns.
    pub fn conventions(&self, alloc: Global) -> Result<Vec<Convention<'_>>, AllocError>
        ensures are { (q : Pair) (functions : List Function)
            → AreEntries q functions self.now.entries.items
            → IfOk result (λ made. AreConventions q functions made.items) }
        ensures count { IfOk result (λ made. length self.now.entries.items ≡ length made.items) }
    {
        let mut conventions = Vec::new(alloc);
        attempt!(add_conventions(alloc, &mut conventions, self.entries.as_slice()));
        Ok(conventions)
    }

    /// The functions as the check of certificates takes them, with what [`Sides::conventions`]
    /// answers.
    pub fn listed<'s>(
        &'s self,
        alloc: Global,
        conventions: &'s [Convention<'s>],
    ) -> Result<Vec<Listed<'s>>, AllocError>
        requires { length self.now.entries.items ≡ length conventions.now }
        ensures { (q : Pair) (firsts : List (List (ℕ × ℕ))) (functions : List Function)
            → AreEntries q functions self.now.entries.items
            → AreConventions q functions conventions.now
            → AreGraphs q self.now.code.now self.now.source.items self.now.runs.items
            → AreSites q firsts self.now.firsts.now self.now.places.items
            → IfOk result (λ all. AreListed all.items (map (listed_of q firsts) functions)) }
    {
        let source = self.source.as_slice();
        let runs = self.runs.as_slice();
        let sites = Sites {
            firsts: self.firsts,
            places: self.places.as_slice(),
        };
        list(
            alloc,
            self.entries.as_slice(),
            conventions,
            self.code,
            source,
            runs,
            sites,
        )
    }
}
