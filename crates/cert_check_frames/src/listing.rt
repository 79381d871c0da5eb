//! The listed functions of a pair of files.

ghost use Rattle.std.specs.Prelude.{◌≡◌, ℕ, IfOk, length, map, List};
ghost use Rattle.validity_laws.specs.CheckStatements.{listed_of};
ghost use Rattle.agreement_laws.specs.EntryFrame.{Pair};
ghost use Rattle.validity_laws.specs.Derivation.{Function};
ghost use Rattle.cert_check_frames.specs.Listed.{AreListed, IsListed, firsts_if, places_in};
ghost use Rattle.cert_check_frames.specs.Entries.{AreConventions, AreEntries, AreGraphs};
ghost use Rattle.cert_check_frames.specs.Entries.{AreSites, IsConventionFor, IsEntryOf};
ghost use Rattle.cert_check_frames.specs.Entries.{firsts_by, places_by};

use crate::entries::Entry;
use crate::listed::{Listed, PlaceNode};
use attempt::attempt;
use graph_core::{Graph, GraphRun};
use indexmap::IndexMap;
use memory_spec::Run;
use proof_tree_spec::Nodes;
use sim_rules_terms::Convention;
use std::alloc::{AllocError, Global};

/// Where the points of functions are in their graphs.
#[derive(Clone, Copy)]
pub struct Sites<'a> {
    /// By the number of a code's graph, the first node of each of its instructions, by address.
    pub firsts: &'a [IndexMap<u32, usize>],
    /// By the number of a body, the nodes of its places.
    pub places: &'a [Vec<PlaceNode>],
}

// The first nodes of the instructions of a graph.
fn firsts_of<'a>(
    firsts: &'a [IndexMap<u32, usize>],
    number: usize,
) -> Option<&'a IndexMap<u32, usize>>
    ensures { firsts_if result ≡ firsts_by firsts.now number }
{
    match firsts.get(number) {
        Some(found) => Some(found),
        None => None,
    }
}

// The nodes of the places of a body.
fn places_of<'a>(places: &'a [Vec<PlaceNode>], body: usize) -> &'a [PlaceNode]
    ensures { places_in result.now ≡ places_by places.now body }
{
    match places.get(body) {
        Some(found) => found.as_slice(),
        None => &[],
    }
}

// The function of an entry, as it is listed.
fn function<'a>(
    of: &'a Entry<'a>,
    convention: &'a Convention<'a>,
    code: &'a [Graph],
    source: &'a [Graph],
    runs: &'a [Run],
    sites: Sites<'a>,
) -> Listed<'a>
    ensures { (q : Pair) (firsts : List (List (ℕ × ℕ))) (g : Function) → IsEntryOf q g of.now
        → IsConventionFor q g convention.now → AreGraphs q code.now source.now runs.now
        → AreSites q firsts sites.entry.firsts.now sites.entry.places.now
        → IsListed result (listed_of q firsts g) }
{
    Listed {
        name: of.name,
        stack: of.stack,
        binary: GraphRun {
            graphs: code,
            outermost: of.numbers.code,
        },
        source: GraphRun {
            graphs: source,
            outermost: of.numbers.body,
        },
        nodes: Nodes {
            binary: of.numbers.first,
            source: 0,
        },
        path: &[],
        setting: &of.setting,
        entry: of.relations.lines.as_slice(),
        convention,
        binary_terms: of.facts.binary.as_slice(),
        source_terms: of.facts.source.as_slice(),
        runs,
        firsts: firsts_of(sites.firsts, of.numbers.code),
        places: places_of(sites.places, of.numbers.body),
    }
}

/// The listed functions of a pair of files, in the order of the list: of each the entry, and what
/// [`Entry::convention`] makes of it; the graphs of the code of all functions that are reached, in
/// the order of their entries; the graphs of all bodies, in the unit's order; the fixed bytes; and
/// where points are in the graphs.
pub fn list<'a>(
    alloc: Global,
    entries: &'a [Entry<'a>],
    conventions: &'a [Convention<'a>],
    code: &'a [Graph],
    source: &'a [Graph],
    runs: &'a [Run],
    sites: Sites<'a>,
) -> Result<Vec<Listed<'a>>, AllocError>
    requires { length entries.now ≡ length conventions.now }
    ensures { (q : Pair) (firsts : List (List (ℕ × ℕ))) (functions : List Function)
        → AreEntries q functions entries.now → AreConventions q functions conventions.now
        → AreGraphs q code.now source.now runs.now
        → AreSites q firsts sites.entry.firsts.now sites.entry.places.now
        → IfOk result (λ all. AreListed all.items (map (listed_of q firsts) functions)) }
{
    let mut all = Vec::new(alloc);
    for index in 0..entries.len() {
        let function = function(
            &entries[index],
            &conventions[index],
            code,
            source,
            runs,
            sites,
        );
        attempt!(all.push(function), AllocError);
    }
    Ok(all)
}
