//! The pairs of a list.

ghost use Rattle.std.specs.Prelude.{◌≡◌, ◌≢◌, [], All, IfErr, IfOk};
ghost use Rattle.graph_core.specs.Graphs.{graphs_of};
ghost use Rattle.c_types_spec.specs.HasType.{IsTypedUnit};
ghost use Rattle.c_types.specs.Typed.{typed_of};
ghost use Rattle.pair_setup_calls.specs.Names.{names_of, texts_of};
ghost use Rattle.pair_setup.specs.Surveys.{IsSurvey};
ghost use Rattle.pair_setup.specs.Graphs.{IsSound, firsts_of};
ghost use Rattle.pair_setup.specs.Answers.{AreChecked, ArePairs, AreSmall, IsLargeError};
ghost use Rattle.pair_setup.specs.Answers.{IsPairError};

use crate::code::sound_entries;
use crate::names::check_names;
use crate::nodes::add_small;
use crate::outcome::{Function, Named, PairFault, Pairs};
use crate::reach::functions;
use crate::survey::{Survey, surveyed};
use attempt::{Refusal, attempt};
use c_types::typed::Typed;
use elf_read::Image;
use graph_core::Graph;
use indexmap::{IndexMap, IndexSet};
use pair_setup_spec::PairKind;
use std::alloc::Global;

/// The listed functions, where none has a fault; or else the fault of the list. The numbers of all
/// that their source reaches and the entries of all that their code reaches are added.
fn checked(
    alloc: Global,
    image: &Image<'_>,
    unit: &Typed<'_>,
    survey: &Survey,
    seen: &mut IndexSet<usize>,
    entries: &mut IndexSet<u32>,
    list: &[&[u8]],
) -> Result<Vec<Function>, Refusal<PairFault>>
    requires typed { IsTypedUnit (typed_of unit.now) }
    requires survey { IsSurvey image.now (typed_of unit.now) (names_of unit.now) survey.now }
    requires unseen { seen.old.keys ≡ [] }
    requires none { entries.old.keys ≡ [] }
    ensures checked { IfOk result (λ functions. AreChecked image.now (typed_of unit.now) (names_of
        unit.now) (texts_of list.now) functions.items seen.new.keys entries.new.keys) }
    ensures error { IfErr result (IsPairError image.now (typed_of unit.now) (names_of unit.now)
        (texts_of list.now)) }
{
    attempt!(check_names(alloc, image, unit, survey, seen, list));
    let firsts = attempt!(sound_entries(alloc, entries, image, list));
    functions(alloc, image, unit, survey, list, firsts.as_slice())
}

/// The entries, ascending, whose graphs are added with the first nodes of their instructions, where
/// none of these, and none of these C functions, is too large.
fn small_entries(
    alloc: Global,
    graphs: &mut Vec<Graph>,
    firsts: &mut Vec<IndexMap<u32, usize>>,
    image: &Image<'_>,
    unit: &Typed<'_>,
    numbers: &[usize],
    entries: &mut IndexSet<u32>,
) -> Result<Vec<u32>, Refusal<PairFault>>
    requires none { graphs.old.items ≡ [] }
    requires no_firsts { firsts.old.items ≡ [] }
    requires sound { All (IsSound image.now entries.old.keys) entries.old.keys }
    ensures small { IfOk result (λ found. AreSmall image.now (typed_of unit.now) (names_of unit.now)
        numbers.now entries.old.keys found.items (graphs_of graphs.new.items)
        (firsts_of firsts.new.items)) }
    ensures error { IfErr result (IsLargeError image.now (typed_of unit.now) (names_of unit.now)
        numbers.now entries.old.keys) }
{
    attempt!(entries.sort(), Refusal::NoMemory);
    let small = attempt!(
        add_small(
            alloc,
            graphs,
            firsts,
            image,
            unit,
            numbers,
            entries.as_slice()
        ),
        Refusal::NoMemory
    );
    if !small {
        return Err(Refusal::Fault(PairFault::Nodes));
    }
    let found = attempt!(
        Vec::from_slice(alloc, entries.as_slice()),
        Refusal::NoMemory
    );
    Ok(found)
}

/// The pairs of a list that isn't empty.
fn listed_pairs(
    alloc: Global,
    image: &Image<'_>,
    unit: &Typed<'_>,
    survey: &Survey,
    list: &[&[u8]],
) -> Result<Pairs, Refusal<PairFault>>
    requires typed { IsTypedUnit (typed_of unit.now) }
    requires survey { IsSurvey image.now (typed_of unit.now) (names_of unit.now) survey.now }
    requires some { texts_of list.now ≢ [] }
    ensures pairs { IfOk result (ArePairs image.now (typed_of unit.now) (texts_of list.now)) }
    ensures error { IfErr result (IsPairError image.now (typed_of unit.now) (names_of unit.now)
        (texts_of list.now)) }
{
    let mut seen = IndexSet::new(alloc);
    let mut entries = IndexSet::new(alloc);
    let functions = attempt!(checked(alloc, image, unit, survey, &mut seen, &mut entries, list));
    let mut code = Vec::new(alloc);
    let mut firsts = Vec::new(alloc);
    let numbers = seen.as_slice();
    let entries = attempt!(small_entries(
        alloc,
        &mut code,
        &mut firsts,
        image,
        unit,
        numbers,
        &mut entries
    ));
    Ok(Pairs {
        functions,
        entries,
        code,
        firsts,
    })
}

/// The pairs of a list of names, or the first of these: that nothing is listed; for the first
/// function with such a fault that a body, a symbol or a global is missing; for the first function
/// with one the first fault of code; for the first function with one a cycle, or too deep a stack;
/// and that a graph is too large.
pub fn pair(
    alloc: Global,
    image: &Image<'_>,
    unit: &Typed<'_>,
    list: &[&[u8]],
) -> Result<Pairs, Refusal<PairFault>>
    requires { IsTypedUnit (typed_of unit.now) }
    ensures pairs { IfOk result (ArePairs image.now (typed_of unit.now) (texts_of list.now)) }
    ensures error { IfErr result (IsPairError image.now (typed_of unit.now) (names_of unit.now)
        (texts_of list.now)) }
{
    if list.is_empty() {
        return Err(Refusal::Fault(PairFault::Refused(PairKind::NothingListed, Named::Nothing)));
    }
    let survey = attempt!(surveyed(alloc, image, unit), Refusal::NoMemory);
    listed_pairs(alloc, image, unit, &survey, list)
}
