//! Cycles, and the stack of listed functions.

ghost use Rattle.std.specs.Prelude.{◌≡◌, ◌↔◌, ℕ, List, [], All, get_or, length, nat_eq, nat_lt};
ghost use Rattle.std.specs.Prelude.{None};
ghost use Rattle.std.specs.Prelude.{if◌then◌else◌, IfErr, IfOk, IfSome, IsSome, IsTrue, OnOk, Some};
ghost use Rattle.std.specs.Prelude.{slice_get};
ghost use Rattle.indexmap.specs.IndexMap.{get};
ghost use Rattle.elf_read_spec.specs.Image.{size_at};
ghost use Rattle.code_reach_spec.specs.Code as code;
ghost use Rattle.code_reach_spec.specs.Faults.{ReachesNoFault};
ghost use Rattle.code_reach.specs.Found.{IsDepth};
ghost use Rattle.c_types_spec.specs.HasType.{IsTypedUnit};
ghost use Rattle.c_types.specs.Typed.{typed_of};
ghost use Rattle.pair_setup_calls.specs.Names.{names_of, texts_of};
ghost use Rattle.pair_setup_calls.specs.Graph.{IsCyclic, graph_of};
ghost use Rattle.pair_setup_spec.specs.Faults.{HasNames};
ghost use Rattle.pair_setup_spec.specs.Code.{HasSoundCode};
ghost use Rattle.pair_setup.specs.Surveys.{AreAcyclic, IsSurvey};
ghost use Rattle.pair_setup.specs.Names.{IsDeclaredAt};
ghost use Rattle.pair_setup.specs.Depths.{AreFunctions, IsDepthErrorAt, IsDepthOf};
ghost use Rattle.pair_setup.specs.Depths.{IsFirstDepthError, IsSoundFunction};
ghost use Rattle.pair_setup.specs.Stacks.{AreStacks};

use crate::names::function_number;
use crate::outcome::{Function, Named, PairFault};
use crate::stacks::add_stacks;
use crate::survey::Survey;
use attempt::{Refusal, attempt};
use c_types::typed::Typed;
use code_reach::stack;
use elf_read::Image;
use indexmap::IndexMap;
use pair_setup_calls::is_cyclic;
use pair_setup_spec::PairKind;
use std::alloc::{AllocError, Global};
use tv_limits::MAX_STACK;

/// How many bytes of stack a function takes, or why that isn't answered.
#[derive(Clone, Copy)]
pub(crate) enum Depth {
    /// So many, within the limit.
    Stack(u64),
    /// A cycle is reached, or they are above the limit.
    Fault(PairKind),
}

/// The stack of a function without a cycle, if it is within the limit.
fn within(stack: u64) -> Depth
    ensures { result ≡ (if nat_lt MAX_STACK stack then Depth.Fault PairKind.StackTooDeep
        else Depth.Stack stack) }
{
    if stack > MAX_STACK {
        Depth::Fault(PairKind::StackTooDeep)
    } else {
        Depth::Stack(stack)
    }
}

/// Whether a depth is known.
fn is_known(depths: &[Option<u64>], node: usize) -> bool
    ensures { IsTrue result → IsSome (get_or depths.now node None) }
{
    if node < depths.len() {
        depths[node].is_some()
    } else {
        false
    }
}

/// Whether a cycle is reached in a graph, of which some depths are known.
fn reaches_cycle(
    alloc: Global,
    graph: &[Vec<usize>],
    depths: &[Option<u64>],
    start: usize,
) -> Result<bool, AllocError>
    requires { AreAcyclic (graph_of graph.now) depths.now }
    ensures { IfOk result (λ found. IsTrue found ↔ IsCyclic (graph_of graph.now) start) }
{
    if is_known(depths, start) {
        Ok(false)
    } else {
        is_cyclic(alloc, graph, start)
    }
}

/// The stack of the function at an entry whose code has no fault; none where a cycle is reached.
fn reached_stack(alloc: Global, image: &Image<'_>, entry: u32) -> Result<Option<u64>, AllocError>
    requires sized { IsSome (size_at image.now entry) }
    requires sound { ReachesNoFault image.now entry }
    ensures found { IfOk result (IsDepth image.now entry) }
    ensures acyclic { IfOk result (λ depth. IfSome depth (λ _. code.IsCyclic image.now entry
        → ⊥)) }
{
    match stack(alloc, image, entry) {
        Ok(stack) => Ok(stack),
        Err(Refusal::Fault(_)) => unreachable!(),
        Err(Refusal::NoMemory) => Err(AllocError),
    }
}

/// The same, where some stacks are known.
fn stack_of(
    alloc: Global,
    image: &Image<'_>,
    known: &IndexMap<u32, u64>,
    entry: u32,
) -> Result<Option<u64>, AllocError>
    requires sized { IsSome (size_at image.now entry) }
    requires sound { ReachesNoFault image.now entry }
    requires stacks { AreStacks image.now (get nat_eq known.now) }
    ensures found { IfOk result (IsDepth image.now entry) }
    ensures acyclic { IfOk result (λ depth. IfSome depth (λ _. code.IsCyclic image.now entry
        → ⊥)) }
{
    match known.get(&entry).copied() {
        Some(stack) => Ok(Some(stack)),
        None => reached_stack(alloc, image, entry),
    }
}

/// The stack of a listed function whose names and code have no fault, or the fault of what it
/// reaches.
fn depth_of(
    alloc: Global,
    image: &Image<'_>,
    unit: &Typed<'_>,
    survey: &Survey,
    known: &IndexMap<u32, u64>,
    start: usize,
    entry: u32,
) -> Result<Depth, AllocError>
    requires typed { IsTypedUnit (typed_of unit.now) }
    requires survey { IsSurvey image.now (typed_of unit.now) (names_of unit.now) survey.now }
    requires stacks { AreStacks image.now (get nat_eq known.now) }
    requires sized { IsSome (size_at image.now entry) }
    requires sound { ReachesNoFault image.now entry }
    ensures { IfOk result (λ depth. (name : List ℕ) → IsDeclaredAt (typed_of unit.now) (names_of
        unit.now) name start → IsDepthOf image.now (typed_of unit.now) name entry depth) }
{
    let (graph, depths) = (survey.graph.as_slice(), survey.depths.as_slice());
    if attempt!(reaches_cycle(alloc, graph, depths, start)) {
        return Ok(Depth::Fault(PairKind::Recursive));
    }
    match attempt!(stack_of(alloc, image, known, entry)) {
        Some(stack) => Ok(within(stack)),
        None => Ok(Depth::Fault(PairKind::Recursive)),
    }
}

/// The listed function of a name and an entry, at an index of the list, or its fault.
fn listed_function(
    alloc: Global,
    image: &Image<'_>,
    unit: &Typed<'_>,
    survey: &Survey,
    known: &IndexMap<u32, u64>,
    name: &[u8],
    entry: u32,
    index: usize,
) -> Result<Function, Refusal<PairFault>>
    requires typed { IsTypedUnit (typed_of unit.now) }
    requires survey { IsSurvey image.now (typed_of unit.now) (names_of unit.now) survey.now }
    requires stacks { AreStacks image.now (get nat_eq known.now) }
    requires names { HasNames image.now (typed_of unit.now) name.now }
    requires code { HasSoundCode image.now name.now entry }
    ensures function { IfOk result (IsSoundFunction image.now (typed_of unit.now) name.now) }
    ensures fault { IfErr result (IsDepthErrorAt image.now (typed_of unit.now) name.now entry
        index) }
{
    let start = function_number(unit, name).unwrap_or(0);
    let size = image.size_at(entry).unwrap_or(0);
    match attempt!(
        depth_of(alloc, image, unit, survey, known, start, entry),
        Refusal::NoMemory
    ) {
        Depth::Stack(stack) => Ok(Function { entry, size, stack }),
        Depth::Fault(kind) => Err(Refusal::Fault(PairFault::Refused(kind, Named::Listed(index)))),
    }
}

/// Adds the listed functions, of which these are the entries, where none reaches a cycle or takes
/// too much stack; or else the fault of the first that does.
fn add_functions(
    alloc: Global,
    functions: &mut Vec<Function>,
    image: &Image<'_>,
    unit: &Typed<'_>,
    survey: &Survey,
    known: &IndexMap<u32, u64>,
    list: &[&[u8]],
    firsts: &[u32],
) -> Result<(), Refusal<PairFault>>
    requires typed { IsTypedUnit (typed_of unit.now) }
    requires survey { IsSurvey image.now (typed_of unit.now) (names_of unit.now) survey.now }
    requires stacks { AreStacks image.now (get nat_eq known.now) }
    requires names { All (HasNames image.now (typed_of unit.now)) (texts_of list.now) }
    requires long { length firsts.now ≡ length (texts_of list.now) }
    requires code { (index : ℕ) (name : List ℕ) → slice_get (texts_of list.now) index ≡ Some name
        → HasSoundCode image.now name (get_or firsts.now index 0) }
    requires none { functions.old.items ≡ [] }
    ensures functions { OnOk result (AreFunctions image.now (typed_of unit.now) (texts_of list.now)
        functions.new.items) }
    ensures fault { IfErr result (IsFirstDepthError image.now (typed_of unit.now)
        (texts_of list.now)) }
{
    for i in 0..list.len() {
        let found = attempt!(listed_function(
            alloc, image, unit, survey, known, list[i], firsts[i], i
        ));
        attempt!(functions.push(found), Refusal::NoMemory);
    }
    Ok(())
}

/// The listed functions, where none reaches a cycle or takes too much stack.
pub(crate) fn functions(
    alloc: Global,
    image: &Image<'_>,
    unit: &Typed<'_>,
    survey: &Survey,
    list: &[&[u8]],
    firsts: &[u32],
) -> Result<Vec<Function>, Refusal<PairFault>>
    requires typed { IsTypedUnit (typed_of unit.now) }
    requires survey { IsSurvey image.now (typed_of unit.now) (names_of unit.now) survey.now }
    requires names { All (HasNames image.now (typed_of unit.now)) (texts_of list.now) }
    requires long { length firsts.now ≡ length (texts_of list.now) }
    requires code { (index : ℕ) (name : List ℕ) → slice_get (texts_of list.now) index ≡ Some name
        → HasSoundCode image.now name (get_or firsts.now index 0) }
    ensures functions { IfOk result (λ functions. AreFunctions image.now (typed_of unit.now)
        (texts_of list.now) functions.items) }
    ensures fault { IfErr result (IsFirstDepthError image.now (typed_of unit.now)
        (texts_of list.now)) }
{
    let mut known = IndexMap::new(alloc);
    attempt!(
        add_stacks(alloc, &mut known, image, firsts),
        Refusal::NoMemory
    );
    let mut functions = Vec::new(alloc);
    attempt!(add_functions(
        alloc,
        &mut functions,
        image,
        unit,
        survey,
        &known,
        list,
        firsts
    ));
    Ok(functions)
}
