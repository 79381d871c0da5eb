//! Graphs of code, and graphs with more nodes than the limit.

ghost use Rattle.std.specs.Prelude.{◌≡◌, ◌↔◌, ◌++◌, ◌∷◌, [], All, IfOk, IsTrue, MatchOption};
ghost use Rattle.std.specs.Prelude.{OnOk};
ghost use Rattle.std.specs.List.Sorted.{IsStrictlyIncreasing};
ghost use Rattle.graph_core.specs.Graphs.{graph_of, graphs_of};
ghost use Rattle.c_types.specs.Typed.{typed_of};
ghost use Rattle.pair_setup_calls.specs.Names.{names_of};
ghost use Rattle.pair_setup_spec.specs.Nodes.{IsLargeCode};
ghost use Rattle.pair_setup.specs.Graphs.{AreCodeIf, AreSmallIf, IsSmallCode, IsSound};
ghost use Rattle.pair_setup.specs.Graphs.{firsts_of};
ghost use Rattle.pair_setup.specs.Sizes.{AnyLargeSource, IsLargeAt};

use attempt::{Refusal, attempt};
use c_graph_layout::size;
use c_types::typed::Typed;
use decompile::{CodeGraph, GraphFault, decompile_within};
use decompile_laws::validity::code_graphs_have_one_size;
use elf_read::Image;
use graph_core::Graph;
use indexmap::IndexMap;
use pair_setup_calls::body_at;
use std::alloc::{AllocError, Global};
use tv_limits::MAX_NODES;

/// The graph of the function at an entry, and where its instructions are in it; none where it has more nodes than the limit. Its code has
/// no fault, and the functions that it calls are among the entries: there is a graph.
fn code_graph(
    alloc: Global,
    image: &Image<'_>,
    entry: u32,
    entries: &[u32],
) -> Result<Option<CodeGraph>, AllocError>
    requires sound { IsSound image.now entries.now entry }
    requires rising { IsStrictlyIncreasing entries.now }
    ensures { IfOk result (λ found. MatchOption found (IsLargeCode image.now entry)
        (λ made. IsSmallCode image.now entries.now entry (graph_of made.graph)
        made.firsts.entries)) }
{
    // a law, of which nothing runs
    code_graphs_have_one_size();
    match decompile_within(alloc, image, entry, entries, MAX_NODES) {
        Ok(found) => Ok(Some(found)),
        Err(Refusal::Fault(GraphFault::Large(_))) => Ok(None),
        Err(Refusal::Fault(GraphFault::Code(_))) => unreachable!(),
        Err(Refusal::Fault(GraphFault::Unlisted { .. })) => unreachable!(),
        Err(Refusal::NoMemory) => Err(AllocError),
    }
}

/// Adds a graph, and where its instructions are in it.
fn keep(
    graphs: &mut Vec<Graph>,
    firsts: &mut Vec<IndexMap<u32, usize>>,
    made: CodeGraph,
) -> Result<(), AllocError>
    ensures graphs { OnOk result (graphs.new.items ≡ graphs.old.items ++ made.graph ∷ []) }
    ensures firsts { OnOk result (firsts.new.items ≡ firsts.old.items ++ made.firsts ∷ []) }
{
    attempt!(graphs.push(made.graph), AllocError);
    attempt!(firsts.push(made.firsts), AllocError);
    Ok(())
}

/// Adds the graphs of the functions at some entries, in their order, and where their instructions
/// are in them; false where one of them has more nodes than the limit.
fn add_code(
    alloc: Global,
    graphs: &mut Vec<Graph>,
    firsts: &mut Vec<IndexMap<u32, usize>>,
    image: &Image<'_>,
    entries: &[u32],
) -> Result<bool, AllocError>
    requires none { graphs.old.items ≡ [] }
    requires no_firsts { firsts.old.items ≡ [] }
    requires sound { All (IsSound image.now entries.now) entries.now }
    requires rising { IsStrictlyIncreasing entries.now }
    ensures { IfOk result (AreCodeIf image.now entries.now (graphs_of graphs.new.items)
        (firsts_of firsts.new.items)) }
{
    for index in 0..entries.len() {
        match attempt!(code_graph(alloc, image, entries[index], entries)) {
            Some(made) => attempt!(keep(graphs, firsts, made)),
            None => return Ok(false),
        }
    }
    Ok(true)
}

/// Whether the graph of the C function of a number has more nodes than the limit.
fn is_large_source(unit: &Typed<'_>, number: usize) -> Result<bool, AllocError>
    ensures { IfOk result (λ large. IsTrue large
        ↔ IsLargeAt (typed_of unit.now) (names_of unit.now) number) }
{
    match body_at(unit, number) {
        Some(body) => {
            let nodes = attempt!(size(&body.action));
            Ok(nodes >= MAX_NODES)
        }
        None => Ok(false),
    }
}

/// Whether that of one of some functions has.
fn any_large_source(unit: &Typed<'_>, numbers: &[usize]) -> Result<bool, AllocError>
    ensures { IfOk result (λ large. IsTrue large
        ↔ AnyLargeSource (typed_of unit.now) (names_of unit.now) numbers.now) }
{
    for number in numbers {
        if attempt!(is_large_source(unit, *number)) {
            return Ok(true);
        }
    }
    Ok(false)
}

/// Adds the graphs of the functions at some entries, in their order, and where their instructions
/// are in them; false where one of them, or that of one of some C functions, by numbers, has more
/// nodes than the limit.
pub(crate) fn add_small(
    alloc: Global,
    graphs: &mut Vec<Graph>,
    firsts: &mut Vec<IndexMap<u32, usize>>,
    image: &Image<'_>,
    unit: &Typed<'_>,
    numbers: &[usize],
    entries: &[u32],
) -> Result<bool, AllocError>
    requires none { graphs.old.items ≡ [] }
    requires no_firsts { firsts.old.items ≡ [] }
    requires sound { All (IsSound image.now entries.now) entries.now }
    requires rising { IsStrictlyIncreasing entries.now }
    ensures { IfOk result (AreSmallIf image.now (typed_of unit.now) (names_of unit.now) numbers.now
        entries.now (graphs_of graphs.new.items) (firsts_of firsts.new.items)) }
{
    if attempt!(any_large_source(unit, numbers)) {
        return Ok(false);
    }
    add_code(alloc, graphs, firsts, image, entries)
}
