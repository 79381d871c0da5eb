//! Tests of guards, and nodes after them.

ghost use Rattle.std.specs.Prelude.{◌≡◌, ◌<◌, [], ◌∷◌, length, map};
ghost use Rattle.term_bank.specs.Nodes.{tree_at};
ghost use Rattle.graph_core_spec.specs.Graph as flow;
ghost use Rattle.graph_core.specs.Shared.{IsSharedNode, shared_node_of};
ghost use Rattle.c_graph_spec.specs.Layout as spec;
ghost use Rattle.c_graph_terms.specs.Tables.{AreWithin, id_at};
ghost use Rattle.c_graph.specs.Emitted.{Emits};

use crate::imports::{add_mapped, add_node, import, mapped};
use attempt::attempt;
use c_graph_layout::first;
use c_types_core::counts::sum;
use graph_core::{Graph, SharedNode};
use graph_core_spec::Next;
use std::alloc::{AllocError, Global};
use term_bank::{Bank, TermId};

/// Adds the tests of guards from a number on: each leads to the next, and the last to `to`.
pub(crate) fn chain(
    graph: &mut Graph,
    tests: &[TermId],
    at: usize,
    to: Next,
) -> Result<(), AllocError>
    requires { AreWithin (length graph.old.trees) tests.now }
    ensures nodes { Emits graph.old graph.new result
        (spec.chain (map (tree_at graph.old.trees) tests.now) at to) }
    ensures trees { graph.new.trees ≡ graph.old.trees }
{
    let end = attempt!(sum(at, tests.len()));
    for i in 0..tests.len() {
        let left = tests.len() - i - 1;
        let node = SharedNode::Cond {
            test: tests[i],
            on_true: first(left, end - left, to),
            on_false: Next::Err,
        };
        attempt!(add_node(graph, node));
    }
    Ok(())
}

/// Adds tests of guards over a bank, and then a node over it; the bank's terms have these ids in
/// the graph.
fn emit_under(
    alloc: Global,
    graph: &mut Graph,
    ids: &[TermId],
    tests: &[TermId],
    node: &SharedNode,
    at: usize,
) -> Result<(), AllocError>
    requires ids { AreWithin (length graph.old.trees) ids.now }
    requires tests { AreWithin (length ids.now) tests.now }
    requires node { IsSharedNode (length ids.now) node.now }
    ensures { Emits graph.old graph.new result
        (spec.guarded (map (tree_at (map (tree_at graph.old.trees) ids.now)) tests.now) at
        (shared_node_of (map (tree_at graph.old.trees) ids.now) node.now)) }
{
    let tests = attempt!(mapped(alloc, ids, tests));
    let end = attempt!(sum(at, tests.len()));
    attempt!(chain(graph, tests.as_slice(), at, Next::At(end)));
    add_mapped(alloc, graph, ids, node)
}

/// Adds tests of guards over a bank, and then a node over it.
pub(crate) fn emit(
    alloc: Global,
    graph: &mut Graph,
    bank: &Bank,
    tests: &[TermId],
    node: &SharedNode,
    at: usize,
) -> Result<(), AllocError>
    requires tests { AreWithin (length bank.now) tests.now }
    requires node { IsSharedNode (length bank.now) node.now }
    ensures { Emits graph.old graph.new result
        (spec.guarded (map (tree_at bank.now) tests.now) at (shared_node_of bank.now node.now)) }
{
    let ids = attempt!(import(alloc, graph, bank));
    emit_under(alloc, graph, ids.as_slice(), tests, node, at)
}

/// Adds tests of guards over a bank.
pub(crate) fn emit_tests(
    alloc: Global,
    graph: &mut Graph,
    bank: &Bank,
    tests: &[TermId],
    at: usize,
    to: Next,
) -> Result<(), AllocError>
    requires { AreWithin (length bank.now) tests.now }
    ensures { Emits graph.old graph.new result
        (spec.chain (map (tree_at bank.now) tests.now) at to) }
{
    let ids = attempt!(import(alloc, graph, bank));
    let tests = attempt!(mapped(alloc, ids.as_slice(), tests));
    chain(graph, tests.as_slice(), at, to)
}

/// Adds a node that binds nothing.
pub(crate) fn empty(alloc: Global, graph: &mut Graph, next: Next) -> Result<(), AllocError>
    ensures { Emits graph.old graph.new result (flow.Basic [] next ∷ []) }
{
    let bindings = Vec::new(alloc);
    add_node(graph, SharedNode::Basic { bindings, next })
}
