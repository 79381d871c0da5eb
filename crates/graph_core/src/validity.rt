//! When a graph is valid.

ghost use Rattle.std.specs.Prelude.{◌≡◌, ◌↔◌, ◌<◌, IsTrue, Some};
ghost use Rattle.std.specs.List.{All};
ghost use Rattle.graph_core_spec.specs.Graph as spec;
ghost use Rattle.graph_core.specs.Graphs.{graph_of};
ghost use Rattle.graph_core.specs.Sorts.{AreSorted, HasSort, IsSortedNode};

use crate::graph::Graph;
use crate::shared::{SharedBinding, SharedNode};
use graph_core_spec::Next;
use term_bank::TermId;
use term_core_spec::Sort;

/// Whether a graph is valid: whether each node that it names is there, and each term is well
/// sorted. The sort of each term was made once, so the work is linear in the nodes.
pub fn validate(graph: &Graph) -> bool
    ensures { IsTrue result ↔ spec.IsValid (graph_of graph.now) }
{
    let count = graph.len();
    graph.entry() < count && are_nodes(graph.sorts(), count, graph.nodes())
}

fn are_nodes(sorts: &[Option<Sort>], count: usize, nodes: &[SharedNode]) -> bool
    ensures { IsTrue result ↔ All (IsSortedNode sorts.now count) nodes.now }
{
    for node in nodes {
        if !is_node(sorts, count, node) {
            return false;
        }
    }
    true
}

fn is_node(sorts: &[Option<Sort>], count: usize, node: &SharedNode) -> bool
    ensures { IsTrue result ↔ IsSortedNode sorts.now count node.now }
{
    match node {
        SharedNode::Basic { bindings, next } => {
            are_bindings(sorts, bindings.as_slice()) && is_next(count, *next)
        }
        SharedNode::Cond {
            test,
            on_true,
            on_false,
        } => {
            has_sort(sorts, *test, Sort::Truth)
                && is_next(count, *on_true)
                && is_next(count, *on_false)
        }
        SharedNode::Call {
            inputs,
            outputs,
            landing,
            ..
        } => {
            are_bindings(sorts, inputs.as_slice())
                && are_bindings(sorts, outputs.as_slice())
                && *landing < count
        }
    }
}

fn is_next(count: usize, next: Next) -> bool
    ensures { IsTrue result ↔ spec.IsNext count next }
{
    match next {
        Next::At(node) => node < count,
        Next::Ret | Next::Err => true,
    }
}

fn are_bindings(sorts: &[Option<Sort>], bindings: &[SharedBinding]) -> bool
    ensures { IsTrue result ↔ AreSorted sorts.now bindings.now }
{
    for binding in bindings {
        if !has_sort(sorts, binding.term, binding.variable.sort) {
            return false;
        }
    }
    true
}

fn is_sort(found: Option<Sort>, expected: Sort) -> bool
    ensures { IsTrue result ↔ (found ≡ Some expected) }
{
    found == Some(expected)
}

fn has_sort(sorts: &[Option<Sort>], term: TermId, expected: Sort) -> bool
    ensures { IsTrue result ↔ HasSort sorts.now term expected }
{
    match sorts.get(term) {
        Some(found) => is_sort(*found, expected),
        None => false,
    }
}
