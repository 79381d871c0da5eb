//! The nodes that lead to a point.

ghost use Rattle.std.specs.Prelude.{◌≡◌, ◌↔◌, [], Contains, IfOk, IsTrue, List, OnOk, map};
ghost use Rattle.term_core_spec.specs.Term.{Term};
ghost use Rattle.graph_core.specs.Graphs.{graph_of};
ghost use Rattle.graph_core.specs.Shared.{shared_node_of};
ghost use Rattle.graph_core_spec.specs.Run.{GoesTo};
ghost use Rattle.proof_tree.specs.Ahead.{Grows};
ghost use Rattle.sim_rules.specs.Tables.{IsSearched, IsStep, LeadsTo, list_at, lists_of};

use crate::table::{add_empty, add_nodes};
use attempt::attempt;
use graph_core::{Graph, Next, SharedNode};
use indexmap::IndexSet;
use std::alloc::{AllocError, Global};

// Whether a run continues at the point.
fn is_at(next: Next, point: usize) -> bool
    ensures { IsTrue result ↔ (next ≡ Next.At point) }
{
    match next {
        Next::At(node) => node == point,
        Next::Ret | Next::Err => false,
    }
}

// Whether an edge goes from a node to the point.
fn goes_to(node: &SharedNode, point: usize) -> bool
    ensures { (trees : List Term) → IsTrue result ↔ GoesTo (shared_node_of trees node.now) point }
{
    match node {
        SharedNode::Basic { next, .. } => is_at(*next, point),
        SharedNode::Cond {
            on_true,
            on_false,
            ..
        } => is_at(*on_true, point) || is_at(*on_false, point),
        SharedNode::Call { landing, .. } => *landing == point,
    }
}

// Adds a node, if an edge goes from it to the point.
fn add_if(
    found: &mut IndexSet<usize>,
    from: usize,
    node: &SharedNode,
    point: usize,
) -> Result<(), AllocError>
    ensures { (trees : List Term) → OnOk result
        (Grows (λ k. (from ≡ k) × GoesTo (shared_node_of trees node.now) point) found.old.keys
        found.new.keys) }
{
    if !goes_to(node, point) {
        return Ok(());
    }
    attempt!(found.insert(from), AllocError);
    Ok(())
}

// Adds each node from which an edge goes to the point.
fn begin(found: &mut IndexSet<usize>, nodes: &[SharedNode], point: usize) -> Result<(), AllocError>
    ensures { (trees : List Term) → OnOk result
        (Grows (λ k. IsStep (map (shared_node_of trees) nodes.now) k point) found.old.keys
        found.new.keys) }
{
    for i in 0..nodes.len() {
        attempt!(add_if(found, i, &nodes[i], point));
    }
    Ok(())
}

// Adds some nodes.
fn add_all(found: &mut IndexSet<usize>, nodes: &[usize]) -> Result<(), AllocError>
    ensures { OnOk result (Grows (λ k. Contains nodes.now k) found.old.keys found.new.keys) }
{
    for i in 0..nodes.len() {
        attempt!(found.insert(nodes[i]), AllocError);
    }
    Ok(())
}

// Adds the nodes before a node.
fn add_before(
    found: &mut IndexSet<usize>,
    before: &[Vec<usize>],
    node: usize,
) -> Result<(), AllocError>
    ensures { OnOk result (Grows (λ k. Contains (list_at (lists_of before.now) node) k)
        found.old.keys found.new.keys) }
{
    if node >= before.len() {
        return Ok(());
    }
    add_all(found, before[node].as_slice())
}

// Adds the nodes before each, and before these, and so on.
fn search(found: &mut IndexSet<usize>, before: &[Vec<usize>]) -> Result<(), AllocError>
    ensures { OnOk result (IsSearched (lists_of before.now) found.old.keys found.new.keys) }
{
    let mut next = 0;
    while next < found.len() {
        let node = found.as_slice()[next];
        attempt!(add_before(found, before, node));
        next += 1;
    }
    Ok(())
}

// Adds the nodes that lead to a point; `before` is room for the nodes before each.
fn add_leading(
    alloc: Global,
    found: &mut IndexSet<usize>,
    before: &mut Vec<Vec<usize>>,
    graph: &Graph,
    point: usize,
) -> Result<(), AllocError>
    requires found { found.old.keys ≡ [] }
    requires before { before.old.items ≡ [] }
    ensures { OnOk result (LeadsTo (graph_of graph.now).nodes point found.new.keys) }
{
    let nodes = graph.nodes();
    attempt!(add_empty(alloc, before, nodes.len()));
    attempt!(add_nodes(before, nodes));
    attempt!(begin(found, nodes, point));
    search(found, before.as_slice())
}

/// The nodes of a graph that lead to a point.
pub(crate) fn leading(
    alloc: Global,
    graph: &Graph,
    point: usize,
) -> Result<IndexSet<usize>, AllocError>
    ensures { IfOk result (λ found. LeadsTo (graph_of graph.now).nodes point found.keys) }
{
    let mut found = IndexSet::new(alloc);
    let mut before = Vec::new(alloc);
    attempt!(add_leading(alloc, &mut found, &mut before, graph, point));
    Ok(found)
}
