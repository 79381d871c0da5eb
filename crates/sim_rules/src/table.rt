//! The nodes from which edges go to each node of a graph.

ghost use Rattle.std.specs.Prelude.{◌≡◌, ◌⊎◌, [], List, OnOk, map, replicate};
ghost use Rattle.term_core_spec.specs.Term.{Term};
ghost use Rattle.graph_core.specs.Shared.{shared_node_of};
ghost use Rattle.graph_core_spec.specs.Run.{GoesTo};
ghost use Rattle.sim_rules.specs.Tables.{Gains, IsStep, lists_of};

use attempt::attempt;
use graph_core::{Next, SharedNode};
use std::alloc::{AllocError, Global};

// Adds a node to those from which an edge goes to another one, if that is there.
fn add_source(before: &mut Vec<Vec<usize>>, from: usize, to: usize) -> Result<(), AllocError>
    ensures { OnOk result (Gains (λ k n. (from ≡ k) × (to ≡ n)) (lists_of before.old.items)
        (lists_of before.new.items)) }
{
    if to >= before.len() {
        return Ok(());
    }
    attempt!(before[to].push(from), AllocError);
    Ok(())
}

// Adds a node to those from which an edge goes to the place, if it is a node that is there.
fn add_edge(before: &mut Vec<Vec<usize>>, from: usize, to: Next) -> Result<(), AllocError>
    ensures { OnOk result (Gains (λ k n. (from ≡ k) × (to ≡ Next.At n)) (lists_of before.old.items)
        (lists_of before.new.items)) }
{
    match to {
        Next::At(node) => add_source(before, from, node),
        Next::Ret | Next::Err => Ok(()),
    }
}

// Adds a node to those before both places at which it may continue.
fn add_both(
    before: &mut Vec<Vec<usize>>,
    from: usize,
    on_true: Next,
    on_false: Next,
) -> Result<(), AllocError>
    ensures { OnOk result (Gains (λ k n. (from ≡ k) × ((on_true ≡ Next.At n)
        ⊎ (on_false ≡ Next.At n))) (lists_of before.old.items) (lists_of before.new.items)) }
{
    attempt!(add_edge(before, from, on_true));
    add_edge(before, from, on_false)
}

// Adds a node to those before each node to which an edge goes from it.
fn add_node(before: &mut Vec<Vec<usize>>, from: usize, node: &SharedNode) -> Result<(), AllocError>
    ensures { (trees : List Term) → OnOk result
        (Gains (λ k n. (from ≡ k) × GoesTo (shared_node_of trees node.now) n)
        (lists_of before.old.items) (lists_of before.new.items)) }
{
    match node {
        SharedNode::Basic { next, .. } => add_edge(before, from, *next),
        SharedNode::Cond {
            on_true,
            on_false,
            ..
        } => add_both(before, from, *on_true, *on_false),
        SharedNode::Call { landing, .. } => add_source(before, from, *landing),
    }
}

/// Adds each node to those before the nodes to which edges go from it.
pub(crate) fn add_nodes(
    before: &mut Vec<Vec<usize>>,
    nodes: &[SharedNode],
) -> Result<(), AllocError>
    ensures { (trees : List Term) → OnOk result
        (Gains (IsStep (map (shared_node_of trees) nodes.now)) (lists_of before.old.items)
        (lists_of before.new.items)) }
{
    for i in 0..nodes.len() {
        attempt!(add_node(before, i, &nodes[i]));
    }
    Ok(())
}

/// Adds so many empty lists.
pub(crate) fn add_empty(
    alloc: Global,
    before: &mut Vec<Vec<usize>>,
    count: usize,
) -> Result<(), AllocError>
    requires { before.old.items ≡ [] }
    ensures { OnOk result (lists_of before.new.items ≡ replicate count []) }
{
    for _ in 0..count {
        attempt!(before.push(Vec::new(alloc)), AllocError);
    }
    Ok(())
}
