//! How deep calls go.

ghost use Rattle.std.specs.Prelude.{ℕ, ◌≡◌, ◌+◌, ◌^◌, ◌<◌, ◌≤◌, None, Some, length, get_or};
ghost use Rattle.std.specs.Prelude.{IfOk, IfNone, IfSome};
ghost use Rattle.pair_setup_calls.specs.Graph.{AreDepths, AreSettled, IsCyclic, IsDeepestOf, IsDepth};
ghost use Rattle.pair_setup_calls.specs.Graph.{IsUnbounded, IsWithin, graph_of};

use crate::ordering::post_order;
use crate::reaching::called;
use std::alloc::{AllocError, Global};

/// The depth of a node, where it is known.
fn depth_at(depths: &[Option<u64>], node: usize) -> Option<u64>
    ensures { result ≡ get_or depths.now node None }
{
    if node < depths.len() {
        depths[node]
    } else {
        None
    }
}

/// The depth of a node alone.
fn own_at(own: &[u64], node: usize) -> u64
    ensures { result ≡ get_or own.now node 0 }
{
    if node < own.len() { own[node] } else { 0 }
}

/// The greatest depth of some nodes, 0 where there are none; `None` where one of them isn't known.
fn deepest(depths: &[Option<u64>], nodes: &[usize]) -> Option<u64>
    ensures is { IfSome result (IsDeepestOf depths.now nodes.now) }
    ensures none { IfNone result ((deepest : ℕ) → IsDeepestOf depths.now nodes.now deepest → ⊥) }
{
    let mut deepest = 0;
    for node in nodes {
        let depth = depth_at(depths, *node)?;
        deepest = deepest.max(depth);
    }
    Some(deepest)
}

/// The sum of two depths, if there is one.
fn sum(alone: u64, below: u64) -> Option<u64>
    ensures is { IfSome result (λ n. n ≡ alone + below) }
    ensures none { IfNone result (2 ^ 64 ≤ alone + below) }
{
    match alone.checked_add(below) {
        Some(sum) => Some(sum),
        None => None,
    }
}

/// The depth of a node, where those of what it calls are known.
fn depth_of(graph: &[Vec<usize>], own: &[u64], depths: &[Option<u64>], node: usize) -> Option<u64>
    requires { AreDepths (graph_of graph.now) own.now depths.now }
    ensures is { IfSome result (IsDepth (graph_of graph.now) own.now node) }
    ensures none { IfNone result (IsUnbounded (graph_of graph.now) own.now depths.now node) }
{
    let below = deepest(depths, called(graph, node))?;
    sum(own_at(own, node), below)
}

/// Notes the depth of a node.
fn settle(graph: &[Vec<usize>], own: &[u64], depths: &mut [Option<u64>], node: usize)
    requires { AreDepths (graph_of graph.now) own.now depths.old }
    ensures { AreDepths (graph_of graph.now) own.now depths.new }
{
    let depth = depth_of(graph, own, depths, node);
    if node < depths.len() {
        depths[node] = depth;
    }
}

/// A node whose depth isn't known and follows from those that are, with that depth.
fn next_depth(graph: &[Vec<usize>], own: &[u64], depths: &[Option<u64>]) -> Option<(usize, u64)>
    requires { AreDepths (graph_of graph.now) own.now depths.now }
    ensures is { IfSome result (λ next. (next.0 < length depths.now)
        × (get_or depths.now next.0 None ≡ None)
        × IsDepth (graph_of graph.now) own.now next.0 next.1) }
    ensures none { IfNone result (AreSettled (graph_of graph.now) own.now depths.now) }
{
    for node in 0..depths.len() {
        if depths[node].is_none() {
            if let Some(depth) = depth_of(graph, own, depths, node) {
                return Some((node, depth));
            }
        }
    }
    None
}

/// Notes each depth that follows from those that are known.
fn settle_rest(graph: &[Vec<usize>], own: &[u64], depths: &mut [Option<u64>])
    requires { AreDepths (graph_of graph.now) own.now depths.old }
    ensures are { AreDepths (graph_of graph.now) own.now depths.new }
    ensures settled { AreSettled (graph_of graph.now) own.now depths.new }
{
    'nodes: while let Some((node, depth)) = next_depth(graph, own, depths) {
        depths[node] = Some(depth);
    }
}

/// Notes the depths of some nodes, one after the other, and then each other that follows. There is
/// none where the nodes are all and each comes after those that it calls.
fn settle_all(graph: &[Vec<usize>], own: &[u64], depths: &mut [Option<u64>], nodes: &[usize])
    requires { AreDepths (graph_of graph.now) own.now depths.old }
    ensures are { AreDepths (graph_of graph.now) own.now depths.new }
    ensures settled { AreSettled (graph_of graph.now) own.now depths.new }
{
    for node in nodes {
        settle(graph, own, depths, *node);
    }
    settle_rest(graph, own, depths);
}

/// The depths of all nodes, as far as they are known.
fn known_depths(
    alloc: Global,
    graph: &[Vec<usize>],
    own: &[u64],
) -> Result<Vec<Option<u64>>, AllocError>
    ensures are { IfOk result (λ depths. AreDepths (graph_of graph.now) own.now depths.items) }
    ensures settled { IfOk result (λ depths. AreSettled (graph_of graph.now) own.now depths.items) }
    ensures length { IfOk result (λ depths. length depths.items ≡ length graph.now) }
{
    let order = post_order(alloc, graph)?;
    let mut known = vec![in alloc; None; graph.len()]?;
    settle_all(graph, own, known.as_mut_slice(), order.as_slice());
    Ok(known)
}

/// How deep the calls of each node go: its own depth, and the greatest of what it calls. A node
/// from which a cycle is reached has none. Each other node from which only nodes of the graph are
/// reached has its own, unless that is 2^64 or more: then [`crate::is_cyclic`] answers for it, in
/// more time.
pub fn depths(
    alloc: Global,
    graph: &[Vec<usize>],
    own: &[u64],
) -> Result<Vec<Option<u64>>, AllocError>
    ensures depths { IfOk result (λ depths. AreDepths (graph_of graph.now) own.now depths.items) }
    ensures acyclic { IfOk result (λ depths. (node depth : ℕ) → get_or depths.items node None
        ≡ Some depth → IsCyclic (graph_of graph.now) node → ⊥) }
    ensures complete { IfOk result (λ depths. (node depth : ℕ) → IsWithin (graph_of graph.now) node
        → IsDepth (graph_of graph.now) own.now node depth → depth < 2 ^ 64
        → get_or depths.items node None ≡ Some depth) }
{
    let known = known_depths(alloc, graph, own)?;
    Ok(known)
}
