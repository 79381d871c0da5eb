//! Whether a cycle of calls is reached.

ghost use Rattle.std.specs.Prelude.{◌↔◌, Contains, IfOk, IsTrue};
ghost use Rattle.pair_setup_calls.specs.Graph.{IsCyclic, IsOnCycle, graph_of};

use crate::reaching::{called, reached};
use std::alloc::{AllocError, Global};

/// Whether a node is among some.
fn is_among(nodes: &[usize], node: usize) -> bool
    ensures { IsTrue result ↔ Contains nodes.now node }
{
    for other in nodes {
        if *other == node {
            return true;
        }
    }
    false
}

/// Whether a node that is reached from this one calls it.
fn is_on_cycle(alloc: Global, graph: &[Vec<usize>], node: usize) -> Result<bool, AllocError>
    ensures { IfOk result (λ found. IsTrue found ↔ IsOnCycle (graph_of graph.now) node) }
{
    let onward = reached(alloc, graph, node)?;
    let lasts = onward.as_slice();
    for last in lasts {
        if is_among(called(graph, *last), node) {
            return Ok(true);
        }
    }
    Ok(false)
}

/// Whether a cycle of calls is reached from a node.
pub fn is_cyclic(alloc: Global, graph: &[Vec<usize>], start: usize) -> Result<bool, AllocError>
    ensures { IfOk result (λ found. IsTrue found ↔ IsCyclic (graph_of graph.now) start) }
{
    let nodes = reached(alloc, graph, start)?;
    let others = nodes.as_slice();
    for node in others {
        if is_on_cycle(alloc, graph, *node)? {
            return Ok(true);
        }
    }
    Ok(false)
}
