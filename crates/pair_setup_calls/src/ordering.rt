//! An order in which each node comes after those that it calls, as long as no cycle is there.
//! Nothing rests on it: a node whose calls have no depth yet gets none.

use crate::reaching::called;
use std::alloc::{AllocError, Global};

/// A node of which so many calls have been looked at.
#[derive(Clone, Copy)]
struct Visit {
    node: usize,
    seen: usize,
}

/// Begins the visit of a node, unless it has begun already.
fn enter(entered: &mut [bool], open: &mut Vec<Visit>, node: usize) -> Result<(), AllocError> {
    if node < entered.len() && !entered[node] {
        entered[node] = true;
        open.push(Visit { node, seen: 0 })?;
    }
    Ok(())
}

/// Looks at one call of the node that was entered last, or leaves it. False where none is open.
fn turn(
    graph: &[Vec<usize>],
    entered: &mut [bool],
    open: &mut Vec<Visit>,
    order: &mut Vec<usize>,
) -> Result<bool, AllocError> {
    let Some(visit) = open.pop() else {
        return Ok(false);
    };
    let calls = called(graph, visit.node);
    if visit.seen < calls.len() {
        let seen = visit.seen.saturating_add(1);
        open.push(Visit {
            node: visit.node,
            seen,
        })?;
        enter(entered, open, calls[visit.seen])?;
    } else {
        order.push(visit.node)?;
    }
    Ok(true)
}

/// Adds a node and what is reached from it, in post-order, in at most so many turns.
fn add_post_order(
    graph: &[Vec<usize>],
    entered: &mut [bool],
    open: &mut Vec<Visit>,
    order: &mut Vec<usize>,
    start: usize,
    turns: usize,
) -> Result<(), AllocError> {
    enter(entered, open, start)?;
    for _ in 0..turns {
        if !turn(graph, entered, open, order)? {
            return Ok(());
        }
    }
    Ok(())
}

/// How many turns the visits of all nodes take: one a call, and one a node.
fn turns(graph: &[Vec<usize>]) -> usize {
    let mut turns: usize = 1;
    for calls in graph {
        turns = turns.saturating_add(calls.len()).saturating_add(1);
    }
    turns
}

/// The nodes in post-order, added to a list.
fn add_all(
    graph: &[Vec<usize>],
    entered: &mut [bool],
    open: &mut Vec<Visit>,
    order: &mut Vec<usize>,
) -> Result<(), AllocError> {
    let turns = turns(graph);
    for start in 0..graph.len() {
        add_post_order(graph, entered, open, order, start, turns)?;
    }
    Ok(())
}

/// The nodes in post-order.
pub(crate) fn post_order(alloc: Global, graph: &[Vec<usize>]) -> Result<Vec<usize>, AllocError> {
    let mut entered = vec![in alloc; false; graph.len()]?;
    let mut open = Vec::new(alloc);
    let mut order = Vec::new(alloc);
    add_all(graph, entered.as_mut_slice(), &mut open, &mut order)?;
    Ok(order)
}
