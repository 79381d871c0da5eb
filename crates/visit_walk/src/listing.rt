//! The list of the visits of a walk, and the edges into each.

ghost use Rattle.std.specs.Prelude.{◌≡◌, ◌<◌, [], length, replicate, OnOk};
ghost use Rattle.visit_walk.specs.Listings.{incoming_lists, with_edge, with_edges, with_all_edges};
ghost use Rattle.visit_walk.specs.Listings.{AllTargetsWithin, AreWithin};

use crate::depth_first::{Targets, targets_at};
use attempt::attempt;
use std::alloc::{AllocError, Global};
use visit_walk_spec::{Branch, Incoming};

/// Adds an edge to those into a visit.
fn add_edge(
    incoming: &mut Vec<Vec<Incoming>>,
    target: usize,
    edge: Incoming,
) -> Result<(), AllocError>
    requires { target < length incoming.old.items }
    ensures { OnOk result (incoming_lists incoming.new.items
        ≡ with_edge (incoming_lists incoming.old.items) target edge) }
{
    incoming[target].push(edge)?;
    Ok(())
}

/// Adds the edges of the visit at a position.
fn add_edges(
    incoming: &mut Vec<Vec<Incoming>>,
    source: usize,
    targets: Targets,
) -> Result<(), AllocError>
    requires { AreWithin (length incoming.old.items) targets }
    ensures { OnOk result (incoming_lists incoming.new.items
        ≡ with_edges (incoming_lists incoming.old.items) source targets) }
{
    match targets {
        Targets::Zero => {}
        Targets::One(target) => {
            let branch = Branch::Only;
            attempt!(add_edge(incoming, target, Incoming { source, branch }));
        }
        Targets::Two(first, second) => {
            let branch = Branch::IfTrue;
            attempt!(add_edge(incoming, first, Incoming { source, branch }));
            let branch = Branch::IfFalse;
            attempt!(add_edge(incoming, second, Incoming { source, branch }));
        }
    }
    Ok(())
}

/// Adds the edges of all visits, in their order.
pub(crate) fn add_all_edges(
    incoming: &mut Vec<Vec<Incoming>>,
    order: &[usize],
    targets: &[Targets],
) -> Result<(), AllocError>
    requires { AllTargetsWithin (length incoming.old.items) targets.now }
    ensures { OnOk result (incoming_lists incoming.new.items
        ≡ with_all_edges (incoming_lists incoming.old.items) 0 order.now targets.now) }
{
    for source in 0..order.len() {
        attempt!(add_edges(incoming, source, targets_at(targets, order[source])));
    }
    Ok(())
}

/// Adds so many empty lists.
pub(crate) fn add_empty(
    alloc: Global,
    incoming: &mut Vec<Vec<Incoming>>,
    count: usize,
) -> Result<(), AllocError>
    requires { incoming.old.items ≡ [] }
    ensures { OnOk result (incoming_lists incoming.new.items ≡ replicate count []) }
{
    for _ in 0..count {
        incoming.push(Vec::new(alloc))?;
    }
    Ok(())
}
