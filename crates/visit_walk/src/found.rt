//! The search for the visits of a walk, and their list.

ghost use Rattle.std.specs.Prelude.{◌≡◌, ◌++◌, [], reverse, IfOk, IfErr, OnOk};
ghost use Rattle.visit_walk_spec.specs.Listing.{IsListing};
ghost use Rattle.visit_walk.specs.Tables.{visit_at, AreMore};
ghost use Rattle.visit_walk.specs.Found.{node_number, walk_of, AreEmpty, AreFound, AreFilled};
ghost use Rattle.visit_walk.specs.Found.{IsPostOrder, IsCycleFault, IsFaultFrom, IsWalkFault};

use crate::cycle::cyclic_node;
use crate::depth_first::{Targets, depth_first};
use crate::list::Visits;
use crate::listing::{add_all_edges, add_empty};
use crate::shape::Shape;
use crate::table::{Key, Table, explore};
use attempt::{Refusal, attempt};
use graph_core_spec::Mark;
use indexmap::IndexSet;
use std::alloc::{AllocError, Global};
use visit_walk_spec::{Incoming, Successors};

/// Why there is no list of visits.
#[derive(Clone, Copy)]
pub enum WalkFault {
    /// The walk goes round for ever: on a cycle through this node without a mark, or at this call.
    Cyclic(usize),
    /// The visits are more than the maximum; this is a number above it, and there are at least so
    /// many.
    TooMany(usize),
}

/// The node of the visit at an index of the table.
fn node_at(table: &Table, index: usize) -> usize
    ensures { result ≡ node_number (visit_at table.now index).place }
{
    match table.keys.get_index(index) {
        Some(Key::Node(node, _)) => *node,
        _ => 0,
    }
}

/// Adds the indices of the visits to the order, each after those that follow it, or answers a node
/// on a cycle.
fn order_visits(
    alloc: Global,
    table: &Table,
    targets: &[Targets],
    order: &mut Vec<usize>,
) -> Result<(), Refusal<WalkFault>>
    requires { order.old.items ≡ [] }
    ensures ordered { OnOk result (IsPostOrder targets.now order.new.items) }
    ensures fault { IfErr result (IsCycleFault table.now targets.now) }
{
    match depth_first(alloc, targets, &[0], order)? {
        Some(index) => Err(Refusal::Fault(WalkFault::Cyclic(node_at(table, index)))),
        None => Ok(()),
    }
}

/// The fault of a walk with more visits than the maximum.
fn overflow(
    alloc: Global,
    shape: &[Successors],
    marks: &[Mark],
    start: usize,
    maximum: usize,
    table: &Table,
) -> Result<Refusal<WalkFault>, AllocError>
    requires { AreMore shape.now marks.now start maximum table.now }
    ensures { IfOk result (IsFaultFrom shape.now marks.now start maximum) }
{
    match cyclic_node(alloc, shape, marks, start)? {
        Some(node) => Ok(Refusal::Fault(WalkFault::Cyclic(node))),
        None => Ok(Refusal::Fault(WalkFault::TooMany(table.keys.len()))),
    }
}

/// Adds the visits of a walk to an empty table, what follows each to the targets, and their indices
/// to the order, each after those that follow it.
fn find(
    alloc: Global,
    shape: &[Successors],
    marks: &[Mark],
    start: usize,
    maximum: usize,
    table: &mut Table,
    targets: &mut Vec<Targets>,
    order: &mut Vec<usize>,
) -> Result<(), Refusal<WalkFault>>
    requires { AreEmpty table.old targets.old.items order.old.items }
    ensures found { OnOk result (AreFound shape.now marks.now start maximum table.new
        targets.new.items order.new.items) }
    ensures fault { IfErr result (IsFaultFrom shape.now marks.now start maximum) }
{
    if !explore(alloc, shape, marks, start, maximum, table, targets)? {
        return Err(overflow(alloc, shape, marks, start, maximum, table)?);
    }
    order_visits(alloc, table, targets.as_slice(), order)
}

/// Turns the order round.
fn turn(order: &mut Vec<usize>)
    ensures { order.new.items ≡ reverse order.old.items }
{
    order.as_mut_slice().reverse();
}

/// Adds the visits of a walk to an empty table, their indices in their order, and the edges into
/// each.
fn fill(
    alloc: Global,
    shape: &[Successors],
    marks: &[Mark],
    start: usize,
    maximum: usize,
    table: &mut Table,
    order: &mut Vec<usize>,
    incoming: &mut Vec<Vec<Incoming>>,
) -> Result<(), Refusal<WalkFault>>
    requires { AreEmpty table.old incoming.old.items order.old.items }
    ensures filled { OnOk result (AreFilled shape.now marks.now start maximum table.new
        order.new.items incoming.new.items) }
    ensures fault { IfErr result (IsFaultFrom shape.now marks.now start maximum) }
{
    let mut targets = Vec::new(alloc);
    find(
        alloc,
        shape,
        marks,
        start,
        maximum,
        table,
        &mut targets,
        order,
    )?;
    turn(order);
    add_empty(alloc, incoming, table.keys.len())?;
    add_all_edges(incoming, order.as_slice(), targets.as_slice())?;
    Ok(())
}

/// The stops, and then the bounds.
fn joined(alloc: Global, stops: &[Mark], bounds: &[Mark]) -> Result<Vec<Mark>, AllocError>
    ensures { IfOk result (λ marks. marks.items ≡ stops.now ++ bounds.now) }
{
    let mut marks = attempt!(Vec::from_slice(alloc, stops));
    attempt!(marks.extend_from_slice(bounds));
    Ok(marks)
}

/// The visits of the walk over a shape from a start node, at most so many. The walk ends where it
/// returns or fails, at each stop, and at each arrival that breaks a bound: at a stop, and at an
/// arrival that breaks a bound, it arrives at the node as often as the mark counts; the start is no
/// arrival. Where one arrival is both, it is a stop. A cycle is answered before a number of visits
/// above the maximum, and then no more than two above the maximum are kept.
pub fn visits(
    alloc: Global,
    shape: &Shape,
    start: usize,
    stops: &[Mark],
    bounds: &[Mark],
    maximum: usize,
) -> Result<Visits, Refusal<WalkFault>>
    ensures listing { IfOk result (IsListing (walk_of shape.now.successors.items start
        stops.now bounds.now) maximum) }
    ensures fault { IfErr result (IsWalkFault (walk_of shape.now.successors.items start
        stops.now bounds.now) maximum) }
{
    let marks = joined(alloc, stops, bounds)?;
    let mut table = Table {
        vectors: IndexSet::new(alloc),
        keys: IndexSet::new(alloc),
    };
    let mut order = Vec::new(alloc);
    let mut incoming = Vec::new(alloc);
    attempt!(fill(
        alloc,
        shape.successors.as_slice(),
        marks.as_slice(),
        start,
        maximum,
        &mut table,
        &mut order,
        &mut incoming,
    ));
    Ok(Visits {
        table,
        order,
        incoming,
    })
}
