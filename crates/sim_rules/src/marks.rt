//! The marks of a side's walk: where a frame's goals stop it, and its bounds.

ghost use Rattle.std.specs.Prelude.{◌≡◌, ◌++◌, [], map, IfOk, OnOk};
ghost use Rattle.proof_tree.specs.Frames.{stop_of};
ghost use Rattle.sim_rules.specs.Marks.{bounds_with, stop_mark, stops_with};

use crate::change::Change;
use attempt::attempt;
use graph_core_spec::Mark;
use proof_tree::{Goal, Stop};
use sim_rules_spec::Side;
use std::alloc::{AllocError, Global};

// A stop as a walk has it.
fn stop_arrival(stop: &Stop) -> Mark
    ensures { result ≡ stop_of stop.now }
{
    Mark {
        node: stop.at.from,
        count: stop.count,
    }
}

/// Where a goal stops a side.
pub(crate) fn goal_arrival(goal: &Goal<'_>, side: Side) -> Mark
    ensures { result ≡ stop_mark side goal.now }
{
    match side {
        Side::Binary => stop_arrival(&goal.binary),
        Side::Source => stop_arrival(&goal.source),
    }
}

// Adds the stops of a side at some goals.
fn add_stops(marks: &mut Vec<Mark>, goals: &[Goal<'_>], side: Side) -> Result<(), AllocError>
    ensures { OnOk result (marks.new.items ≡ marks.old.items ++ map (stop_mark side) goals.now) }
{
    for i in 0..goals.len() {
        attempt!(marks.push(goal_arrival(&goals[i], side)), AllocError);
    }
    Ok(())
}

// Adds the first arrival at a hold's node, if that is a stop.
fn add_hold(marks: &mut Vec<Mark>, change: Change) -> Result<(), AllocError>
    ensures { OnOk result (marks.new.items ≡ marks.old.items ++ stops_with change []) }
{
    match change {
        Change::Holding(node) => {
            attempt!(marks.push(Mark { node, count: 1 }), AllocError);
            Ok(())
        }
        Change::Plain | Change::Restricting(_) => Ok(()),
    }
}

/// The stops of a side, as a rule changes them.
pub(crate) fn stops_of(
    alloc: Global,
    goals: &[Goal<'_>],
    side: Side,
    change: Change,
) -> Result<Vec<Mark>, AllocError>
    ensures { IfOk result (λ stops. stops.items
        ≡ stops_with change (map (stop_mark side) goals.now)) }
{
    let mut stops = Vec::new(alloc);
    attempt!(add_hold(&mut stops, change));
    attempt!(add_stops(&mut stops, goals, side));
    Ok(stops)
}

// Adds some bounds.
fn add_bounds(marks: &mut Vec<Mark>, bounds: &[Mark]) -> Result<(), AllocError>
    ensures { OnOk result (marks.new.items ≡ marks.old.items ++ bounds.now) }
{
    for i in 0..bounds.len() {
        attempt!(marks.push(bounds[i]), AllocError);
    }
    Ok(())
}

// Adds the bound of a restriction, if there is one.
fn add_restriction(marks: &mut Vec<Mark>, change: Change) -> Result<(), AllocError>
    ensures { OnOk result (marks.new.items ≡ bounds_with change marks.old.items) }
{
    match change {
        Change::Restricting(bound) => {
            attempt!(marks.push(bound), AllocError);
            Ok(())
        }
        Change::Plain | Change::Holding(_) => Ok(()),
    }
}

/// The bounds of a side, as a rule changes them.
pub(crate) fn bounds_of(
    alloc: Global,
    bounds: &[Mark],
    change: Change,
) -> Result<Vec<Mark>, AllocError>
    ensures { IfOk result (λ marks. marks.items
        ≡ bounds_with change (bounds.now)) }
{
    let mut marks = Vec::new(alloc);
    attempt!(add_bounds(&mut marks, bounds));
    attempt!(add_restriction(&mut marks, change));
    Ok(marks)
}
