//! The points of statements: the nodes of loops and calls.

ghost use Rattle.std.specs.Prelude.{◌≡◌, ◌^◌, ◌≤◌, ◌++◌, ◌∷◌, [], ℕ, List, Option};
ghost use Rattle.std.specs.Prelude.{MatchResult, OnOk};
ghost use Rattle.c_types_spec.specs.Core as core;
ghost use Rattle.c_types_spec.specs.declared.TestPlace.TheVariants.{After, Before};
ghost use Rattle.c_types_core.specs.Expressions.{core_of};
ghost use Rattle.c_types_core.specs.Actions.{action_of};
ghost use Rattle.c_graph_spec.specs.Layout.{Setting};
ghost use Rattle.c_graph_spec.specs.SourceGraph as spec;
ghost use Rattle.c_graph_layout.specs.Lists.{block_of, cores_of, groups_of};
ghost use Rattle.c_graph.specs.Seen.{loop_points, points_in};

use crate::places::part_starts;
use attempt::attempt;
use c_graph_layout::{argument_count, count, size, with_cases};
use c_types_core::action::{Action, Group};
use c_types_core::counts::sum;
use c_types_core::expression::Core;
use c_types_spec::TestPlace;
use proof_tree_spec::Place;
use std::alloc::AllocError;

/// A point of a function, and its node.
#[derive(Clone, Copy)]
pub struct Point {
    /// Which one.
    pub place: Place,
    /// The number of its node.
    pub node: usize,
}

/// The number of a loop or a call; out of memory where it is more than a point can name.
fn short(number: usize) -> Result<u32, AllocError>
    ensures { MatchResult result (λ n. n ≡ number) (λ _. 2 ^ 32 ≤ number) }
{
    match u32::try_from(number) {
        Ok(n) => Ok(n),
        Err(_) => Err(AllocError),
    }
}

/// Adds a point.
fn add(points: &mut Vec<Point>, place: Place, node: usize) -> Result<(), AllocError>
    ensures { OnOk result (points_in points.new.items
        ≡ points_in points.old.items ++ (place, node) ∷ []) }
{
    points.push(Point { place, node })?;
    Ok(())
}

/// Adds the point of a call.
#[tactic(auto, unfolding(c_graph_spec::specs::SourceGraph::points))]
fn add_call(
    points: &mut Vec<Point>,
    number: usize,
    arguments: &[Box<Core<'_>>],
    at: usize,
) -> Result<(), AllocError>
    ensures { (f : Setting) (function : List ℕ) (into : Option ℕ)
        → OnOk result (points_in points.new.items ≡ points_in points.old.items ++ spec.points f
        (core.Call number function (cores_of arguments.now) into) at) }
{
    let tests = attempt!(argument_count(arguments));
    let node = attempt!(sum(at, tests));
    let number = attempt!(short(number));
    add(points, Place::Call(number), node)
}

/// Adds the points of a loop, but for those of its parts.
fn add_loop(
    points: &mut Vec<Point>,
    number: usize,
    first: usize,
    second: usize,
    place: TestPlace,
) -> Result<(), AllocError>
    ensures { OnOk result (points_in points.new.items ≡ points_in points.old.items
        ++ loop_points place number first second) }
{
    let number = attempt!(short(number));
    match place {
        TestPlace::Before => {
            attempt!(add(points, Place::Test(number), first));
            add(points, Place::Body(number), second)
        }
        TestPlace::After => {
            attempt!(add(points, Place::Body(number), first));
            add(points, Place::Test(number), second)
        }
    }
}

/// Adds the points of a statement whose nodes begin at a number.
#[cycle(points)]
#[tactic(auto, using(c_types_core::proofs::ActionViews::action_views), unfolding(c_graph_spec::specs::SourceGraph::points))]
pub(crate) fn add_points(
    action: &Action<'_>,
    points: &mut Vec<Point>,
    at: usize,
) -> Result<(), AllocError>
    ensures { (f : Setting) → OnOk result (points_in points.new.items
        ≡ points_in points.old.items ++ spec.points f (action_of action.now) at) }
{
    match action {
        Action::Block(actions) => block_points(actions.as_slice(), points, at),
        Action::Call(number, _, arguments, _) => {
            add_call(points, *number, arguments.as_slice(), at)
        }
        Action::If(test, a, b) => branch_points(a, b, test, points, at),
        Action::Loop(number, place, test, step, body) => match place {
            TestPlace::Before => while_points(step, body, test, points, *number, at),
            TestPlace::After => do_points(body, points, *number, at),
        },
        Action::Switch(test, groups) => switch_points(groups.as_slice(), test, points, at),
        Action::Evaluate(_) => Ok(()),
        Action::Set(_, _) => Ok(()),
        Action::Unset(_) => Ok(()),
        Action::Store(_, _, _, _, _) => Ok(()),
        Action::Leave(_) => Ok(()),
        Action::Return(_) => Ok(()),
        Action::MissingReturn(_) => Ok(()),
    }
}

/// Adds the points of statements one after the other.
#[cycle(points)]
fn block_points(
    actions: &[Action<'_>],
    points: &mut Vec<Point>,
    at: usize,
) -> Result<(), AllocError>
    ensures { (f : Setting) → OnOk result (points_in points.new.items
        ≡ points_in points.old.items ++ spec.points f (block_of actions.now) at) }
{
    let mut begin = at;
    for action in actions {
        attempt!(add_points(action, points, begin));
        let many = attempt!(size(action));
        begin = attempt!(sum(begin, many));
    }
    Ok(())
}

/// Adds the points of an `if`.
#[cycle(points)]
fn branch_points(
    a: &Action<'_>,
    b: &Action<'_>,
    test: &Core<'_>,
    points: &mut Vec<Point>,
    at: usize,
) -> Result<(), AllocError>
    ensures { (f : Setting) → OnOk result (points_in points.new.items
        ≡ points_in points.old.items ++ spec.points f
        (core.If (core_of test.now) (action_of a.now) (action_of b.now)) at) }
{
    let places = attempt!(part_starts(test, a, at, 1));
    attempt!(add_points(a, points, places.first));
    add_points(b, points, places.second)
}

/// Adds the points of a `while` or `for`.
#[cycle(points)]
fn while_points(
    step: &Action<'_>,
    body: &Action<'_>,
    test: &Core<'_>,
    points: &mut Vec<Point>,
    number: usize,
    at: usize,
) -> Result<(), AllocError>
    ensures { (f : Setting) → OnOk result (points_in points.new.items
        ≡ points_in points.old.items ++ spec.points f (core.Loop number Before (core_of test.now)
        (action_of step.now) (action_of body.now)) at) }
{
    let places = attempt!(part_starts(test, body, at, 3));
    attempt!(add_loop(points, number, at, places.first - 1, TestPlace::Before));
    attempt!(add_points(body, points, places.first));
    add_points(step, points, places.second)
}

/// Adds the points of a `do`.
#[cycle(points)]
fn do_points(
    body: &Action<'_>,
    points: &mut Vec<Point>,
    number: usize,
    at: usize,
) -> Result<(), AllocError>
    ensures { (f : Setting) (test : core.Core) (step : core.Action)
        → OnOk result (points_in points.new.items ≡ points_in points.old.items ++ spec.points f
        (core.Loop number After test step (action_of body.now)) at) }
{
    let first = attempt!(sum(at, 1));
    let many = attempt!(size(body));
    let test = attempt!(sum(first, many));
    attempt!(add_loop(points, number, at, test, TestPlace::After));
    add_points(body, points, first)
}

/// Adds the points of a `switch`.
#[cycle(points)]
fn switch_points(
    list: &[Group<'_>],
    test: &Core<'_>,
    points: &mut Vec<Point>,
    at: usize,
) -> Result<(), AllocError>
    ensures { (f : Setting) → OnOk result (points_in points.new.items
        ≡ points_in points.old.items ++ spec.points f
        (core.Switch (core_of test.now) (groups_of list.now)) at) }
{
    let tests = attempt!(count(test));
    let many = attempt!(with_cases(list, tests));
    let first = attempt!(sum(at, many));
    group_points(list, points, first)
}

/// Adds the points of the groups of a `switch`.
#[cycle(points)]
fn group_points(list: &[Group<'_>], points: &mut Vec<Point>, at: usize) -> Result<(), AllocError>
    ensures { (f : Setting) → OnOk result (points_in points.new.items
        ≡ points_in points.old.items ++ spec.groups_points f (groups_of list.now) at) }
{
    let mut begin = at;
    for group in list {
        attempt!(add_points(&group.body, points, begin));
        let many = attempt!(size(&group.body));
        begin = attempt!(sum(begin, many));
    }
    Ok(())
}
