//! The nodes of statements.

ghost use Rattle.std.specs.Prelude.{ℕ};
ghost use Rattle.graph_core_spec.specs.declared.Next as next;
ghost use Rattle.c_types_spec.specs.Core as core;
ghost use Rattle.c_types_spec.specs.declared.TestPlace.TheVariants.{After, Before};
ghost use Rattle.c_types_core.specs.Expressions.{core_of};
ghost use Rattle.c_types_core.specs.Actions.{action_of};
ghost use Rattle.c_graph_spec.specs.Layout as spec;
ghost use Rattle.c_graph_layout.specs.Exits.{exits_of};
ghost use Rattle.c_graph_layout.specs.Lists.{block_of, groups_of};
ghost use Rattle.c_graph.specs.Emitted.{Emits};
ghost use Rattle.c_graph.specs.Frames.{setting_in};

use crate::block::followers;
use crate::emission::empty;
use crate::frame::Frame;
use crate::places::{branch_places, case_places, do_places, loop_places};
use crate::selection::select_cases;
use crate::simple::{
    call, evaluated, give_back, loop_test, missing_return, set, store_value, test, unset,
};
use attempt::attempt;
use c_graph_layout::{Exits, size};
use c_types_core::action::{Action, Group};
use c_types_core::counts::sum;
use c_types_core::expression::Core;
use c_types_spec::TestPlace;
use graph_core::Graph;
use graph_core_spec::Next;
use std::alloc::AllocError;

/// Adds the nodes of a statement, of which the first has the number `at`; where the statement ends,
/// it goes on to `to`.
#[cycle(statements)]
#[tactic(auto, using(c_types_core::proofs::ActionViews::action_views), unfolding(c_graph_spec::specs::Layout::nodes))]
pub(crate) fn nodes(
    action: &Action<'_>,
    frame: &Frame<'_, '_>,
    graph: &mut Graph,
    at: usize,
    to: Next,
    exits: Exits,
) -> Result<(), AllocError>
    ensures { Emits graph.old graph.new result
        (spec.nodes (setting_in frame.now) (action_of action.now) at to (exits_of exits)) }
{
    match action {
        Action::Block(actions) => block(actions.as_slice(), frame, graph, at, to, exits),
        Action::Evaluate(x) => evaluated(frame, graph, x, at, to),
        Action::Set(number, x) => set(frame, graph, *number, x, at, to),
        Action::Unset(number) => unset(frame.alloc, graph, *number, to),
        Action::Store(of, address, displacement, x, _) => {
            store_value(frame, graph, *of, address, *displacement, x, at, to)
        }
        Action::Call(_, function, arguments, into) => {
            call(frame, graph, function, arguments.as_slice(), *into, at, to)
        }
        Action::If(test, a, b) => branch(a, b, test, frame, graph, at, to, exits),
        Action::Loop(_, place, test, step, body) => match place {
            TestPlace::Before => test_first(step, body, test, frame, graph, at, to, exits),
            TestPlace::After => body_first(body, test, frame, graph, at, to),
        },
        Action::Leave(_) => Ok(()),
        Action::Switch(test, groups) => {
            switch(groups.as_slice(), test, frame, graph, at, to, exits)
        }
        Action::Return(value) => give_back(frame, graph, value, at),
        Action::MissingReturn(_) => missing_return(graph),
    }
}

/// Statements one after the other.
#[cycle(statements)]
fn block(
    actions: &[Action<'_>],
    frame: &Frame<'_, '_>,
    graph: &mut Graph,
    at: usize,
    to: Next,
    exits: Exits,
) -> Result<(), AllocError>
    ensures { Emits graph.old graph.new result
        (spec.nodes (setting_in frame.now) (block_of actions.now) at to (exits_of exits)) }
{
    let next = attempt!(followers(frame.alloc, actions, at, to, exits));
    let mut begin = at;
    for i in 0..actions.len() {
        let action = &actions[i];
        let after = next[actions.len() - i - 1];
        attempt!(nodes(action, frame, graph, begin, after, exits));
        let many = attempt!(size(action));
        begin = attempt!(sum(begin, many));
    }
    Ok(())
}

/// `if`
#[cycle(statements)]
fn branch(
    a: &Action<'_>,
    b: &Action<'_>,
    x: &Core<'_>,
    frame: &Frame<'_, '_>,
    graph: &mut Graph,
    at: usize,
    to: Next,
    exits: Exits,
) -> Result<(), AllocError>
    ensures { Emits graph.old graph.new result (spec.nodes (setting_in frame.now)
        (core.If (core_of x.now) (action_of a.now) (action_of b.now)) at to (exits_of exits)) }
{
    let places = attempt!(branch_places(x, a, b, at, to, exits));
    attempt!(test(frame, graph, x, at, places.on_true, places.on_false));
    attempt!(nodes(a, frame, graph, places.starts.first, to, exits));
    nodes(b, frame, graph, places.starts.second, to, exits)
}

/// `while` and `for`: the test, the body and then the step.
#[cycle(statements)]
fn test_first(
    step: &Action<'_>,
    body: &Action<'_>,
    x: &Core<'_>,
    frame: &Frame<'_, '_>,
    graph: &mut Graph,
    at: usize,
    to: Next,
    exits: Exits,
) -> Result<(), AllocError>
    ensures { (number : ℕ) → Emits graph.old graph.new result (spec.nodes (setting_in frame.now)
        (core.Loop number Before (core_of x.now) (action_of step.now) (action_of body.now)) at to
        (exits_of exits)) }
{
    let places = attempt!(loop_places(x, step, body, at, to, exits));
    attempt!(loop_test(frame, graph, x, at, places, to));
    let inner = Exits {
        breaks: to,
        continues: places.step,
    };
    let outer = Exits {
        breaks: to,
        continues: exits.continues,
    };
    attempt!(nodes(body, frame, graph, places.starts.first, places.step, inner));
    nodes(
        step,
        frame,
        graph,
        places.starts.second,
        Next::At(at),
        outer,
    )
}

/// `do`: the body and then the test.
#[cycle(statements)]
fn body_first(
    body: &Action<'_>,
    x: &Core<'_>,
    frame: &Frame<'_, '_>,
    graph: &mut Graph,
    at: usize,
    to: Next,
) -> Result<(), AllocError>
    ensures { (number : ℕ) (step : core.Action) (exits : spec.Exits)
        → Emits graph.old graph.new result (spec.nodes (setting_in frame.now)
        (core.Loop number After (core_of x.now) step (action_of body.now)) at to exits) }
{
    let places = attempt!(do_places(body, at, to));
    attempt!(empty(frame.alloc, graph, places.body));
    let test_begins = Next::At(places.test);
    let inner = Exits {
        breaks: to,
        continues: test_begins,
    };
    attempt!(nodes(body, frame, graph, places.first, test_begins, inner));
    attempt!(empty(frame.alloc, graph, Next::At(places.tests)));
    test(frame, graph, x, places.tests, Next::At(at), to)
}

/// `switch`: one test for each value, in order, and then the groups.
#[cycle(statements)]
fn switch(
    list: &[Group<'_>],
    x: &Core<'_>,
    frame: &Frame<'_, '_>,
    graph: &mut Graph,
    at: usize,
    to: Next,
    exits: Exits,
) -> Result<(), AllocError>
    ensures { Emits graph.old graph.new result (spec.nodes (setting_in frame.now)
        (core.Switch (core_of x.now) (groups_of list.now)) at to (exits_of exits)) }
{
    let places = attempt!(case_places(x, list, at, to, exits));
    attempt!(select_cases(frame, graph, list, x, at, places, to, exits));
    groups(list, frame, graph, places.groups, to, exits)
}

/// The groups of a `switch`.
#[cycle(statements)]
fn groups(
    list: &[Group<'_>],
    frame: &Frame<'_, '_>,
    graph: &mut Graph,
    at: usize,
    to: Next,
    exits: Exits,
) -> Result<(), AllocError>
    ensures { Emits graph.old graph.new result (spec.groups_nodes (setting_in frame.now)
        (groups_of list.now) at to (exits_of exits)) }
{
    let inside = Exits {
        breaks: to,
        continues: exits.continues,
    };
    let mut begin = at;
    for group in list {
        attempt!(nodes(&group.body, frame, graph, begin, to, inside));
        let many = attempt!(size(&group.body));
        begin = attempt!(sum(begin, many));
    }
    Ok(())
}
