//! Where the parts of statements begin.

ghost use Rattle.std.specs.Prelude.{IfOk};
ghost use Rattle.c_types_core.specs.Expressions.{core_of};
ghost use Rattle.c_types_core.specs.Actions.{action_of};
ghost use Rattle.c_graph_spec.specs.Layout.{Setting};
ghost use Rattle.c_graph_layout.specs.Exits.{exits_of};
ghost use Rattle.c_graph_layout.specs.Lists.{groups_of};
ghost use Rattle.c_graph.specs.Laid.{AreBranches, AreCases, AreLoop, AreDo, AreStarts};

use attempt::attempt;
use c_graph_layout::{Exits, count, entry, first, otherwise, size, with_cases};
use c_types_core::action::{Action, Group};
use c_types_core::counts::sum;
use c_types_core::expression::Core;
use graph_core_spec::Next;
use std::alloc::AllocError;

/// Where two statements begin that come one after the other, after a test and some nodes more.
#[derive(Clone, Copy)]
pub(crate) struct Starts {
    /// Where the first does.
    pub first: usize,
    /// Where the second does.
    pub second: usize,
}

/// The two statements of an `if`, and how they are entered.
#[derive(Clone, Copy)]
pub(crate) struct Branches {
    pub starts: Starts,
    pub on_true: Next,
    pub on_false: Next,
}

/// Body and step of a loop, and how they are entered.
#[derive(Clone, Copy)]
pub(crate) struct LoopPlaces {
    pub starts: Starts,
    pub body: Next,
    pub step: Next,
}

/// The body and the test of a `do`, and how the body is entered.
#[derive(Clone, Copy)]
pub(crate) struct DoPlaces {
    /// Where the body begins.
    pub first: usize,
    /// The empty node before the test.
    pub test: usize,
    /// Where the tests of guards begin.
    pub tests: usize,
    pub body: Next,
}

/// The tests of the cases of a `switch`, and its groups.
#[derive(Clone, Copy)]
pub(crate) struct CasePlaces {
    /// Where the tests of the cases begin.
    pub tests: usize,
    /// Where the groups do.
    pub groups: usize,
    /// Where a value goes on that is no case.
    pub otherwise: Next,
    /// The first test of a case, or where there is none, what comes then.
    pub selection: Next,
}

/// Where a statement begins, and what comes after it, after a test and some nodes more.
pub(crate) fn part_starts(
    test: &Core<'_>,
    first: &Action<'_>,
    at: usize,
    more: usize,
) -> Result<Starts, AllocError>
    ensures { (f : Setting) → IfOk result (AreStarts f (core_of test.now)
        (action_of first.now) at more) }
{
    let tests = attempt!(count(test));
    let after = attempt!(sum(at, tests));
    let begin = attempt!(sum(after, more));
    let many = attempt!(size(first));
    let end = attempt!(sum(begin, many));
    Ok(Starts {
        first: begin,
        second: end,
    })
}

/// The places of an `if`.
pub(crate) fn branch_places(
    test: &Core<'_>,
    a: &Action<'_>,
    b: &Action<'_>,
    at: usize,
    to: Next,
    exits: Exits,
) -> Result<Branches, AllocError>
    ensures { (f : Setting) → IfOk result (AreBranches f (core_of test.now)
        (action_of a.now) (action_of b.now) at to (exits_of exits)) }
{
    let starts = attempt!(part_starts(test, a, at, 1));
    let on_true = attempt!(entry(a, starts.first, to, exits));
    let on_false = attempt!(entry(b, starts.second, to, exits));
    Ok(Branches {
        starts,
        on_true,
        on_false,
    })
}

/// The places of a `while` or `for`.
pub(crate) fn loop_places(
    test: &Core<'_>,
    step: &Action<'_>,
    body: &Action<'_>,
    at: usize,
    to: Next,
    exits: Exits,
) -> Result<LoopPlaces, AllocError>
    ensures { (f : Setting) → IfOk result (AreLoop f (core_of test.now)
        (action_of step.now) (action_of body.now) at to (exits_of exits)) }
{
    let starts = attempt!(part_starts(test, body, at, 3));
    let outer = Exits {
        breaks: to,
        continues: exits.continues,
    };
    let step = attempt!(entry(step, starts.second, Next::At(at), outer));
    let inner = Exits {
        breaks: to,
        continues: step,
    };
    let body = attempt!(entry(body, starts.first, step, inner));
    Ok(LoopPlaces { starts, body, step })
}

/// The places of a `do`.
pub(crate) fn do_places(body: &Action<'_>, at: usize, to: Next) -> Result<DoPlaces, AllocError>
    ensures { (f : Setting) → IfOk result (AreDo f (action_of body.now) at to) }
{
    let first = attempt!(sum(at, 1));
    let many = attempt!(size(body));
    let test = attempt!(sum(first, many));
    let tests = attempt!(sum(test, 1));
    let inner = Exits {
        breaks: to,
        continues: Next::At(test),
    };
    let body = attempt!(entry(body, first, Next::At(test), inner));
    Ok(DoPlaces {
        first,
        test,
        tests,
        body,
    })
}

/// The places of a `switch`.
pub(crate) fn case_places(
    test: &Core<'_>,
    list: &[Group<'_>],
    at: usize,
    to: Next,
    exits: Exits,
) -> Result<CasePlaces, AllocError>
    ensures { (f : Setting) → IfOk result (AreCases f (core_of test.now)
        (groups_of list.now) at to (exits_of exits)) }
{
    let many = attempt!(count(test));
    let tests = attempt!(sum(at, many));
    let cases = attempt!(with_cases(list, 0));
    let groups = attempt!(sum(tests, cases));
    let otherwise = attempt!(otherwise(list, groups, to, exits));
    let selection = first(cases, tests, otherwise);
    Ok(CasePlaces {
        tests,
        groups,
        otherwise,
        selection,
    })
}
