//! How many nodes statements have.

ghost use Rattle.std.specs.Prelude.{◌≡◌, ◌+◌, IfOk, if◌then◌else◌, is_some, length};
ghost use Rattle.c_types_core.specs.Expressions.{core_of};
ghost use Rattle.c_types_core.specs.Actions.{action_of, core_in};
ghost use Rattle.c_types_core.specs.Counted.{IsCounted};
ghost use Rattle.c_types_spec.specs.Core as tree;
ghost use Rattle.graph_core_spec.specs.declared.Next.TheVariants as next;
ghost use Rattle.c_graph_spec.specs.Layout as spec;
ghost use Rattle.c_graph_spec.specs.Layout.{Setting};
ghost use Rattle.c_graph_layout.specs.Counts as counts;
ghost use Rattle.c_graph_layout.specs.Lists.{block_of, cores_of, groups_of};

use attempt::attempt;
use c_types_core::action::{Action, Group};
use c_types_core::counts::sum;
use c_types_core::expression::Core;
use c_types_spec::{Arithmetic, Scalar, TestPlace};
use std::alloc::AllocError;

/// The tests of a read: that its object can be accessed, and that it meets no byte of the zone.
const READ_TESTS: usize = 2;
/// The tests of a write, which a store has behind those of its operands: those of a read, and that
/// it meets no fixed byte.
const WRITE_TESTS: usize = READ_TESTS + 1;
/// The nodes of a call behind the tests of its arguments: the call, and what it lands on.
const CALL_NODES: usize = 2;
/// The nodes of a loop behind the tests of its condition: where a round begins, the condition, and
/// one between condition and body.
const LOOP_NODES: usize = 3;

/// How many tests an operator has.
fn operator_count(operator: Arithmetic, of: Scalar) -> usize
    ensures { result ≡ counts.operator_count operator of }
{
    match operator {
        Arithmetic::Add | Arithmetic::Subtract | Arithmetic::Multiply => {
            if of.is_signed { 1 } else { 0 }
        }
        Arithmetic::Divide
        | Arithmetic::Remainder
        | Arithmetic::ShiftLeft
        | Arithmetic::ShiftRight => 1,
        Arithmetic::And | Arithmetic::Or | Arithmetic::Xor => 0,
    }
}

/// So many tests, and those of an expression.
#[tactic(auto, using(c_types_core::proofs::Views::views), unfolding(crate::specs::Counts::test_count))]
fn with_tests(x: &Core<'_>, n: usize) -> Result<usize, AllocError>
    ensures { IsCounted (n + counts.test_count (core_of x.now)) result }
{
    match x {
        Core::Constant(_, _) | Core::GlobalAddress(_) => Ok(n),
        Core::ReadLocal(_, _, _) => sum(n, 1),
        Core::Target(_, _) => sum(n, READ_TESTS),
        Core::Load(_, address, _, _) => {
            let m = attempt!(with_tests(address, n));
            sum(m, READ_TESTS)
        }
        Core::Convert(_, operand) => with_tests(operand, n),
        Core::Operate(operator, of, left, right, _) => {
            let m = attempt!(with_tests(left, n));
            let k = attempt!(with_tests(right, m));
            sum(k, operator_count(*operator, *of))
        }
        Core::Compare(_, left, right) => {
            let m = attempt!(with_tests(left, n));
            with_tests(right, m)
        }
        Core::Move(_, _, _, pointer, index, _) => {
            let m = attempt!(with_tests(pointer, n));
            let k = attempt!(with_tests(index, m));
            sum(k, 1)
        }
        Core::Within(_, index, _) => {
            let m = attempt!(with_tests(index, n));
            sum(m, 1)
        }
        Core::Aligned(_, pointer, _) => {
            let m = attempt!(with_tests(pointer, n));
            sum(m, 1)
        }
        Core::Choose(_, test, first, second) => {
            let m = attempt!(with_tests(test, n));
            let k = attempt!(with_tests(first, m));
            with_tests(second, k)
        }
    }
}

/// How many tests an expression has.
pub fn count(x: &Core<'_>) -> Result<usize, AllocError>
    ensures { (f : Setting) → IsCounted (spec.count f (core_of x.now)) result }
{
    with_tests(x, 0)
}

/// How many tests the arguments of a call have.
pub fn argument_count(arguments: &[Box<Core<'_>>]) -> Result<usize, AllocError>
    ensures { IsCounted (counts.argument_count (cores_of arguments.now)) result }
{
    let mut n = 0;
    for argument in arguments {
        n = attempt!(with_tests(argument, n));
    }
    Ok(n)
}

/// 1 for a value, 0 for `default`.
fn label_count(label: &Option<i128>) -> usize
    ensures { result ≡ (if is_some label.now then 1 else 0) }
{
    if label.is_some() { 1 } else { 0 }
}

/// So many nodes, and one for each value of a group.
fn with_labels(labels: &[Option<i128>], n: usize) -> Result<usize, AllocError>
    ensures { IsCounted (n + length (spec.cases_to labels.now next.Ret)) result }
{
    let mut m = n;
    for label in labels {
        m = attempt!(sum(m, label_count(label)));
    }
    Ok(m)
}

/// So many nodes, and one for each value of some groups.
pub fn with_cases(groups: &[Group<'_>], n: usize) -> Result<usize, AllocError>
    ensures { IsCounted (n + spec.case_count (groups_of groups.now)) result }
{
    let mut m = n;
    for group in groups {
        m = attempt!(with_labels(group.labels.as_slice(), m));
    }
    Ok(m)
}

/// So many nodes, and those of the end of a call.
#[tactic(auto, using(c_types_core::proofs::ActionViews::action_views), unfolding(crate::specs::Counts::size_of))]
fn with_value(value: &Option<Box<Core<'_>>>, n: usize) -> Result<usize, AllocError>
    ensures { IsCounted (n + counts.size_of (tree.Return (core_in value.now))) result }
{
    match value {
        None => Ok(n),
        Some(x) => {
            let m = attempt!(with_tests(x, n));
            sum(m, 1)
        }
    }
}

/// So many nodes, and those of a statement.
#[cycle(sizes)]
#[tactic(auto, using(c_types_core::proofs::ActionViews::action_views), unfolding(crate::specs::Counts::size_of))]
fn with_size(action: &Action<'_>, n: usize) -> Result<usize, AllocError>
    ensures { IsCounted (n + counts.size_of (action_of action.now)) result }
{
    match action {
        Action::Block(actions) => with_sizes(actions.as_slice(), n),
        Action::Evaluate(x) => with_tests(x, n),
        Action::Set(_, x) => {
            let m = attempt!(with_tests(x, n));
            sum(m, 1)
        }
        Action::Unset(_) | Action::MissingReturn(_) => sum(n, 1),
        Action::Store(_, address, _, value, _) => {
            let m = attempt!(with_tests(address, n));
            let k = attempt!(with_tests(value, m));
            sum(k, WRITE_TESTS + 1)
        }
        Action::Call(_, _, arguments, _) => {
            let m = attempt!(argument_count(arguments.as_slice()));
            let k = attempt!(sum(n, m));
            sum(k, CALL_NODES)
        }
        Action::If(test, first, second) => {
            let m = attempt!(with_tests(test, n));
            let k = attempt!(with_size(first, m));
            let l = attempt!(with_size(second, k));
            sum(l, 1)
        }
        Action::Loop(_, place, test, step, body) => {
            let m = attempt!(with_tests(test, n));
            let k = attempt!(with_size(body, m));
            let l = attempt!(sum(k, LOOP_NODES));
            match place {
                TestPlace::Before => with_size(step, l),
                TestPlace::After => Ok(l),
            }
        }
        Action::Leave(_) => Ok(n),
        Action::Switch(test, groups) => {
            let m = attempt!(with_tests(test, n));
            let k = attempt!(with_cases(groups.as_slice(), m));
            with_groups(groups.as_slice(), k)
        }
        Action::Return(value) => with_value(value, n),
    }
}

/// So many nodes, and those of statements.
#[cycle(sizes)]
pub(crate) fn with_sizes(actions: &[Action<'_>], n: usize) -> Result<usize, AllocError>
    ensures { IsCounted (n + counts.size_of (block_of actions.now)) result }
{
    let mut m = n;
    for action in actions {
        m = attempt!(with_size(action, m));
    }
    Ok(m)
}

/// So many nodes, and those of groups.
#[cycle(sizes)]
fn with_groups(groups: &[Group<'_>], n: usize) -> Result<usize, AllocError>
    ensures { IsCounted (n + counts.groups_size_of (groups_of groups.now)) result }
{
    let mut m = n;
    for group in groups {
        m = attempt!(with_size(&group.body, m));
    }
    Ok(m)
}

/// How many nodes a statement has.
pub fn size(action: &Action<'_>) -> Result<usize, AllocError>
    ensures counted { IsCounted (counts.size_of (action_of action.now)) result }
    ensures size { (f : Setting) → IfOk result (λ n. n ≡ spec.size f (action_of action.now)) }
{
    with_size(action, 0)
}
