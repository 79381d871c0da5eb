//! What is expected in a certificate.

ghost use Rattle.std.specs.Prelude.{◌≡◌, ◌++◌, ◌∷◌, ◌-◌, IfOk, OnOk, replicate};
ghost use Rattle.cert_text_spec.specs.Certificates as spec;
ghost use Rattle.cert_text_parse.specs.Keywords.{expected_of};
ghost use Rattle.cert_text_parse.specs.Views.{line_of};
ghost use Rattle.cert_text.specs.Stack.{IsNext, stack_of};

use attempt::attempt;
use cert_text_parse::{Expected, Line};
use std::alloc::AllocError;
use tv_limits::NESTING_LIMIT;

/// Lines of one kind, one after the other.
#[derive(Clone, Copy)]
pub struct Group {
    /// What is expected.
    pub expected: Expected,
    /// How many more of them after the first.
    pub more: u32,
}

/// So many of a kind are expected before what was expected.
pub fn push_expected(
    stack: &mut Vec<Group>,
    expected: Expected,
    count: u32,
) -> Result<(), AllocError>
    ensures { OnOk result (stack_of stack.new.items
        ≡ replicate count (expected_of expected) ++ stack_of stack.old.items) }
{
    if count == 0 {
        return Ok(());
    }
    let more = count - 1;
    match stack.push(Group { expected, more }) {
        Ok(()) => Ok(()),
        Err(_) => Err(AllocError),
    }
}

/// What is expected first, which is not expected any more; none where nothing is.
pub(crate) fn next_expected(stack: &mut Vec<Group>) -> Result<Option<Expected>, AllocError>
    ensures { IfOk result (λ next. IsNext next stack.old.items stack.new.items) }
{
    match stack.pop() {
        Some(group) => match push_expected(stack, group.expected, group.more) {
            Ok(()) => Ok(Some(group.expected)),
            Err(error) => Err(error),
        },
        None => Ok(None),
    }
}

// Two proofs are expected.
fn push_proofs(stack: &mut Vec<Group>, room: usize) -> Result<(), AllocError>
    ensures { OnOk result (stack_of stack.new.items
        ≡ spec.AProof (room - 1) ∷ spec.AProof (room - 1) ∷ stack_of stack.old.items) }
{
    push_expected(stack, Expected::Proof(room.saturating_sub(1)), 2)
}

// After a restriction.
fn after_restriction(stack: &mut Vec<Group>, room: usize) -> Result<(), AllocError>
    ensures { OnOk result (stack_of stack.new.items
        ≡ spec.ALog ∷ spec.AProof (room - 1) ∷ stack_of stack.old.items) }
{
    attempt!(push_expected(stack, Expected::Proof(room.saturating_sub(1)), 1));
    push_expected(stack, Expected::Log, 1)
}

// After a cut, with so many lines of its relation.
fn after_split(stack: &mut Vec<Group>, relations: u32, room: usize) -> Result<(), AllocError>
    ensures { OnOk result (stack_of stack.new.items ≡ replicate relations spec.ARelation
        ++ (spec.AProof (room - 1) ∷ spec.AProof (room - 1) ∷ stack_of stack.old.items)) }
{
    attempt!(push_proofs(stack, room));
    push_expected(stack, Expected::Relation, relations)
}

// After a cut at calls, with so many lines of its relations.
fn after_call(
    stack: &mut Vec<Group>,
    before: u32,
    after: u32,
    room: usize,
) -> Result<(), AllocError>
    ensures { OnOk result (stack_of stack.new.items ≡ replicate before spec.ARelation
        ++ (replicate after spec.ARelation ++ (spec.ALog ∷ spec.ALog ∷ spec.AProof (room - 1)
        ∷ spec.AProof (room - 1) ∷ stack_of stack.old.items))) }
{
    attempt!(push_proofs(stack, room));
    attempt!(push_expected(stack, Expected::Log, 2));
    attempt!(push_expected(stack, Expected::Relation, after));
    push_expected(stack, Expected::Relation, before)
}

// After the line of a rule.
fn after_rule(stack: &mut Vec<Group>, line: &Line, room: usize) -> Result<(), AllocError>
    ensures { OnOk result (stack_of stack.new.items
        ≡ spec.after_rule (line_of line.now) room ++ stack_of stack.old.items) }
{
    match line {
        Line::Leaf(logs) => push_expected(stack, Expected::Log, *logs),
        Line::Case(_) => push_proofs(stack, room),
        Line::RestrictBinary(_) => after_restriction(stack, room),
        Line::RestrictSource(_) => after_restriction(stack, room),
        Line::Split(split) => after_split(stack, split.relations, room),
        Line::Call(call) => after_call(stack, call.before, call.after, room),
        _ => Ok(()),
    }
}

// After a call that is inlined, or the first line of a proof.
fn after_inline(stack: &mut Vec<Group>, line: &Line) -> Result<(), AllocError>
    ensures { OnOk result (stack_of stack.new.items
        ≡ spec.after_inline (line_of line.now) ++ stack_of stack.old.items) }
{
    match line {
        Line::InlineBinary(_) => push_expected(stack, Expected::BinaryInlines, 1),
        Line::InlineSource(_) => push_expected(stack, Expected::SourceInlines, 1),
        _ => after_rule(stack, line, NESTING_LIMIT - 1),
    }
}

// After the line of a part, or the end.
fn after_part(stack: &mut Vec<Group>, line: &Line) -> Result<(), AllocError>
    ensures { OnOk result (stack_of stack.new.items
        ≡ spec.after_part (line_of line.now) ++ stack_of stack.old.items) }
{
    match line {
        Line::Function(_) => {
            attempt!(push_expected(stack, Expected::Parts, 1));
            push_expected(stack, Expected::BinaryInlines, 1)
        }
        _ => Ok(()),
    }
}

// After the line of a log.
fn after_log(stack: &mut Vec<Group>, line: &Line) -> Result<(), AllocError>
    ensures { OnOk result (stack_of stack.new.items
        ≡ spec.after_log (line_of line.now) ++ stack_of stack.old.items) }
{
    match line {
        Line::Log(steps) => push_expected(stack, Expected::Step, *steps),
        _ => Ok(()),
    }
}

/// What is expected after a line that was expected.
pub fn push_after(stack: &mut Vec<Group>, expected: Expected, line: &Line) -> Result<(), AllocError>
    ensures { OnOk result (stack_of stack.new.items
        ≡ spec.after (expected_of expected) (line_of line.now) ++ stack_of stack.old.items) }
{
    match expected {
        Expected::Header => push_expected(stack, Expected::Parts, 1),
        Expected::Parts => after_part(stack, line),
        Expected::BinaryInlines | Expected::SourceInlines => after_inline(stack, line),
        Expected::Proof(room) => after_rule(stack, line, room),
        Expected::Log => after_log(stack, line),
        Expected::Relation | Expected::Step => Ok(()),
    }
}
