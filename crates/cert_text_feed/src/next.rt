//! The next line, and what is expected after it.

ghost use Rattle.std.specs.Prelude.{◌≡◌, ◌<◌, ◌++◌, ◌∷◌, [], length};
ghost use Rattle.cert_text_spec.specs.Certificates as spec;
ghost use Rattle.cert_text_parse.specs.Keywords.{expected_of};
ghost use Rattle.cert_text_parse.specs.Views.{line_of};
ghost use Rattle.cert_text.specs.Stack.{stack_of};
ghost use Rattle.cert_text_feed.specs.Steps.{IsEmpty, IsFirst, Misses, Parses, Replaces, Takes};

use attempt::{Refusal, attempt};
use cert_text::{Group, push_after};
use cert_text_parse::{Cursor, Expected, Line, Logs, TextFault, next_line};
use std::alloc::{AllocError, Global};

/// What is expected first.
pub(crate) fn first_expected(stack: &[Group]) -> Option<Expected>
    ensures { IsFirst stack.now result }
{
    match stack.len().checked_sub(1) {
        Some(last) => Some(stack[last].expected),
        None => None,
    }
}

// The groups stand in place of what is expected first; out of memory nothing is changed.
fn replace_first(stack: &mut Vec<Group>, groups: &[Group]) -> Result<(), AllocError>
    requires { 0 < length stack.old.items }
    ensures { Replaces (stack_of groups.now) stack.old.items stack.new.items result }
{
    let last = stack.len() - 1;
    attempt!(stack.extend_from_slice(groups));
    let more = stack[last].more;
    if more == 0 {
        stack.remove(last);
    } else {
        stack[last].more = more - 1;
    }
    Ok(())
}

// A line where this is expected first: what is expected after it stands in its place; out of memory
// nothing is changed.
fn advance(
    alloc: Global,
    stack: &mut Vec<Group>,
    expected: Expected,
    line: &Line,
) -> Result<(), AllocError>
    requires { 0 < length stack.old.items }
    ensures { Replaces (spec.after (expected_of expected) (line_of line.now)) stack.old.items
        stack.new.items result }
{
    let mut groups = Vec::new(alloc);
    attempt!(push_after(&mut groups, expected, line));
    replace_first(stack, groups.as_slice())
}

// The line of a text where this is expected, with its literals and hints in lists that were empty;
// or the offset of the wrong byte.
fn parse(
    alloc: Global,
    expected: Expected,
    text: &[u8],
    logs: &mut Logs,
) -> Result<Line, Refusal<usize>>
    requires { IsEmpty logs.old }
    ensures { Parses (expected_of expected) text.now logs.new result }
{
    let mut cursor = Cursor { rest: text };
    match next_line(alloc, &mut cursor, expected, logs) {
        Ok(line) => Ok(line),
        Err(Refusal::NoMemory) => Err(Refusal::NoMemory),
        Err(Refusal::Fault(TextFault::Wrong)) => {
            Err(Refusal::Fault(text.len().saturating_sub(cursor.rest.len())))
        }
    }
}

/// The next line, which is the whole text; the stack has then what is expected after it, and the
/// lists, which were empty, its literals and hints. Or the offset of the wrong byte.
pub(crate) fn whole_line(
    alloc: Global,
    stack: &mut Vec<Group>,
    text: &[u8],
    logs: &mut Logs,
) -> Result<Line, Refusal<usize>>
    requires { IsEmpty logs.old }
    ensures { Takes text.now stack.old.items stack.new.items logs.new result }
{
    let expected = match first_expected(stack.as_slice()) {
        Some(expected) => expected,
        None => return Err(Refusal::Fault(0)),
    };
    let line = attempt!(parse(alloc, expected, text, logs));
    attempt!(advance(alloc, stack, expected, &line), Refusal::NoMemory);
    Ok(line)
}

/// Where a text that is no whole line is wrong, or ends.
pub(crate) fn wrong_offset(
    alloc: Global,
    expected: Expected,
    text: &[u8],
) -> Result<usize, AllocError>
    ensures { Misses (expected_of expected) text.now result }
{
    let mut logs = no_logs(alloc);
    match parse(alloc, expected, text, &mut logs) {
        Ok(_) => Ok(0),
        Err(Refusal::Fault(offset)) => Ok(offset),
        Err(Refusal::NoMemory) => Err(AllocError),
    }
}

/// No literals and no hints.
pub(crate) fn no_logs(alloc: Global) -> Logs
    ensures { IsEmpty result }
{
    Logs {
        literals: Vec::new(alloc),
        hints: Vec::new(alloc),
    }
}
