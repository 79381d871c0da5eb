//! Steps of logs.

ghost use Rattle.std.specs.Prelude.{◌≡◌, codes};
ghost use Rattle.std.specs.Option.{option_map};
ghost use Rattle.cert_text_laws.specs.Lines as lines;
ghost use Rattle.cert_text_laws.specs.Parts as parts;
ghost use Rattle.cert_text_parse.specs.Outcomes.{Parses};
ghost use Rattle.cert_text_parse.specs.PartOutcomes.{ParsesAs};
ghost use Rattle.cert_text_parse.specs.Views.{literal_of};
ghost use Rattle.cert_text_parse.specs.LineOutcomes.{Adds, AddsLine, read_negated, read_plain};

use crate::lines::{Line, Literal, Logs};
use crate::{Cursor, TextFault, number, spaced_number};
use attempt::{Refusal, attempt};

// The largest number.
const LARGEST: u64 = 0xffff_ffff;

// A number from 1.
fn positive(cursor: &mut Cursor<'_>) -> Result<u32, Refusal<TextFault>>
    ensures { Parses parts.read_positive cursor.old cursor.new result }
{
    match cursor.decimal(1, LARGEST) {
        Ok(number) => Ok(number as u32),
        Err(stopped) => Err(stopped),
    }
}

// A number from 1, and a space.
fn spaced_positive(cursor: &mut Cursor<'_>) -> Result<u32, Refusal<TextFault>>
    ensures { Parses (parts.read_ended parts.read_positive (codes " ")) cursor.old cursor.new
        result }
{
    let number = attempt!(positive(cursor));
    match cursor.one_of(&[(b" ".as_slice(), ())]) {
        Ok(()) => Ok(number),
        Err(stopped) => Err(stopped),
    }
}

// A negated literal.
fn negated(cursor: &mut Cursor<'_>) -> Result<Option<Literal>, Refusal<TextFault>>
    ensures { ParsesAs (option_map literal_of) read_negated cursor.old cursor.new result }
{
    match cursor.one_of(&[(b"-".as_slice(), ())]) {
        Ok(()) => {}
        Err(stopped) => return Err(stopped),
    }
    match spaced_positive(cursor) {
        Ok(variable) => Ok(Some(Literal {
            variable,
            is_negated: true,
        })),
        Err(stopped) => Err(stopped),
    }
}

// The literal of a number; none at zero.
fn unless_zero(variable: u32) -> Option<Literal>
    ensures { option_map literal_of result ≡ parts.literal_of variable }
{
    if variable == 0 {
        return None;
    }
    Some(Literal {
        variable,
        is_negated: false,
    })
}

// A literal that is not negated, or the zero after the literals.
fn plain(cursor: &mut Cursor<'_>) -> Result<Option<Literal>, Refusal<TextFault>>
    ensures { ParsesAs (option_map literal_of) read_plain cursor.old cursor.new result }
{
    match spaced_number(cursor) {
        Ok(variable) => Ok(unless_zero(variable)),
        Err(stopped) => Err(stopped),
    }
}

// A literal, or the zero after the literals.
fn literal(cursor: &mut Cursor<'_>) -> Result<Option<Literal>, Refusal<TextFault>>
    ensures { ParsesAs (option_map literal_of) (parts.read_literal (tt {0})) cursor.old cursor.new
        result }
{
    match cursor.rest {
        [b'-', ..] => negated(cursor),
        _ => plain(cursor),
    }
}

// The literals of a step are added to a list: how many.
fn literals(cursor: &mut Cursor<'_>, list: &mut Vec<Literal>) -> Result<usize, Refusal<TextFault>>
    ensures { Adds literal_of parts.read_literals cursor.old cursor.new list.old.items
        list.new.items result }
{
    let before = list.len();
    loop {
        let next = match literal(cursor) {
            Ok(next) => next,
            Err(stopped) => return Err(stopped),
        };
        match next {
            Some(literal) => list.push(literal)?,
            None => return Ok(list.len() - before),
        }
    }
}

// What ends a hint: a line feed after zero.
fn hint_end(cursor: &mut Cursor<'_>, hint: u32) -> Result<(), Refusal<TextFault>>
    ensures { Parses (parts.read_text (parts.hint_end hint)) cursor.old cursor.new result }
{
    if hint == 0 {
        cursor.one_of(&[(b"\n".as_slice(), ())])
    } else {
        cursor.one_of(&[(b" ".as_slice(), ())])
    }
}

// A hint, or the zero after the hints.
fn hint(cursor: &mut Cursor<'_>) -> Result<u32, Refusal<TextFault>>
    ensures { Parses (parts.read_hint (tt {0})) cursor.old cursor.new result }
{
    let hint = attempt!(number(cursor));
    match hint_end(cursor, hint) {
        Ok(()) => Ok(hint),
        Err(stopped) => Err(stopped),
    }
}

// The hints of a step are added to a list: how many.
fn hints(cursor: &mut Cursor<'_>, list: &mut Vec<u32>) -> Result<usize, Refusal<TextFault>>
    ensures { Adds (λ n. n) parts.read_hints cursor.old cursor.new list.old.items list.new.items
        result }
{
    let before = list.len();
    loop {
        let next = match hint(cursor) {
            Ok(next) => next,
            Err(stopped) => return Err(stopped),
        };
        if next == 0 {
            return Ok(list.len() - before);
        }
        list.push(next)?;
    }
}

/// The step of a log, after its keyword; its literals and hints are added to the lists.
pub(crate) fn step_line(
    cursor: &mut Cursor<'_>,
    logs: &mut Logs,
) -> Result<Line, Refusal<TextFault>>
    ensures { AddsLine (lines.read_fields lines.KStep) cursor.old cursor.new logs.old logs.new
        result }
{
    let literals = attempt!(literals(cursor, &mut logs.literals));
    let hints = attempt!(hints(cursor, &mut logs.hints));
    Ok(Line::Step(literals, hints))
}
