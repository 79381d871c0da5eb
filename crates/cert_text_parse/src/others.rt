//! Lines that are neither rules nor steps of logs, after their keywords.

ghost use Rattle.std.specs.Prelude.{codes};
ghost use Rattle.cert_text_laws.specs.Lines as lines;
ghost use Rattle.cert_text_laws.specs.Readers.{read_name};
ghost use Rattle.cert_text_laws.specs.Parts as parts;
ghost use Rattle.cert_text_parse.specs.PartOutcomes.{ParsesAs};
ghost use Rattle.cert_text_parse.specs.Keywords.{other_of};
ghost use Rattle.cert_text_parse.specs.LineOutcomes.{ParsesLine};

use crate::keywords::Other;
use crate::lines::{Line, Part, boxed};
use crate::rules::boxed_term;
use crate::{Cursor, Ending, TextFault, binary_point, last_number, source_point};
use attempt::{Refusal, attempt};
use std::alloc::Global;

// A name, and the word before the stack.
fn name<'t>(cursor: &mut Cursor<'t>) -> Result<&'t [u8], Refusal<TextFault>>
    ensures { ParsesAs (λ name. name.now) (parts.read_ended read_name (codes " stack ")) cursor.old
        cursor.new result }
{
    let name = attempt!(cursor.name());
    match cursor.one_of(&[(b" stack ".as_slice(), ())]) {
        Ok(()) => Ok(name),
        Err(stopped) => Err(stopped),
    }
}

// `function`
fn function_line(alloc: Global, cursor: &mut Cursor<'_>) -> Result<Line, Refusal<TextFault>>
    ensures { ParsesLine (lines.read_fields lines.KFunction) cursor.old cursor.new result }
{
    let name = attempt!(name(cursor));
    let stack = attempt!(last_number(cursor));
    let name = attempt!(Vec::from_slice(alloc, name), Refusal::NoMemory);
    let part = attempt!(boxed(alloc, Part { name, stack }), Refusal::NoMemory);
    Ok(Line::Function(part))
}

// `inline a`
fn binary_inline_line(alloc: Global, cursor: &mut Cursor<'_>) -> Result<Line, Refusal<TextFault>>
    ensures { ParsesLine (lines.read_fields lines.KInlineBinary) cursor.old cursor.new result }
{
    let point = attempt!(binary_point(alloc, cursor, Ending::LineFeed));
    let point = attempt!(boxed(alloc, point), Refusal::NoMemory);
    Ok(Line::InlineBinary(point))
}

// `inline c`
fn source_inline_line(alloc: Global, cursor: &mut Cursor<'_>) -> Result<Line, Refusal<TextFault>>
    ensures { ParsesLine (lines.read_fields lines.KInlineSource) cursor.old cursor.new result }
{
    let point = attempt!(source_point(alloc, cursor, Ending::LineFeed));
    let point = attempt!(boxed(alloc, point), Refusal::NoMemory);
    Ok(Line::InlineSource(point))
}

// `rel`
fn relation_line(alloc: Global, cursor: &mut Cursor<'_>) -> Result<Line, Refusal<TextFault>>
    ensures { ParsesLine (lines.read_fields lines.KRelation) cursor.old cursor.new result }
{
    match boxed_term(alloc, cursor) {
        Ok(term) => Ok(Line::Relation(term)),
        Err(stopped) => Err(stopped),
    }
}

// `log`
fn log_line(cursor: &mut Cursor<'_>) -> Result<Line, Refusal<TextFault>>
    ensures { ParsesLine (lines.read_fields lines.KLog) cursor.old cursor.new result }
{
    match last_number(cursor) {
        Ok(steps) => Ok(Line::Log(steps)),
        Err(stopped) => Err(stopped),
    }
}

/// A line that is neither a rule nor a step.
pub(crate) fn other_line(
    alloc: Global,
    cursor: &mut Cursor<'_>,
    other: Other,
) -> Result<Line, Refusal<TextFault>>
    ensures { ParsesLine (lines.read_fields (other_of other)) cursor.old cursor.new result }
{
    match other {
        Other::Header => Ok(Line::Header),
        Other::Function => function_line(alloc, cursor),
        Other::InlineBinary => binary_inline_line(alloc, cursor),
        Other::InlineSource => source_inline_line(alloc, cursor),
        Other::Relation => relation_line(alloc, cursor),
        Other::Log => log_line(cursor),
        Other::End => Ok(Line::End),
    }
}
