//! Lines of rules, after their keywords.

ghost use Rattle.exact_read.specs.Grammar.{read_then};
ghost use Rattle.cert_text_laws.specs.Lines as lines;
ghost use Rattle.cert_text_laws.specs.Heads.{read_term};
ghost use Rattle.cert_text_laws.specs.Parts as parts;
ghost use Rattle.cert_text_parse.specs.Outcomes.{Parses};
ghost use Rattle.cert_text_parse.specs.PartOutcomes.{ParsesAs};
ghost use Rattle.cert_text_parse.specs.Keywords.{rule_of};
ghost use Rattle.cert_text_parse.specs.LineOutcomes.{ParsesLine, read_call_numbers};
ghost use Rattle.cert_text_parse.specs.LineOutcomes.{read_split_numbers};

use crate::keywords::Rule;
use crate::lines::{BinaryRestriction, Call, Line, SourceRestriction, Split, boxed};
use crate::{
    Cursor, Ending, TextFault, binary_point, both_points, counts, last_number, source_point,
    spaced_number, term_symbols,
};
use attempt::{Refusal, attempt};
use cert_text_spec::Symbol;
use proof_tree_spec::Counts;
use std::alloc::Global;

// A term, and a line feed.
fn last_term(alloc: Global, cursor: &mut Cursor<'_>) -> Result<Vec<Symbol>, Refusal<TextFault>>
    ensures { ParsesAs (λ symbols. symbols.items) (parts.read_ended read_term lines.line_feed)
        cursor.old cursor.new result }
{
    let symbols = attempt!(term_symbols(alloc, cursor));
    match cursor.one_of(&[(b"\n".as_slice(), ())]) {
        Ok(()) => Ok(symbols),
        Err(stopped) => Err(stopped),
    }
}

/// A term, and a line feed, in memory of its own.
pub(crate) fn boxed_term(
    alloc: Global,
    cursor: &mut Cursor<'_>,
) -> Result<Box<Vec<Symbol>>, Refusal<TextFault>>
    ensures { ParsesAs (λ symbols. symbols.value.items) (parts.read_ended read_term
        lines.line_feed) cursor.old cursor.new result }
{
    let symbols = attempt!(last_term(alloc, cursor));
    let symbols = attempt!(boxed(alloc, symbols), Refusal::NoMemory);
    Ok(symbols)
}

// `leaf`
fn leaf_line(cursor: &mut Cursor<'_>) -> Result<Line, Refusal<TextFault>>
    ensures { ParsesLine (lines.read_fields lines.KLeaf) cursor.old cursor.new result }
{
    match last_number(cursor) {
        Ok(logs) => Ok(Line::Leaf(logs)),
        Err(stopped) => Err(stopped),
    }
}

// `case`
fn case_line(alloc: Global, cursor: &mut Cursor<'_>) -> Result<Line, Refusal<TextFault>>
    ensures { ParsesLine (lines.read_fields lines.KCase) cursor.old cursor.new result }
{
    match boxed_term(alloc, cursor) {
        Ok(test) => Ok(Line::Case(test)),
        Err(stopped) => Err(stopped),
    }
}

// `restrict a`
fn binary_restriction_line(
    alloc: Global,
    cursor: &mut Cursor<'_>,
) -> Result<Line, Refusal<TextFault>>
    ensures { ParsesLine (lines.read_fields lines.KRestrictBinary) cursor.old cursor.new result }
{
    let point = attempt!(binary_point(alloc, cursor, Ending::Space));
    let count = attempt!(last_number(cursor));
    let restriction = BinaryRestriction { point, count };
    let restriction = attempt!(boxed(alloc, restriction), Refusal::NoMemory);
    Ok(Line::RestrictBinary(restriction))
}

// `restrict c`
fn source_restriction_line(
    alloc: Global,
    cursor: &mut Cursor<'_>,
) -> Result<Line, Refusal<TextFault>>
    ensures { ParsesLine (lines.read_fields lines.KRestrictSource) cursor.old cursor.new result }
{
    let point = attempt!(source_point(alloc, cursor, Ending::Space));
    let count = attempt!(last_number(cursor));
    let restriction = SourceRestriction { point, count };
    let restriction = attempt!(boxed(alloc, restriction), Refusal::NoMemory);
    Ok(Line::RestrictSource(restriction))
}

// The counts of a cut, and the number of lines of its relation.
fn split_numbers(cursor: &mut Cursor<'_>) -> Result<(Counts, (Counts, u32)), Refusal<TextFault>>
    ensures { Parses read_split_numbers cursor.old cursor.new result }
{
    let enter = attempt!(counts(cursor));
    let step = attempt!(counts(cursor));
    match last_number(cursor) {
        Ok(relations) => Ok((enter, (step, relations))),
        Err(stopped) => Err(stopped),
    }
}

// `split`
fn split_line(alloc: Global, cursor: &mut Cursor<'_>) -> Result<Line, Refusal<TextFault>>
    ensures { ParsesLine (lines.read_fields lines.KSplit) cursor.old cursor.new result }
{
    let points = attempt!(both_points(alloc, cursor));
    let (enter, (step, relations)) = attempt!(split_numbers(cursor));
    let split = Split {
        points,
        enter,
        step,
        relations,
    };
    let split = attempt!(boxed(alloc, split), Refusal::NoMemory);
    Ok(Line::Split(split))
}

// The counts of a call, and the numbers of lines of its relations.
fn call_numbers(cursor: &mut Cursor<'_>) -> Result<(Counts, (u32, u32)), Refusal<TextFault>>
    ensures { Parses read_call_numbers cursor.old cursor.new result }
{
    let counts = attempt!(counts(cursor));
    let before = attempt!(spaced_number(cursor));
    match last_number(cursor) {
        Ok(after) => Ok((counts, (before, after))),
        Err(stopped) => Err(stopped),
    }
}

// `call`
fn call_line(alloc: Global, cursor: &mut Cursor<'_>) -> Result<Line, Refusal<TextFault>>
    ensures { ParsesLine (lines.read_fields lines.KCall) cursor.old cursor.new result }
{
    let points = attempt!(both_points(alloc, cursor));
    let (counts, (before, after)) = attempt!(call_numbers(cursor));
    let call = Call {
        points,
        counts,
        before,
        after,
    };
    let call = attempt!(boxed(alloc, call), Refusal::NoMemory);
    Ok(Line::Call(call))
}

/// The line of a rule.
pub(crate) fn rule_line(
    alloc: Global,
    cursor: &mut Cursor<'_>,
    rule: Rule,
) -> Result<Line, Refusal<TextFault>>
    ensures { ParsesLine (lines.read_fields (rule_of rule)) cursor.old cursor.new result }
{
    match rule {
        Rule::Leaf => leaf_line(cursor),
        Rule::Case => case_line(alloc, cursor),
        Rule::RestrictBinary => binary_restriction_line(alloc, cursor),
        Rule::RestrictSource => source_restriction_line(alloc, cursor),
        Rule::Split => split_line(alloc, cursor),
        Rule::Call => call_line(alloc, cursor),
    }
}
