//! Lines as text.

ghost use Rattle.std.specs.Prelude.{◌≡◌, ◌++◌, OnOk, codes, true};
ghost use Rattle.proof_tree.specs.Proofs.{binary_point_of, points_of, source_point_of};
ghost use Rattle.cert_text_spec.specs.Lines as spec;
ghost use Rattle.cert_text_spec.specs.Terms.{term_text};
ghost use Rattle.cert_text_parse.specs.Views.{line_of};
ghost use Rattle.cert_text.specs.Texts.{is_cut, is_short};

use crate::numbers::{push_counts, push_number};
use crate::points::{push_binary, push_points, push_source};
use crate::terms::push_term;
use attempt::attempt;
use cert_text_parse::{BinaryRestriction, Call, Line, Part, SourceRestriction, Split};
use cert_text_spec::Symbol;
use proof_tree::{BinaryPoint, SourcePoint};
use std::alloc::{AllocError, Global};

// Adds the line of a part.
fn push_function(out: &mut Vec<u8>, part: &Part) -> Result<(), AllocError>
    ensures { OnOk result (out.new.items ≡ out.old.items
        ++ spec.line_text (spec.Function part.now.name.items part.now.stack)) }
{
    attempt!(out.extend_from_slice(b"function "));
    attempt!(out.extend_from_slice(part.name.as_slice()));
    attempt!(out.extend_from_slice(b" stack "));
    push_number(out, u64::from(part.stack), b"\n")
}

// Adds a word, a term, and a line feed.
fn push_worded_term(out: &mut Vec<u8>, word: &[u8], symbols: &[Symbol]) -> Result<(), AllocError>
    ensures { OnOk result (out.new.items
        ≡ out.old.items ++ (word.now ++ (term_text symbols.now ++ codes "\n"))) }
{
    attempt!(out.extend_from_slice(word));
    attempt!(push_term(out, symbols));
    attempt!(out.extend_from_slice(b"\n"));
    Ok(())
}

// Adds a word, a number, and a line feed.
fn push_worded_number(out: &mut Vec<u8>, word: &[u8], number: u32) -> Result<(), AllocError>
    ensures { OnOk result (out.new.items
        ≡ out.old.items ++ (word.now ++ spec.number_line number)) }
{
    attempt!(out.extend_from_slice(word));
    push_number(out, u64::from(number), b"\n")
}

// Adds the line of a call that is inlined in the binary.
fn push_inlined_binary(
    alloc: Global,
    out: &mut Vec<u8>,
    point: &BinaryPoint,
) -> Result<(), AllocError>
    ensures { OnOk result (out.new.items
        ≡ out.old.items ++ spec.line_text (spec.InlineBinary (binary_point_of point.now))) }
{
    attempt!(out.extend_from_slice(b"inline a "));
    push_binary(alloc, out, point, b"\n")
}

// Adds the line of a call that is inlined in the source.
fn push_inlined_source(out: &mut Vec<u8>, point: &SourcePoint) -> Result<(), AllocError>
    ensures { OnOk result (out.new.items
        ≡ out.old.items ++ spec.line_text (spec.InlineSource (source_point_of point.now))) }
{
    attempt!(out.extend_from_slice(b"inline c "));
    push_source(out, point, b"\n")
}

// Adds the line of a restriction at a point of the binary.
fn push_binary_restriction(
    alloc: Global,
    out: &mut Vec<u8>,
    restriction: &BinaryRestriction,
) -> Result<(), AllocError>
    ensures { OnOk result (out.new.items ≡ out.old.items ++ spec.line_text (spec.RestrictBinary
        (binary_point_of restriction.now.point) restriction.now.count)) }
{
    attempt!(out.extend_from_slice(b"restrict a "));
    attempt!(push_binary(alloc, out, &restriction.point, b" "));
    push_number(out, u64::from(restriction.count), b"\n")
}

// Adds the line of a restriction at a point of the source.
fn push_source_restriction(
    out: &mut Vec<u8>,
    restriction: &SourceRestriction,
) -> Result<(), AllocError>
    ensures { OnOk result (out.new.items ≡ out.old.items ++ spec.line_text (spec.RestrictSource
        (source_point_of restriction.now.point) restriction.now.count)) }
{
    attempt!(out.extend_from_slice(b"restrict c "));
    attempt!(push_source(out, &restriction.point, b" "));
    push_number(out, u64::from(restriction.count), b"\n")
}

// Adds the line of a cut.
fn push_split(alloc: Global, out: &mut Vec<u8>, split: &Split) -> Result<(), AllocError>
    ensures { OnOk result (out.new.items ≡ out.old.items ++ spec.line_text (spec.Split
        (points_of split.now.points) split.now.enter split.now.step split.now.relations)) }
{
    attempt!(out.extend_from_slice(b"split "));
    attempt!(push_points(alloc, out, &split.points));
    attempt!(push_counts(out, split.enter));
    attempt!(push_counts(out, split.step));
    push_number(out, u64::from(split.relations), b"\n")
}

// Adds the line of a cut at calls.
fn push_call(alloc: Global, out: &mut Vec<u8>, call: &Call) -> Result<(), AllocError>
    ensures { OnOk result (out.new.items ≡ out.old.items ++ spec.line_text (spec.Call
        (points_of call.now.points) call.now.counts call.now.before call.now.after)) }
{
    attempt!(out.extend_from_slice(b"call "));
    attempt!(push_points(alloc, out, &call.points));
    attempt!(push_counts(out, call.counts));
    attempt!(push_number(out, u64::from(call.before), b" "));
    push_number(out, u64::from(call.after), b"\n")
}

// Adds a line that is a word, or a word and a number.
fn push_short(out: &mut Vec<u8>, line: &Line) -> Result<(), AllocError>
    requires { is_short line.now ≡ true }
    ensures { OnOk result (out.new.items ≡ out.old.items ++ spec.line_text (line_of line.now)) }
{
    match line {
        Line::Header => out.extend_from_slice(b"tv-cert 1\n"),
        Line::Leaf(logs) => push_worded_number(out, b"leaf ", *logs),
        Line::Log(steps) => push_worded_number(out, b"log ", *steps),
        Line::Step(_, _) => out.extend_from_slice(b"s 0 0\n"),
        Line::End => out.extend_from_slice(b"end\n"),
        _ => Ok(()),
    }
}

// Adds the line of a restriction or a cut, or a short one.
fn push_cut(alloc: Global, out: &mut Vec<u8>, line: &Line) -> Result<(), AllocError>
    requires { is_cut line.now ≡ true }
    ensures { OnOk result (out.new.items ≡ out.old.items ++ spec.line_text (line_of line.now)) }
{
    match line {
        Line::RestrictBinary(restriction) => push_binary_restriction(alloc, out, restriction),
        Line::RestrictSource(restriction) => push_source_restriction(out, restriction),
        Line::Split(split) => push_split(alloc, out, split),
        Line::Call(call) => push_call(alloc, out, call),
        _ => push_short(out, line),
    }
}

/// Adds a line; of a step, that without literals and hints.
pub(crate) fn push_line(alloc: Global, out: &mut Vec<u8>, line: &Line) -> Result<(), AllocError>
    ensures { OnOk result (out.new.items ≡ out.old.items ++ spec.line_text (line_of line.now)) }
{
    match line {
        Line::Function(part) => push_function(out, part),
        Line::InlineBinary(point) => push_inlined_binary(alloc, out, point),
        Line::InlineSource(point) => push_inlined_source(out, point),
        Line::Case(test) => push_worded_term(out, b"case ", test.as_slice()),
        Line::Relation(term) => push_worded_term(out, b"rel ", term.as_slice()),
        _ => push_cut(alloc, out, line),
    }
}
