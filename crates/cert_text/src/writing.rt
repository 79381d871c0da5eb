//! A certificate to bytes.

ghost use Rattle.std.specs.Prelude.{◌≡◌, ◌++◌, IfOk, OnOk};
ghost use Rattle.cert_text_spec.specs.Lines.{line_text};
ghost use Rattle.cert_text_parse.specs.Views.{line_at};
ghost use Rattle.cert_text.specs.Certificates.{certificate_of, lines_of, text_of};
ghost use Rattle.cert_text.specs.Texts.{AreLeft, IsAfter, step_next};

use crate::certificates::Cert;
use crate::lines::push_line;
use crate::steps::push_step;
use attempt::attempt;
use cert_text_parse::{Line, Literal};
use std::alloc::{AllocError, Global};

/// The literals and hints that are left.
#[derive(Clone, Copy)]
pub(crate) struct Left<'c> {
    /// The literals.
    pub literals: &'c [Literal],
    /// The hints.
    pub hints: &'c [u32],
}

// Adds a step with so many of the literals and hints that are left; all where there are fewer.
fn push_next_step(
    out: &mut Vec<u8>,
    literals: usize,
    hints: usize,
    left: &mut Left<'_>,
) -> Result<(), AllocError>
    ensures text { OnOk result (out.new.items ≡ out.old.items
        ++ line_text (step_next literals hints left.old)) }
    ensures rest { AreLeft literals hints left.old left.new }
{
    let literals = literals.min(left.literals.len());
    let hints = hints.min(left.hints.len());
    let result = push_step(out, &left.literals[..literals], &left.hints[..hints]);
    left.literals = &left.literals[literals..];
    left.hints = &left.hints[hints..];
    result
}

// Adds a line; a step takes its literals and hints.
fn push_next(
    alloc: Global,
    out: &mut Vec<u8>,
    line: &Line,
    left: &mut Left<'_>,
) -> Result<(), AllocError>
    ensures text { OnOk result (out.new.items ≡ out.old.items
        ++ line_text (line_at line.now left.old.literals.now left.old.hints.now)) }
    ensures rest { IsAfter line.now left.old left.new }
{
    match line {
        Line::Step(literals, hints) => push_next_step(out, *literals, *hints, left),
        _ => push_line(alloc, out, line),
    }
}

/// Adds the lines, each with its literals and hints.
pub(crate) fn push_lines(
    alloc: Global,
    out: &mut Vec<u8>,
    lines: &[Line],
    left: &mut Left<'_>,
) -> Result<(), AllocError>
    ensures { OnOk result (out.new.items ≡ out.old.items
        ++ text_of (lines_of lines.now left.old.literals.now left.old.hints.now)) }
{
    for line in lines {
        attempt!(push_next(alloc, out, line, left));
    }
    Ok(())
}

/// The spelling of a certificate. A step whose literals or hints are not all there has those that
/// are.
pub fn write(alloc: Global, cert: &Cert) -> Result<Vec<u8>, AllocError>
    ensures { IfOk result (λ text. text.items ≡ text_of (certificate_of cert.now)) }
{
    let mut left = Left {
        literals: cert.logs.literals.as_slice(),
        hints: cert.logs.hints.as_slice(),
    };
    let mut text = Vec::new(alloc);
    attempt!(push_lines(alloc, &mut text, cert.lines.as_slice(), &mut left));
    Ok(text)
}
