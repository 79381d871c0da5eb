//! Steps of logs as text.

ghost use Rattle.std.specs.Prelude.{◌≡◌, ◌++◌, OnOk, flat_map};
ghost use Rattle.cert_text_spec.specs.Lines.{line_text};
ghost use Rattle.cert_text_parse.specs.Views.{step_of};
ghost use Rattle.cert_text.specs.Texts.{hint_text, literal_text};

use crate::numbers::push_number;
use attempt::attempt;
use cert_text_parse::Literal;
use std::alloc::AllocError;

// Adds a literal, and a space.
fn push_literal(out: &mut Vec<u8>, literal: Literal) -> Result<(), AllocError>
    ensures { OnOk result (out.new.items ≡ out.old.items ++ literal_text literal) }
{
    if literal.is_negated {
        attempt!(out.extend_from_slice(b"-"));
    }
    push_number(out, u64::from(literal.variable), b" ")
}

// Adds literals.
fn push_literals(out: &mut Vec<u8>, literals: &[Literal]) -> Result<(), AllocError>
    ensures { OnOk result (out.new.items ≡ out.old.items ++ flat_map literal_text literals.now) }
{
    for literal in literals {
        attempt!(push_literal(out, *literal));
    }
    Ok(())
}

// Adds hints.
fn push_hints(out: &mut Vec<u8>, hints: &[u32]) -> Result<(), AllocError>
    ensures { OnOk result (out.new.items ≡ out.old.items ++ flat_map hint_text hints.now) }
{
    for hint in hints {
        attempt!(push_number(out, u64::from(*hint), b" "));
    }
    Ok(())
}

/// Adds a step.
pub(crate) fn push_step(
    out: &mut Vec<u8>,
    literals: &[Literal],
    hints: &[u32],
) -> Result<(), AllocError>
    ensures { OnOk result (out.new.items
        ≡ out.old.items ++ line_text (step_of literals.now hints.now)) }
{
    attempt!(out.extend_from_slice(b"s "));
    attempt!(push_literals(out, literals));
    attempt!(out.extend_from_slice(b"0 "));
    attempt!(push_hints(out, hints));
    attempt!(out.extend_from_slice(b"0\n"));
    Ok(())
}
