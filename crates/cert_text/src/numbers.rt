//! Numbers and addresses as text.

ghost use Rattle.std.specs.Prelude.{◌≡◌, ◌++◌, OnOk, decimal};
ghost use Rattle.cert_text_spec.specs.Points.{address_text};
ghost use Rattle.cert_text_spec.specs.Lines.{counts_text};

use attempt::attempt;
use itoa::Buffer;
use proof_tree_spec::Counts;
use std::alloc::{AllocError, Global};

/// Adds a number, and what ends it.
pub(crate) fn push_number(out: &mut Vec<u8>, number: u64, end: &[u8]) -> Result<(), AllocError>
    ensures { OnOk result (out.new.items ≡ out.old.items ++ (decimal number ++ end.now)) }
{
    let mut buffer = Buffer::new();
    attempt!(out.extend_from_slice(buffer.format(number).as_bytes()));
    attempt!(out.extend_from_slice(end));
    Ok(())
}

/// Adds a count of each side, with a space after each.
pub(crate) fn push_counts(out: &mut Vec<u8>, counts: Counts) -> Result<(), AllocError>
    ensures { OnOk result (out.new.items ≡ out.old.items ++ counts_text counts) }
{
    attempt!(push_number(out, counts.binary as u64, b" "));
    push_number(out, counts.source as u64, b" ")
}

/// Adds an address, and what ends it.
pub(crate) fn push_address(
    alloc: Global,
    out: &mut Vec<u8>,
    address: u32,
    end: &[u8],
) -> Result<(), AllocError>
    ensures { OnOk result (out.new.items ≡ out.old.items ++ (address_text address ++ end.now)) }
{
    let bytes = address.to_be_bytes();
    let digits = attempt!(hex::encode(alloc, &bytes));
    attempt!(out.extend_from_slice(digits.as_bytes()));
    attempt!(out.extend_from_slice(end));
    Ok(())
}
