ghost use Rattle.std.specs.Prelude.{◌≡◌, ◌++◌, OnOk, decimal, flat_map};
ghost use Rattle.std.specs.Int.{w32, to_be_bytes};
ghost use Rattle.hex.specs.Hex.{encode_lower};

use attempt::attempt;
use itoa::Buffer;
use std::alloc::{AllocError, Global};

/// The decimal digits of a number.
pub(crate) fn digits(buffer: &mut Buffer, number: u64) -> &[u8]
    ensures { result.now ≡ decimal number }
{
    buffer.format(number).as_bytes()
}

/// Adds pieces of a text, one after the other.
pub(crate) fn push_all(out: &mut Vec<u8>, pieces: &[&[u8]]) -> Result<(), AllocError>
    ensures { OnOk result (out.new.items
        ≡ out.old.items ++ flat_map (λ piece. piece.now) pieces.now) }
{
    for piece in pieces {
        attempt!(out.extend_from_slice(piece));
    }
    Ok(())
}

/// Adds an address in eight lower-case hexadecimal digits.
pub(crate) fn push_address(alloc: Global, out: &mut Vec<u8>, address: u32) -> Result<(), AllocError>
    ensures { OnOk result (out.new.items
        ≡ out.old.items ++ encode_lower (to_be_bytes w32 address)) }
{
    let bytes = address.to_be_bytes();
    let digits = attempt!(hex::encode(alloc, &bytes));
    attempt!(out.extend_from_slice(digits.as_bytes()));
    Ok(())
}
