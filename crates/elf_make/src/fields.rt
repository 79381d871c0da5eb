//! Numbers at the end of a file.

ghost use Rattle.std.specs.Prelude.{◌≡◌, ◌++◌, OnOk};
ghost use Rattle.elf_make.specs.Layout.{half, word};

use byteorder::{ByteOrder, LittleEndian};
use std::alloc::AllocError;

/// Writes a number of two bytes.
#[tactic(auto, unfolding(crate::specs::Layout::half))]
pub(crate) fn put_half(out: &mut Vec<u8>, n: u16) -> Result<(), AllocError>
    ensures { OnOk result (out.new.items ≡ out.old.items ++ half n) }
{
    let mut bytes = [0; 2];
    LittleEndian::write_u16(&mut bytes, n);
    out.extend_from_slice(&bytes)
}

/// Writes a number of four bytes.
#[tactic(auto, unfolding(crate::specs::Layout::word))]
pub(crate) fn put_word(out: &mut Vec<u8>, n: u32) -> Result<(), AllocError>
    ensures { OnOk result (out.new.items ≡ out.old.items ++ word n) }
{
    let mut bytes = [0; 4];
    LittleEndian::write_u32(&mut bytes, n);
    out.extend_from_slice(&bytes)
}
