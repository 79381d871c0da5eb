//! The fields of a file: numbers at offsets.

ghost use Rattle.std.specs.Prelude.{◌≡◌, ◌+◌, ◌≤◌, length};
ghost use Rattle.elf_read_spec.specs.File as spec;

use byteorder::{ByteOrder, LittleEndian};

/// The number of two bytes at an offset.
#[tactic(auto, unfolding(elf_read_spec::specs::File::u16_at))]
pub(crate) fn u16_at(bytes: &[u8], at: usize) -> u16
    requires { at + 2 ≤ length bytes.now }
    ensures { result ≡ spec.u16_at bytes.now at }
{
    LittleEndian::read_u16(&bytes[at..])
}

/// The number of four bytes at an offset.
#[tactic(auto, unfolding(elf_read_spec::specs::File::u32_at))]
pub(crate) fn u32_at(bytes: &[u8], at: usize) -> u32
    requires { at + 4 ≤ length bytes.now }
    ensures { result ≡ spec.u32_at bytes.now at }
{
    LittleEndian::read_u32(&bytes[at..])
}
