//! Words and instructions of a file.

ghost use Rattle.std.specs.Prelude.{◌≡◌, ◌+◌, ◌≤◌, ◌^◌};
ghost use Rattle.code_reach_spec.specs.Code as spec;
ghost use Rattle.code_reach_spec.specs.Code.{word_at};
ghost use Rattle.code_reach_spec.specs.RunUp.{is_straight as is_straight_of};

use byteorder::{ByteOrder, LittleEndian};
use elf_read::Image;
use rv_decode::decode;
use rv_instr::Instr;

/// The word at an address, if its four bytes are fixed.
pub fn word(image: &Image<'_>, address: u32) -> Option<u32>
    requires { address + 4 ≤ 2 ^ 32 }
    ensures { result ≡ word_at image.now address }
{
    let first = image.fixed_byte(address)?;
    let second = image.fixed_byte(address + 1)?;
    let third = image.fixed_byte(address + 2)?;
    let fourth = image.fixed_byte(address + 3)?;
    let bytes = [first, second, third, fourth];
    Some(LittleEndian::read_u32(&bytes))
}

/// The instruction at an address, if its four bytes are fixed and have a form.
#[tactic(auto, unfolding(code_reach_spec::specs::Code::instr_at))]
pub fn instruction_at(image: &Image<'_>, address: u32) -> Option<Instr>
    requires { address + 4 ≤ 2 ^ 32 }
    ensures { result ≡ spec.instr_at image.now address }
{
    decode(word(image, address)?)
}

/// Whether the instruction may be before a jump by a table.
pub(crate) fn is_straight(instruction: &Instr) -> bool
    ensures { result ≡ is_straight_of instruction.now }
{
    !matches!(
        *instruction,
        Instr::Jal { .. } | Instr::Jalr { .. } | Instr::Ecall | Instr::Ebreak
    )
}
