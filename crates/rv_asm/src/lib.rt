//! From an instruction to the one 32-bit word that encodes it.
//!
//! [`fits`] says whether an instruction has a word, and [`encode`] gives that word; neither
//! allocates.
//! They are the inverse of `instr`, the definition in `rv_instr` (`specs/Instr.antt`), both ways:
//! the word that `encode` gives is decoded to the instruction, no other word is, and each
//! instruction of a word fits.
//! `Fits` in `specs/Fits.antt` has the ranges.

#![tactic(auto)]

mod codes;
mod formats;
mod ranges;

ghost use Rattle.std.specs.Prelude.{◌≡◌, ℕ, ◌<◌, ◌^◌, Some};
ghost use Rattle.rv_instr.specs.Instr.{instr};
ghost use Rattle.rv_asm.specs.Fits.{Fits};

use crate::codes::{
    arithmetic_code, branch_code, immediate_code, load_code, shift_code, store_code,
};
use crate::formats::{b_format, i_format, j_format, r_format, s_format, u_format};
use crate::ranges::low_bits;
pub use ranges::fits;
use rv_instr::{Instr, Reg};

/// The word of an instruction.
pub fn encode(instruction: &Instr) -> u32
    requires { Fits instruction.now }
    ensures decodes { instr result ≡ Some instruction.now }
    ensures only { (word : ℕ) → word < 2 ^ 32 → instr word ≡ Some instruction.now → word ≡ result }
{
    word_of(instruction)
}

#[tactic(auto, unfolding(rv_instr::specs::Instr::instr, rv_instr::specs::Instr::instr_of, rv_instr::specs::Instr::instr_of_immediate))]
fn word_of(instruction: &Instr) -> u32
    requires { Fits instruction.now }
    ensures { instr result ≡ Some instruction.now }
{
    match *instruction {
        Instr::Lui { rd, imm } => u_format(0x37, rd, imm),
        Instr::Auipc { rd, imm } => u_format(0x17, rd, imm),
        Instr::Jal { rd, offset } => j_format(0x6f, rd, low_bits(offset, 21)),
        Instr::Jalr { rd, base, offset } => i_format(0x67, rd, 0, base, low_bits(offset, 12)),
        Instr::Branch {
            test,
            left,
            right,
            offset,
        } => b_format(0x63, branch_code(test), left, right, low_bits(offset, 13)),
        Instr::Load {
            kind,
            rd,
            base,
            offset,
        } => i_format(0x03, rd, load_code(kind), base, low_bits(offset, 12)),
        Instr::Store {
            kind,
            base,
            source,
            offset,
        } => s_format(0x23, store_code(kind), base, source, low_bits(offset, 12)),
        Instr::Immediate {
            operation,
            rd,
            source,
            imm,
        } => i_format(
            0x13,
            rd,
            immediate_code(operation),
            source,
            low_bits(imm, 12),
        ),
        Instr::Shift {
            operation,
            rd,
            source,
            amount,
        } => r_format(0x13, rd, shift_code(operation), source, Reg::new(amount)),
        Instr::Arithmetic {
            operation,
            rd,
            left,
            right,
        } => r_format(0x33, rd, arithmetic_code(operation), left, right),
        Instr::Fence { rd, source, bits } => i_format(0x0f, rd, 0, source, u32::from(bits)),
        Instr::Ecall => 0x00000073,
        Instr::Ebreak => 0x00100073,
    }
}
