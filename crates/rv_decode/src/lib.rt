//! From a 32-bit word to its instruction.
//!
//! The one call is [`decode`]; it allocates nothing. Its contract: the answer is `instr` of the
//! word, the definition in `rv_instr` (`specs/Instr.antt`), so it is None exactly for the words
//! that are no instruction of RV32IM.

#![tactic(auto)]

ghost use Rattle.std.specs.Prelude.{◌≡◌};
ghost use Rattle.rv_instr.specs.Instr.{instr};

mod fields;
mod formats;
mod tables;

use crate::fields::{j_immediate, opcode, rd, u_immediate};
use crate::formats::{arithmetic, branch, fence, immediate, indirect_jump, load, store};
use rv_instr::Instr;

/// The instruction of a word; None where the word is no instruction of RV32IM.
#[tactic(auto, unfolding(rv_instr::specs::Instr::instr, rv_instr::specs::Instr::instr_of))]
pub fn decode(word: u32) -> Option<Instr>
    ensures { result ≡ instr word }
{
    match opcode(word) {
        0x37 => Some(Instr::Lui {
            rd: rd(word),
            imm: u_immediate(word),
        }),
        0x17 => Some(Instr::Auipc {
            rd: rd(word),
            imm: u_immediate(word),
        }),
        0x6f => Some(Instr::Jal {
            rd: rd(word),
            offset: j_immediate(word),
        }),
        0x67 => indirect_jump(word),
        0x63 => branch(word),
        0x03 => load(word),
        0x23 => store(word),
        0x13 => immediate(word),
        0x33 => arithmetic(word),
        0x0f => fence(word),
        _ if word == 0x00000073 => Some(Instr::Ecall),
        _ if word == 0x00100073 => Some(Instr::Ebreak),
        _ => None,
    }
}
