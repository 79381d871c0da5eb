ghost use Rattle.std.specs.Prelude.{◌≡◌, ◌+◌, ◌*◌, ◌<◌};
ghost use Rattle.rv_instr.specs.Instr.{instr_of, instr_of_immediate, funct10 as funct10_of};

use crate::fields::{b_immediate, field, funct3, funct7, i_immediate, rd, rs1, rs2, s_immediate};
use crate::tables::{
    arithmetic_operation, branch_test, immediate_operation, load_kind, shift_operation, store_kind,
};
use rv_instr::Instr;

/// funct7 and funct3 as one number.
fn funct10(word: u32) -> u32
    ensures { result ≡ funct10_of word }
{
    funct7(word) * 8 + funct3(word)
}

#[tactic(auto, unfolding(rv_instr::specs::Instr::instr_of))]
pub fn indirect_jump(word: u32) -> Option<Instr>
    ensures { result ≡ instr_of 0x67 word }
{
    if funct3(word) != 0 {
        return None;
    }
    Some(Instr::Jalr {
        rd: rd(word),
        base: rs1(word),
        offset: i_immediate(word),
    })
}

#[tactic(auto, unfolding(rv_instr::specs::Instr::instr_of))]
pub fn branch(word: u32) -> Option<Instr>
    ensures { result ≡ instr_of 0x63 word }
{
    let test = branch_test(funct3(word))?;
    Some(Instr::Branch {
        test,
        left: rs1(word),
        right: rs2(word),
        offset: b_immediate(word),
    })
}

#[tactic(auto, unfolding(rv_instr::specs::Instr::instr_of))]
pub fn load(word: u32) -> Option<Instr>
    ensures { result ≡ instr_of 0x03 word }
{
    let kind = load_kind(funct3(word))?;
    Some(Instr::Load {
        kind,
        rd: rd(word),
        base: rs1(word),
        offset: i_immediate(word),
    })
}

#[tactic(auto, unfolding(rv_instr::specs::Instr::instr_of))]
pub fn store(word: u32) -> Option<Instr>
    ensures { result ≡ instr_of 0x23 word }
{
    let kind = store_kind(funct3(word))?;
    Some(Instr::Store {
        kind,
        base: rs1(word),
        source: rs2(word),
        offset: s_immediate(word),
    })
}

#[tactic(auto, unfolding(rv_instr::specs::Instr::instr_of_immediate))]
pub fn immediate(word: u32) -> Option<Instr>
    ensures { result ≡ instr_of_immediate word }
{
    if let Some(operation) = immediate_operation(funct3(word)) {
        return Some(Instr::Immediate {
            operation,
            rd: rd(word),
            source: rs1(word),
            imm: i_immediate(word),
        });
    }
    let operation = shift_operation(funct10(word))?;
    Some(Instr::Shift {
        operation,
        rd: rd(word),
        source: rs1(word),
        amount: rs2(word).number(),
    })
}

#[tactic(auto, unfolding(rv_instr::specs::Instr::instr_of))]
pub fn arithmetic(word: u32) -> Option<Instr>
    ensures { result ≡ instr_of 0x33 word }
{
    let operation = arithmetic_operation(funct10(word))?;
    Some(Instr::Arithmetic {
        operation,
        rd: rd(word),
        left: rs1(word),
        right: rs2(word),
    })
}

#[tactic(auto, unfolding(rv_instr::specs::Instr::instr_of))]
pub fn fence(word: u32) -> Option<Instr>
    ensures { result ≡ instr_of 0x0f word }
{
    if funct3(word) != 0 {
        return None;
    }
    Some(Instr::Fence {
        rd: rd(word),
        source: rs1(word),
        bits: field(word, 20, 12) as u16,
    })
}
