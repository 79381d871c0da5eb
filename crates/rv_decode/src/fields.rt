ghost use Rattle.std.specs.Prelude.{◌≡◌, ◌+◌, ◌-◌, ◌^◌, ◌<◌, ◌≤◌};
ghost use Rattle.rv_instr.specs.Instr.{signed, field, opcode as opcode_of, rd as rd_of};
ghost use Rattle.rv_instr.specs.Instr.{funct3 as funct3_of, rs1 as rs1_of, rs2 as rs2_of};
ghost use Rattle.rv_instr.specs.Instr.{funct7 as funct7_of, i_immediate as i_immediate_of};
ghost use Rattle.rv_instr.specs.Instr.{s_immediate as s_immediate_of};
ghost use Rattle.rv_instr.specs.Instr.{b_immediate as b_immediate_of};
ghost use Rattle.rv_instr.specs.Instr.{u_immediate as u_immediate_of};
ghost use Rattle.rv_instr.specs.Instr.{j_immediate as j_immediate_of};

use rv_instr::Reg;

/// The `count` bits of a word from bit `low` up.
pub fn field(word: u32, low: u32, count: u32) -> u32
    requires inside { low < 32 }
    requires short { count < 32 }
    ensures value { result ≡ field low count word }
    ensures below { result < 2 ^ count }
{
    (word >> low) % (1 << count)
}

/// The number whose `count` bits in two's complement are `bits`.
pub fn sign_extended(bits: u32, count: u32) -> i32
    requires some { 0 < count }
    requires short { count < 32 }
    requires below { bits < 2 ^ count }
    ensures { result ≡ signed count bits }
{
    if bits < 1 << (count - 1) {
        bits as i32
    } else {
        -(((1 << count) - bits) as i32)
    }
}

pub fn opcode(word: u32) -> u32
    ensures { result ≡ opcode_of word }
{
    field(word, 0, 7)
}

pub fn funct3(word: u32) -> u32
    ensures { result ≡ funct3_of word }
{
    field(word, 12, 3)
}

pub fn funct7(word: u32) -> u32
    ensures { result ≡ funct7_of word }
{
    field(word, 25, 7)
}

fn register_at(word: u32, low: u32) -> Reg
    requires { low ≤ 20 }
    ensures { result ≡ field low 5 word }
{
    Reg::new(field(word, low, 5) as u8)
}

pub fn rd(word: u32) -> Reg
    ensures { result ≡ rd_of word }
{
    register_at(word, 7)
}

pub fn rs1(word: u32) -> Reg
    ensures { result ≡ rs1_of word }
{
    register_at(word, 15)
}

pub fn rs2(word: u32) -> Reg
    ensures { result ≡ rs2_of word }
{
    register_at(word, 20)
}

pub fn i_immediate(word: u32) -> i32
    ensures { result ≡ i_immediate_of word }
{
    sign_extended(field(word, 20, 12), 12)
}

pub fn s_immediate(word: u32) -> i32
    ensures { result ≡ s_immediate_of word }
{
    sign_extended((field(word, 25, 7) << 5) + field(word, 7, 5), 12)
}

pub fn b_immediate(word: u32) -> i32
    ensures { result ≡ b_immediate_of word }
{
    let high = (field(word, 31, 1) << 12) + (field(word, 7, 1) << 11);
    sign_extended(
        high + (field(word, 25, 6) << 5) + (field(word, 8, 4) << 1),
        13,
    )
}

pub fn u_immediate(word: u32) -> u32
    ensures { result ≡ u_immediate_of word }
{
    field(word, 12, 20)
}

pub fn j_immediate(word: u32) -> i32
    ensures { result ≡ j_immediate_of word }
{
    let high = (field(word, 31, 1) << 20) + (field(word, 12, 8) << 12);
    sign_extended(
        high + (field(word, 20, 1) << 11) + (field(word, 21, 10) << 1),
        21,
    )
}
