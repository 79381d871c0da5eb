ghost use Rattle.std.specs.Prelude.{◌≡◌, ◌+◌, ◌*◌, ◌%◌, ◌/◌, ◌^◌, ◌<◌};
ghost use Rattle.rv_instr.specs.Instr.{field, opcode as opcode_of, rd as rd_of};
ghost use Rattle.rv_instr.specs.Instr.{funct3 as funct3_of, funct10 as funct10_of, rs1 as rs1_of};
ghost use Rattle.rv_instr.specs.Instr.{rs2 as rs2_of, funct7 as funct7_of};
ghost use Rattle.rv_instr.specs.Instr.{i_immediate as i_immediate_of};
ghost use Rattle.rv_instr.specs.Instr.{s_immediate as s_immediate_of};
ghost use Rattle.rv_instr.specs.Instr.{b_immediate as b_immediate_of};
ghost use Rattle.rv_instr.specs.Instr.{u_immediate as u_immediate_of};
ghost use Rattle.rv_instr.specs.Instr.{j_immediate as j_immediate_of, signed};
ghost use Rattle.rv_asm.specs.Fits.{IsSigned, IsEven};

use crate::ranges::low_bits;
use rv_instr::Reg;

/// A word by its parts: opcode 6..0, bits 11..7, funct3 14..12, bits 19..15, 24..20 and 31..25.
fn join(opcode: u32, low: u32, funct3: u32, rs1: Reg, middle: u32, high: u32) -> u32
    requires opcode { opcode < 2 ^ 7 }
    requires low { low < 2 ^ 5 }
    requires funct3 { funct3 < 2 ^ 3 }
    requires middle { middle < 2 ^ 5 }
    requires high { high < 2 ^ 7 }
    ensures value { result ≡ opcode + low * 2 ^ 7 + funct3 * 2 ^ 12 + rs1 * 2 ^ 15 + middle * 2 ^ 20
        + high * 2 ^ 25 }
    ensures rs1 { rs1 < 2 ^ 5 }
{
    let lower = opcode + (low << 7) + (funct3 << 12);
    lower + (u32::from(rs1.number()) << 15) + (middle << 20) + (high << 25)
}

/// Fields of two registers and both function codes; `funct10` is `funct7 * 8 + funct3`.
pub fn r_format(opcode: u32, rd: Reg, funct10: u32, rs1: Reg, rs2: Reg) -> u32
    requires opcode { opcode < 2 ^ 7 }
    requires funct10 { funct10 < 2 ^ 10 }
    ensures opcode { opcode_of result ≡ opcode }
    ensures rd { rd_of result ≡ rd }
    ensures funct3 { funct3_of result ≡ funct10 % 8 }
    ensures funct10 { funct10_of result ≡ funct10 }
    ensures rs1 { rs1_of result ≡ rs1 }
    ensures rs2 { rs2_of result ≡ rs2 }
{
    let low = u32::from(rd.number());
    let middle = u32::from(rs2.number());
    join(opcode, low, funct10 % 8, rs1, middle, funct10 / 8)
}

/// Fields of one register and the 12 bits 31..20.
pub fn i_format(opcode: u32, rd: Reg, funct3: u32, rs1: Reg, bits: u32) -> u32
    requires opcode { opcode < 2 ^ 7 }
    requires funct3 { funct3 < 2 ^ 3 }
    requires bits { bits < 2 ^ 12 }
    ensures opcode { opcode_of result ≡ opcode }
    ensures rd { rd_of result ≡ rd }
    ensures funct3 { funct3_of result ≡ funct3 }
    ensures rs1 { rs1_of result ≡ rs1 }
    ensures bits { field 20 12 result ≡ bits }
{
    let low = u32::from(rd.number());
    join(opcode, low, funct3, rs1, bits % 32, bits / 32)
}

/// Fields of two registers, with 12 bits in 31..25 and 11..7.
pub fn s_format(opcode: u32, funct3: u32, rs1: Reg, rs2: Reg, bits: u32) -> u32
    requires opcode { opcode < 2 ^ 7 }
    requires funct3 { funct3 < 2 ^ 3 }
    requires bits { bits < 2 ^ 12 }
    ensures opcode { opcode_of result ≡ opcode }
    ensures funct3 { funct3_of result ≡ funct3 }
    ensures rs1 { rs1_of result ≡ rs1 }
    ensures rs2 { rs2_of result ≡ rs2 }
    ensures bits { field 25 7 result * 2 ^ 5 + field 7 5 result ≡ bits }
{
    let middle = u32::from(rs2.number());
    join(opcode, bits % 32, funct3, rs1, middle, bits / 32)
}

/// The 13 bits of an even number as the 12 bits of an S format: bit 12, bits 10..5, 4..1, bit 11.
fn branch_bits(bits: u32) -> u32
    requires below { bits < 2 ^ 13 }
    requires even { bits % 2 ≡ 0 }
    ensures below { result < 2 ^ 12 }
    ensures bits { result / 2 ^ 11 * 2 ^ 12 + result % 2 * 2 ^ 11 + result / 2 ^ 5 % 2 ^ 6 * 2 ^ 5
        + result % 2 ^ 5 / 2 * 2 ≡ bits }
{
    let low = bits / 2 % 16 * 2 + bits / 2048 % 2;
    bits / 4096 * 2048 + bits / 32 % 64 * 32 + low
}

/// Fields of two registers, with 13 bits of an even number in 31, 7, 30..25 and 11..8.
pub fn b_format(opcode: u32, funct3: u32, rs1: Reg, rs2: Reg, bits: u32) -> u32
    requires opcode { opcode < 2 ^ 7 }
    requires funct3 { funct3 < 2 ^ 3 }
    requires below { bits < 2 ^ 13 }
    requires even { bits % 2 ≡ 0 }
    ensures opcode { opcode_of result ≡ opcode }
    ensures funct3 { funct3_of result ≡ funct3 }
    ensures rs1 { rs1_of result ≡ rs1 }
    ensures rs2 { rs2_of result ≡ rs2 }
    ensures bits { field 31 1 result * 2 ^ 12 + field 7 1 result * 2 ^ 11 + field 25 6 result * 2 ^
        5
        + field 8 4 result * 2 ≡ bits }
{
    s_format(opcode, funct3, rs1, rs2, branch_bits(bits))
}

/// The 20 bits 31..12 as a number.
pub fn u_format(opcode: u32, rd: Reg, imm: u32) -> u32
    requires opcode { opcode < 2 ^ 7 }
    requires imm { imm < 2 ^ 20 }
    ensures opcode { opcode_of result ≡ opcode }
    ensures rd { rd_of result ≡ rd }
    ensures imm { u_immediate_of result ≡ imm }
{
    opcode + (u32::from(rd.number()) << 7) + (imm << 12)
}

/// The 21 bits of an even number as the 20 bits of a U format: bit 20, bits 10..1, bit 11, bits
/// 19..12.
fn jump_bits(bits: u32) -> u32
    requires below { bits < 2 ^ 21 }
    requires even { bits % 2 ≡ 0 }
    ensures below { result < 2 ^ 20 }
    ensures bits { result / 2 ^ 19 * 2 ^ 20 + result % 2 ^ 8 * 2 ^ 12 + result / 2 ^ 8 % 2 * 2 ^ 11
        + result / 2 ^ 9 % 2 ^ 10 * 2 ≡ bits }
{
    let low = bits / 2048 % 2 * 256 + bits / 4096 % 256;
    bits / (1 << 20) * (1 << 19) + bits / 2 % 1024 * 512 + low
}

/// The 21 bits of an even number in 31, 19..12, 20 and 30..21.
pub fn j_format(opcode: u32, rd: Reg, bits: u32) -> u32
    requires opcode { opcode < 2 ^ 7 }
    requires below { bits < 2 ^ 21 }
    requires even { bits % 2 ≡ 0 }
    ensures opcode { opcode_of result ≡ opcode }
    ensures rd { rd_of result ≡ rd }
    ensures bits { field 31 1 result * 2 ^ 20 + field 12 8 result * 2 ^ 12 + field 20 1 result * 2 ^
        11
        + field 21 10 result * 2 ≡ bits }
{
    u_format(opcode, rd, jump_bits(bits))
}
