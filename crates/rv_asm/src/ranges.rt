ghost use Rattle.std.specs.Prelude.{◌≡◌, ℕ, ◌-◌, ◌%◌, ◌^◌, ◌<◌, ◌≤◌, ◌↔◌, IsTrue, Some, ℤ, pos};
ghost use Rattle.std.specs.Prelude.{neg_ℤ, ◌≤ℤ◌, ◌<ℤ◌};
ghost use Rattle.rv_instr.specs.Instr.{instr, signed};
ghost use Rattle.rv_asm.specs.Fits.{Fits, IsSigned, IsEven};

use rv_instr::Instr;

/// Whether `z` is from `-limit` to `limit - 1`.
fn lies_within(z: i32, limit: i32) -> bool
    requires { pos 0 <ℤ limit }
    ensures { IsTrue result ↔ ((neg_ℤ limit ≤ℤ z) × (z <ℤ limit)) }
{
    -limit <= z && z < limit
}

fn is_even(z: i32) -> bool
    ensures { IsTrue result ↔ IsEven z }
{
    z.unsigned_abs() % 2 == 0
}

/// Whether an instruction has a word.
pub fn fits(instruction: &Instr) -> bool
    ensures ranges { IsTrue result ↔ Fits instruction.now }
    ensures needed { (word : ℕ) → instr word ≡ Some instruction.now → IsTrue result }
{
    is_in_range(instruction)
}

fn is_in_range(instruction: &Instr) -> bool
    ensures { IsTrue result ↔ Fits instruction.now }
{
    match *instruction {
        Instr::Lui { imm, .. } | Instr::Auipc { imm, .. } => imm < 1 << 20,
        Instr::Jal { offset, .. } => lies_within(offset, 1 << 20) && is_even(offset),
        Instr::Branch { offset, .. } => lies_within(offset, 1 << 12) && is_even(offset),
        Instr::Jalr { offset, .. }
        | Instr::Load { offset, .. }
        | Instr::Store { offset, .. }
        | Instr::Immediate { imm: offset, .. } => lies_within(offset, 1 << 11),
        Instr::Shift { amount, .. } => amount < 32,
        Instr::Fence { bits, .. } => bits < 1 << 12,
        Instr::Arithmetic { .. } | Instr::Ecall | Instr::Ebreak => true,
    }
}

/// The `count` bits of `z` in two's complement.
pub fn low_bits(z: i32, count: u32) -> u32
    requires some { 0 < count }
    requires short { count < 32 }
    requires fits { IsSigned count z }
    ensures value { signed count result ≡ z }
    ensures below { result < 2 ^ count }
    ensures parity { IsEven z → result % 2 ≡ 0 }
{
    if z >= 0 {
        z.unsigned_abs()
    } else {
        (1 << count) - z.unsigned_abs()
    }
}
