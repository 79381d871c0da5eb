ghost use Rattle.std.specs.Prelude.{◌≡◌};
ghost use Rattle.rv_instr.specs.declared.ArithmeticOperation.TheVariants.{Divide, DivideUnsigned};
ghost use Rattle.rv_instr.specs.declared.ArithmeticOperation.TheVariants.{Remainder};
ghost use Rattle.rv_instr.specs.declared.ArithmeticOperation.TheVariants.{RemainderUnsigned};
ghost use Rattle.rv_instr.specs.declared.ArithmeticOperation.TheVariants.{MultiplyHigh};
ghost use Rattle.rv_instr.specs.declared.ArithmeticOperation.TheVariants.{MultiplyHighSignedUnsigned};
ghost use Rattle.rv_instr.specs.declared.ArithmeticOperation.TheVariants.{MultiplyHighUnsigned};
ghost use Rattle.rv_instr.specs.declared.ArithmeticOperation.TheVariants.{ShiftRightArithmetic};
ghost use Rattle.rv_instr.specs.declared.ArithmeticOperation.TheVariants.{ShiftRightLogical};
ghost use Rattle.rv_machine_spec.specs.Arithmetic.{arithmetic};

/// DIV of any word by 0 gives all bits set.
#[tactic(auto, unfolding(rv_machine_spec::specs::Arithmetic::arithmetic))]
pub fn divide_by_zero(a: u32)
    ensures { arithmetic Divide a 0 ≡ 0xffffffff }
{}

/// DIVU of any word by 0 gives all bits set, and REMU the dividend.
#[tactic(auto, unfolding(rv_machine_spec::specs::Arithmetic::arithmetic))]
pub fn unsigned_division_by_zero(a: u32)
    ensures quotient { arithmetic DivideUnsigned a 0 ≡ 0xffffffff }
    ensures remainder { arithmetic RemainderUnsigned a 0 ≡ a }
{}

/// REM of any word by 0 gives the dividend.
#[tactic(auto, unfolding(rv_machine_spec::specs::Arithmetic::arithmetic))]
pub fn remainder_by_zero(a: u32)
    ensures { arithmetic Remainder a 0 ≡ a }
{}

/// DIV of -2^31 by -1 gives -2^31.
#[tactic(auto, unfolding(rv_machine_spec::specs::Arithmetic::arithmetic))]
pub fn divide_least_by_minus_one()
    ensures { arithmetic Divide 0x80000000 0xffffffff ≡ 0x80000000 }
{}

/// REM of -2^31 by -1 gives 0.
#[tactic(auto, unfolding(rv_machine_spec::specs::Arithmetic::arithmetic))]
pub fn remainder_of_least_by_minus_one()
    ensures { arithmetic Remainder 0x80000000 0xffffffff ≡ 0 }
{}

/// The high words of ffffffff times ffffffff: -1 * -1, -1 * (2^32 - 1), (2^32 - 1)^2.
#[tactic(auto, unfolding(rv_machine_spec::specs::Arithmetic::arithmetic))]
pub fn multiply_high_at_edges()
    ensures signed { arithmetic MultiplyHigh 0xffffffff 0xffffffff ≡ 0 }
    ensures signed_unsigned { arithmetic MultiplyHighSignedUnsigned 0xffffffff 0xffffffff
        ≡ 0xffffffff }
    ensures unsigned { arithmetic MultiplyHighUnsigned 0xffffffff 0xffffffff ≡ 0xfffffffe }
{}

/// 80000000 shifted right by 4: SRA copies the sign bit and SRL does not. Both use the low five
/// bits.
#[tactic(auto, unfolding(rv_machine_spec::specs::Arithmetic::arithmetic))]
pub fn shifts_right_both_ways()
    ensures arithmetic_shift { arithmetic ShiftRightArithmetic 0x80000000 4 ≡ 0xf8000000 }
    ensures logical_shift { arithmetic ShiftRightLogical 0x80000000 4 ≡ 0x08000000 }
    ensures low_five_bits { arithmetic ShiftRightLogical 0x80000000 0x24 ≡ 0x08000000 }
{}
