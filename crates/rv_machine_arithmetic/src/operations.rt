ghost use Rattle.std.specs.Prelude.{◌≡◌, ◌↔◌, IsTrue};
ghost use Rattle.rv_machine_spec.specs.Arithmetic.{arithmetic as arithmetic_of, holds as holds_of};
ghost use Rattle.rv_machine_spec.specs.Arithmetic.{number};
ghost use Rattle.rv_machine_spec.specs.Arithmetic.{high_word, word};

use rv_instr::{ArithmeticOperation, BranchTest};

/// What an operation gives for two words.
#[tactic(auto, unfolding(rv_machine_spec::specs::Arithmetic::arithmetic))]
pub fn arithmetic(operation: ArithmeticOperation, a: u32, b: u32) -> u32
    ensures { result ≡ arithmetic_of operation a b }
{
    match operation {
        ArithmeticOperation::Add => a.wrapping_add(b),
        ArithmeticOperation::Subtract => a.wrapping_sub(b),
        ArithmeticOperation::ShiftLeft => a << (b % 32),
        ArithmeticOperation::SetLess => u32::from(a.cast_signed() < b.cast_signed()),
        ArithmeticOperation::SetLessUnsigned => u32::from(a < b),
        ArithmeticOperation::Xor => a ^ b,
        ArithmeticOperation::ShiftRightLogical => a >> (b % 32),
        ArithmeticOperation::ShiftRightArithmetic => (a.cast_signed() >> (b % 32)).cast_unsigned(),
        ArithmeticOperation::Or => a | b,
        ArithmeticOperation::And => a & b,
        ArithmeticOperation::Multiply => a.wrapping_mul(b),
        ArithmeticOperation::MultiplyHigh => multiply_high_signed(a, b),
        ArithmeticOperation::MultiplyHighSignedUnsigned => multiply_high_signed_unsigned(a, b),
        ArithmeticOperation::MultiplyHighUnsigned => multiply_high_unsigned(a, b),
        ArithmeticOperation::Divide => divide(a, b),
        ArithmeticOperation::DivideUnsigned => if b == 0 { u32::MAX } else { a / b },
        ArithmeticOperation::Remainder => remainder(a, b),
        ArithmeticOperation::RemainderUnsigned => if b == 0 { a } else { a % b },
    }
}

#[tactic(auto, unfolding(rv_machine_spec::specs::Arithmetic::arithmetic))]
fn divide(a: u32, b: u32) -> u32
    ensures { result ≡ arithmetic_of ArithmeticOperation.Divide a b }
{
    if b == 0 {
        return u32::MAX;
    }
    a.cast_signed()
        .wrapping_div(b.cast_signed())
        .cast_unsigned()
}

#[tactic(auto, unfolding(rv_machine_spec::specs::Arithmetic::arithmetic))]
fn remainder(a: u32, b: u32) -> u32
    ensures { result ≡ arithmetic_of ArithmeticOperation.Remainder a b }
{
    if b == 0 {
        return a;
    }
    a.cast_signed()
        .wrapping_rem(b.cast_signed())
        .cast_unsigned()
}

/// Bits 63 to 32 of a product.
fn high_half(product: i64) -> u32
    ensures { result ≡ high_word product }
{
    (product.cast_unsigned() >> 32) as u32
}

#[tactic(auto, unfolding(rv_machine_spec::specs::Arithmetic::arithmetic))]
fn multiply_high_signed(a: u32, b: u32) -> u32
    ensures { result ≡ arithmetic_of ArithmeticOperation.MultiplyHigh a b }
{
    high_half(i64::from(a.cast_signed()) * i64::from(b.cast_signed()))
}

#[tactic(auto, unfolding(rv_machine_spec::specs::Arithmetic::arithmetic))]
fn multiply_high_signed_unsigned(a: u32, b: u32) -> u32
    ensures { result ≡ arithmetic_of ArithmeticOperation.MultiplyHighSignedUnsigned a b }
{
    high_half(i64::from(a.cast_signed()) * i64::from(b))
}

#[tactic(auto, unfolding(rv_machine_spec::specs::Arithmetic::arithmetic))]
fn multiply_high_unsigned(a: u32, b: u32) -> u32
    ensures { result ≡ arithmetic_of ArithmeticOperation.MultiplyHighUnsigned a b }
{
    ((u64::from(a) * u64::from(b)) >> 32) as u32
}

/// Whether a branch is taken.
#[tactic(auto, unfolding(rv_machine_spec::specs::Arithmetic::holds))]
pub fn holds(test: BranchTest, a: u32, b: u32) -> bool
    ensures { result ≡ holds_of test a b }
{
    match test {
        BranchTest::Equal => a == b,
        BranchTest::NotEqual => a != b,
        BranchTest::Less => a.cast_signed() < b.cast_signed(),
        BranchTest::GreaterOrEqual => a.cast_signed() >= b.cast_signed(),
        BranchTest::LessUnsigned => a < b,
        BranchTest::GreaterOrEqualUnsigned => a >= b,
    }
}
