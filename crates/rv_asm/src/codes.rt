ghost use Rattle.std.specs.Prelude.{◌≡◌, ◌%◌, ◌<◌, Some, None};
ghost use Rattle.rv_instr.specs.Instr.{listed, branches, loads, stores, immediates, shifts};
ghost use Rattle.rv_instr.specs.Instr.{arithmetics};

use rv_instr::{
    ArithmeticOperation, BranchTest, ImmediateOperation, LoadKind, ShiftOperation, StoreKind,
};

pub fn branch_code(test: BranchTest) -> u32
    ensures listed { listed branches result ≡ Some test }
    ensures below { result < 8 }
{
    match test {
        BranchTest::Equal => 0,
        BranchTest::NotEqual => 1,
        BranchTest::Less => 4,
        BranchTest::GreaterOrEqual => 5,
        BranchTest::LessUnsigned => 6,
        BranchTest::GreaterOrEqualUnsigned => 7,
    }
}

pub fn load_code(kind: LoadKind) -> u32
    ensures listed { listed loads result ≡ Some kind }
    ensures below { result < 8 }
{
    match kind {
        LoadKind::Byte => 0,
        LoadKind::Half => 1,
        LoadKind::Word => 2,
        LoadKind::ByteUnsigned => 4,
        LoadKind::HalfUnsigned => 5,
    }
}

pub fn store_code(kind: StoreKind) -> u32
    ensures listed { listed stores result ≡ Some kind }
    ensures below { result < 8 }
{
    match kind {
        StoreKind::Byte => 0,
        StoreKind::Half => 1,
        StoreKind::Word => 2,
    }
}

pub fn immediate_code(operation: ImmediateOperation) -> u32
    ensures listed { listed immediates result ≡ Some operation }
    ensures below { result < 8 }
{
    match operation {
        ImmediateOperation::Add => 0,
        ImmediateOperation::SetLess => 2,
        ImmediateOperation::SetLessUnsigned => 3,
        ImmediateOperation::Xor => 4,
        ImmediateOperation::Or => 6,
        ImmediateOperation::And => 7,
    }
}

/// funct7 and funct3 as one number, `funct7 * 8 + funct3`.
pub fn shift_code(operation: ShiftOperation) -> u32
    ensures listed { listed shifts result ≡ Some operation }
    ensures apart { listed immediates (result % 8) ≡ None }
    ensures below { result < 1024 }
{
    match operation {
        ShiftOperation::Left => 0x001,
        ShiftOperation::RightLogical => 0x005,
        ShiftOperation::RightArithmetic => 0x105,
    }
}

/// funct7 and funct3 as one number, `funct7 * 8 + funct3`.
pub fn arithmetic_code(operation: ArithmeticOperation) -> u32
    ensures listed { listed arithmetics result ≡ Some operation }
    ensures below { result < 1024 }
{
    match operation {
        ArithmeticOperation::Add => 0x000,
        ArithmeticOperation::ShiftLeft => 0x001,
        ArithmeticOperation::SetLess => 0x002,
        ArithmeticOperation::SetLessUnsigned => 0x003,
        ArithmeticOperation::Xor => 0x004,
        ArithmeticOperation::ShiftRightLogical => 0x005,
        ArithmeticOperation::Or => 0x006,
        ArithmeticOperation::And => 0x007,
        ArithmeticOperation::Subtract => 0x100,
        ArithmeticOperation::ShiftRightArithmetic => 0x105,
        ArithmeticOperation::Multiply => 0x008,
        ArithmeticOperation::MultiplyHigh => 0x009,
        ArithmeticOperation::MultiplyHighSignedUnsigned => 0x00a,
        ArithmeticOperation::MultiplyHighUnsigned => 0x00b,
        ArithmeticOperation::Divide => 0x00c,
        ArithmeticOperation::DivideUnsigned => 0x00d,
        ArithmeticOperation::Remainder => 0x00e,
        ArithmeticOperation::RemainderUnsigned => 0x00f,
    }
}
