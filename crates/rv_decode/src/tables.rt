ghost use Rattle.std.specs.Prelude.{◌≡◌, ◌+◌, ◌*◌, ◌<◌};
ghost use Rattle.rv_instr.specs.Instr.{listed, branches, loads, stores, immediates, shifts};
ghost use Rattle.rv_instr.specs.Instr.{arithmetics};

use rv_instr::{
    ArithmeticOperation, BranchTest, ImmediateOperation, LoadKind, ShiftOperation, StoreKind,
};

pub fn branch_test(funct3: u32) -> Option<BranchTest>
    ensures { result ≡ listed branches funct3 }
{
    match funct3 {
        0 => Some(BranchTest::Equal),
        1 => Some(BranchTest::NotEqual),
        4 => Some(BranchTest::Less),
        5 => Some(BranchTest::GreaterOrEqual),
        6 => Some(BranchTest::LessUnsigned),
        7 => Some(BranchTest::GreaterOrEqualUnsigned),
        _ => None,
    }
}

pub fn load_kind(funct3: u32) -> Option<LoadKind>
    ensures { result ≡ listed loads funct3 }
{
    match funct3 {
        0 => Some(LoadKind::Byte),
        1 => Some(LoadKind::Half),
        2 => Some(LoadKind::Word),
        4 => Some(LoadKind::ByteUnsigned),
        5 => Some(LoadKind::HalfUnsigned),
        _ => None,
    }
}

pub fn store_kind(funct3: u32) -> Option<StoreKind>
    ensures { result ≡ listed stores funct3 }
{
    match funct3 {
        0 => Some(StoreKind::Byte),
        1 => Some(StoreKind::Half),
        2 => Some(StoreKind::Word),
        _ => None,
    }
}

pub fn immediate_operation(funct3: u32) -> Option<ImmediateOperation>
    ensures { result ≡ listed immediates funct3 }
{
    match funct3 {
        0 => Some(ImmediateOperation::Add),
        2 => Some(ImmediateOperation::SetLess),
        3 => Some(ImmediateOperation::SetLessUnsigned),
        4 => Some(ImmediateOperation::Xor),
        6 => Some(ImmediateOperation::Or),
        7 => Some(ImmediateOperation::And),
        _ => None,
    }
}

/// By funct7 and funct3 as one number, `funct7 * 8 + funct3`.
pub fn shift_operation(funct10: u32) -> Option<ShiftOperation>
    ensures { result ≡ listed shifts funct10 }
{
    match funct10 {
        0x001 => Some(ShiftOperation::Left),
        0x005 => Some(ShiftOperation::RightLogical),
        0x105 => Some(ShiftOperation::RightArithmetic),
        _ => None,
    }
}

/// By funct7 and funct3 as one number, `funct7 * 8 + funct3`.
pub fn arithmetic_operation(funct10: u32) -> Option<ArithmeticOperation>
    ensures { result ≡ listed arithmetics funct10 }
{
    match funct10 {
        0x000 => Some(ArithmeticOperation::Add),
        0x001 => Some(ArithmeticOperation::ShiftLeft),
        0x002 => Some(ArithmeticOperation::SetLess),
        0x003 => Some(ArithmeticOperation::SetLessUnsigned),
        0x004 => Some(ArithmeticOperation::Xor),
        0x005 => Some(ArithmeticOperation::ShiftRightLogical),
        0x006 => Some(ArithmeticOperation::Or),
        0x007 => Some(ArithmeticOperation::And),
        0x100 => Some(ArithmeticOperation::Subtract),
        0x105 => Some(ArithmeticOperation::ShiftRightArithmetic),
        0x008 => Some(ArithmeticOperation::Multiply),
        0x009 => Some(ArithmeticOperation::MultiplyHigh),
        0x00a => Some(ArithmeticOperation::MultiplyHighSignedUnsigned),
        0x00b => Some(ArithmeticOperation::MultiplyHighUnsigned),
        0x00c => Some(ArithmeticOperation::Divide),
        0x00d => Some(ArithmeticOperation::DivideUnsigned),
        0x00e => Some(ArithmeticOperation::Remainder),
        0x00f => Some(ArithmeticOperation::RemainderUnsigned),
        _ => None,
    }
}
