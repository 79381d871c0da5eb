//! The 48 instructions of RV32IM, and which one a 32-bit word is.
//!
//! The main type is [`Instr`]: one variant for each group of instructions with the same fields,
//! with the fields of the word already taken apart and the signed immediates already signed. A
//! register is a [`Reg`], a number below 32. The crate's one definition is `instr` in
//! `specs/Instr.antt`: the instruction of a word, or none. Fields and tables are those of the
//! RISC-V unprivileged specification, chapters "RV32I Base Integer Instruction Set" and "M
//! Extension".

#![tactic(auto)]

mod reg;

pub use reg::Reg;

/// What a conditional branch asks of its two registers.
#[derive(Clone, Copy, Debug)]
pub enum BranchTest {
    /// BEQ
    Equal,
    /// BNE
    NotEqual,
    /// BLT: both as signed numbers
    Less,
    /// BGE: both as signed numbers
    GreaterOrEqual,
    /// BLTU
    LessUnsigned,
    /// BGEU
    GreaterOrEqualUnsigned,
}

/// What a load reads, and how it fills the register.
#[derive(Clone, Copy, Debug)]
pub enum LoadKind {
    /// LB: one byte, sign extended
    Byte,
    /// LH: two bytes, sign extended
    Half,
    /// LW: four bytes
    Word,
    /// LBU: one byte, zero extended
    ByteUnsigned,
    /// LHU: two bytes, zero extended
    HalfUnsigned,
}

/// How many low bytes of the register a store writes.
#[derive(Clone, Copy, Debug)]
pub enum StoreKind {
    /// SB: one byte
    Byte,
    /// SH: two bytes
    Half,
    /// SW: four bytes
    Word,
}

/// An operation of a register and a 12-bit signed immediate.
#[derive(Clone, Copy, Debug)]
pub enum ImmediateOperation {
    /// ADDI
    Add,
    /// SLTI
    SetLess,
    /// SLTIU: the sign-extended immediate is taken as unsigned
    SetLessUnsigned,
    /// XORI
    Xor,
    /// ORI
    Or,
    /// ANDI
    And,
}

/// A shift by an amount that is a field of the word.
#[derive(Clone, Copy, Debug)]
pub enum ShiftOperation {
    /// SLLI
    Left,
    /// SRLI
    RightLogical,
    /// SRAI
    RightArithmetic,
}

/// An operation of two registers.
#[derive(Clone, Copy, Debug)]
pub enum ArithmeticOperation {
    /// ADD
    Add,
    /// SUB
    Subtract,
    /// SLL
    ShiftLeft,
    /// SLT
    SetLess,
    /// SLTU
    SetLessUnsigned,
    /// XOR
    Xor,
    /// SRL
    ShiftRightLogical,
    /// SRA
    ShiftRightArithmetic,
    /// OR
    Or,
    /// AND
    And,
    /// MUL: the low word of the product
    Multiply,
    /// MULH: the high word of the product of two signed numbers
    MultiplyHigh,
    /// MULHSU: the high word of the product of a signed and an unsigned number
    MultiplyHighSignedUnsigned,
    /// MULHU: the high word of the product of two unsigned numbers
    MultiplyHighUnsigned,
    /// DIV: signed, rounded toward zero
    Divide,
    /// DIVU
    DivideUnsigned,
    /// REM: signed, with the sign of the dividend
    Remainder,
    /// REMU
    RemainderUnsigned,
}

/// One instruction of RV32IM, its fields taken apart.
///
/// An `offset` or `imm` of type `i32` is the word's immediate, sign extended; offsets count bytes,
/// and those of JAL and of branches are even. `imm` of LUI and AUIPC is the number in bits 31..12
/// of the word, below 2^20: `lui x10, 1` has 1. A shift's `amount` is below 32.
#[derive(Clone, Copy, Debug)]
pub enum Instr {
    /// LUI
    Lui {
        rd: Reg,
        imm: u32,
    },
    /// AUIPC
    Auipc {
        rd: Reg,
        imm: u32,
    },
    /// JAL
    Jal {
        rd: Reg,
        offset: i32,
    },
    /// JALR
    Jalr {
        rd: Reg,
        base: Reg,
        offset: i32,
    },
    /// BEQ, BNE, BLT, BGE, BLTU, BGEU
    Branch {
        test: BranchTest,
        left: Reg,
        right: Reg,
        offset: i32,
    },
    /// LB, LH, LW, LBU, LHU
    Load {
        kind: LoadKind,
        rd: Reg,
        base: Reg,
        offset: i32,
    },
    /// SB, SH, SW
    Store {
        kind: StoreKind,
        base: Reg,
        source: Reg,
        offset: i32,
    },
    /// ADDI, SLTI, SLTIU, XORI, ORI, ANDI
    Immediate {
        operation: ImmediateOperation,
        rd: Reg,
        source: Reg,
        imm: i32,
    },
    /// SLLI, SRLI, SRAI
    Shift {
        operation: ShiftOperation,
        rd: Reg,
        source: Reg,
        amount: u8,
    },
    /// ADD to AND, and MUL to REMU
    Arithmetic {
        operation: ArithmeticOperation,
        rd: Reg,
        left: Reg,
        right: Reg,
    },
    /// FENCE: every word with opcode 0f and funct3 0; `bits` are its bits 31..20, below 2^12
    Fence {
        rd: Reg,
        source: Reg,
        bits: u16,
    },
    /// ECALL
    Ecall,
    /// EBREAK
    Ebreak,
}
