//! Instructions: `word WORD` gives the instruction of a word, and the word of that instruction;
//! `encode NAME NUMBER..` the word of an instruction, or that there is none; `effect WORD A B` what
//! an instruction at 00010000 does where its sources are A and B.

use crate::address;
use row_io::{Out, decimal, split};
use rv_asm::{encode, fits};
use rv_decode::decode;
use rv_instr::{
    ArithmeticOperation, BranchTest, ImmediateOperation, Instr, LoadKind, Reg, ShiftOperation,
    StoreKind,
};
use rv_machine::effects::effect;

/// An instruction of each format with an immediate of its own.
#[derive(Clone, Copy)]
enum Name {
    Lui,
    Auipc,
    Jal,
    Jalr,
    Blt,
    Lh,
    Sb,
    Xori,
    Slli,
    Sub,
    Fence,
}

const NAMES: [(&str, Name); 11] = [
    ("lui", Name::Lui),
    ("auipc", Name::Auipc),
    ("jal", Name::Jal),
    ("jalr", Name::Jalr),
    ("blt", Name::Blt),
    ("lh", Name::Lh),
    ("sb", Name::Sb),
    ("xori", Name::Xori),
    ("slli", Name::Slli),
    ("sub", Name::Sub),
    ("fence", Name::Fence),
];

/// The instruction of a name, if there is one.
fn named(name: &str) -> Option<Name> {
    for (of, named) in &NAMES {
        if *of == name {
            return Some(*named);
        }
    }
    None
}

fn x(number: i32) -> Reg {
    Reg::new((number & 31) as u8)
}

/// An immediate, in decimal with its sign.
fn signed(text: &str) -> i32 {
    let number = (decimal(text) % 0x1_0000_0000) as u32;
    if text.starts_with('-') {
        number.wrapping_neg().cast_signed()
    } else {
        number.cast_signed()
    }
}

/// An instruction from its numbers in the order of the assembler's operands.
fn instruction(name: Name, rd: Reg, b: i32, c: i32) -> Instr {
    match name {
        Name::Lui => Instr::Lui {
            rd,
            imm: b.cast_unsigned(),
        },
        Name::Auipc => Instr::Auipc {
            rd,
            imm: b.cast_unsigned(),
        },
        Name::Jal => Instr::Jal { rd, offset: b },
        Name::Fence => Instr::Fence {
            rd,
            source: x(b),
            bits: (c & 65535) as u16,
        },
        Name::Slli => Instr::Shift {
            operation: ShiftOperation::Left,
            rd,
            source: x(b),
            amount: (c & 255) as u8,
        },
        Name::Sub => Instr::Arithmetic {
            operation: ArithmeticOperation::Subtract,
            rd,
            left: x(b),
            right: x(c),
        },
        _ => with_offset(name, rd, x(b), c),
    }
}

/// The same of an instruction on two registers and an immediate.
fn with_offset(name: Name, rd: Reg, source: Reg, imm: i32) -> Instr {
    match name {
        Name::Blt => Instr::Branch {
            test: BranchTest::Less,
            left: rd,
            right: source,
            offset: imm,
        },
        Name::Lh => Instr::Load {
            kind: LoadKind::Half,
            rd,
            base: source,
            offset: imm,
        },
        Name::Sb => Instr::Store {
            kind: StoreKind::Byte,
            source: rd,
            base: source,
            offset: imm,
        },
        Name::Xori => Instr::Immediate {
            operation: ImmediateOperation::Xor,
            rd,
            source,
            imm,
        },
        _ => Instr::Jalr {
            rd,
            base: source,
            offset: imm,
        },
    }
}

/// The word of an instruction.
fn put_word(instruction: &Instr, out: &mut Out) {
    if fits(instruction) {
        out.word(encode(instruction));
    } else {
        out.put("no word");
    }
}

/// The outcome of a row `encode`.
fn put_encoded(name: &str, numbers: &str, out: &mut Out) {
    let (a, rest) = split(numbers, ' ');
    let (b, c) = split(rest, ' ');
    match named(name) {
        Some(name) => put_word(&instruction(name, x(signed(a)), signed(b), signed(c)), out),
        None => out.put("no instruction"),
    }
}

fn put_effect(instruction: &Instr, sources: &str, out: &mut Out) {
    let (a, b) = split(sources, ' ');
    out.show(&effect(instruction, address(a), address(b), 0x1_0000));
}

/// The outcome of a row.
pub(crate) fn put_instruction(asked: &str, row: &str, out: &mut Out) {
    let (first, rest) = split(row, ' ');
    if asked == "encode" {
        return put_encoded(first, rest, out);
    }
    match decode(address(first)) {
        None => out.put("no instruction"),
        Some(instruction) if asked == "effect" => put_effect(&instruction, rest, out),
        Some(instruction) => {
            out.show(&instruction);
            out.put(" ");
            put_word(&instruction, out);
        }
    }
}
