//! The text of a certificate: its lines, which line can follow which, and the one spelling of each.
//!
//! `specs/Certificates.antt` defines when bytes are a certificate and, of bytes that are none, the
//! length of the longest prefix that begins one. A certificate is a list of lines
//! (`specs/Lines.antt`); a term in a line is a list of symbols in the order of the text
//! (`specs/Terms.antt`), with its numbers as they are written. Of the crate only the types below
//! run.

#![tactic(auto)]

use term_core_spec::Width;

/// An operator of a term, with the number that is written after it; whether such a number, and so
/// many arguments, fit the operator is not part of the grammar.
#[derive(Clone, Copy)]
pub enum Operator {
    /// `eq`
    Equal,
    /// `ult`
    Less,
    /// `ite`
    Choose,
    /// `not`
    Not,
    /// `and`
    And,
    /// `or`
    Or,
    /// `add`
    Add,
    /// `sub`
    Subtract,
    /// `mul`
    Multiply,
    /// `band`
    BitAnd,
    /// `bor`
    BitOr,
    /// `bxor`
    BitXor,
    /// `bnot`
    Complement,
    /// `shl`
    ShiftLeft,
    /// `shr`
    ShiftRight,
    /// `sar`
    ShiftRightSigned,
    /// `udiv`
    Divide,
    /// `urem`
    Remainder,
    /// `join`
    Join,
    /// `load8`
    Load,
    /// `zext N`
    ZeroExtend(u32),
    /// `sext N`
    SignExtend(u32),
    /// `low N`
    Low(u32),
    /// `byte N`
    Byte(u32),
}

/// A symbol of a term.
#[derive(Clone, Copy)]
pub enum Symbol {
    /// `true` or `false`
    Truth(bool),
    /// `W:N`
    Constant(Width, u64),
    /// `xI`: a machine register at the point
    Register(u32),
    /// `eI`: a machine register at the entry of the function
    Entry(u32),
    /// `kN/`: the variable after it is of the call of this number, which is inlined there
    Inlined(u32),
    /// `vN`: a local of the source
    Local(u32),
    /// `sN`: whether that local has been set
    IsSet(u32),
    /// `pN`: a parameter of the source
    Parameter(u32),
    /// `m`: the memory of the source
    SourceMemory,
    /// `z`: the bytes of the binary's dead stack
    ZoneMemory,
    /// `am`: the memory of the binary
    BinaryMemory,
    /// `(` and an operator: its arguments are after it, up to the closing bracket
    Open(Operator),
    /// `)`
    Close,
}
