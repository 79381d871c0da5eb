//! Terms over truth values, words and memory: trees (`specs/Term.antt`), their sorts
//! (`specs/Sort.antt`) and their values under an assignment (`specs/Value.antt`), the distinct
//! subterms of a term (`specs/Subterms.antt`), and terms put in for variables
//! (`specs/Substitution.antt`). Of a variable they see the sort and which one it is. Of the crate
//! only the enums below and [`Variable`] run.

#![tactic(auto)]

/// How many bits a word has.
#[derive(Clone, Copy, PartialEq, Eq, Hash, Debug)]
pub enum Width {
    /// 8 bits
    W8,
    /// 16 bits
    W16,
    /// 32 bits
    W32,
    /// 64 bits
    W64,
}

/// What kind of value a term has.
#[derive(Clone, Copy, PartialEq, Eq, Hash, Debug)]
pub enum Sort {
    /// a truth value
    Truth,
    /// a word of a width
    Word(Width),
    /// a byte for each 32-bit address
    Memory,
}

/// What a variable denotes.
#[derive(Clone, Copy, PartialEq, Eq, Hash, Debug)]
pub enum Family {
    /// a machine register at a point
    Register,
    /// a machine register at the entry of the function
    Entry,
    /// a parameter of the source's function
    Parameter,
    /// a local of the source's function
    Local,
    /// whether that local has been set
    IsSet,
    /// the memory of the source
    SourceMemory,
    /// the memory of the binary
    BinaryMemory,
    /// the bytes of the binary's dead stack
    ZoneMemory,
    /// any address
    Address,
    /// a byte that a load of a memory variable gives
    LoadedByte,
    /// a further word of a state
    Further,
}

/// A variable: two are the same where all four fields are.
#[derive(Clone, Copy, PartialEq, Eq, Hash, Debug)]
pub struct Variable {
    /// what it denotes
    pub family: Family,
    /// which one of its family
    pub index: usize,
    /// to which round or inlined call it belongs; 0 is the function itself
    pub instance: usize,
    /// the kind of its value
    pub sort: Sort,
}

/// A term without arguments.
#[derive(Clone, Copy, PartialEq, Eq, Hash, Debug)]
pub enum Atom {
    /// a known truth value
    Truth(bool),
    /// a known word; well sorted where the number is below 2^width
    Constant(Width, u64),
    /// what the assignment gives the variable
    Open(Variable),
}

/// An operator with one argument.
#[derive(Clone, Copy, PartialEq, Eq, Hash, Debug)]
pub enum UnaryOperator {
    /// the other truth value
    Not,
    /// each bit of a word inverted
    Complement,
    /// the word at a width from its own up, filled with zeros
    ZeroExtend(Width),
    /// the word at a width from its own up, filled with its top bit
    SignExtend(Width),
    /// the low bits of a word, at a width up to its own
    Low(Width),
    /// one byte of a word; 0 is the lowest
    Byte(u8),
}

/// An operation on two words of one width that gives a word of that width.
#[derive(Clone, Copy, PartialEq, Eq, Hash, Debug)]
pub enum WordOperator {
    /// the sum, modulo 2^width
    Add,
    /// the difference, modulo 2^width
    Subtract,
    /// the product, modulo 2^width
    Multiply,
    /// bits that both have
    And,
    /// bits that one has
    Or,
    /// bits that one has and the other lacks
    Xor,
    /// the bits moved up; a count from the width on gives 0
    ShiftLeft,
    /// the bits moved down; a count from the width on gives 0
    ShiftRight,
    /// the bits moved down and filled with the top bit; a count from the width on gives all top
    /// bits
    ShiftRightSigned,
    /// the quotient of unsigned words; all bits set where the divisor is 0
    Divide,
    /// the remainder of unsigned words; the dividend where the divisor is 0
    Remainder,
}

/// An operator with two arguments.
#[derive(Clone, Copy, PartialEq, Eq, Hash, Debug)]
pub enum BinaryOperator {
    /// both truth values hold
    And,
    /// one of the truth values holds
    Or,
    /// two truth values, or two words of one width, are equal
    Equal,
    /// the first of two words of one width is less, both unsigned
    Less,
    /// an operation on words
    Word(WordOperator),
    /// the byte of a memory at a 32-bit address
    Load,
    /// the word of two bytes, the lowest first
    Join,
}

/// An operator with three arguments.
#[derive(Clone, Copy, PartialEq, Eq, Hash, Debug)]
pub enum TernaryOperator {
    /// the second where the first holds, else the third; both of one sort, memory too
    Choose,
    /// a memory with the byte at a 32-bit address changed
    Store,
}

/// An operator with four arguments.
#[derive(Clone, Copy, PartialEq, Eq, Hash, Debug)]
pub enum QuaternaryOperator {
    /// the second memory at addresses from the third to below the fourth, else the first
    Over,
    /// the word of four bytes, the lowest first
    Join,
}
