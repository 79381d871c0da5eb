//! A C unit as a tree (ISO C11, 6.5 to 6.9): its operators here, and in `specs/Expression.antt` and
//! `specs/Unit.antt` the trees, `TranslationUnit` above all. Brackets stay in a tree, each name and
//! operator has its offset, and initial values of globals are left out. Only enums run.
#![tactic(auto)]

/// An operator between two operands (6.5.5 to 6.5.14), the loosest first. In `a op= b` it is the
/// `op`.
#[derive(Clone, Copy, Debug)]
pub enum BinaryOperator {
    /// `||`
    LogicalOr,
    /// `&&`
    LogicalAnd,
    /// `|`
    BitOr,
    /// `^`
    BitXor,
    /// `&`
    BitAnd,
    /// `==`
    Equal,
    /// `!=`
    NotEqual,
    /// `<`
    Less,
    /// `>`
    Greater,
    /// `<=`
    LessOrEqual,
    /// `>=`
    GreaterOrEqual,
    /// `<<`
    ShiftLeft,
    /// `>>`
    ShiftRight,
    /// `+`
    Add,
    /// `-`
    Subtract,
    /// `*`
    Multiply,
    /// `/`
    Divide,
    /// `%`
    Remainder,
}

/// An operator before its operand (6.5.3).
#[derive(Clone, Copy, Debug)]
pub enum UnaryOperator {
    /// `&`
    AddressOf,
    /// `*`
    Dereference,
    /// `+`
    Plus,
    /// `-`
    Minus,
    /// `~`
    Complement,
    /// `!`
    Not,
}

/// How a member is named (6.5.2.3).
#[derive(Clone, Copy, Debug)]
pub enum Access {
    /// `.`, of a struct
    Dot,
    /// `->`, of what a pointer points to
    Arrow,
}

/// A change by one (6.5.2.4, 6.5.3.1).
#[derive(Clone, Copy, Debug)]
pub enum StepOperator {
    /// `++`
    Increment,
    /// `--`
    Decrement,
}

/// An integer type that is named by keywords (6.7.2).
#[derive(Clone, Copy, Debug)]
pub enum IntegerType {
    /// `char`
    Char,
    /// `signed char`
    SignedChar,
    /// `unsigned char`
    UnsignedChar,
    /// `short`
    Short,
    /// `unsigned short`
    UnsignedShort,
    /// `int`
    Int,
    /// `unsigned int`
    UnsignedInt,
    /// `long`
    Long,
    /// `unsigned long`
    UnsignedLong,
    /// `long long`
    LongLong,
    /// `unsigned long long`
    UnsignedLongLong,
}
