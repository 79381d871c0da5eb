//! What typing a C unit means (ISO C11, 6.2 to 6.9): the typed core, which is all that a unit's
//! meaning depends on (`specs/Core.antt`), and the rules that give it, or the first fault
//! (`specs/Units.antt`, `typed`). `specs/HasType.antt` states what a typed core satisfies. Beside
//! enums, [`Scalar`] and limits nothing runs.
#![tactic(auto)]

/// The width of `int` and `unsigned int`, to which narrower types are promoted, in bits.
pub const INT_WIDTH: u32 = 32;

/// The width of a pointer and of `sizeof`, in bits.
pub const POINTER_WIDTH: u32 = 32;

/// The width of the integers that occur in typedefs alone so far, in bits.
pub const WIDE_WIDTH: u32 = 64;

/// The size in bytes from which no type may be.
pub const SIZE_LIMIT: u64 = 0x8000_0000;

/// How many words the arguments of a call may have.
pub const ARGUMENT_WORDS: usize = 8;

/// A type of values: an integer type, or the unsigned one of a pointer's width for pointers.
#[derive(Clone, Copy)]
pub struct Scalar {
    /// How many bits it has, a multiple of 8.
    pub width: u32,
    /// It has negative values, in two's complement.
    pub is_signed: bool,
}

/// An operator on two values of one type, or a shift (6.5.5 to 6.5.7, 6.5.10 to 6.5.12).
#[derive(Clone, Copy)]
pub enum Arithmetic {
    /// `+`
    Add,
    /// `-`
    Subtract,
    /// `*`
    Multiply,
    /// `/`
    Divide,
    /// `%`
    Remainder,
    /// `<<`, whose right operand has a type of its own
    ShiftLeft,
    /// `>>`, whose right operand has a type of its own
    ShiftRight,
    /// `&`
    And,
    /// `|`
    Or,
    /// `^`
    Xor,
}

/// A comparison of two values of one type, which gives 0 or 1 (6.5.8, 6.5.9).
#[derive(Clone, Copy)]
pub enum Comparison {
    /// `==`
    Equal,
    /// `!=`
    NotEqual,
    /// `<`
    Less,
    /// `>`
    Greater,
    /// `<=`
    LessOrEqual,
    /// `>=`
    GreaterOrEqual,
}

/// Whether a pointer is moved up or down (6.5.6).
#[derive(Clone, Copy)]
pub enum Direction {
    /// `p + i`
    Up,
    /// `p - i`
    Down,
}

/// Which operand of a sum is evaluated first.
#[derive(Clone, Copy)]
pub enum Order {
    /// `p + i`
    PointerFirst,
    /// `i + p`
    IndexFirst,
}

/// Where the test of a loop is evaluated.
#[derive(Clone, Copy)]
pub enum TestPlace {
    /// Before its body, as in `while` and `for`.
    Before,
    /// After its body, as in `do`.
    After,
}

/// What the inside of a loop or of a `switch` is left by (6.8.6).
#[derive(Clone, Copy)]
pub enum Jump {
    /// `break`
    Break,
    /// `continue`
    Continue,
}

/// Where an expression occurs.
#[derive(Clone, Copy)]
pub enum Position {
    /// As an operand, or as a value that is used.
    Operand,
    /// Directly under `&`, but for brackets.
    Addressed,
    /// As a whole expression statement, but for brackets.
    Statement,
}

/// Which constant an expression is (6.6, 6.3.2.3).
#[derive(Clone, Copy)]
pub enum Standing {
    /// None of the others.
    Computed,
    /// An integer constant expression.
    ConstantExpression,
    /// An integer constant expression of value 0, cast to `void *`.
    NullPointer,
}

/// A part of C that is left out, which typing alone can see. They are in the order in which those
/// of one place are answered.
#[derive(Clone, Copy)]
pub enum LeftOut {
    /// an integer of 64 bits, other than in a typedef
    Word64,
    /// a struct as a value: a local, an argument, a result, an assignment; or a struct or an enum
    /// that is defined within the initial value of a global
    Struct,
    /// a local array
    Array,
    /// the difference of two pointers
    Difference,
    /// the name of a function, other than in a call of it
    FunctionName,
    /// a call that is assigned to what is no plain name
    CallPlace,
    /// a `static` local
    StaticLocal,
}

/// Why a unit has no typed core. They are in the order in which those of one place are answered,
/// but that at an assignment `NotLvalue` comes before `Mismatch`.
#[derive(Clone, Copy)]
pub enum TypeFaultKind {
    /// A name, tag or member that is not declared.
    Unknown,
    /// A name, tag, member, case value or `default` for the second time in its scope, or a second
    /// body of a function.
    Twice,
    /// An operand, argument, result or declaration of a wrong type, or a wrong number of arguments;
    /// `break` or `continue` outside; no constant where one is needed; an enumeration constant
    /// outside `int`; an array length below 1, or a size from [`SIZE_LIMIT`] on; a parameter
    /// without a name in a function with a body.
    Mismatch,
    /// An assignment to, or the address of, what designates no object.
    NotLvalue,
    /// The address of a local.
    AddressOfLocal,
    /// The size of `void`, of a struct without members or of an array without length is needed.
    Incomplete,
    /// More than [`ARGUMENT_WORDS`] words of arguments.
    TooManyWords,
    /// A group of a `switch` that control may leave at its end, where another follows.
    Fallthrough,
    /// A part of C that is left out.
    LeftOut(LeftOut),
}
