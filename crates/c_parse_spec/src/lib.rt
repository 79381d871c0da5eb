//! The grammar of the C that is read, as derivations: which tokens derive which tree, and the first
//! fault of tokens that derive none (ISO C11, 6.5 to 6.9). `specs/Units.antt` has the start symbol,
//! `specs/Faults.antt` the faults, which [`ParseFaultKind`] names. Beside enums and limits nothing
//! runs.
#![tactic(auto)]

pub use tv_limits::{NESTING_LIMIT, OPERATOR_LIMIT};

/// Fuel that suffices for every statement within the limits: a parser uses one up for each
/// construct that it opens.
pub const STATEMENT_FUEL: usize = NESTING_LIMIT + 1;

/// Fuel that suffices for every expression within the limits: a parser passes through eight others
/// at most before it opens a construct or takes an operator.
pub const EXPRESSION_FUEL: usize = 8 * (NESTING_LIMIT + 1 + (OPERATOR_LIMIT + 1)) + 4;

/// A part of C that is left out, which a token at fault belongs to.
#[derive(Clone, Copy, Debug)]
pub enum LeftOut {
    /// `goto`, and a label that is no label of a `switch`
    Goto,
    /// `union`
    Union,
    /// `float`, `double` and `_Complex`
    Float,
    /// `volatile`
    Volatile,
    /// inline assembly
    Asm,
    /// `...`
    Variadic,
    /// `_Bool`
    Bool,
    /// `__attribute__`
    Attribute,
    /// another keyword
    Keyword,
    /// a declarator in brackets, as of a pointer to a function
    FunctionPointer,
    /// a bit-field
    BitField,
    /// the comma operator
    Comma,
    /// a call inside an expression, or of what is no name
    Call,
}

/// Why tokens are no unit.
#[derive(Clone, Copy, Debug)]
pub enum ParseFaultKind {
    /// No unit has this token, or its end, here.
    Unexpected,
    /// A part of C that is left out.
    LeftOut(LeftOut),
    /// More than [`NESTING_LIMIT`] constructs are open, or one expression has more than
    /// [`OPERATOR_LIMIT`] operators.
    Depth,
}

/// What the grammar expects at an offset. With a token that it does not allow there, this
/// determines the fault's kind.
#[derive(Clone, Copy)]
pub enum Role {
    /// nothing that determines a kind
    Nothing,
    /// a declared name, or a parameter's
    DeclaredName,
    /// what follows a member's name directly
    MemberEnd,
    /// what follows an operand
    OperandEnd,
    /// what follows a call
    CallEnd,
    /// the end of an expression statement
    StatementEnd,
    /// the end of an expression statement that is one name
    NameStatementEnd,
    /// the end of an expression statement that ends with a call
    CallStatementEnd,
}
