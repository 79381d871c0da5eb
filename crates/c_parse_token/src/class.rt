//! What a token is where an expression is read.

ghost use Rattle.std.specs.Prelude.{◌≡◌};
ghost use Rattle.c_parse_spec.specs.Expressions as grammar;
ghost use Rattle.c_parse_laws.specs.Classes as classes;
ghost use Rattle.c_parse_token.specs.Lists.{names_of};
ghost use Rattle.c_token.specs.Pieces.{token_of};

use crate::names::TypedefNames;
use c_syntax_spec::{Access, BinaryOperator, UnaryOperator};
use c_token::Kind;
use c_token_spec::token::{Keyword, Punctuator};

/// The operator before an operand.
pub fn unary_operator(kind: Kind<'_>) -> Option<UnaryOperator>
    ensures { result ≡ classes.unary_operator (token_of kind.entry) }
{
    match kind {
        Kind::Mark(Punctuator::Ampersand) => Some(UnaryOperator::AddressOf),
        Kind::Mark(Punctuator::Star) => Some(UnaryOperator::Dereference),
        Kind::Mark(Punctuator::Plus) => Some(UnaryOperator::Plus),
        Kind::Mark(Punctuator::Minus) => Some(UnaryOperator::Minus),
        Kind::Mark(Punctuator::Tilde) => Some(UnaryOperator::Complement),
        Kind::Mark(Punctuator::Exclamation) => Some(UnaryOperator::Not),
        _ => None,
    }
}

/// The operator that names a member.
pub fn access_operator(kind: Kind<'_>) -> Option<Access>
    ensures { result ≡ classes.access_operator (token_of kind.entry) }
{
    match kind {
        Kind::Mark(Punctuator::Dot) => Some(Access::Dot),
        Kind::Mark(Punctuator::Arrow) => Some(Access::Arrow),
        _ => None,
    }
}

/// The operator between operands.
pub fn binary_operator(kind: Kind<'_>) -> Option<BinaryOperator>
    ensures { result ≡ classes.binary_operator (token_of kind.entry) }
{
    match kind {
        Kind::Mark(mark) => binary_mark(mark),
        _ => None,
    }
}

// The operator between operands that a punctuator is.
fn binary_mark(mark: Punctuator) -> Option<BinaryOperator>
    ensures { result ≡ classes.binary_mark mark }
{
    match mark {
        Punctuator::LogicalOr => Some(BinaryOperator::LogicalOr),
        Punctuator::LogicalAnd => Some(BinaryOperator::LogicalAnd),
        Punctuator::Bar => Some(BinaryOperator::BitOr),
        Punctuator::Caret => Some(BinaryOperator::BitXor),
        Punctuator::Ampersand => Some(BinaryOperator::BitAnd),
        Punctuator::Equals => Some(BinaryOperator::Equal),
        Punctuator::NotEquals => Some(BinaryOperator::NotEqual),
        Punctuator::LessThan => Some(BinaryOperator::Less),
        Punctuator::GreaterThan => Some(BinaryOperator::Greater),
        Punctuator::LessOrEqual => Some(BinaryOperator::LessOrEqual),
        Punctuator::GreaterOrEqual => Some(BinaryOperator::GreaterOrEqual),
        Punctuator::ShiftLeft => Some(BinaryOperator::ShiftLeft),
        Punctuator::ShiftRight => Some(BinaryOperator::ShiftRight),
        Punctuator::Plus => Some(BinaryOperator::Add),
        Punctuator::Minus => Some(BinaryOperator::Subtract),
        Punctuator::Star => Some(BinaryOperator::Multiply),
        Punctuator::Slash => Some(BinaryOperator::Divide),
        Punctuator::Percent => Some(BinaryOperator::Remainder),
        _ => None,
    }
}

/// How tightly an operator binds: the multiplicative ones at 1 up to `||` at 10.
pub fn level_of(operator: BinaryOperator) -> u8
    ensures { result ≡ grammar.level_of operator }
{
    match operator {
        BinaryOperator::Multiply | BinaryOperator::Divide | BinaryOperator::Remainder => 1,
        BinaryOperator::Add | BinaryOperator::Subtract => 2,
        BinaryOperator::ShiftLeft | BinaryOperator::ShiftRight => 3,
        BinaryOperator::Less
        | BinaryOperator::Greater
        | BinaryOperator::LessOrEqual
        | BinaryOperator::GreaterOrEqual => 4,
        BinaryOperator::Equal | BinaryOperator::NotEqual => 5,
        BinaryOperator::BitAnd => 6,
        BinaryOperator::BitXor => 7,
        BinaryOperator::BitOr => 8,
        BinaryOperator::LogicalAnd => 9,
        BinaryOperator::LogicalOr => 10,
    }
}

/// The token is this punctuator.
pub fn is_mark(kind: Kind<'_>, wanted: Punctuator) -> bool
    ensures { result ≡ classes.is_mark wanted (token_of kind.entry) }
{
    match kind {
        Kind::Mark(mark) => mark == wanted,
        _ => false,
    }
}

/// A type in brackets begins with it.
pub fn begins_type(kind: Kind<'_>, names: &TypedefNames<'_>) -> bool
    ensures { result ≡ classes.begins_type (names_of names.now) (token_of kind.entry) }
{
    match kind {
        Kind::Name(spelling) => names.contains(spelling),
        Kind::Word(word) => begins_type_word(word),
        _ => false,
    }
}

// A type in brackets begins with the keyword.
fn begins_type_word(word: Keyword) -> bool
    ensures { result ≡ classes.begins_type_word word }
{
    matches!(
        word,
        Keyword::Const
            | Keyword::Void
            | Keyword::Char
            | Keyword::Signed
            | Keyword::Unsigned
            | Keyword::Short
            | Keyword::Int
            | Keyword::Long
            | Keyword::Struct
            | Keyword::Enum
    )
}
