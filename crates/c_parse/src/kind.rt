//! The kind of a fault, by the token at fault and by what is expected in its place.

ghost use Rattle.std.specs.Prelude.{◌≡◌};
ghost use Rattle.c_parse_spec.specs.declared.Role.TheVariants.{CallEnd};
ghost use Rattle.c_parse_spec.specs.Faults as faults;
ghost use Rattle.c_parse_token.specs.Lists.{list_of};
ghost use Rattle.c_token.specs.Pieces.{token_of};

use c_parse_spec::{LeftOut, ParseFaultKind, Role};
use c_token::{Kind, Token};
use c_token_spec::token::{Keyword, Punctuator};

// The part of C that a keyword is of, where it is left out.
fn left_out_keyword(word: Keyword) -> Option<LeftOut>
    ensures { result ≡ faults.left_out_keyword word }
{
    match word {
        Keyword::Goto => Some(LeftOut::Goto),
        Keyword::Union => Some(LeftOut::Union),
        Keyword::Float | Keyword::Double | Keyword::Complex => Some(LeftOut::Float),
        Keyword::Volatile => Some(LeftOut::Volatile),
        Keyword::Asm => Some(LeftOut::Asm),
        Keyword::Boolean => Some(LeftOut::Bool),
        Keyword::Attribute => Some(LeftOut::Attribute),
        Keyword::Auto
        | Keyword::Register
        | Keyword::Restrict
        | Keyword::Alignas
        | Keyword::Alignof
        | Keyword::Atomic
        | Keyword::Generic
        | Keyword::Imaginary
        | Keyword::Noreturn
        | Keyword::StaticAssert
        | Keyword::ThreadLocal => Some(LeftOut::Keyword),
        _ => None,
    }
}

// An operator of expressions.
fn is_operator(mark: Punctuator) -> bool
    ensures { result ≡ faults.is_operator mark }
{
    !matches!(
        mark,
        Punctuator::Ellipsis
            | Punctuator::RightParenthesis
            | Punctuator::RightBracket
            | Punctuator::LeftBrace
            | Punctuator::RightBrace
            | Punctuator::Colon
            | Punctuator::Semicolon
            | Punctuator::Comma
    )
}

// The part of C that an operator after a call is of.
fn after_call(kind: Kind<'_>) -> Option<LeftOut>
    ensures { result ≡ faults.left_out_by_role CallEnd (token_of kind.entry) }
{
    match kind {
        Kind::Word(Keyword::Sizeof) => Some(LeftOut::Call),
        Kind::Mark(mark) => {
            if is_operator(mark) {
                Some(LeftOut::Call)
            } else {
                None
            }
        }
        _ => None,
    }
}

// The part of C that a token is of, where it is left out and something else was expected.
fn left_out_by_role(role: Role, kind: Kind<'_>) -> Option<LeftOut>
    ensures { result ≡ faults.left_out_by_role role (token_of kind.entry) }
{
    match (role, kind) {
        (Role::DeclaredName, Kind::Mark(Punctuator::LeftParenthesis)) => {
            Some(LeftOut::FunctionPointer)
        }
        (Role::MemberEnd, Kind::Mark(Punctuator::Colon)) => Some(LeftOut::BitField),
        (Role::OperandEnd, Kind::Mark(Punctuator::LeftParenthesis)) => Some(LeftOut::Call),
        (Role::StatementEnd, Kind::Mark(Punctuator::LeftParenthesis)) => Some(LeftOut::Call),
        (Role::StatementEnd, Kind::Mark(Punctuator::Comma)) => Some(LeftOut::Comma),
        (Role::NameStatementEnd, Kind::Mark(Punctuator::Colon)) => Some(LeftOut::Goto),
        (Role::NameStatementEnd, Kind::Mark(Punctuator::Comma)) => Some(LeftOut::Comma),
        (Role::CallStatementEnd, Kind::Mark(Punctuator::Comma)) => Some(LeftOut::Comma),
        (Role::CallEnd | Role::CallStatementEnd, kind) => after_call(kind),
        _ => None,
    }
}

// The part of C that a token is of, where it is left out everywhere.
fn left_out_token(kind: Kind<'_>) -> Option<LeftOut>
    ensures { result ≡ faults.left_out_token (token_of kind.entry) }
{
    match kind {
        Kind::Word(word) => left_out_keyword(word),
        Kind::Mark(Punctuator::Ellipsis) => Some(LeftOut::Variadic),
        _ => None,
    }
}

/// The kind of a fault at the first of these tokens, or at the end, where this is expected.
pub fn fault_kind(role: Role, rest: &[Token<'_>]) -> ParseFaultKind
    ensures { result ≡ faults.fault_kind role (list_of rest.now) }
{
    let [first, ..] = rest else {
        return ParseFaultKind::Unexpected;
    };
    if let Some(part) = left_out_token(first.kind) {
        return ParseFaultKind::LeftOut(part);
    }
    match left_out_by_role(role, first.kind) {
        Some(part) => ParseFaultKind::LeftOut(part),
        None => ParseFaultKind::Unexpected,
    }
}
