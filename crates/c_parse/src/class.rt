//! Classes of tokens in an initial value, and the typedef names that come into scope.

ghost use Rattle.std.specs.Prelude.{◌≡◌, IfOk, false};
ghost use Rattle.c_parse_spec.specs.Expressions.{is_typedef_name};
ghost use Rattle.c_parse_spec.specs.Units.{is_typedef, name_of_global, names_after};
ghost use Rattle.c_parse_laws.specs.Parsers.{next_is};
ghost use Rattle.c_parse_laws.specs.Firsts as firsts;
ghost use Rattle.c_parse_laws.specs.Initializers as initializers;
ghost use Rattle.c_syntax.specs.Expressions.{specifiers_of};
ghost use Rattle.c_syntax.specs.Units.{global_of};
ghost use Rattle.c_parse_token.specs.Lists.{list_of, names_of};
ghost use Rattle.c_token.specs.Pieces.{token_of};

use c_parse_token::class::is_mark;
use c_parse_token::{Tokens, TypedefNames, attempt};
use c_syntax::expression::Specifiers;
use c_syntax::unit::Global;
use c_token::Kind;
use c_token_spec::token::{Keyword, Punctuator};
use std::alloc::AllocError;

// The token begins an expression.
fn begins_expression(kind: Kind<'_>, names: &TypedefNames<'_>) -> bool
    ensures { result ≡ firsts.begins_expression (names_of names.now) (token_of kind.entry) }
{
    match kind {
        Kind::Mark(mark) => matches!(
            mark,
            Punctuator::LeftParenthesis
                | Punctuator::Ampersand
                | Punctuator::Star
                | Punctuator::Plus
                | Punctuator::Minus
                | Punctuator::Tilde
                | Punctuator::Exclamation
        ),
        Kind::Word(word) => word == Keyword::Sizeof,
        Kind::Name(spelling) => !names.contains(spelling),
        Kind::Number(_, _) | Kind::Character(_) => true,
    }
}

// The token begins a designator.
fn begins_designator(kind: Kind<'_>) -> bool
    ensures { result ≡ initializers.begins_designator (token_of kind.entry) }
{
    is_mark(kind, Punctuator::Dot) || is_mark(kind, Punctuator::LeftBracket)
}

/// The next token begins a designator.
pub fn starts_designator(tokens: &Tokens<'_>) -> bool
    ensures { result ≡ next_is initializers.begins_designator (list_of tokens.now.rest.now) }
{
    matches!(tokens.rest, [first, ..] if begins_designator(first.kind))
}

/// The next token begins an initial value, or the designators before one.
pub fn starts_initial<'a>(tokens: &Tokens<'a>, names: &TypedefNames<'a>) -> bool
    ensures { result ≡ next_is (initializers.begins_initial (names_of names.now))
        (list_of tokens.now.rest.now) }
{
    match tokens.rest {
        [first, ..] => {
            is_mark(first.kind, Punctuator::LeftBrace)
                || begins_designator(first.kind)
                || begins_expression(first.kind, names)
        }
        [] => false,
    }
}

/// The specifiers have `typedef`.
pub fn is_typedef(specifiers: &Specifiers<'_>) -> bool
    ensures { result ≡ is_typedef (specifiers_of specifiers.now) }
{
    specifiers.storage.is_typedef
}

// The name that a global declares.
fn declared_name<'a>(global: &Global<'a>) -> &'a [u8]
    ensures { result.now ≡ name_of_global (global_of global.now) }
{
    match global {
        Global::Object(declarator) => declarator.name.spelling,
        Global::Function(declarator) => declarator.name.spelling,
    }
}

/// Brings the name of a global, if declared with `typedef`, into scope as a typedef name.
pub fn declare<'a>(
    names: &mut TypedefNames<'a>,
    is_typedef: bool,
    global: &Global<'a>,
) -> Result<(), AllocError>
    requires fresh { is_typedef_name (names_of names.old) (name_of_global (global_of global.now))
        ≡ false }
    ensures { IfOk result (λ _. names_of names.new ≡ names_after is_typedef (global_of global.now)
        (names_of names.old)) }
{
    if is_typedef {
        attempt!(names.add(declared_name(global)));
    }
    Ok(())
}
