//! The first token of a type specifier.

ghost use Rattle.std.specs.Prelude.{◌≡◌, IfOk, option_map};
ghost use Rattle.c_parse_spec.specs.declared.Role.TheVariants.{Nothing};
ghost use Rattle.c_parse_spec.specs.Leaves.{plain};
ghost use Rattle.c_parse_laws.specs.Parsers.{token};
ghost use Rattle.c_parse_laws.specs.Types as types;
ghost use Rattle.c_token.specs.Pieces.{token_of};
ghost use Rattle.c_parse_token.specs.Lists.{names_of, Parses, TakesOne};
ghost use Rattle.c_parse_token.specs.Words.{head_of};

use crate::names::TypedefNames;
use crate::outcome::SyntaxFault;
use crate::tokens::Tokens;
use attempt::Refusal;
use c_parse_spec::Role;
use c_syntax::expression::Name;
use c_token::Kind;
use c_token_spec::token::Keyword;

/// What a type specifier begins with.
#[derive(Clone, Copy)]
pub enum Head<'t> {
    /// `void`
    Void,
    /// A word of an integer type.
    Integer(Keyword),
    /// A typedef name.
    Named(Name<'t>),
    /// `struct`
    Struct,
    /// `enum`
    Enum,
}

// What a keyword begins.
fn head_word<'t>(word: Keyword) -> Option<Head<'t>>
    ensures { option_map head_of result ≡ types.head_word word }
{
    match word {
        Keyword::Void => Some(Head::Void),
        Keyword::Char
        | Keyword::Signed
        | Keyword::Unsigned
        | Keyword::Short
        | Keyword::Int
        | Keyword::Long => Some(Head::Integer(word)),
        Keyword::Struct => Some(Head::Struct),
        Keyword::Enum => Some(Head::Enum),
        _ => None,
    }
}

// What a token at this offset begins.
fn head_at<'t>(kind: Kind<'t>, offset: usize, names: &TypedefNames<'t>) -> Option<Head<'t>>
    ensures { option_map head_of result ≡ types.head_of (names_of names.now) (token_of kind.entry)
        offset }
{
    match kind {
        Kind::Word(word) => head_word(word),
        Kind::Name(spelling) => {
            if names.contains(spelling) {
                Some(Head::Named(Name { spelling, offset }))
            } else {
                None
            }
        }
        _ => None,
    }
}

/// What a type specifier begins with, and its offset.
pub fn type_specifier_head<'t>(
    tokens: &mut Tokens<'t>,
    names: &TypedefNames<'t>,
) -> Result<(Head<'t>, usize), Refusal<SyntaxFault>>
    ensures gives { Parses (token Nothing plain (types.head_at (names_of names.now)))
        (λ x. (head_of x.0, x.1)) tokens.old tokens.new result }
    ensures shorter { IfOk result (λ _. TakesOne tokens.old tokens.new) }
    ensures count { tokens.new.count ≡ tokens.old.count }
{
    let [first, rest @ ..] = tokens.rest else {
        return Err(Refusal::Fault(SyntaxFault::Wrong(Role::Nothing)));
    };
    let Some(head) = head_at(first.kind, first.offset, names) else {
        return Err(Refusal::Fault(SyntaxFault::Wrong(Role::Nothing)));
    };
    tokens.rest = rest;
    Ok((head, first.offset))
}
