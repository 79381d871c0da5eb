//! What a token is where a statement is read, and parsers of keywords.

ghost use Rattle.std.specs.Prelude.{◌≡◌, ◌<◌, IfOk, suc};
ghost use Rattle.c_parse_spec.specs.declared.Role.TheVariants.{Nothing};
ghost use Rattle.c_parse_spec.specs.Leaves.{plain, opens};
ghost use Rattle.c_parse_laws.specs.Parsers.{token, next_is};
ghost use Rattle.c_parse_laws.specs.Statements as statements;
ghost use Rattle.c_parse_token.specs.Lists.{list_of, Parses, TakesOne};
ghost use Rattle.c_parse.specs.Pieces.{starts_part};
ghost use Rattle.c_token.specs.Pieces.{token_of};
ghost use Rattle.c_parse_spec.specs.Limits.{nesting_limit};

use attempt::Refusal;
use c_parse_spec::{NESTING_LIMIT, Role};
use c_parse_token::class::is_mark;
use c_parse_token::{SyntaxFault, Tokens};
use c_token::Kind;
use c_token_spec::token::{Keyword, Punctuator};

// The token is this keyword.
fn is_keyword(kind: Kind<'_>, wanted: Keyword) -> bool
    ensures { result ≡ statements.is_keyword wanted (token_of kind.entry) }
{
    matches!(kind, Kind::Word(word) if word == wanted)
}

// The token begins a label of a `switch`.
fn begins_label(kind: Kind<'_>) -> bool
    ensures { result ≡ statements.begins_label (token_of kind.entry) }
{
    is_keyword(kind, Keyword::Case) || is_keyword(kind, Keyword::Default)
}

// No part of a block begins with the token.
fn ends_parts(kind: Kind<'_>) -> bool
    ensures { result ≡ statements.ends_parts (token_of kind.entry) }
{
    is_mark(kind, Punctuator::RightBrace)
        || is_keyword(kind, Keyword::Case)
        || is_keyword(kind, Keyword::Default)
        || is_keyword(kind, Keyword::Else)
}

/// The next token is this keyword.
pub fn next_keyword(tokens: &Tokens<'_>, wanted: Keyword) -> bool
    ensures { result ≡ next_is (statements.is_keyword wanted) (list_of tokens.now.rest.now) }
{
    matches!(tokens.rest, [first, ..] if is_keyword(first.kind, wanted))
}

/// A part of a block can begin with the next token.
pub fn starts_part(tokens: &Tokens<'_>) -> bool
    ensures { result ≡ next_is starts_part (list_of tokens.now.rest.now) }
{
    matches!(tokens.rest, [first, ..] if !ends_parts(first.kind))
}

/// The next token begins a label.
pub fn starts_label(tokens: &Tokens<'_>) -> bool
    ensures { result ≡ next_is statements.begins_label (list_of tokens.now.rest.now) }
{
    matches!(tokens.rest, [first, ..] if begins_label(first.kind))
}

/// A keyword: its offset.
pub fn keyword(tokens: &mut Tokens<'_>, wanted: Keyword) -> Result<usize, Refusal<SyntaxFault>>
    ensures gives { Parses (token Nothing plain (statements.keyword_offset wanted)) (λ x. x)
        tokens.old tokens.new result }
    ensures shorter { IfOk result (λ _. TakesOne tokens.old tokens.new) }
{
    match tokens.rest {
        [first, rest @ ..] if is_keyword(first.kind, wanted) => {
            tokens.rest = rest;
            Ok(first.offset)
        }
        _ => Err(Refusal::Fault(SyntaxFault::Wrong(Role::Nothing))),
    }
}

/// A keyword with which a construct more is open: its offset.
pub fn opening(
    tokens: &mut Tokens<'_>,
    wanted: Keyword,
    depth: usize,
) -> Result<usize, Refusal<SyntaxFault>>
    ensures gives { Parses (token Nothing (opens (suc depth)) (statements.keyword_offset wanted))
        (λ x. x) tokens.old tokens.new result }
    ensures within { IfOk result (λ _. depth < nesting_limit) }
    ensures shorter { IfOk result (λ _. TakesOne tokens.old tokens.new) }
{
    match tokens.rest {
        [first, rest @ ..] if is_keyword(first.kind, wanted) => {
            if NESTING_LIMIT <= depth {
                return Err(Refusal::Fault(SyntaxFault::LimitExceeded));
            }
            tokens.rest = rest;
            Ok(first.offset)
        }
        _ => Err(Refusal::Fault(SyntaxFault::Wrong(Role::Nothing))),
    }
}
