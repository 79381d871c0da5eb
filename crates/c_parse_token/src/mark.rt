//! `const` and `*`.

ghost use Rattle.std.specs.Prelude.{◌≡◌, Ok, IfSome, IfNone, false, true};
ghost use Rattle.c_token_spec.specs.declared.token.Punctuator.TheVariants as punctuator;
ghost use Rattle.c_parse_spec.specs.declared.Role.TheVariants.{Nothing};
ghost use Rattle.c_parse_spec.specs.Leaves.{plain};
ghost use Rattle.exact_read.specs.Grammar.{read_map};
ghost use Rattle.c_parse_laws.specs.Classes.{is_mark, mark_offset};
ghost use Rattle.c_parse_laws.specs.Parsers.{token, next_is};
ghost use Rattle.c_parse_laws.specs.Types as types;
ghost use Rattle.c_token.specs.Pieces.{token_of};
ghost use Rattle.c_parse_token.specs.Lists.{list_of, TakesOne, IsNoLonger};
ghost use Rattle.c_parse_token.specs.Words.{first_of};

use crate::class::is_mark;
use crate::tokens::Tokens;
use c_token::Kind;
use c_token_spec::token::{Keyword, Punctuator};

// The keyword `const`.
fn is_const(kind: Kind<'_>) -> bool
    ensures { result ≡ types.is_const (token_of kind.entry) }
{
    matches!(kind, Kind::Word(Keyword::Const))
}

// A `const`, if it is next: its offset.
fn take_const(tokens: &mut Tokens<'_>) -> Option<usize>
    ensures taken { IfSome result (λ x. token Nothing plain types.const_offset
        (list_of tokens.old.rest.now) ≡ Ok (x, list_of tokens.new.rest.now)) }
    ensures was { IfSome result (λ _. next_is types.is_const (list_of tokens.old.rest.now) ≡ true) }
    ensures shorter { IfSome result (λ _. TakesOne tokens.old tokens.new) }
    ensures none { IfNone result ((next_is types.is_const (list_of tokens.old.rest.now) ≡ false) ×
        (tokens.new.rest.now ≡ tokens.old.rest.now)) }
    ensures count { tokens.new.count ≡ tokens.old.count }
{
    let [first, rest @ ..] = tokens.rest else {
        return None;
    };
    if !is_const(first.kind) {
        return None;
    }
    tokens.rest = rest;
    Some(first.offset)
}

// A `*`, if it is next.
fn take_star(tokens: &mut Tokens<'_>) -> Option<usize>
    ensures taken { IfSome result (λ x. token Nothing plain (mark_offset punctuator.Star)
        (list_of tokens.old.rest.now) ≡ Ok (x, list_of tokens.new.rest.now)) }
    ensures was { IfSome result (λ _. next_is (is_mark punctuator.Star)
        (list_of tokens.old.rest.now) ≡ true) }
    ensures shorter { IfSome result (λ _. TakesOne tokens.old tokens.new) }
    ensures none { IfNone result ((next_is (is_mark punctuator.Star) (list_of tokens.old.rest.now)
        ≡ false) × (tokens.new.rest.now ≡ tokens.old.rest.now)) }
    ensures count { tokens.new.count ≡ tokens.old.count }
{
    let [first, rest @ ..] = tokens.rest else {
        return None;
    };
    if !is_mark(first.kind, Punctuator::Star) {
        return None;
    }
    tokens.rest = rest;
    Some(first.offset)
}

/// `const`, any number of times: the offset of the first, if there is one.
pub fn consts(tokens: &mut Tokens<'_>) -> Option<usize>
    ensures found { read_map first_of types.read_consts (list_of tokens.old.rest.now) ≡ Ok
        (result, list_of tokens.new.rest.now) }
    ensures shorter { IsNoLonger tokens.new tokens.old }
    ensures count { tokens.new.count ≡ tokens.old.count }
{
    let mut first = None;
    while let Some(offset) = take_const(tokens) {
        first = Some(first.unwrap_or(offset));
    }
    first
}

/// `*`, any number of times, each with `const` after it or without: how many.
pub fn pointer(tokens: &mut Tokens<'_>) -> usize
    ensures found { types.read_pointer (list_of tokens.old.rest.now) ≡ Ok
        (result, list_of tokens.new.rest.now) }
    ensures shorter { IsNoLonger tokens.new tokens.old }
    ensures count { tokens.new.count ≡ tokens.old.count }
{
    let mut stars = 0;
    while let Some(_offset) = take_star(tokens) {
        consts(tokens);
        stars += 1;
    }
    stars
}
