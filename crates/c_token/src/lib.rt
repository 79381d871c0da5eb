//! The tokens of a C text.
//!
//! The main type is [`Token`], which borrows its bytes from the text. [`tokens`] has the crate's
//! contract: it gives exactly the tokens of a text by longest match, or the first fault with its
//! offset. What these are is defined in `c_token_spec`'s `specs/Lexical.antt`.
#![tactic(auto)]

ghost use Rattle.std.specs.Prelude.{◌≡◌, IfOk, IfErr, List, map};
ghost use Rattle.c_token_spec.specs.Lexical.{Placed, AreTokens};
ghost use Rattle.c_token.specs.Pieces.{placed_of};
ghost use Rattle.c_token.specs.Refused.{IsFaultOf};

mod blank;
mod character;
mod number;
mod piece;
mod word;

use attempt::Refusal;
use c_token_spec::token::{Keyword, NumberType, Punctuator, TokenFaultKind};
use piece::{Piece, first_piece};
use std::alloc::Global;

/// What a token is.
#[derive(Clone, Copy)]
pub enum Kind<'a> {
    /// A name, with its bytes.
    Name(&'a [u8]),
    /// A keyword.
    Word(Keyword),
    /// A number, with its value and its type.
    Number(u64, NumberType),
    /// A character constant, with its value; its type is `int`.
    Character(u8),
    /// A punctuator.
    Mark(Punctuator),
}

/// A token.
#[derive(Clone, Copy)]
pub struct Token<'a> {
    /// What it is.
    pub kind: Kind<'a>,
    /// The offset of its first byte, in bytes from the start of the text.
    pub offset: usize,
}

/// Where and why a text has no tokens.
#[derive(Clone, Copy)]
pub struct TokenFault {
    /// Why.
    pub kind: TokenFaultKind,
    /// The offset, in bytes from the start of the text.
    pub offset: usize,
}

/// The tokens of a text, in order, in work linear in its bytes; or its first fault. It refuses a
/// byte that begins no token, a number or a character constant that is none, and a comment that is
/// not closed.
pub fn tokens<'a>(alloc: Global, text: &'a [u8]) -> Result<Vec<Token<'a>>, Refusal<TokenFault>>
    ensures found { IfOk result (λ tokens. AreTokens text.now (map placed_of tokens.items)) }
    ensures same { IfOk result (λ tokens. (placed : List Placed) → AreTokens text.now placed →
        placed ≡ map placed_of tokens.items) }
    ensures fault { IfErr result (λ error. IsFaultOf text.now error) }
    ensures only { IfErr result (λ error. (placed : List Placed) → AreTokens text.now placed → error
        ≡ Refusal.NoMemory) }
{
    let mut tokens = Vec::new(alloc);
    let mut offset = 0;
    let mut rest = text;
    let mut fresh = true;
    'pieces: while let Some((first, after)) = rest.split_first() {
        match first_piece(fresh, *first, after, rest) {
            Piece::Blank(count, then_fresh) => {
                (_, rest) = rest.split_at(count);
                offset += count;
                fresh = then_fresh;
            }
            Piece::Lexeme(kind, count) => {
                tokens.push(Token { kind, offset })?;
                (_, rest) = rest.split_at(count);
                offset += count;
                fresh = false;
            }
            Piece::Fault(kind) => {
                return Err(Refusal::Fault(TokenFault { kind, offset }));
            }
        }
    }
    Ok(tokens)
}
