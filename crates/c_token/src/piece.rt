//! What a text begins with.

ghost use Rattle.std.specs.Prelude.{◌≡◌, ◌≤◌, ◌<◌, ◌+◌, ◌∷◌, length, Some};
ghost use Rattle.std.specs.List.{prefix_len};
ghost use Rattle.c_token_spec.specs.Words.{is_word_byte};
ghost use Rattle.c_token_spec.specs.Lexical.{first_piece, word_piece, number_piece};
ghost use Rattle.c_token_spec.specs.Lexical.{character_piece};
ghost use Rattle.c_token_spec.specs.Lexical.{comment_piece, mark_piece};
ghost use Rattle.c_token.specs.Pieces.{piece_of, count_of};

use crate::Kind;
use crate::blank::{close_len, is_blank_byte, is_marker, line_len};
use crate::character::character_of;
use crate::number::{number_len, number_of};
use crate::word::{begins_word, keyword_of, punctuator_of, word_len};
use c_token_spec::token::TokenFaultKind;

/// What a text begins with, and how many bytes it has.
#[derive(Clone, Copy)]
pub enum Piece<'a> {
    /// Blank space of so many bytes, and whether the line has only blank bytes up to there.
    Blank(usize, bool),
    /// A token of so many bytes.
    Lexeme(Kind<'a>, usize),
    /// No token.
    Fault(TokenFaultKind),
}

/// A name or a keyword.
fn word_piece<'a>(text: &'a [u8]) -> Piece<'a>
    requires { 0 < prefix_len is_word_byte text.now }
    ensures piece { piece_of result ≡ word_piece text.now }
    ensures within { count_of result ≤ length text.now }
    ensures some { 0 < count_of result }
{
    let (word, _) = text.split_at(word_len(text));
    match keyword_of(word) {
        Some(keyword) => Piece::Lexeme(Kind::Word(keyword), word.len()),
        None => Piece::Lexeme(Kind::Name(word), word.len()),
    }
}

/// A number after its first digit.
fn number_piece<'a>(first: u8, text: &'a [u8], rest: &[u8]) -> Piece<'a>
    requires { text.now ≡ first ∷ rest.now }
    ensures piece { piece_of result ≡ number_piece first rest.now }
    ensures within { count_of result ≤ length text.now }
    ensures some { 0 < count_of result }
{
    let count = number_len(first, rest) + 1;
    let (number, _) = text.split_at(count);
    match number_of(number) {
        Some((value, number_type)) => Piece::Lexeme(Kind::Number(value, number_type), count),
        None => Piece::Fault(TokenFaultKind::Number),
    }
}

/// A character constant after its first quote.
fn character_piece<'a>(rest: &[u8]) -> Piece<'a>
    ensures piece { piece_of result ≡ character_piece rest.now }
    ensures within { count_of result ≤ length rest.now + 1 }
    ensures some { 0 < count_of result }
{
    match character_of(rest) {
        Some((value, count)) => Piece::Lexeme(Kind::Character(value), count + 1),
        None => Piece::Fault(TokenFaultKind::Character),
    }
}

/// A comment that begins with `/*`.
fn comment_piece<'a>(text: &[u8]) -> Piece<'a>
    requires { 2 ≤ length text.now }
    ensures piece { piece_of result ≡ comment_piece text.now }
    ensures within { count_of result ≤ length text.now }
    ensures some { 0 < count_of result }
{
    let (_, inside) = text.split_at(2);
    match close_len(inside) {
        Some(count) => Piece::Blank(count + 2, false),
        None => Piece::Fault(TokenFaultKind::Comment),
    }
}

/// A punctuator.
fn mark_piece<'a>(text: &[u8]) -> Piece<'a>
    requires { 0 < length text.now }
    ensures piece { piece_of result ≡ mark_piece text.now }
    ensures within { count_of result ≤ length text.now }
    ensures some { 0 < count_of result }
{
    match punctuator_of(text) {
        Some((punctuator, count)) => Piece::Lexeme(Kind::Mark(punctuator), count),
        None => Piece::Fault(TokenFaultKind::Byte),
    }
}

/// What a text begins with; `fresh` says that only blank bytes are before it in its line.
#[tactic(auto, unfolding(c_token_spec::specs::Lexical::first_piece))]
pub fn first_piece<'a>(fresh: bool, first: u8, rest: &[u8], text: &'a [u8]) -> Piece<'a>
    requires { text.now ≡ first ∷ rest.now }
    ensures piece { piece_of result ≡ first_piece fresh first rest.now }
    ensures within { count_of result ≤ length text.now }
    ensures some { 0 < count_of result }
{
    if is_blank_byte(first) {
        return Piece::Blank(1, fresh || first == b'\n');
    }
    if text.starts_with(b"//") {
        return Piece::Blank(line_len(text), false);
    }
    if text.starts_with(b"/*") {
        return comment_piece(text);
    }
    if fresh && first == b'#' && is_marker(rest) {
        return Piece::Blank(line_len(text), false);
    }
    if begins_word(first) {
        return word_piece(text);
    }
    if first.is_ascii_digit() {
        return number_piece(first, text, rest);
    }
    if first == b'\'' {
        return character_piece(rest);
    }
    mark_piece(text)
}
