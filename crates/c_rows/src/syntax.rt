//! Rows of tokens and trees.

use crate::{texts, tokens, units};
use c_parse::{discard, parse};
use c_token::Token;
use row_io::{Out, split, split_at};
use row_sources::{put_parse_error, read_tokens};
use std::alloc::Global;

/// The tree of tokens, where it is asked for, or their first fault; the text has so many bytes.
fn put_parsed(alloc: Global, is_tree: bool, tokens: &[Token<'_>], end: usize, out: &mut Out) {
    match parse(alloc, tokens) {
        Ok(unit) => {
            units::put_unit(is_tree, &unit, out);
            discard(unit);
        }
        Err(error) => put_parse_error(error, tokens, end, out),
    }
}

/// What is asked of tokens.
fn put_tokens(alloc: Global, asked: &str, all: &[Token<'_>], end: usize, out: &mut Out) {
    if asked == "tokens" {
        tokens::put_tokens(all, out);
    } else {
        put_parsed(alloc, asked == "tree", all, end, out);
    }
}

/// What is asked of a text, or the first fault of its tokens.
fn put_text(alloc: Global, asked: &str, text: &[u8], out: &mut Out) {
    if let Some(all) = read_tokens(alloc, text, out) {
        put_tokens(alloc, asked, all.as_slice(), text.len(), out);
    }
}

/// The outcome of a row.
fn put_outcome(alloc: Global, row: &str, out: &mut Out) {
    let (asked, pieces) = split(row, ' ');
    let mut text = Vec::new(alloc);
    if texts::read(alloc, pieces, &mut text).is_err() {
        out.fail();
    }
    put_text(alloc, asked, text.as_slice(), out);
}

/// The outcome of a row after its name.
pub(crate) fn put_row(alloc: Global, line: &str, out: &mut Out) {
    let (name, row) = split_at(line, ": ");
    let mut outcome = Out::new(alloc);
    put_outcome(alloc, row, &mut outcome);
    out.row(name, &outcome);
}
