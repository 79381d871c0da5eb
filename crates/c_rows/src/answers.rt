//! Rows of typed units. A right row is written as `ok`, another with what was found in place of its
//! answer; where the answer is `?`, what was found is written after it.

use crate::{graphs, numbered, runs, typing};
use c_types::typed::Typed;
use row_io::{Out, split, split_at};
use row_sources::{read_tokens, read_unit};
use std::alloc::Global;

/// The answer to a question on a unit.
fn put_answer<'a>(alloc: Global, question: &'a str, unit: &Typed<'a>, out: &mut Out) {
    let (asked, rest) = split(question, ' ');
    match asked {
        "run" => runs::put_answer(alloc, rest, unit, out),
        "guards" | "graph" | "points" | "sizes" => {
            graphs::put_answer(alloc, asked, rest, unit, out)
        }
        _ => typing::put_answer(alloc, asked, rest, unit, out),
    }
}

/// The answer to a question on a text, or the first fault of the text.
fn put_text(alloc: Global, question: &str, text: &[u8], out: &mut Out) {
    if let Some(tokens) = read_tokens(alloc, text, out) {
        if let Some(unit) = read_unit(alloc, tokens.as_slice(), text.len(), out) {
            put_answer(alloc, question, &unit, out);
        }
    }
}

/// What was found for a row.
fn put_found(answer: &str, found: &str, line: &str, out: &mut Out) {
    if answer == "?" {
        out.put("? ");
        out.put(found);
    } else if answer == found {
        out.put("ok");
    } else {
        out.put(found);
        out.put(" was found: ");
        out.put(line);
    }
    out.put("\n");
}

/// The outcome of a row.
pub(crate) fn put_row(alloc: Global, line: &str, out: &mut Out) {
    let (question, rest) = split_at(line, " | ");
    let (answer, row) = split_at(rest, " | ");
    let mut text = String::new(alloc);
    let mut found = Out::new(alloc);
    if numbered::read(row, &mut text).is_err() {
        out.fail();
    }
    put_text(alloc, question, text.as_str().as_bytes(), &mut found);
    match found.text() {
        Ok(found) => put_found(answer, found.trim(), line, out),
        Err(_) => out.fail(),
    }
}
