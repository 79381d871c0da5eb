//! Rows of the search for proofs, each with the answer that is expected of it.
//!
//! A row is `QUESTION WORDS = ANSWER`; each is printed with `ok`, or with what was found in place
//! of the answer. The modules `graphs` and `fits` have the questions. A row without ` = ` is a
//! title.
#![tactic(auto)]

mod fits;
mod graphs;
mod tables;

use row_io::{Out, input, output, split};
use std::alloc::{AllocError, Global};
use std::io;

/// Adds what is found for a question.
fn add_found(alloc: Global, out: &mut Out, question: &str) -> Result<(), AllocError> {
    let (name, text) = split(question, ' ');
    match name {
        "loops" => graphs::answer(alloc, out, text),
        "fit" => fits::answer(alloc, out, text),
        _ => Ok(()),
    }
}

/// Adds the outcome of a question.
fn add_outcome(alloc: Global, out: &mut Out, question: &str, answer: &str) {
    let mut found = Out::new(alloc);
    if add_found(alloc, &mut found, question).is_err() {
        found.fail();
    }
    match found.text() {
        Ok(text) if text == answer => out.put("ok"),
        Ok(text) => {
            out.put("found ");
            out.put(text);
        }
        Err(_) => out.fail(),
    }
}

fn add_row(alloc: Global, out: &mut Out, row: &str) {
    out.put(row);
    if let Some((question, answer)) = row.split_once(" = ") {
        out.put(": ");
        add_outcome(alloc, out, question, answer);
    }
    out.put("\n");
}

fn add_rows(alloc: Global, out: &mut Out, rows: &str) {
    for row in rows.lines() {
        add_row(alloc, out, row);
    }
}

fn main(rt: HostRuntime) -> io::Result<()> {
    let rows = input(rt)?;
    let mut out = Out::new(rt.alloc());
    add_rows(rt.alloc(), &mut out, rows.as_str());
    output(rt, &out)
}
