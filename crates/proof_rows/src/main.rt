//! Rows of walks over small graphs, of frames and proofs, and of certificates. A line that begins
//! with `#` is a title, or says where the outcomes of the rows after it come from.
//!
//! A question is `NAME WORDS = ANSWER`; it is printed with `ok`, or with what was found in place of
//! the answer. The modules `lists`, `conditions`, `loads`, `cuts`, `nesting` and `obligations` have
//! those of walks, frames and proofs, `terms` and `calls` those of parts of certificates; `walks`,
//! `graphs`, `settings` and `words` have how walks, graphs, variables and terms are written.
//!
//! Another row is a name, a colon and the text of a certificate, whose outcome is written after its
//! name: the numbers of lines, literals and hints, and whether the certificate is written as the
//! same bytes; or the offset of the fault. The module `texts` has how a text is written. Each text is
//! also fed in pieces, cut in several ways, and after all rows stands how many of these say the same
//! (`pieces`).
#![tactic(auto)]

mod calls;
mod conditions;
mod cuts;
mod frames;
mod graphs;
mod lists;
mod loads;
mod nesting;
mod obligations;
mod pieces;
mod settings;
mod terms;
mod texts;
mod walks;
mod words;

use attempt::Refusal;
use cert_text::{Cert, ReadFault, read, write};
use pieces::Tried;
use row_io::{Out, input, output, split, split_at};
use std::alloc::{AllocError, Global};
use std::io;

/// A number after a blank, and what it counts.
fn put_count(count: usize, of: &str, out: &mut Out) {
    out.put(" ");
    out.show(&count);
    out.put(of);
}

/// What a certificate has, and whether it is written as the same bytes.
fn put_cert(alloc: Global, text: &[u8], cert: &Cert, out: &mut Out) {
    put_count(cert.lines.len(), " lines,", out);
    put_count(cert.logs.literals.len(), " literals,", out);
    put_count(cert.logs.hints.len(), " hints, written ", out);
    match write(alloc, cert) {
        Ok(written) if written.as_slice() == text => out.put("the same"),
        Ok(_) => out.put("otherwise"),
        Err(_) => out.fail(),
    }
}

/// The outcome of a text.
fn put_outcome(alloc: Global, row: &str, tried: &mut Tried, out: &mut Out) {
    let mut text = Vec::new(alloc);
    if texts::read(row, &mut text).is_err() {
        out.fail();
    }
    match read(alloc, text.as_slice()) {
        Ok(cert) => put_cert(alloc, text.as_slice(), &cert, out),
        Err(Refusal::Fault(ReadFault::Refused(offset))) => out.put_at("refused", offset),
        Err(Refusal::NoMemory) => out.fail(),
    }
    if pieces::try_text(alloc, text.as_slice(), tried).is_err() {
        out.fail();
    }
}

/// The name of a text, and its outcome.
fn put_named(alloc: Global, line: &str, tried: &mut Tried, out: &mut Out) {
    let (name, row) = split_at(line, ": ");
    let mut outcome = Out::new(alloc);
    put_outcome(alloc, row, tried, &mut outcome);
    out.row(name, &outcome);
}

/// Adds what is found for a question of walks, frames or proofs.
fn add_found(alloc: Global, out: &mut Out, name: &str, text: &str) -> Result<(), AllocError> {
    match name {
        "visits" => lists::answer(alloc, out, text),
        "conditions" | "sizes" | "stops" | "bounds" | "returns" | "failures" => {
            conditions::answer(alloc, out, name, text)
        }
        "loads" => loads::answer(alloc, out, text),
        "cut" => cuts::answer(alloc, out, text),
        "obligations" => obligations::answer(alloc, out, text),
        "cases" | "negations" => nesting::answer(alloc, out, name, text),
        _ => Ok(()),
    }
}

/// The answer to a question.
fn put_answer(alloc: Global, question: &str, out: &mut Out) {
    let (name, text) = split(question, ' ');
    match name {
        "term" => terms::answer(alloc, text, out),
        "call" => calls::answer(alloc, text, out),
        "find" => calls::find(alloc, text, out),
        _ => {
            if add_found(alloc, out, name, text).is_err() {
                out.fail();
            }
        }
    }
}

/// A question, and whether it has the answer that is expected.
fn put_asked(alloc: Global, line: &str, question: &str, answer: &str, out: &mut Out) {
    let mut found = Out::new(alloc);
    put_answer(alloc, question, &mut found);
    out.put(line);
    match found.text() {
        Ok(text) if text == answer => out.put(": ok\n"),
        Ok(text) => {
            out.put(": found ");
            out.put(text);
            out.put("\n");
        }
        Err(_) => out.fail(),
    }
}

fn put_row(alloc: Global, line: &str, tried: &mut Tried, out: &mut Out) {
    match line.split_once(" = ") {
        Some((question, answer)) => put_asked(alloc, line, question, answer, out),
        None => put_named(alloc, line, tried, out),
    }
}

fn put_rows(alloc: Global, rows: &str, out: &mut Out) {
    let mut tried = Tried {
        cuttings: 0,
        as_read: 0,
    };
    for line in rows.lines() {
        if line.starts_with('#') {
            out.put(line);
            out.put("\n");
        } else {
            put_row(alloc, line, &mut tried, out);
        }
    }
    pieces::put_tried(tried, out);
}

fn main(rt: HostRuntime) -> io::Result<()> {
    let rows = input(rt)?;
    let mut out = Out::new(rt.alloc());
    put_rows(rt.alloc(), rows.as_str(), &mut out);
    output(rt, &out)
}
