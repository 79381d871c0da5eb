//! Rows of terms, goals, clauses and logs, each with the answer that is expected of it.
//!
//! A row is `QUESTION WORDS = ANSWER`; each is printed with `ok`, or with what was found in place
//! of the answer. The modules `terms`, `trees`, `goals`, `closing`, `logs`, `searches`, `steps`
//! and `rules` have the questions, `words` has how a term is written, and `clauses` how clauses
//! are. A row without ` = ` is a title.
#![tactic(auto)]

mod clauses;
mod closing;
mod families;
mod goals;
mod logs;
mod rules;
mod searches;
mod steps;
mod terms;
mod trees;
mod words;

use row_io::{Out, decimal, input, output, split, split_at};
use std::alloc::{AllocError, Global};
use std::io;
use term_bank::{Bank, TermId};
use term_core::Assignment;

/// What is asked of a term.
#[derive(Clone, Copy)]
pub(crate) enum Question {
    Value,
    Tree,
    Set,
    Normal,
    Flat,
    Indices,
    Rebuild,
    Subterms,
    Substitute,
    Rename,
    Clauses,
    Digest,
    Within,
    Model,
    Close,
    Seek,
    Steps,
    Comm,
    Bits,
    Decided,
}

const QUESTIONS: [(&str, Question); 20] = [
    ("value", Question::Value),
    ("tree", Question::Tree),
    ("set", Question::Set),
    ("normal", Question::Normal),
    ("flat", Question::Flat),
    ("indices", Question::Indices),
    ("rebuild", Question::Rebuild),
    ("subterms", Question::Subterms),
    ("substitute", Question::Substitute),
    ("rename", Question::Rename),
    ("clauses", Question::Clauses),
    ("digest", Question::Digest),
    ("within", Question::Within),
    ("model", Question::Model),
    ("close", Question::Close),
    ("seek", Question::Seek),
    ("steps", Question::Steps),
    ("comm", Question::Comm),
    ("bits", Question::Bits),
    ("decided", Question::Decided),
];

/// A row's question, what follows its colon, and the expected answer.
#[derive(Clone, Copy)]
pub(crate) struct Row<'a> {
    question: Question,
    detail: &'a str,
    form: &'a str,
}

/// The question of a name; any other name asks for a value.
fn asked(name: &str) -> Question {
    for (of, question) in &QUESTIONS {
        if *of == name {
            return *question;
        }
    }
    Question::Value
}

/// Answers a question on a term, over the bank that it was read into.
fn ask(
    alloc: Global,
    values: &mut Assignment,
    bank: &mut Bank,
    read: &mut Vec<TermId>,
    text: &str,
    row: Row<'_>,
    out: &mut Out,
) -> Result<(), AllocError> {
    let (term, steps) = split(text, ';');
    let id = words::term(bank, read, term)?;
    match row.question {
        Question::Value => terms::put_value(alloc, values, bank, id, out),
        Question::Tree => terms::put_tree(alloc, values, bank, id, out),
        Question::Set => terms::set(alloc, values, bank, id, row.detail, out),
        Question::Normal => terms::put_normal(alloc, bank, read, id, row.form, out),
        Question::Flat => terms::put_flat(alloc, bank, read, id, row.form, out),
        Question::Indices => terms::put_indices(alloc, bank, id, out),
        Question::Rebuild => terms::put_rebuilt(alloc, values, bank, id, out),
        Question::Subterms => trees::put_subterms(alloc, bank, id, row.detail, out),
        Question::Substitute => trees::put_substituted(alloc, bank, read, id, row, out),
        Question::Rename => trees::put_renamed(alloc, bank, read, id, row, out),
        Question::Model => {
            goals::answer(alloc, values, bank, id, row, out)?;
            terms::put_value(alloc, values, bank, id, out)
        }
        Question::Close => closing::put_close(alloc, bank, id, steps, out),
        Question::Steps => steps::put_left(alloc, bank, read, id, steps, row.form, out),
        Question::Comm => rules::put_same(alloc, bank, read, id, row.question, out),
        Question::Bits => rules::put_same(alloc, bank, read, id, row.question, out),
        Question::Decided => rules::put_decided(alloc, bank, id, out),
        Question::Seek => { closing::put_sought(alloc, values, bank, id, decimal(row.detail), out) }
        _ => goals::answer(alloc, values, bank, id, row, out),
    }
}

/// Answers a question on a term.
fn answer_term(
    alloc: Global,
    values: &mut Assignment,
    text: &str,
    row: Row<'_>,
    out: &mut Out,
) -> Result<(), AllocError> {
    let mut bank = Bank::new(alloc);
    let mut read = Vec::new(alloc);
    ask(alloc, values, &mut bank, &mut read, text, row, out)
}

/// Answers a row.
fn answer(
    alloc: Global,
    values: &mut Assignment,
    row: &str,
    form: &str,
    out: &mut Out,
) -> Result<(), AllocError> {
    let (first, text) = split(row, ' ');
    let (name, detail) = split(first, ':');
    match name {
        "log" => logs::answer(alloc, decimal(detail), text, out),
        "sat" => searches::answer(alloc, text, out),
        _ => {
            let row = Row {
                question: asked(name),
                detail,
                form,
            };
            answer_term(alloc, values, text, row, out)
        }
    }
}

/// Writes what is found for a row.
fn put_found(alloc: Global, values: &mut Assignment, row: &str, form: &str, out: &mut Out) {
    let mut found = Out::new(alloc);
    if answer(alloc, values, row, form, &mut found).is_err() {
        out.fail();
    }
    match found.text() {
        Ok(text) if text == form => out.put(": ok"),
        Ok(text) => {
            out.put(": found ");
            out.put(text);
        }
        Err(_) => out.fail(),
    }
}

/// Writes a row with its outcome.
fn put_row(alloc: Global, values: &mut Assignment, row: &str, out: &mut Out) {
    let (question, form) = split_at(row, " = ");
    out.put(row);
    if !form.is_empty() {
        put_found(alloc, values, question, form, out);
    }
    out.put("\n");
}

fn put_rows(alloc: Global, rows: &str, out: &mut Out) {
    let mut values = Assignment::new(alloc);
    for row in rows.lines() {
        put_row(alloc, &mut values, row, out);
    }
}

fn main(rt: HostRuntime) -> io::Result<()> {
    let rows = input(rt)?;
    let mut out = Out::new(rt.alloc());
    put_rows(rt.alloc(), rows.as_str(), &mut out);
    output(rt, &out)
}
