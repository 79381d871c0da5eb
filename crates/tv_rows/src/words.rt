//! The words of rows.

use attempt::Refusal;
use row_io::{Out, decimal};
use std::alloc::{AllocError, Global};
use tv_words::{Checking, Job, Proving, Showing, WordsFault, command};

/// So many names, parted by commas.
fn put_names(count: u64, names: &mut String) -> Result<(), AllocError> {
    names.push_str("f")?;
    for number in 1..count {
        write!(names, ",f{number}")?;
    }
    Ok(())
}

fn put_word(part: &str, word: &mut String) -> Result<(), AllocError> {
    match part.strip_prefix("names=") {
        Some(count) => put_names(decimal(count), word),
        None => word.push_str(part),
    }
}

/// The words of a row as a program gets them; an empty row has none.
pub(crate) fn read_words(
    alloc: Global,
    row: &str,
    words: &mut Vec<String>,
) -> Result<(), AllocError> {
    if row.is_empty() {
        return Ok(());
    }
    for part in row.split('/') {
        let mut word = String::new(alloc);
        put_word(part, &mut word)?;
        words.push(word)?;
    }
    Ok(())
}

/// A job, spelled out: three files between `|`, and each name of a list after a blank.
fn put_job(job: &Proving<'_>, out: &mut Out) {
    out.put(job.elf);
    out.put("|");
    out.put(job.source);
    out.put("|");
    out.put(job.certificate);
    if let Some(names) = &job.functions {
        out.put("|");
        for name in names {
            out.put(" ");
            out.put(name);
        }
    }
}

/// A job of `check`: the word, three files between `|`, and each name of a list after a blank.
fn put_checked(job: &Checking<'_>, out: &mut Out) {
    out.put("check ");
    out.put(job.elf);
    out.put("|");
    out.put(job.source);
    out.put("|");
    out.put(job.certificate);
    if let Some(names) = &job.functions {
        out.put("|");
        for name in names {
            out.put(" ");
            out.put(name);
        }
    }
}

/// A job of `show`: the word, two files between `|`, and the function.
fn put_shown(job: &Showing<'_>, out: &mut Out) {
    out.put("show ");
    out.put(job.elf);
    out.put("|");
    out.put(job.source);
    out.put("|");
    out.put(job.function);
}

/// The outcome of a row.
pub(crate) fn put_command(alloc: Global, row: &str, out: &mut Out) -> Result<(), AllocError> {
    let mut words = Vec::new(alloc);
    read_words(alloc, row, &mut words)?;
    match command(alloc, words.as_slice()) {
        Ok(Job::Prove(job)) => put_job(&job, out),
        Ok(Job::Check(job)) => put_checked(&job, out),
        Ok(Job::Show(job)) => put_shown(&job, out),
        Err(Refusal::Fault(WordsFault::Words)) => out.put("no command"),
        Err(Refusal::NoMemory) => out.fail(),
    }
    Ok(())
}
