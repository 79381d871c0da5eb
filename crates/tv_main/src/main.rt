//! The program `tv`: a run on the files and the standard output of the operating system.
//!
//! It makes the objects of the outside, calls [`tv_core::run`] with the words that it was started
//! with, and exits with its answer. All that is claimed of a run is a clause of that call. A word
//! `--why` before all others is none of the run's: with it, what [`tv_core::run`] hands out and
//! tells of each function that it calls unproved is printed after the report. Where standard error
//! is a terminal, it says how many functions are done and which is in work.
#![tactic(auto)]

mod notes;
mod reasons;
mod values;

use notes::Teller;
use row_io::{Out, output};
use std::io::{IsTerminal, Stderr};
use std::process::ExitCode;
use std::rt::Env;
use std::{env, io};
use tv_base::{Descriptors, FileDesk, FileStore, OutSink};
use tv_core::{Trails, run};

/// The words that the program was started with.
fn words(rt: &(impl Env + AllocGlobal)) -> io::Result<Vec<String>> {
    let words = env::args(rt)?.collect(rt.alloc())?;
    Ok(words)
}

/// Takes the notes of a run: progress is shown where standard error is a terminal.
fn teller(rt: HostRuntime, keeps: bool) -> Teller<Stderr> {
    let error = rt.stderr();
    let terminal = if error.is_terminal() {
        Some(error)
    } else {
        None
    };
    Teller::new(rt.alloc(), terminal, keeps)
}

/// A run on these words, over the real outside.
fn status(
    rt: HostRuntime,
    words: &[String],
    trails: &mut Trails,
    notes: &mut Teller<Stderr>,
) -> u8 {
    let mut desk = FileDesk::new(rt);
    let mut report = OutSink::new(rt);
    let mut certificate = FileStore::new(rt);
    let status = run(
        rt.alloc(),
        words,
        &mut desk,
        &mut report,
        &mut certificate,
        trails,
        notes,
    );
    notes.clear();
    status
}

/// A run on these words, and why functions are unproved.
fn explained(rt: HostRuntime, words: &[String]) -> io::Result<u8> {
    let mut trails = Trails::new(rt.alloc());
    let mut notes = teller(rt, true);
    let status = status(rt, words, &mut trails, &mut notes);
    let mut out = Out::new(rt.alloc());
    match notes.told() {
        Some(told) => reasons::put_reasons(rt.alloc(), &trails, told, &mut out),
        None => out.fail(),
    }
    output(rt, &out)?;
    Ok(status)
}

/// Whether the word after the program's name asks why functions are unproved.
fn asks_why(words: &[String]) -> bool {
    match words {
        [_, word, ..] => word.as_str() == "--why",
        _ => false,
    }
}

/// A run on the words that the program was started with.
fn answered(rt: HostRuntime, words: &[String]) -> io::Result<u8> {
    if asks_why(words) {
        // `--why` is in the place of the program's name, which is no word of a command
        let rest = match words {
            [_, rest @ ..] => rest,
            [] => words,
        };
        return explained(rt, rest);
    }
    let mut trails = Trails::new(rt.alloc());
    Ok(status(rt, words, &mut trails, &mut teller(rt, false)))
}

/// The status of a run that was cut off: out of memory, or a failed read or write.
fn status_of(error: &io::Error) -> u8 {
    if error.kind() == io::ErrorKind::OutOfMemory {
        5
    } else {
        4
    }
}

/// A run on the words that the program was started with. Words that are not text are no command.
fn ended(rt: HostRuntime) -> io::Result<u8> {
    match words(&rt) {
        Ok(words) => answered(rt, words.as_slice()),
        Err(error) if error.kind() == io::ErrorKind::OutOfMemory => Err(error),
        Err(_) => answered(rt, &[]),
    }
}

/// Before any file is opened the standard descriptors are taken, so that a report is never written
/// into a file.
fn main(rt: HostRuntime) -> ExitCode {
    let taken = match Descriptors::take(&rt) {
        Ok(taken) => taken,
        Err(error) => return ExitCode::from(status_of(&error)),
    };
    let status = match ended(rt) {
        Ok(status) => status,
        Err(error) => status_of(&error),
    };
    drop(taken);
    ExitCode::from(status)
}
