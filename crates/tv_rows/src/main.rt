//! Rows of pairs, of certificates, and of whole runs over objects in memory: each line of the input
//! is a row, a name, a colon and what is asked; each line of the output is the name of its row and
//! an outcome. Words are parted by `/`; `names=N` is a list of N names.
//!
//! - `elf HEX`, `zeros SIZE`, `c TEXT`, `pad SIZE`: the pair of the rows after it, the files `e`
//!   and `c`: the bytes of the executable, or as many zeros; the source, where `\n` is a line feed,
//!   or that source with blanks up to a size
//! - `cert TEXT`, `long SIZE`: the file `k` of the rows after it: the certificate, where `|` is a
//!   line feed, or that certificate with blanks up to a size
//! - `run WORDS`: the status, how many calls failed on each object, the report and the certificate,
//!   a `|` for each line feed
//! - `proved WORDS`: the status, the faults and the report; and then, in place of the certificate,
//!   whose steps only the search knows, the status of `check` of it
//! - `trails WORDS`: the status, and each unproved function with why
//! - `fail OBJECT CALL MOST WORDS`: the same where this call fails on one object, and a call takes
//!   at most so many bytes
//! - `steady WORDS`: the same, without the count, over objects that never fail
//! - `words WORDS`: the job of the words; `report NAME=STACK..`: the status and the report of
//!   judgements, of which those without a stack are unproved; `files`: what is written to a file
//!   and read from it
//! - `proof TEXT`: what the check says of a certificate, in which `|` is a line feed, of those
//!   functions of the pair that are in brackets in the row's name: whether it is a proof, or the
//!   function, the offset and the rule of its first fault, or the offset at which it is refused;
//!   `proof goals`: the clauses of the obligations of a bare Leaf of these functions, in the DIMACS
//!   format
//! - `pair PARTS | LIST | TEXT`: what pairing answers of an executable, by its parts as `row_io`
//!   has them, listed functions, separated by blanks, and a C text: of each function its entry,
//!   size and stack, and then all entries that are reached; or the refusal
//! - `pair chain COUNT LISTED`: the same of so many functions, each of which calls the next one,
//!   the first so many of them listed; `pair back COUNT` of the same, all listed, the last one
//!   first; `pair wide COUNT` of so many that only return, all of them listed;
//!   `pair long WORDS STATEMENTS` of one with so many instructions and statements before it
//!   returns. Of many functions the first and the last one are written
//!
//! A line that begins with `#` says where the outcomes of the rows after it come from.
#![tactic(auto)]

mod answers;
mod certificates;
mod check;
mod files;
mod judgements;
mod obligations;
mod outcomes;
mod pair;
mod runs;
mod sources;
mod trails;
mod words;

use crate::runs::Pair;
use row_io::{Out, input, output, split, split_at};
use std::alloc::{AllocError, Global};
use std::io;

/// The pair of a row; whether the row is one of those that give it.
fn read_pair(alloc: Global, asked: &str, rest: &str, pair: &mut Pair) -> Result<bool, AllocError> {
    match asked {
        "elf" => runs::read_elf(alloc, rest, pair)?,
        "zeros" => runs::read_zeros(rest, pair)?,
        "c" => runs::read_source(rest, pair)?,
        "pad" => runs::pad_source(rest, pair)?,
        "cert" => runs::read_certificate(rest, pair)?,
        "long" => runs::pad_certificate(rest, pair)?,
        _ => return Ok(false),
    }
    Ok(true)
}

/// The outcome of a row; a row of the pair has none.
fn put_outcome(
    alloc: Global,
    name: &str,
    row: &str,
    pair: &mut Pair,
    out: &mut Out,
) -> Result<(), AllocError> {
    let (asked, rest) = split(row, ' ');
    if read_pair(alloc, asked, rest, pair)? {
        return Ok(());
    }
    match asked {
        "run" => runs::put_whole(alloc, rest, pair, out),
        "proved" => runs::put_proved(alloc, rest, pair, out),
        "trails" => runs::put_trails(alloc, rest, pair, out),
        "fail" => runs::put_failing(alloc, rest, pair, out),
        "steady" => runs::put_steady(alloc, rest, pair, out),
        "words" => words::put_command(alloc, rest, out),
        "pair" => pair::put_outcome(alloc, rest, out),
        "proof" => {
            check::put_outcome(alloc, name, rest, pair, out);
            Ok(())
        }
        _ => judgements::put_judged(alloc, rest, out),
    }
}

/// Writes the outcome of a row, where it has one.
fn print_row(rt: HostRuntime, line: &str, pair: &mut Pair) -> io::Result<()> {
    let mut outcome = Out::new(rt.alloc());
    let (name, row) = split_at(line, ": ");
    if row == "files" {
        files::put_files(rt, &mut outcome);
    } else {
        put_outcome(rt.alloc(), name, row, pair, &mut outcome)?;
    }
    let mut out = Out::new(rt.alloc());
    out.row(name, &outcome);
    output(rt, &out)
}

fn print_rows(rt: HostRuntime, rows: &str, pair: &mut Pair) -> io::Result<()> {
    for line in rows.lines() {
        if !line.starts_with('#') {
            print_row(rt, line, pair)?;
        }
    }
    Ok(())
}

fn main(rt: HostRuntime) -> io::Result<()> {
    let rows = input(rt)?;
    let mut pair = Pair {
        elf: Vec::new(rt.alloc()),
        source: Vec::new(rt.alloc()),
        certificate: Vec::new(rt.alloc()),
    };
    print_rows(rt, rows.as_str(), &mut pair)
}
