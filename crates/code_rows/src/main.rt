//! Rows of files and code: each line of the input is a row, a name, a colon and words; each line of
//! the output is the name of its row and an outcome. The first word says what is asked:
//!
//! - `word`, `encode`, `effect`: instructions (`instructions`); `machine`: what a machine does
//!   (`machines`)
//! - `file`, `made`, `read`: the bytes of files and what is read off them (`files`)
//! - `code`, `graphs`, `within`, `alone`: what the functions of made files reach, and their graphs
//!   (`functions`)
//! - `nodes`: whether a graph is valid (`nodes`); `countdown`: a walk that has nothing of graphs
//!   (`walks`)
//!
//! A line that begins with `#` says where the outcomes of the rows after it come from.
#![tactic(auto)]

mod files;
mod functions;
mod instructions;
mod machines;
mod nodes;
mod texts;
mod walks;

use row_io::{Out, decimal, hexadecimal, input, output, split, split_at};
use std::alloc::{AllocError, Global};
use std::io;

/// An address or a word, in hexadecimal.
fn address(text: &str) -> u32 {
    (hexadecimal(text) % 0x1_0000_0000) as u32
}

/// A count, an offset or a place, in decimal.
fn number(text: &str) -> usize {
    decimal(text) as usize
}

/// The outcome of a row of instructions, files or graphs.
fn put_other(alloc: Global, asked: &str, row: &str, out: &mut Out) -> Result<(), AllocError> {
    match asked {
        "machine" => machines::put_machine(alloc, row, out),
        "made" => files::put_made(alloc, row, out),
        "nodes" => nodes::put_nodes(alloc, row, out),
        "countdown" => {
            walks::put_countdown(out);
            Ok(())
        }
        _ => functions::put_functions(alloc, asked, row, out),
    }
}

/// The outcome of a row, a line for each part of it; `file` is the bytes that the last row `file`
/// gave.
fn put_outcome(
    alloc: Global,
    row: &str,
    file: &mut Vec<u8>,
    out: &mut Out,
) -> Result<(), AllocError> {
    let (asked, rest) = split(row, ' ');
    match asked {
        "word" | "encode" | "effect" => instructions::put_instruction(asked, rest, out),
        "file" => files::take_file(alloc, rest, file, out),
        "read" => return files::put_read(alloc, rest, file.as_slice(), out),
        _ => return put_other(alloc, asked, rest, out),
    }
    Ok(())
}

/// The outcome of a row, each line after its name.
fn put_row(alloc: Global, line: &str, file: &mut Vec<u8>, out: &mut Out) {
    if line.starts_with('#') {
        return;
    }
    let (name, row) = split_at(line, ": ");
    let mut outcome = Out::new(alloc);
    if put_outcome(alloc, row, file, &mut outcome).is_err() {
        out.fail();
    }
    out.row(name, &outcome);
}

fn put_rows(alloc: Global, rows: &str, out: &mut Out) {
    let mut file = Vec::new(alloc);
    for line in rows.lines() {
        put_row(alloc, line, &mut file, out);
    }
}

fn main(rt: HostRuntime) -> io::Result<()> {
    let rows = input(rt)?;
    let mut out = Out::new(rt.alloc());
    put_rows(rt.alloc(), rows.as_str(), &mut out);
    output(rt, &out)
}
