//! Rows of data: how the programs that test the layers read their rows and write the outcomes.
//! [`Out`] is the text that is written; a row is read as words and numbers.
//!
//! [`put_executable`] writes the executable of some words, laid out by hand from the System V ABI:
//! `ADDRESS:FLAGS` begins a segment, and a word of eight digits lies in it; `NAME@ADDRESS+SIZE` is
//! a symbol of type FUNC, `ADDRESS+SIZE` one without a name, and `NAME%ADDRESS+SIZE` one of type
//! OBJECT. All numbers are hexadecimal.
#![tactic(auto)]

mod layout;
mod out;
mod parts;
mod words;

pub use out::Out;
use std::alloc::{AllocError, Global};
use std::io;
pub use words::{decimal, hexadecimal, split, split_at};

/// All rows: the lines of the standard input.
pub fn input(rt: HostRuntime) -> io::Result<String> {
    io::read_to_string(rt.alloc(), rt.reader())
}

/// Writes all that is in the text to the standard output, or fails where memory ran out.
pub fn output(rt: HostRuntime, out: &Out) -> io::Result<()> {
    print!(rt; "{}", out.text()?)
}

/// The executable of a row, after the bytes that are there.
pub fn put_executable(alloc: Global, row: &str, bytes: &mut Vec<u8>) -> Result<(), AllocError> {
    let parts = parts::read(alloc, row)?;
    layout::put_file(&parts, bytes)
}
