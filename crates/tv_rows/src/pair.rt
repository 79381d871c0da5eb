//! Pairs: what pairing answers of an executable, the list of functions and a C text.

use crate::answers;
use crate::sources::{self, Row};
use row_io::{Out, decimal, put_executable, split, split_at};
use std::alloc::{AllocError, Global};

/// The outcome of a row of parts, a list and a text.
fn put_parts(alloc: Global, row: &str, out: &mut Out) -> Result<(), AllocError> {
    let (parts, rest) = split_at(row, " | ");
    let (list, text) = split_at(rest, " | ");
    let mut elf = Vec::new(alloc);
    put_executable(alloc, parts, &mut elf)?;
    answers::put_pairs(alloc, elf.as_slice(), list, text.as_bytes(), out)
}

/// The outcome of a row that is made.
fn put_made(alloc: Global, row: &Row, out: &mut Out) -> Result<(), AllocError> {
    let mut elf = Vec::new(alloc);
    put_executable(alloc, row.parts.as_str(), &mut elf)?;
    answers::put_pairs(
        alloc,
        elf.as_slice(),
        row.list.as_str(),
        row.text.as_bytes(),
        out,
    )
}

/// A number of a row.
fn number(text: &str) -> usize {
    (decimal(text) % 0x10_0000) as usize
}

/// The outcome of a row.
pub(crate) fn put_outcome(alloc: Global, row: &str, out: &mut Out) -> Result<(), AllocError> {
    let (asked, rest) = split(row, ' ');
    let (first, second) = split(rest, ' ');
    if asked == "chain" {
        let row = sources::chain(alloc, number(first), number(second))?;
        return put_made(alloc, &row, out);
    }
    if asked == "back" {
        let row = sources::back(alloc, number(first))?;
        return put_made(alloc, &row, out);
    }
    if asked == "wide" {
        let row = sources::wide(alloc, number(first))?;
        return put_made(alloc, &row, out);
    }
    if asked == "long" {
        let row = sources::long(alloc, number(first), number(second))?;
        return put_made(alloc, &row, out);
    }
    put_parts(alloc, row, out)
}
