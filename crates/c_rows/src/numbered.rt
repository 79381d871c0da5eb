//! The texts of rows. What is between two backquotes is a piece that is repeated, as `3*-`; a `#`
//! in it is the number of the repetition, from 0.

use row_io::{decimal, split};
use std::alloc::AllocError;

/// A piece, with this number in it.
fn numbered(number: u64, piece: &str, text: &mut String) -> Result<(), AllocError> {
    let mut is_first = true;
    for part in piece.split('#') {
        if !is_first {
            write!(text, "{number}")?;
        }
        text.push_str(part)?;
        is_first = false;
    }
    Ok(())
}

/// A piece so many times.
fn repeat(count: u64, piece: &str, text: &mut String) -> Result<(), AllocError> {
    for number in 0..count {
        numbered(number, piece, text)?;
    }
    Ok(())
}

/// The text of a row.
pub(crate) fn read(row: &str, text: &mut String) -> Result<(), AllocError> {
    let mut is_plain = true;
    for piece in row.split('`') {
        if is_plain {
            text.push_str(piece)?;
        } else {
            let (count, repeated) = split(piece, '*');
            repeat(decimal(count), repeated, text)?;
        }
        is_plain = !is_plain;
    }
    Ok(())
}
