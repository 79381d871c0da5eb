//! The texts of rows.

use row_io::{decimal, split};
use std::alloc::AllocError;

/// A byte, or the line feed that it stands for.
fn byte_of(byte: u8) -> u8 {
    if byte == b'|' { b'\n' } else { byte }
}

/// A piece so many times.
fn repeat(count: u64, piece: &str, text: &mut Vec<u8>) -> Result<(), AllocError> {
    for _ in 0..count {
        for byte in piece.bytes() {
            text.push(byte_of(byte))?;
        }
    }
    Ok(())
}

/// A piece between backquotes, which is repeated.
fn read_piece(piece: &str, text: &mut Vec<u8>) -> Result<(), AllocError> {
    let (count, repeated) = split(piece, '*');
    repeat(decimal(count), repeated, text)
}

/// The text of a row.
pub(crate) fn read(row: &str, text: &mut Vec<u8>) -> Result<(), AllocError> {
    let mut is_plain = true;
    for piece in row.split('`') {
        if is_plain {
            repeat(1, piece, text)?;
        } else {
            read_piece(piece, text)?;
        }
        is_plain = !is_plain;
    }
    Ok(())
}
