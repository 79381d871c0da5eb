//! The texts of rows.

use row_io::{decimal, split};
use std::alloc::{AllocError, Global};

/// Bytes in hexadecimal; none where they are not.
fn read_bytes(alloc: Global, digits: &str, text: &mut Vec<u8>) -> Result<(), AllocError> {
    match hex::decode(alloc, digits) {
        Ok(bytes) => text.extend_from_slice(bytes.as_slice()),
        Err(_) => Ok(()),
    }
}

/// A piece so many times.
fn repeat(count: u64, piece: &str, text: &mut Vec<u8>) -> Result<(), AllocError> {
    for _ in 0..count {
        text.extend_from_slice(piece.as_bytes())?;
    }
    Ok(())
}

/// A piece between backquotes: bytes in hexadecimal, or a piece that is repeated.
fn read_piece(alloc: Global, piece: &str, text: &mut Vec<u8>) -> Result<(), AllocError> {
    if piece.contains('*') {
        let (count, repeated) = split(piece, '*');
        return repeat(decimal(count), repeated, text);
    }
    read_bytes(alloc, piece, text)
}

/// The text of a row.
pub(crate) fn read(alloc: Global, row: &str, text: &mut Vec<u8>) -> Result<(), AllocError> {
    let mut is_plain = true;
    for piece in row.split('`') {
        if is_plain {
            repeat(1, piece, text)?;
        } else {
            read_piece(alloc, piece, text)?;
        }
        is_plain = !is_plain;
    }
    Ok(())
}
