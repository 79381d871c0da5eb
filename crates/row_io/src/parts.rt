//! The parts of an executable, in words.

use crate::words::{hexadecimal, split};
use std::alloc::{AllocError, Global};

/// The binding and type of a symbol, and the section that it is of: global, FUNC or OBJECT, and the
/// first.
const FUNCTION: u32 = 0x0001_0012;

const OBJECT: u32 = 0x0001_0011;

/// Where a segment lies, its flags, and its first word among those of all.
#[derive(Clone, Copy)]
pub(crate) struct Span {
    pub(crate) address: u32,
    pub(crate) flags: u32,
    pub(crate) first: usize,
}

/// What the parts of a row say so far; a symbol is four words of its table, and each name is ended
/// by a 0 byte. The first name is empty.
#[derive(Drop)]
pub(crate) struct Parts {
    pub(crate) spans: Vec<Span>,
    pub(crate) words: Vec<u32>,
    pub(crate) symbols: Vec<u32>,
    pub(crate) names: Vec<u8>,
}

/// An address or a word, in hexadecimal.
fn address(text: &str) -> u32 {
    (hexadecimal(text) % 0x1_0000_0000) as u32
}

/// A symbol of a type.
fn add_symbol(parts: &mut Parts, name: &str, place: &str, of: u32) -> Result<(), AllocError> {
    let (entry, size) = split(place, '+');
    let at = (parts.names.len() % 0x100_0000) as u32;
    parts
        .symbols
        .extend_from_slice(&[at, address(entry), address(size), of])?;
    parts.names.extend_from_slice(name.as_bytes())?;
    parts.names.push(0)?;
    Ok(())
}

/// A segment that begins.
fn begin(parts: &mut Parts, part: &str) -> Result<(), AllocError> {
    let (at, flags) = split(part, ':');
    parts.spans.push(Span {
        address: address(at),
        flags: address(flags),
        first: parts.words.len(),
    })?;
    Ok(())
}

/// A part of a row.
fn add(parts: &mut Parts, part: &str) -> Result<(), AllocError> {
    if let Some((name, place)) = part.split_once('@') {
        return add_symbol(parts, name, place, FUNCTION);
    }
    if let Some((name, place)) = part.split_once('%') {
        return add_symbol(parts, name, place, OBJECT);
    }
    if part.contains('+') {
        return add_symbol(parts, "", part, FUNCTION);
    }
    if part.contains(':') {
        return begin(parts, part);
    }
    parts.words.push(address(part))?;
    Ok(())
}

/// All parts of a row.
fn add_all(parts: &mut Parts, row: &str) -> Result<(), AllocError> {
    parts.names.push(0)?;
    for part in row.split_whitespace() {
        add(parts, part)?;
    }
    for _ in 0..3 {
        if !parts.names.len().is_multiple_of(4) {
            parts.names.push(0)?;
        }
    }
    Ok(())
}

/// The parts of a row; the names are whole words.
pub(crate) fn read(alloc: Global, row: &str) -> Result<Parts, AllocError> {
    let mut parts = Parts {
        spans: Vec::new(alloc),
        words: Vec::new(alloc),
        symbols: Vec::new(alloc),
        names: Vec::new(alloc),
    };
    add_all(&mut parts, row)?;
    Ok(parts)
}
