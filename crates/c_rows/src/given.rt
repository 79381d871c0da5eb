//! What a row asks a call or a graph for, and where it takes place.

use c_run_value::memory::Memory;
use c_run_value::setting::{Global as Named, Zone};
use memory_spec::Run;
use row_io::{decimal, split, split_at};
use std::alloc::{AllocError, Global};

/// A call of a function, or its graph, and where it takes place.
#[derive(Drop)]
pub(crate) struct Given<'a> {
    /// The name of the function.
    pub(crate) function: &'a [u8],
    /// The values of the arguments.
    pub(crate) arguments: Vec<i128>,
    /// Where the globals are.
    pub(crate) globals: Vec<Named<'a>>,
    /// The bytes at the start.
    pub(crate) memory: Memory,
    /// The fixed bytes.
    pub(crate) fixed: Vec<Run>,
    /// The barred zone.
    pub(crate) barred: Zone,
    /// How many turns there are.
    pub(crate) turns: u64,
    /// An address, and how many bytes from there on are shown.
    pub(crate) shown: Vec<(u32, u64)>,
}

/// An address in decimal, or 0.
fn address(digits: &str) -> u32 {
    match u32::try_from(decimal(digits)) {
        Ok(address) => address,
        Err(_) => 0,
    }
}

/// A number, with a sign or without.
fn number(word: &str) -> i128 {
    match word.strip_prefix('-') {
        Some(digits) => i128::from(decimal(digits)).wrapping_neg(),
        None => i128::from(decimal(word)),
    }
}

/// Bytes in hexadecimal from an address on; none where they are not.
fn read_bytes(alloc: Global, word: &str, at: u32, memory: &mut Memory) -> Result<(), AllocError> {
    let Ok(bytes) = hex::decode(alloc, word) else {
        return Ok(());
    };
    let mut next = at;
    for byte in &bytes {
        memory.put(next, *byte)?;
        next = next.wrapping_add(1);
    }
    Ok(())
}

/// Fixed bytes.
fn read_fixed(
    alloc: Global,
    word: &str,
    start: u32,
    fixed: &mut Vec<Run>,
) -> Result<(), AllocError> {
    if let Ok(bytes) = hex::decode(alloc, word) {
        fixed.push(Run { start, bytes })?;
    }
    Ok(())
}

/// A word of a call with a sign in it.
fn read_word<'a>(alloc: Global, word: &'a str, given: &mut Given<'a>) -> Result<(), AllocError> {
    if word.contains('@') {
        let (name, at) = split(word, '@');
        let name = name.as_bytes();
        let address = address(at);
        given.globals.push(Named { name, address })?;
    } else if word.contains(':') {
        let (at, digits) = split(word, ':');
        read_bytes(alloc, digits, address(at), &mut given.memory)?;
    } else if word.contains('=') {
        let (at, digits) = split(word, '=');
        read_bytes(alloc, digits, address(at), &mut given.memory)?;
        read_fixed(alloc, digits, address(at), &mut given.fixed)?;
    } else {
        read_number(word, given)?;
    }
    Ok(())
}

/// Another word of a call.
fn read_number(word: &str, given: &mut Given<'_>) -> Result<(), AllocError> {
    if word.contains('*') {
        given.turns = decimal(split(word, '*').1);
    } else if word.contains('+') {
        let (at, count) = split(word, '+');
        given.shown.push((address(at), decimal(count)))?;
    } else if word.contains('.') {
        let (low, high) = split_at(word, "..");
        given.barred = Zone {
            low: address(low),
            high: address(high),
        };
    } else {
        given.arguments.push(number(word))?;
    }
    Ok(())
}

/// The name of a function and the words after it.
pub(crate) fn read<'a>(alloc: Global, call: &'a str) -> Result<Given<'a>, AllocError> {
    let (function, words) = split(call, ' ');
    let mut given = Given {
        function: function.as_bytes(),
        arguments: Vec::new(alloc),
        globals: Vec::new(alloc),
        memory: Memory::new(alloc),
        fixed: Vec::new(alloc),
        barred: Zone { low: 0, high: 0 },
        turns: 1000,
        shown: Vec::new(alloc),
    };
    for word in words.split(' ') {
        if !word.is_empty() {
            read_word(alloc, word, &mut given)?;
        }
    }
    Ok(given)
}
