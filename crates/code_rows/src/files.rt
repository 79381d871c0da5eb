//! The bytes of files.
//!
//! - `file HEX`: the file of the rows `read` after it; its size
//! - `read CHANGE.. QUERY..`: of that file, cut by `cut=SIZE` and with another byte by
//!   `OFFSET=BYTE`, the fault, or what the queries give: `segment=N`, `symbol=N`, `run=N`,
//!   `bytes=N`, `at=ADDRESS`, `function=NAME`, `object=NAME`, `pointer=`
//! - `made one`, `made none`: the bytes that are written of a function `f` of two words, and of
//!   nothing with the flags 16

use crate::{address, number};
use attempt::Refusal;
use elf_make::{Parts, write};
use elf_read::{ElfFault, Image, Run, Segment, Symbol, read};
use elf_read_spec::SymbolValues;
use row_io::{Out, split};
use std::alloc::{AllocError, Global};

const ONE: Parts<'static> = Parts {
    segments: &[Segment {
        vaddr: 65536,
        memsz: 8,
        flags: 5,
        bytes: &[0x33, 0x05, 0xb5, 0x00, 0x67, 0x80, 0x00, 0x00],
    }],
    symbols: &[Symbol {
        name: b"f",
        value: 65536,
        size: 8,
        kind: 2,
    }],
    flags: 0,
};

const NONE: Parts<'static> = Parts {
    segments: &[],
    symbols: &[],
    flags: 16,
};

/// The outcome of a row `made`.
pub(crate) fn put_made(alloc: Global, row: &str, out: &mut Out) -> Result<(), AllocError> {
    let bytes = write(alloc, if row == "one" { &ONE } else { &NONE })?;
    out.put(hex::encode(alloc, bytes.as_slice())?.as_str());
    Ok(())
}

/// The outcome of a row `file`.
pub(crate) fn take_file(alloc: Global, row: &str, file: &mut Vec<u8>, out: &mut Out) {
    if let Ok(bytes) = hex::decode(alloc, row) {
        *file = bytes;
    }
    out.show(&file.len());
}

fn put_number(number: u32, out: &mut Out) {
    out.put(" ");
    out.hexadecimal(u64::from(number));
}

fn put_any(number: Option<u32>, out: &mut Out) {
    match number {
        None => out.put(" none"),
        Some(number) => put_number(number, out),
    }
}

fn put_named(named: SymbolValues, out: &mut Out) {
    match named {
        SymbolValues::Absent => out.put(" none"),
        SymbolValues::One(value) => put_number(value, out),
        SymbolValues::Two(first, other) => {
            put_number(first, out);
            put_number(other, out);
        }
    }
}

fn put_segment(segment: Option<&Segment<'_>>, out: &mut Out) {
    let Some(segment) = segment else {
        return out.put(" none");
    };
    put_number(segment.vaddr, out);
    out.put("+");
    out.show(&segment.memsz);
    out.put(" flags ");
    out.show(&segment.flags);
    out.put(" bytes ");
    out.show(&segment.bytes.len());
}

fn put_symbol(symbol: Option<&Symbol<'_>>, out: &mut Out) {
    let Some(symbol) = symbol else {
        return out.put(" none");
    };
    put_number(symbol.value, out);
    out.put("+");
    out.show(&symbol.size);
    out.put(" kind ");
    out.show(&symbol.kind);
}

fn put_run(run: Option<&Run>, out: &mut Out) {
    let Some(run) = run else {
        return out.put(" none");
    };
    put_number(run.start, out);
    out.put(" bytes");
    for byte in run.bytes.as_slice() {
        put_number(u32::from(*byte), out);
    }
}

/// The bytes of a run.
fn put_bytes(
    alloc: Global,
    image: &Image<'_>,
    value: &str,
    out: &mut Out,
) -> Result<(), AllocError> {
    let runs = image.runs(alloc)?;
    put_run(runs.get(number(value)), out);
    Ok(())
}

/// The first and the last address of a run.
fn put_addresses(image: &Image<'_>, index: usize, out: &mut Out) {
    match image.run(index) {
        None => out.put(" none none"),
        Some(run) => {
            put_number(run.first, out);
            put_number(run.last, out);
        }
    }
}

/// The size of the function at an address, and the fixed byte there.
fn put_at(image: &Image<'_>, address: u32, out: &mut Out) {
    put_any(image.size_at(address), out);
    match image.fixed_byte(address) {
        None => out.put(" none"),
        Some(byte) => put_number(u32::from(byte), out),
    }
}

/// What a query of a name or an address gives.
fn put_found(image: &Image<'_>, query: &str, value: &str, out: &mut Out) {
    match query {
        "at" => put_at(image, address(value), out),
        "function" => put_named(image.function(value.as_bytes()), out),
        "object" => put_named(image.object(value.as_bytes()), out),
        "pointer" => put_any(image.global_pointer(), out),
        _ => {}
    }
}

/// What a query gives.
fn put_answer(
    alloc: Global,
    image: &Image<'_>,
    query: &str,
    value: &str,
    out: &mut Out,
) -> Result<(), AllocError> {
    match query {
        "segment" => put_segment(image.segment(number(value)), out),
        "symbol" => put_symbol(image.symbol(number(value)), out),
        "run" => put_addresses(image, number(value), out),
        "bytes" => return put_bytes(alloc, image, value, out),
        _ => put_found(image, query, value, out),
    }
    Ok(())
}

/// What the queries of a row give of an image.
fn put_answers(
    alloc: Global,
    image: &Image<'_>,
    row: &str,
    out: &mut Out,
) -> Result<(), AllocError> {
    out.put("read");
    for word in row.split_whitespace() {
        let (query, value) = split(word, '=');
        put_answer(alloc, image, query, value, out)?;
    }
    Ok(())
}

/// Whether a word is an offset, and not a query.
fn is_offset(word: &str) -> bool {
    match word.as_bytes() {
        [first, ..] => *first < b'a',
        [] => false,
    }
}

/// A change of a row, made.
fn change(bytes: &mut Vec<u8>, offset: &str, value: &str) {
    if offset == "cut" {
        return bytes.truncate(number(value));
    }
    if !is_offset(offset) {
        return;
    }
    if let Some(place) = bytes.as_mut_slice().get_mut(number(offset)) {
        *place = (number(value) % 256) as u8;
    }
}

/// The changes of a row, made.
fn make_changes(bytes: &mut Vec<u8>, row: &str) {
    for word in row.split_whitespace() {
        let (offset, value) = split(word, '=');
        change(bytes, offset, value);
    }
}

fn put_error(error: Refusal<ElfFault>, out: &mut Out) {
    match error {
        Refusal::Fault(fault) => {
            out.show(&fault.kind);
            out.put(" at ");
            out.show(&fault.offset);
        }
        Refusal::NoMemory => out.fail(),
    }
}

/// What the queries of a row give of these bytes.
fn put_file(alloc: Global, bytes: &[u8], row: &str, out: &mut Out) -> Result<(), AllocError> {
    match read(alloc, bytes) {
        Ok(image) => put_answers(alloc, &image, row, out),
        Err(error) => {
            put_error(error, out);
            Ok(())
        }
    }
}

/// The outcome of a row `read`.
pub(crate) fn put_read(
    alloc: Global,
    row: &str,
    file: &[u8],
    out: &mut Out,
) -> Result<(), AllocError> {
    let mut bytes = Vec::from_slice(alloc, file)?;
    make_changes(&mut bytes, row);
    put_file(alloc, bytes.as_slice(), row, out)
}
