//! The layout of a file: header, program headers, segments, symbols, names, and the headers of
//! three sections.

use crate::parts::Parts;
use std::alloc::AllocError;

/// The bytes of words, one word at a time, until out of memory.
#[derive(Drop)]
struct Words<'a> {
    bytes: &'a mut Vec<u8>,
    failed: bool,
}

impl Words<'_> {
    fn put_bytes(&mut self, bytes: &[u8]) {
        if self.bytes.extend_from_slice(bytes).is_err() {
            self.failed = true;
        }
    }

    fn put(&mut self, words: &[u32]) {
        for word in words {
            self.put_bytes(&word.to_le_bytes());
        }
    }
}

/// The number of bytes of some words.
fn size(words: usize) -> u32 {
    (words % 0x10_0000) as u32 * 4
}

/// The place after the last word of a segment.
fn end(parts: &Parts, segment: usize) -> usize {
    match parts.spans.get(segment.wrapping_add(1)) {
        Some(next) => next.first,
        None => parts.words.len(),
    }
}

/// The program header of each segment, whose bytes begin after the headers.
fn put_programs(parts: &Parts, out: &mut Words) {
    let contents = size(parts.spans.len()).wrapping_mul(8).wrapping_add(52);
    for (place, span) in parts.spans.iter().enumerate() {
        let bytes = size(end(parts, place).wrapping_sub(span.first));
        let offset = contents.wrapping_add(size(span.first));
        let (at, flags) = (span.address, span.flags);
        out.put(&[1, offset, at, at, bytes, bytes, flags, 4]);
    }
}

/// The words of the file.
fn put_words(parts: &Parts, out: &mut Words) {
    let count = size(parts.spans.len());
    let table = count
        .wrapping_mul(8)
        .wrapping_add(52)
        .wrapping_add(size(parts.words.len()));
    let symbols = size(parts.symbols.len()).wrapping_add(16);
    let strings = table.wrapping_add(symbols);
    let length = (parts.names.len() % 0x100_0000) as u32;
    let sections = strings.wrapping_add(length);
    out.put(&[0x464c_457f, 0x0001_0101, 0, 0, 0x00f3_0002, 1, 0, 52]);
    out.put(&[sections, 0, 0x0020_0034, (count / 4) | 0x0028_0000, 3]);
    put_programs(parts, out);
    out.put(parts.words.as_slice());
    out.put(&[0; 4]);
    out.put(parts.symbols.as_slice());
    out.put_bytes(parts.names.as_slice());
    out.put(&[0; 10]);
    out.put(&[0, 2, 0, 0, table, symbols, 2, 1, 4, 16]);
    out.put(&[0, 3, 0, 0, strings, length, 0, 0, 1, 0]);
}

/// The file of some parts, after the bytes that are there.
pub(crate) fn put_file(parts: &Parts, bytes: &mut Vec<u8>) -> Result<(), AllocError> {
    let mut words = Words {
        bytes,
        failed: false,
    };
    put_words(parts, &mut words);
    if words.failed {
        return Err(AllocError);
    }
    Ok(())
}
