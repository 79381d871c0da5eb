//! Certificates: what the check says of one, of functions of an executable and its source.

use crate::certificates::put_row;
use crate::runs::Pair;
use elf_read::{Image, read};
use row_io::Out;
use row_sources::{read_tokens, read_unit};
use std::alloc::Global;

/// The outcome of a row over an executable and a text.
fn put_source(
    alloc: Global,
    image: &Image<'_>,
    source: &[u8],
    name: &str,
    text: &str,
    out: &mut Out,
) {
    if let Some(tokens) = read_tokens(alloc, source, out) {
        if let Some(unit) = read_unit(alloc, tokens.as_slice(), source.len(), out) {
            put_row(alloc, image, &unit, name, text, out);
        }
    }
}

/// The outcome of a row `proof`, over the pair.
pub(crate) fn put_outcome(alloc: Global, name: &str, text: &str, pair: &Pair, out: &mut Out) {
    match read(alloc, pair.elf.as_slice()) {
        Ok(image) => put_source(alloc, &image, pair.source.as_slice(), name, text, out),
        Err(_) => out.put("the file is no executable"),
    }
}
