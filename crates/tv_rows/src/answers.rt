//! What pairing answers of an executable, a list and a text.

ghost use Rattle.c_types_spec.specs.HasType.{IsTypedUnit};
ghost use Rattle.c_types.specs.Typed.{typed_of};

use attempt::Refusal;
use c_types::typed::Typed;
use elf_read::{Image, read};
use pair_setup::{Function, Named, PairFault, Pairs, pair};
use pair_setup_calls::name_at;
use pair_setup_spec::PairKind;
use row_io::Out;
use row_sources::{read_tokens, read_unit};
use std::alloc::{AllocError, Global};

/// A function: its entry, its size and its stack.
fn put_function(name: &[u8], function: &Function, out: &mut Out) {
    out.bytes(name);
    out.put(" ");
    out.hexadecimal(u64::from(function.entry));
    out.put("+");
    out.show(&function.size);
    out.put(" stack ");
    out.show(&function.stack);
    out.put("; ");
}

/// The functions in the order of the list, and the entries.
fn put_found(list: &[&[u8]], pairs: &Pairs, out: &mut Out) {
    for (name, function) in list.iter().zip(pairs.functions.iter()) {
        put_function(name, function, out);
    }
    out.put("reached");
    for entry in &pairs.entries {
        out.put(" ");
        out.hexadecimal(u64::from(*entry));
    }
}

/// The name of which a fault speaks.
fn put_name(unit: &Typed<'_>, list: &[&[u8]], named: Named, out: &mut Out) {
    let name = match named {
        Named::Nothing => None,
        Named::Listed(index) => list.get(index).copied(),
        Named::Declared(number) => name_at(unit, number),
    };
    match name {
        Some(name) => out.bytes(name),
        None => out.put("-"),
    }
}

/// The word of a refusal.
fn word(kind: PairKind) -> &'static str {
    match kind {
        PairKind::NothingListed => "NothingListed",
        PairKind::NoSource => "NoSource",
        PairKind::NoSymbol => "NoSymbol",
        PairKind::ObjectSize => "ObjectSize",
        PairKind::Recursive => "Recursive",
        PairKind::StackTooDeep => "StackTooDeep",
    }
}

/// A refusal.
fn put_error(unit: &Typed<'_>, list: &[&[u8]], error: Refusal<PairFault>, out: &mut Out) {
    match error {
        Refusal::Fault(PairFault::Refused(kind, named)) => {
            out.put("pair ");
            out.put(word(kind));
            out.put(" ");
            put_name(unit, list, named, out);
        }
        Refusal::Fault(PairFault::Code(fault, index)) => {
            out.put("code ");
            out.show(&fault.kind);
            out.put(" ");
            put_name(unit, list, Named::Listed(index), out);
            out.put(" at ");
            out.hexadecimal(u64::from(fault.address));
        }
        Refusal::Fault(PairFault::Nodes) => out.put("limit nodes"),
        Refusal::NoMemory => out.fail(),
    }
}

/// The function at an index of the list.
fn put_at(list: &[&[u8]], pairs: &Pairs, at: usize, out: &mut Out) {
    if at < list.len() && at < pairs.functions.len() {
        put_function(list[at], &pairs.functions[at], out);
    }
}

/// Of many functions the first and the last one, and how many entries are reached.
fn put_ends(list: &[&[u8]], pairs: &Pairs, out: &mut Out) {
    put_at(list, pairs, 0, out);
    if list.len() > 1 {
        put_at(list, pairs, list.len() - 1, out);
    }
    out.show(&pairs.functions.len());
    out.put(" listed, ");
    out.show(&pairs.entries.len());
    out.put(" reached");
}

/// What pairing answers.
fn put_answer(alloc: Global, image: &Image<'_>, unit: &Typed<'_>, list: &[&[u8]], out: &mut Out)
    requires { IsTypedUnit (typed_of unit.now) }
{
    match pair(alloc, image, unit, list) {
        Ok(pairs) if pairs.entries.len() > 8 => put_ends(list, &pairs, out),
        Ok(pairs) => put_found(list, &pairs, out),
        Err(error) => put_error(unit, list, error, out),
    }
}

/// The names of a list, which blanks separate.
fn names_in<'a>(alloc: Global, list: &'a str) -> Result<Vec<&'a [u8]>, AllocError> {
    let mut names = Vec::new(alloc);
    for name in list.split_whitespace() {
        names.push(name.as_bytes())?;
    }
    Ok(names)
}

/// What pairing answers of an image and a text, or the first fault of the text.
fn put_image(alloc: Global, image: &Image<'_>, list: &[&[u8]], text: &[u8], out: &mut Out) {
    if let Some(tokens) = read_tokens(alloc, text, out) {
        if let Some(unit) = read_unit(alloc, tokens.as_slice(), text.len(), out) {
            put_answer(alloc, image, &unit, list, out);
        }
    }
}

/// What pairing answers of an executable, a list and a text.
pub(crate) fn put_pairs(
    alloc: Global,
    elf: &[u8],
    list: &str,
    text: &[u8],
    out: &mut Out,
) -> Result<(), AllocError> {
    let names = names_in(alloc, list)?;
    match read(alloc, elf) {
        Ok(image) => put_image(alloc, &image, names.as_slice(), text, out),
        Err(Refusal::NoMemory) => out.fail(),
        Err(Refusal::Fault(_)) => out.put("no executable"),
    }
    Ok(())
}
