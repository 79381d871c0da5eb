//! Writing an executable.

ghost use Rattle.std.specs.Prelude.{◌≡◌, ◌^◌, ◌<◌, [], IfOk, OnOk, length, map};
ghost use Rattle.elf_read.specs.Values.{segment_of, symbol_of};
ghost use Rattle.elf_make.specs.Layout as layout;
ghost use Rattle.elf_make.specs.Parts.{image_of_parts, ArePlaces, CanBeWritten, IsWritten};

use crate::Parts;
use crate::pieces::{
    put_contents, put_entries, put_header, put_names, put_programs, put_sections, put_zeros,
};
use attempt::attempt;
use elf_read::{Segment, Symbol};
use elf_read_spec::fields::{EHDR_SIZE, PHDR_SIZE, SYM_SIZE};
use std::alloc::{AllocError, Global};

/// Writes an executable of these parts. The only error is out of memory.
pub fn write(alloc: Global, parts: &Parts) -> Result<Vec<u8>, AllocError>
    requires { CanBeWritten (image_of_parts parts.now) parts.now.flags }
    ensures layout { IfOk result (λ file. file.items
        ≡ layout.file_of (image_of_parts parts.now) parts.now.flags) }
    ensures written { IfOk result (λ file. IsWritten file.items
        (image_of_parts parts.now) parts.now.flags) }
{
    let mut out = Vec::new(alloc);
    attempt!(put_file(&mut out, parts, lay_out(parts)));
    Ok(out)
}

/// How many program headers a file has, and where its other parts are: offsets and sizes in bytes.
#[derive(Clone, Copy)]
pub(crate) struct Places {
    programs: u16,
    contents: u32,
    table: u32,
    table_size: u32,
    strings: u32,
    strings_size: u32,
    padding: usize,
    sections: u32,
}

/// The offsets and sizes of the parts of a file.
fn lay_out(parts: &Parts) -> Places
    requires { CanBeWritten (image_of_parts parts.now) parts.now.flags }
    ensures { ArePlaces (image_of_parts parts.now) result }
{
    let contents = EHDR_SIZE + PHDR_SIZE * parts.segments.len();
    let table = contents + contents_length(parts.segments);
    let table_size = SYM_SIZE + SYM_SIZE * parts.symbols.len();
    let strings = table + table_size;
    let strings_size = 1 + names_length(parts.symbols);
    let end = strings + strings_size;
    let padding = 3 - (end + 3) % 4;
    Places {
        programs: parts.segments.len() as u16,
        contents: contents as u32,
        table: table as u32,
        table_size: table_size as u32,
        strings: strings as u32,
        strings_size: strings_size as u32,
        padding,
        sections: (end + padding) as u32,
    }
}

/// The whole file, where nothing is written yet.
#[tactic(auto, unfolding(crate::specs::Layout::file_of))]
fn put_file(out: &mut Vec<u8>, parts: &Parts, places: Places) -> Result<(), AllocError>
    requires none_yet { out.old.items ≡ [] }
    requires writable { CanBeWritten (image_of_parts parts.now) parts.now.flags }
    requires places { ArePlaces (image_of_parts parts.now) places }
    ensures layout { OnOk result (out.new.items
        ≡ layout.file_of (image_of_parts parts.now) parts.now.flags) }
    ensures written { OnOk result (IsWritten out.new.items
        (image_of_parts parts.now) parts.now.flags) }
{
    put_header(out, places.programs, places.sections, parts.flags)?;
    put_programs(out, places.contents, parts.segments)?;
    put_contents(out, parts.segments)?;
    put_zeros(out, SYM_SIZE)?;
    put_entries(out, 1, parts.symbols)?;
    put_zeros(out, 1)?;
    put_names(out, parts.symbols)?;
    put_zeros(out, places.padding)?;
    put_sections(
        out,
        places.table,
        places.table_size,
        places.strings,
        places.strings_size,
    )?;
    Ok(())
}

/// How many bytes the segments have in the file.
fn contents_length(segments: &[Segment]) -> usize
    requires { length (layout.contents (map segment_of segments.now)) < 2 ^ 32 }
    ensures { result ≡ length (layout.contents (map segment_of segments.now)) }
{
    let mut total = 0;
    for segment in segments {
        total += segment.bytes.len();
    }
    total
}

/// How many bytes the names have in the file, each with its 0 byte.
fn names_length(symbols: &[Symbol]) -> usize
    requires { length (layout.names (map symbol_of symbols.now)) < 2 ^ 32 }
    ensures { result ≡ length (layout.names (map symbol_of symbols.now)) }
{
    let mut total = 0;
    for symbol in symbols {
        total += symbol.name.len() + 1;
    }
    total
}
