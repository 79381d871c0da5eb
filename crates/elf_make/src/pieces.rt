//! The pieces of a file, each written at its end.

ghost use Rattle.std.specs.Prelude.{◌≡◌, ◌+◌, ◌^◌, ◌<◌, ◌≤◌, ◌++◌, All, flat_map, length, map};
ghost use Rattle.std.specs.Prelude.{replicate, OnOk};
ghost use Rattle.elf_read.specs.Values.{segment_of, symbol_of};
ghost use Rattle.elf_make.specs.Layout as layout;
ghost use Rattle.elf_make.specs.Parts.{IsSegmentOfWords, IsSymbolOfWords};

use crate::fields::{put_half, put_word};
use attempt::attempt;
use elf_read::{Segment, Symbol};
use elf_read_spec::fields::{
    EHDR_SIZE, EM_RISCV, ET_EXEC, EV_CURRENT, PHDR_SIZE, PT_LOAD, SHDR_SIZE, SHT_STRTAB,
    SHT_SYMTAB, SYM_SIZE,
};
use std::alloc::AllocError;

/// The ELF header.
pub(crate) fn put_header(
    out: &mut Vec<u8>,
    programs: u16,
    sections: u32,
    flags: u32,
) -> Result<(), AllocError>
    ensures { OnOk result (out.new.items ≡ out.old.items ++ layout.header programs sections flags) }
{
    attempt!(put_identity(out));
    attempt!(put_word(out, EHDR_SIZE as u32));
    attempt!(put_word(out, sections));
    attempt!(put_word(out, flags));
    put_header_sizes(out, programs)
}

/// The ELF header up to its offsets: an executable for RISC-V.
fn put_identity(out: &mut Vec<u8>) -> Result<(), AllocError>
    ensures { OnOk result (out.new.items
        ≡ out.old.items ++ (layout.ident ++ layout.half ET_EXEC ++ layout.half EM_RISCV ++
        layout.word EV_CURRENT ++
        layout.word 0)) }
{
    attempt!(put_ident(out));
    attempt!(put_half(out, ET_EXEC));
    attempt!(put_half(out, EM_RISCV));
    attempt!(put_word(out, u32::from(EV_CURRENT)));
    put_word(out, 0)
}

#[tactic(auto, unfolding(crate::specs::Layout::ident))]
fn put_ident(out: &mut Vec<u8>) -> Result<(), AllocError>
    ensures { OnOk result (out.new.items ≡ out.old.items ++ layout.ident) }
{
    out.extend_from_slice(b"\x7fELF\x01\x01\x01\0\0\0\0\0\0\0\0\0")
}

/// The sizes and numbers at the end of the ELF header.
fn put_header_sizes(out: &mut Vec<u8>, programs: u16) -> Result<(), AllocError>
    ensures { OnOk result (out.new.items
        ≡ out.old.items ++ (layout.half EHDR_SIZE ++ layout.half PHDR_SIZE ++ layout.half programs
        ++ layout.half SHDR_SIZE ++ layout.half 3 ++ layout.half 0)) }
{
    attempt!(put_half(out, EHDR_SIZE as u16));
    attempt!(put_half(out, PHDR_SIZE as u16));
    attempt!(put_half(out, programs));
    attempt!(put_half(out, SHDR_SIZE as u16));
    attempt!(put_half(out, 3));
    put_half(out, 0)
}

/// Numbers of four bytes, one after the other.
fn put_words(out: &mut Vec<u8>, words: &[u32]) -> Result<(), AllocError>
    ensures { OnOk result (out.new.items ≡ out.old.items ++ flat_map layout.word words.now) }
{
    for word in words {
        attempt!(put_word(out, *word));
    }
    Ok(())
}

/// The program header of a segment whose bytes are at an offset.
fn put_program(out: &mut Vec<u8>, offset: u32, segment: &Segment) -> Result<(), AllocError>
    requires { length segment.now.bytes.now < 2 ^ 32 }
    ensures items { OnOk result (out.new.items
        ≡ out.old.items ++ layout.program_header offset (segment_of segment.now)) }
    ensures words { OnOk result (IsSegmentOfWords (segment_of segment.now)) }
{
    let size = segment.bytes.len() as u32;
    put_words(
        out,
        &[
            PT_LOAD,
            offset,
            segment.vaddr,
            segment.vaddr,
            size,
            segment.memsz,
            segment.flags,
            4,
        ],
    )?;
    Ok(())
}

/// The program headers of segments whose bytes are from an offset on.
pub(crate) fn put_programs(
    out: &mut Vec<u8>,
    offset: u32,
    segments: &[Segment],
) -> Result<(), AllocError>
    requires { offset + length (layout.contents (map segment_of segments.now)) < 2 ^ 32 }
    ensures items { OnOk result (out.new.items
        ≡ out.old.items ++ layout.program_headers offset (map segment_of segments.now)) }
    ensures words { OnOk result (All IsSegmentOfWords (map segment_of segments.now)) }
{
    let mut at = offset;
    for segment in segments {
        put_program(out, at, segment)?;
        at += segment.bytes.len() as u32;
    }
    Ok(())
}

/// The segments' bytes.
pub(crate) fn put_contents(out: &mut Vec<u8>, segments: &[Segment]) -> Result<(), AllocError>
    ensures { OnOk result (out.new.items
        ≡ out.old.items ++ layout.contents (map segment_of segments.now)) }
{
    for segment in segments {
        attempt!(out.extend_from_slice(segment.bytes));
    }
    Ok(())
}

/// So many 0 bytes.
pub(crate) fn put_zeros(out: &mut Vec<u8>, count: usize) -> Result<(), AllocError>
    requires { count < 2 ^ 32 }
    ensures { OnOk result (out.new.items ≡ out.old.items ++ replicate count 0) }
{
    let length = out.len();
    out.resize(length + count, 0)
}

/// The entry of a symbol whose name is at an offset.
fn put_entry(out: &mut Vec<u8>, place: u32, symbol: &Symbol) -> Result<(), AllocError>
    requires { symbol.now.kind < 16 }
    ensures items { OnOk result (out.new.items
        ≡ out.old.items ++ layout.entry place (symbol_of symbol.now)) }
    ensures words { OnOk result (IsSymbolOfWords (symbol_of symbol.now)) }
{
    attempt!(put_word(out, place));
    attempt!(put_word(out, symbol.value));
    attempt!(put_word(out, symbol.size));
    out.push(16 + symbol.kind)?;
    out.push(0)?;
    put_half(out, 1)
}

/// The entries of symbols whose names are from an offset on.
pub(crate) fn put_entries(
    out: &mut Vec<u8>,
    place: u32,
    symbols: &[Symbol],
) -> Result<(), AllocError>
    requires kinds { All (λ s. s.kind < 16) symbols.now }
    requires short { place + length (layout.names (map symbol_of symbols.now)) < 2 ^ 32 }
    ensures items { OnOk result (out.new.items
        ≡ out.old.items ++ layout.symbol_entries place (map symbol_of symbols.now)) }
    ensures words { OnOk result (All IsSymbolOfWords (map symbol_of symbols.now)) }
{
    let mut at = place;
    for symbol in symbols {
        put_entry(out, at, symbol)?;
        at += symbol.name.len() as u32 + 1;
    }
    Ok(())
}

/// The names of symbols, each with a 0 byte after it.
pub(crate) fn put_names(out: &mut Vec<u8>, symbols: &[Symbol]) -> Result<(), AllocError>
    ensures { OnOk result (out.new.items
        ≡ out.old.items ++ layout.names (map symbol_of symbols.now)) }
{
    for symbol in symbols {
        attempt!(out.extend_from_slice(symbol.name));
        out.push(0)?;
    }
    Ok(())
}

/// The section header of the symbol table.
fn put_table_section(out: &mut Vec<u8>, offset: u32, size: u32) -> Result<(), AllocError>
    ensures { OnOk result (out.new.items ≡ out.old.items ++ layout.table_section offset size) }
{
    put_words(
        out,
        &[0, SHT_SYMTAB, 0, 0, offset, size, 2, 1, 4, SYM_SIZE as u32],
    )
}

/// The section header of the string table.
fn put_strings_section(out: &mut Vec<u8>, offset: u32, size: u32) -> Result<(), AllocError>
    ensures { OnOk result (out.new.items ≡ out.old.items ++ layout.strings_section offset size) }
{
    put_words(out, &[0, SHT_STRTAB, 0, 0, offset, size, 0, 0, 1, 0])
}

/// The three section headers.
pub(crate) fn put_sections(
    out: &mut Vec<u8>,
    table: u32,
    table_size: u32,
    strings: u32,
    strings_size: u32,
) -> Result<(), AllocError>
    ensures { OnOk result (out.new.items
        ≡ out.old.items ++ layout.section_headers table table_size strings strings_size) }
{
    attempt!(put_no_section(out));
    attempt!(put_table_section(out, table, table_size));
    put_strings_section(out, strings, strings_size)
}

#[tactic(auto, unfolding(crate::specs::Layout::no_section))]
fn put_no_section(out: &mut Vec<u8>) -> Result<(), AllocError>
    ensures { OnOk result (out.new.items ≡ out.old.items ++ layout.no_section) }
{
    put_zeros(out, SHDR_SIZE)
}
