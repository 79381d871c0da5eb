//! The symbol table: its header, its faults, and its defined symbols.

ghost use Rattle.std.specs.Prelude.{◌≡◌, ◌==◌, ◌+◌, ◌*◌, ◌≤◌, ◌<◌, ◌^◌, ◌↔◌, ℕ, length, drop, map};
ghost use Rattle.std.specs.Prelude.{Some, All, IfOk, IfSome, IsTrue, MatchOption};
ghost use Rattle.elf_read_spec.specs.File as spec;
ghost use Rattle.elf_read.specs.Values.{symbol_of};
ghost use Rattle.elf_read.specs.Names.{IsFirstUnended, names_of};

use crate::Symbol;
use crate::fields::{u16_at, u32_at};
use crate::strings::Strings;
use elf_read_spec::fields::{
    E_SHNUM, E_SHOFF, EHDR_SIZE, SH_ENTSIZE, SH_LINK, SH_OFFSET, SH_SIZE, SH_TYPE, SHDR_SIZE,
    SHN_UNDEF, SHT_STRTAB, SHT_SYMTAB, ST_INFO, ST_SHNDX, ST_SIZE, ST_VALUE, SYM_SIZE,
};
use std::alloc::{AllocError, Global};

/// The offset of the header of the first section of type `SHT_SYMTAB`.
#[tactic(auto, unfolding(elf_read_spec::specs::File::symbol_table))]
pub(crate) fn symbol_table(bytes: &[u8]) -> Option<usize>
    requires long { EHDR_SIZE ≤ length bytes.now }
    requires table { spec.sections_end bytes.now ≤ length bytes.now }
    ensures table { result ≡ spec.symbol_table bytes.now }
    ensures inside { IfSome result (λ table. table + SHDR_SIZE ≤ length bytes.now) }
{
    let start = u32_at(bytes, E_SHOFF) as usize;
    let count = u16_at(bytes, E_SHNUM) as usize;
    for i in 0..count {
        let at = start + SHDR_SIZE * i;
        if u32_at(bytes, at + SH_TYPE) == SHT_SYMTAB {
            return Some(at);
        }
    }
    None
}

pub(crate) fn is_table(bytes: &[u8], table: usize) -> bool
    requires { table + SHDR_SIZE ≤ length bytes.now }
    ensures { IsTrue result ↔ spec.IsTable bytes.now table }
{
    let size = u32_at(bytes, table + SH_SIZE);
    if u32_at(bytes, table + SH_ENTSIZE) as usize != SYM_SIZE || size as usize % SYM_SIZE != 0 {
        return false;
    }
    u32_at(bytes, table + SH_OFFSET) as usize + size as usize <= bytes.len()
}

pub(crate) fn has_strings(bytes: &[u8], table: usize) -> bool
    requires long { EHDR_SIZE ≤ length bytes.now }
    requires table { table + SHDR_SIZE ≤ length bytes.now }
    requires sections { spec.sections_end bytes.now ≤ length bytes.now }
    ensures { IsTrue result ↔ spec.HasStrings bytes.now table }
{
    let link = u32_at(bytes, table + SH_LINK) as usize;
    if link >= u16_at(bytes, E_SHNUM) as usize {
        return false;
    }
    let header = u32_at(bytes, E_SHOFF) as usize + SHDR_SIZE * link;
    if u32_at(bytes, header + SH_TYPE) != SHT_STRTAB {
        return false;
    }
    u32_at(bytes, header + SH_OFFSET) as usize + u32_at(bytes, header + SH_SIZE) as usize
        <= bytes.len()
}

/// The string table of a symbol table.
pub(crate) fn strings<'a>(bytes: &'a [u8], table: usize) -> &'a [u8]
    requires long { EHDR_SIZE ≤ length bytes.now }
    requires table { table + SHDR_SIZE ≤ length bytes.now }
    requires sections { spec.sections_end bytes.now ≤ length bytes.now }
    requires strings { spec.HasStrings bytes.now table }
    ensures strings { result.now ≡ spec.strings_of bytes.now table }
    ensures short { length result.now < 2 ^ 32 }
{
    let header = u32_at(bytes, E_SHOFF) as usize
        + SHDR_SIZE * u32_at(bytes, table + SH_LINK) as usize;
    let start = u32_at(bytes, header + SH_OFFSET) as usize;
    let size = u32_at(bytes, header + SH_SIZE) as usize;
    &bytes[start..start + size]
}

/// The offset of the first entry of a symbol table whose name isn't ended.
pub(crate) fn name_fault(bytes: &[u8], table: usize, strings: &Strings) -> Option<usize>
    requires table { table + SHDR_SIZE ≤ length bytes.now }
    requires is_table { spec.IsTable bytes.now table }
    requires strings { strings.now ≡ spec.strings_of bytes.now table }
    ensures { MatchOption result (All (λ at. spec.IsEnded bytes.now table at)
        (spec.symbols bytes.now table)) (λ at. IsFirstUnended bytes.now table at) }
{
    let start = u32_at(bytes, table + SH_OFFSET) as usize;
    let count = u32_at(bytes, table + SH_SIZE) as usize / SYM_SIZE;
    for i in 0..count {
        let at = start + SYM_SIZE * i;
        if !is_ended(bytes, table, at, strings) {
            return Some(at);
        }
    }
    None
}

fn is_ended(bytes: &[u8], table: usize, at: usize, strings: &Strings) -> bool
    requires inside { at + SYM_SIZE ≤ length bytes.now }
    requires strings { strings.now ≡ spec.strings_of bytes.now table }
    ensures { IsTrue result ↔ spec.IsEnded bytes.now table at }
{
    strings.name(u32_at(bytes, at) as usize).is_some()
}

/// The defined symbols of a symbol table, in order.
pub(crate) fn defined_symbols<'a>(
    alloc: Global,
    bytes: &[u8],
    table: usize,
    strings: &Strings<'a>,
) -> Result<Vec<Symbol<'a>>, AllocError>
    requires table { table + SHDR_SIZE ≤ length bytes.now }
    requires is_table { spec.IsTable bytes.now table }
    requires strings { strings.now ≡ spec.strings_of bytes.now table }
    requires ended { All (λ at. spec.IsEnded bytes.now table at) (spec.symbols bytes.now table) }
    ensures { IfOk result (λ symbols. map symbol_of symbols.items
        ≡ spec.defined_symbols bytes.now (Some table)) }
{
    let start = u32_at(bytes, table + SH_OFFSET) as usize;
    let count = u32_at(bytes, table + SH_SIZE) as usize / SYM_SIZE;
    let mut symbols = Vec::new(alloc);
    for i in 0..count {
        let at = start + SYM_SIZE * i;
        if u16_at(bytes, at + ST_SHNDX) != SHN_UNDEF {
            symbols.push(symbol_at(bytes, table, at, strings))?;
        }
    }
    Ok(symbols)
}

/// The symbol of an entry.
fn symbol_at<'a>(bytes: &[u8], table: usize, at: usize, strings: &Strings<'a>) -> Symbol<'a>
    requires inside { at + SYM_SIZE ≤ length bytes.now }
    requires strings { strings.now ≡ spec.strings_of bytes.now table }
    requires ended { spec.IsEnded bytes.now table at }
    ensures { symbol_of result ≡ spec.symbol_at bytes.now table at }
{
    Symbol {
        name: strings.name(u32_at(bytes, at) as usize).unwrap(),
        value: u32_at(bytes, at + ST_VALUE),
        size: u32_at(bytes, at + ST_SIZE),
        kind: bytes[at + ST_INFO] % 16,
    }
}

/// The offsets in the string table of the names of the defined symbols of a symbol table, in order.
pub(crate) fn name_offsets(
    alloc: Global,
    bytes: &[u8],
    table: usize,
) -> Result<Vec<u32>, AllocError>
    requires table { table + SHDR_SIZE ≤ length bytes.now }
    requires is_table { spec.IsTable bytes.now table }
    ensures { IfOk result (λ offsets. map (spec.name_in (spec.strings_of bytes.now table))
        offsets.items ≡ names_of bytes.now table) }
{
    let start = u32_at(bytes, table + SH_OFFSET) as usize;
    let count = u32_at(bytes, table + SH_SIZE) as usize / SYM_SIZE;
    let mut offsets = Vec::new(alloc);
    for i in 0..count {
        let entry = start + SYM_SIZE * i;
        if u16_at(bytes, entry + ST_SHNDX) != SHN_UNDEF {
            offsets.push(u32_at(bytes, entry))?;
        }
    }
    Ok(offsets)
}
