//! Reading an executable.

ghost use Rattle.std.specs.Prelude.{◌≡◌, ◌+◌, ◌*◌, ◌≤◌, ℕ, length, Some, All, IfOk, IfErr, OnOk};
ghost use Rattle.elf_read_spec.specs.File as spec;
ghost use Rattle.elf_read_spec.specs.declared.ElfKind.{ElfKind};
ghost use Rattle.elf_read.specs.Faults.{KeepsBelow};
ghost use Rattle.elf_read.specs.Offsets.{IsRising};
ghost use Rattle.elf_read.specs.Refusal.{IsRefusal};
ghost use Rattle.attempt.specs.declared.refusal.Refusal.TheVariants.{Fault};

use crate::Image;
use crate::header::check_header;
use crate::segments::{loads, overlap_fault, range_fault, segments};
use crate::strings::Strings;
use crate::symbols::{
    defined_symbols, has_strings, is_table, name_fault, name_offsets, strings, symbol_table,
};
use attempt::Refusal;
use elf_read_spec::ElfKind;
use elf_read_spec::fields::{E_SHNUM, E_SHOFF, EHDR_SIZE, PHDR_SIZE, SHDR_SIZE};
use std::alloc::Global;
use thiserror::Error;

/// Why and where a file is refused: its first fault.
#[derive(Clone, Copy, Debug, Error)]
#[error("{kind:?} at {offset}")]
pub struct ElfFault {
    /// What the file lacks.
    pub kind: ElfKind,
    /// The offset in the file, in bytes.
    pub offset: usize,
}

impl From<ElfFault> for Refusal<ElfFault> {
    ghost from_gives = { λ fault error. error ≡ Fault fault };

    fn from(fault: ElfFault) -> Self {
        Refusal::Fault(fault)
    }
}

/// Reads the bytes of a file into their image, in memory linear in the file.
pub fn read<'a>(alloc: Global, bytes: &'a [u8]) -> Result<Image<'a>, Refusal<ElfFault>>
    ensures accepted { IfOk result (λ image. spec.IsElf bytes.now image) }
    ensures refused { IfErr result (λ error. IsRefusal bytes.now error) }
{
    check_header(bytes)?;
    let loads = loads(alloc, bytes)?;
    check_loads(alloc, bytes, loads.as_slice())?;
    let table = check_table(bytes)?;
    let text = strings(bytes, table);
    let strings = Strings::new(alloc, text)?;
    check_names(bytes, table, &strings)?;
    let segments = segments(alloc, bytes, loads.as_slice())?;
    let symbols = defined_symbols(alloc, bytes, table, &strings)?;
    let offsets = name_offsets(alloc, bytes, table)?;
    Ok(Image::new(alloc, segments, symbols, text, offsets.as_slice())?)
}

/// Refuses a file for the first fault of its segments.
fn check_loads(alloc: Global, bytes: &[u8], loads: &[usize]) -> Result<(), Refusal<ElfFault>>
    requires below { KeepsBelow bytes.now (spec.rank ElfKind.SegmentRange) }
    requires loads { loads.now ≡ spec.loads bytes.now }
    requires inside { All (λ at. at + PHDR_SIZE ≤ length bytes.now) loads.now }
    requires rising { IsRising loads.now }
    ensures kept { OnOk result (KeepsBelow bytes.now (spec.rank ElfKind.NoSymbols)) }
    ensures refused { IfErr result (λ error. IsRefusal bytes.now error) }
{
    if let Some(offset) = range_fault(bytes, loads) {
        return Err(Refusal::Fault(ElfFault {
            kind: ElfKind::SegmentRange,
            offset,
        }));
    }
    if let Some(offset) = overlap_fault(alloc, bytes, loads)? {
        return Err(Refusal::Fault(ElfFault {
            kind: ElfKind::SegmentOverlap,
            offset,
        }));
    }
    Ok(())
}

/// The offset of the header of the symbol table; or the refusal of a file without one or with a
/// faulty one.
fn check_table(bytes: &[u8]) -> Result<usize, ElfFault>
    requires long { EHDR_SIZE ≤ length bytes.now }
    requires sections { spec.sections_end bytes.now ≤ length bytes.now }
    requires below { KeepsBelow bytes.now (spec.rank ElfKind.NoSymbols) }
    ensures kept { OnOk result (KeepsBelow bytes.now (spec.rank ElfKind.StringTable)) }
    ensures table { IfOk result (λ table. spec.symbol_table bytes.now ≡ Some table) }
    ensures inside { IfOk result (λ table. table + SHDR_SIZE ≤ length bytes.now) }
    ensures is_table { IfOk result (λ table. spec.IsTable bytes.now table) }
    ensures strings { IfOk result (λ table. spec.HasStrings bytes.now table) }
    ensures refused { IfErr result (λ fault. spec.IsRefusedFile bytes.now fault.kind fault.offset) }
{
    let Some(table) = symbol_table(bytes) else {
        return Err(ElfFault {
            kind: ElfKind::NoSymbols,
            offset: E_SHOFF,
        });
    };
    if !is_table(bytes, table) {
        return Err(ElfFault {
            kind: ElfKind::SymbolTable,
            offset: table,
        });
    }
    if !has_strings(bytes, table) {
        return Err(ElfFault {
            kind: ElfKind::StringTable,
            offset: table,
        });
    }
    Ok(table)
}

/// Refuses a file for the first symbol whose name isn't ended.
fn check_names(bytes: &[u8], table: usize, strings: &Strings) -> Result<(), ElfFault>
    requires below { KeepsBelow bytes.now (spec.rank ElfKind.StringTable) }
    requires table { spec.symbol_table bytes.now ≡ Some table }
    requires inside { table + SHDR_SIZE ≤ length bytes.now }
    requires is_table { spec.IsTable bytes.now table }
    requires has_strings { spec.HasStrings bytes.now table }
    requires strings { strings.now ≡ spec.strings_of bytes.now table }
    ensures kept { OnOk result ((kind : ElfKind) (at : ℕ) → spec.Keeps bytes.now kind at) }
    ensures ended { OnOk result (All (λ at. spec.IsEnded bytes.now table at)
        (spec.symbols bytes.now table)) }
    ensures refused { IfErr result (λ fault. spec.IsRefusedFile bytes.now fault.kind fault.offset) }
{
    if let Some(offset) = name_fault(bytes, table, strings) {
        return Err(ElfFault {
            kind: ElfKind::StringTable,
            offset,
        });
    }
    Ok(())
}
