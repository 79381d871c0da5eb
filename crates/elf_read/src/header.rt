//! The faults of an ELF header, kind by kind.

ghost use Rattle.std.specs.Prelude.{◌≡◌, ◌≤◌, ◌<◌, ◌+◌, ◌*◌, length, IfErr, OnOk};
ghost use Rattle.elf_read_spec.specs.File as spec;
ghost use Rattle.elf_read.specs.Faults.{IsFirst, KeepsBelow};

use crate::fields::{u16_at, u32_at};
use crate::reader::ElfFault;
use elf_read_spec::ElfKind;
use elf_read_spec::fields::{
    E_EHSIZE, E_FLAGS, E_MACHINE, E_PHENTSIZE, E_PHNUM, E_PHOFF, E_SHENTSIZE, E_SHNUM, E_SHOFF,
    E_TYPE, E_VERSION, EHDR_SIZE, EI_CLASS, EI_DATA, EI_VERSION, ELFCLASS32, ELFDATA2LSB, ELFMAG,
    EM_RISCV, ET_EXEC, EV_CURRENT, PHDR_SIZE, SHDR_SIZE,
};

pub(crate) fn length_fault(bytes: &[u8]) -> Option<usize>
    ensures { IsFirst bytes.now ElfKind.Short result }
{
    if bytes.len() < EHDR_SIZE {
        Some(bytes.len())
    } else {
        None
    }
}

pub(crate) fn magic_fault(bytes: &[u8]) -> Option<usize>
    requires { EHDR_SIZE ≤ length bytes.now }
    ensures { IsFirst bytes.now ElfKind.Magic result }
{
    for (i, byte) in ELFMAG.iter().enumerate() {
        if bytes[i] != *byte {
            return Some(i);
        }
    }
    None
}

pub(crate) fn class_fault(bytes: &[u8]) -> Option<usize>
    requires { EHDR_SIZE ≤ length bytes.now }
    ensures { IsFirst bytes.now ElfKind.Class result }
{
    if bytes[EI_CLASS] != ELFCLASS32 {
        Some(EI_CLASS)
    } else {
        None
    }
}

pub(crate) fn endian_fault(bytes: &[u8]) -> Option<usize>
    requires { EHDR_SIZE ≤ length bytes.now }
    ensures { IsFirst bytes.now ElfKind.Endian result }
{
    if bytes[EI_DATA] != ELFDATA2LSB {
        Some(EI_DATA)
    } else {
        None
    }
}

pub(crate) fn version_fault(bytes: &[u8]) -> Option<usize>
    requires { EHDR_SIZE ≤ length bytes.now }
    ensures { IsFirst bytes.now ElfKind.Version result }
{
    if bytes[EI_VERSION] != EV_CURRENT {
        return Some(EI_VERSION);
    }
    if u32_at(bytes, E_VERSION) != u32::from(EV_CURRENT) {
        return Some(E_VERSION);
    }
    None
}

pub(crate) fn kind_fault(bytes: &[u8]) -> Option<usize>
    requires { EHDR_SIZE ≤ length bytes.now }
    ensures { IsFirst bytes.now ElfKind.Kind result }
{
    if u16_at(bytes, E_TYPE) != ET_EXEC {
        Some(E_TYPE)
    } else {
        None
    }
}

pub(crate) fn machine_fault(bytes: &[u8]) -> Option<usize>
    requires { EHDR_SIZE ≤ length bytes.now }
    ensures { IsFirst bytes.now ElfKind.Machine result }
{
    if u16_at(bytes, E_MACHINE) != EM_RISCV {
        Some(E_MACHINE)
    } else {
        None
    }
}

pub(crate) fn flags_fault(bytes: &[u8]) -> Option<usize>
    requires { EHDR_SIZE ≤ length bytes.now }
    ensures { IsFirst bytes.now ElfKind.Flags result }
{
    if u32_at(bytes, E_FLAGS) % 16 != 0 {
        Some(E_FLAGS)
    } else {
        None
    }
}

pub(crate) fn header_size_fault(bytes: &[u8]) -> Option<usize>
    requires { EHDR_SIZE ≤ length bytes.now }
    ensures { IsFirst bytes.now ElfKind.HeaderSize result }
{
    if usize::from(u16_at(bytes, E_EHSIZE)) != EHDR_SIZE {
        return Some(E_EHSIZE);
    }
    if u16_at(bytes, E_PHNUM) > 0 && usize::from(u16_at(bytes, E_PHENTSIZE)) != PHDR_SIZE {
        return Some(E_PHENTSIZE);
    }
    if u16_at(bytes, E_SHNUM) > 0 && usize::from(u16_at(bytes, E_SHENTSIZE)) != SHDR_SIZE {
        return Some(E_SHENTSIZE);
    }
    None
}

pub(crate) fn table_fault(bytes: &[u8]) -> Option<usize>
    requires { EHDR_SIZE ≤ length bytes.now }
    ensures { IsFirst bytes.now ElfKind.Table result }
{
    let programs = u32_at(bytes, E_PHOFF) as usize + PHDR_SIZE * u16_at(bytes, E_PHNUM) as usize;
    if programs > bytes.len() {
        return Some(E_PHOFF);
    }
    let sections = u32_at(bytes, E_SHOFF) as usize + SHDR_SIZE * u16_at(bytes, E_SHNUM) as usize;
    if sections > bytes.len() {
        return Some(E_SHOFF);
    }
    None
}

/// The kinds of faults of a header, in the order in which they are tried.
const HEADER_KINDS: [ElfKind; 9] = [
    ElfKind::Magic,
    ElfKind::Class,
    ElfKind::Endian,
    ElfKind::Version,
    ElfKind::Kind,
    ElfKind::Machine,
    ElfKind::Flags,
    ElfKind::HeaderSize,
    ElfKind::Table,
];

/// The first fault of a kind, of those of a header that is long enough.
fn header_fault(bytes: &[u8], kind: ElfKind) -> Option<usize>
    requires long { EHDR_SIZE ≤ length bytes.now }
    requires kind { (1 < spec.rank kind) × (spec.rank kind < 11) }
    ensures { IsFirst bytes.now kind result }
{
    match kind {
        ElfKind::Magic => magic_fault(bytes),
        ElfKind::Class => class_fault(bytes),
        ElfKind::Endian => endian_fault(bytes),
        ElfKind::Version => version_fault(bytes),
        ElfKind::Kind => kind_fault(bytes),
        ElfKind::Machine => machine_fault(bytes),
        ElfKind::Flags => flags_fault(bytes),
        ElfKind::HeaderSize => header_size_fault(bytes),
        ElfKind::Table => table_fault(bytes),
        _ => unreachable!(),
    }
}

/// Refuses a file for the first fault of its header.
pub(crate) fn check_header(bytes: &[u8]) -> Result<(), ElfFault>
    ensures kept { OnOk result (KeepsBelow bytes.now (spec.rank ElfKind.SegmentRange)) }
    ensures long { OnOk result (EHDR_SIZE ≤ length bytes.now) }
    ensures programs { OnOk result (spec.programs_end bytes.now ≤ length bytes.now) }
    ensures sections { OnOk result (spec.sections_end bytes.now ≤ length bytes.now) }
    ensures refused { IfErr result (λ fault. spec.IsRefusedFile bytes.now fault.kind fault.offset) }
{
    if let Some(offset) = length_fault(bytes) {
        return Err(ElfFault {
            kind: ElfKind::Short,
            offset,
        });
    }
    for kind in HEADER_KINDS {
        if let Some(offset) = header_fault(bytes, kind) {
            return Err(ElfFault { kind, offset });
        }
    }
    Ok(())
}
