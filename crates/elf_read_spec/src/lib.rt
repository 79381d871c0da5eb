//! What an ELF32 executable of RISC-V is, as far as the claim reads it.
//!
//! `specs/Image.antt` has the image: loaded segments, defined symbols, and what is read off them;
//! `specs/Runs.antt` the runs of fixed bytes. `specs/File.antt` has which bytes are an executable,
//! and their image; and for all other bytes why they are refused, and at which offset. [`ElfKind`]
//! names the refusals, [`fields`] the fields of a file.
#![tactic(auto)]

pub mod fields;
mod laws;

pub use laws::runs_are_the_fixed_bytes;

/// Why a file is no executable that is read here, in the order in which it is tried (System V ABI,
/// ELF header, program header, section header and symbol table; RISC-V psABI, e_flags).
#[derive(Clone, Copy, Debug)]
pub enum ElfKind {
    /// It is too short for an ELF header.
    Short,
    /// It doesn't begin with 7f 45 4c 46.
    Magic,
    /// It has no 32-bit words: EI_CLASS isn't ELFCLASS32.
    Class,
    /// It isn't little-endian: EI_DATA isn't ELFDATA2LSB.
    Endian,
    /// EI_VERSION or e_version isn't EV_CURRENT.
    Version,
    /// It is no executable: e_type isn't ET_EXEC.
    Kind,
    /// It isn't for RISC-V: e_machine isn't EM_RISCV.
    Machine,
    /// It has compressed code, another calling convention than the soft-float one, or the reduced
    /// register set: one of the low four bits of e_flags is set.
    Flags,
    /// e_ehsize isn't 52; or there are program headers, and e_phentsize isn't 32; or there are
    /// section headers, and e_shentsize isn't 40.
    HeaderSize,
    /// The program headers or the section headers end past the file.
    Table,
    /// A PT_LOAD header has more bytes in the file than in memory, bytes past the file, or
    /// addresses past 2^32.
    SegmentRange,
    /// The memory of a PT_LOAD header shares an address with that of an earlier one.
    SegmentOverlap,
    /// No section has type SHT_SYMTAB.
    NoSymbols,
    /// The first section of type SHT_SYMTAB hasn't entries of 16 bytes, ends inside one, or ends
    /// past the file.
    SymbolTable,
    /// The string table of the symbols is no section of type SHT_STRTAB inside the file; or the
    /// name of a symbol isn't ended by a 0 byte inside it.
    StringTable,
}

/// The values of the symbols of a type and a name.
#[derive(Clone, Copy, PartialEq, Eq)]
pub enum SymbolValues {
    /// There is none.
    Absent,
    /// There is one value.
    One(u32),
    /// There are several values: that of the first symbol, and the first other one, in table order.
    Two(u32, u32),
}
