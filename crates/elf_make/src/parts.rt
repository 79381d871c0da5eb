//! The parts of an executable.

use elf_read::{Segment, Symbol};

/// What an executable is made of.
#[derive(Clone, Copy)]
pub struct Parts<'a> {
    /// The segments, in the order of their headers.
    pub segments: &'a [Segment<'a>],
    /// The symbols, all of them defined, in the order of their table.
    pub symbols: &'a [Symbol<'a>],
    /// e_flags (RISC-V psABI, e_flags).
    pub flags: u32,
}
