//! Writes an ELF32 executable of RISC-V from its parts.
//!
//! The main type is [`Parts`]: segments, symbols and flags. [`write`] has the crate's contract: the
//! bytes are an executable whose image is these segments and these symbols, so that
//! `elf_read::read` gives them back. The layout of the file is defined in `specs/Layout.antt`, and
//! which parts can be written in `specs/Parts.antt`.
#![tactic(auto)]

mod fields;
mod parts;
mod pieces;
mod writer;

pub use parts::Parts;
pub use writer::write;
