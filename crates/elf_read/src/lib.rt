//! Reads an ELF32 executable of RISC-V into its image: its loaded segments and its defined symbols.
//!
//! The main type is [`Image`], which borrows the file and which a clause sees as the image of the
//! specification crate `elf_read_spec`; so what an accessor answers is what that crate's word of
//! the same name says, and no accessor takes memory. [`read`] answers the image of the bytes
//! exactly where they are an executable, and otherwise the kind and the offset of their first
//! fault. The meaning is defined in `elf_read_spec`: `specs/Image.antt`, `specs/Runs.antt` and
//! `specs/File.antt`.
#![tactic(auto)]

mod fields;
mod fixed;
mod header;
mod loaded;
mod named;
mod names;
mod parts;
mod reader;
mod segments;
mod sizes;
mod strings;
mod symbols;
mod tree;

pub use elf_read_spec::SymbolValues;
pub use loaded::Image;
pub use memory_spec::Run;
pub use parts::{Extent, Segment, Symbol};
pub use reader::{ElfFault, read};
