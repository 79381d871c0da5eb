//! The terms of instructions, built.
//!
//! Each call builds the term that `decompile_spec` (`specs/InstructionTerms.antt`) has for a part
//! of an instruction: an operand, an address, what is computed, loaded or stored, and the tests
//! before an access.
#![tactic(auto)]

mod access;
mod arithmetic;
mod basic;
mod division;
mod products;

pub use access::{avoids, is_multiple, last_written, loaded, stored};
pub use arithmetic::{branch_test, computed, is_index, taken};
pub use basic::{
    address, entry_register, memory, number, operand, register, returns_home, table_index,
};
