//! Terms as trees: their sorts, and their values under an assignment. The main type is [`Term`]; a
//! clause speaks of its tree without pointers (`term_of` of `specs/Trees.antt`). [`eval`] gives
//! exactly the value of `term_core_spec` (`specs/Value.antt` there), [`sort`] exactly the sort. The
//! functions on operators alone serve terms that are kept in another form; [`laws`] has what holds
//! of every term.

#![tactic(auto)]

mod assignment;
pub mod laws;
mod memory;
mod sorts;
mod term;
mod value;
mod words;

pub use assignment::Assignment;
pub use memory::Memory;
pub use sorts::{
    sort_of_atom, sort_of_binary, sort_of_octonary, sort_of_quaternary, sort_of_ternary,
    sort_of_unary,
};
pub use term::{Term, eval, sort};
pub use value::{Value, binary, byte_of, octonary, quaternary, ternary, unary};
pub use words::{all_ones, bit_count, low_bits};
