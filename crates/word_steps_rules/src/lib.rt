//! The tests of the rules of word steps (`word_steps_spec`), over terms of a bank: each holds
//! exactly where the definition's does. So far: `comm` ([`same_up_to_order`]), and `bits` by bits
//! alone ([`same_by_bits`], [`decided_by_bits`]), over the bits of terms ([`Rows`]).

#![tactic(auto)]

mod bit;
mod bitwise;
mod commuting;
mod monomial;
mod plan;
mod planning;
mod rows;
mod words;

pub use bitwise::{decided_by_bits, same_by_bits};
pub use commuting::{ARGUMENTS, same_up_to_order};
pub use rows::Rows;
