//! Circuits for words, as clauses over numbered variables.
//!
//! The main type is [`Gates`], which a contract sees as the clauses of the gates so far. Each of
//! its calls makes exactly the gates that `bit_blast_spec` (`specs/Gates.antt`,
//! `specs/Circuits.antt`) has for it, numbered on from the last variable (`specs/Built.antt`).
#![tactic(auto)]

mod bitwise;
mod divisions;
mod gates;
mod products;
mod shifts;
mod sums;
mod words;

pub use bitwise::Connective;
pub use cnf_core::Literal;
pub use gates::Gates;
pub use shifts::Shift;
pub use words::{negations, none, one, padded, sign_of};
