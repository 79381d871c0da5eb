//! The clauses of a goal, and the assignment that a model of them is reconstructed as.
//!
//! [`blast`] gives exactly the clauses that `bit_blast_spec` has for a truth value
//! (`specs/Goal.antt`, `cnf_of`), with the table of its terms and their bits, in a [`Blasted`].
//! [`read_back`] reconstructs the assignment of a model (`bit_blast_laws`, `specs/Back.antt`),
//! under which the goal is false if it loads from variables alone.

#![tactic(auto)]

mod atoms;
mod back;
mod blasted;
mod entry;
mod error;
mod indices;
mod loads;
mod nodes;
mod operators;
mod parts;
mod state;
pub mod steps;
mod table;
mod traversal;

pub use back::read_back;
pub use blasted::{Blasted, blast};
pub use error::BlastFault;
pub use table::TermTable;
