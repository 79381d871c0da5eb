//! Terms without memory: the flat term of a term whose loads are of memory variables (`flat_of` of
//! `specs/Flat.antt`, Ackermann reduction), and the assignments from one to the other and back
//! (`specs/Assignments.antt`). [`laws`] says that no memory occurs in the flat term, and that it is
//! true under every assignment exactly where the term is; [`examples`] has worked terms.

#![tactic(auto)]

pub mod examples;
pub mod laws;
