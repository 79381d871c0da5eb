//! The normal form of the terms of a bank. [`normal`] gives the index of exactly the tree that
//! `term_norm_spec` defines (`specs/Normal.antt` there), where `runs` are the bytes that every
//! memory of the source holds. Each term is brought into normal form once, and a load goes through
//! each memory once; the work is not bounded by how deep a term is.

#![tactic(auto)]

mod forms;
mod loads;
mod runs;
mod walk;

pub use forms::normal;
pub use memory_spec::Run;
pub use runs::hold_runs;
