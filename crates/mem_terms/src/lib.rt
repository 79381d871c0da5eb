//! Terms without memory, in a bank. [`flat`] gives the flat term of a term (`mem_terms_spec`,
//! `specs/Flat.antt`) as a [`Flat`], with its loads; of each memory every two loads are compared,
//! so that n loads of one memory give about 5 n^2 / 2 terms. [`rebuild`] goes back: where an
//! assignment makes the flat term false, the one that it gives makes the term false.

#![tactic(auto)]

mod back;
mod build;
mod flattening;
mod ids;
mod ties;
mod walk;

pub use back::rebuild;
pub use flattening::flat;
pub use ids::{Flat, LoadIds};
