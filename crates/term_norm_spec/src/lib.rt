//! The normal form of terms, as a function on trees (`normal` of `specs/Normal.antt`): ten rules,
//! the first that applies, arguments first. [`laws`] says that it keeps the sort and the value of a
//! term wherever the memories of the source hold the fixed bytes, and brings no new variable;
//! [`idempotence`] that the normal form of a normal form is itself; [`examples`] has worked terms.
#![tactic(auto)]

pub mod examples;
pub mod idempotence;
pub mod laws;
