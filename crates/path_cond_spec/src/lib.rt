//! The conditions of the visits of a walk, and the states there, as terms over the values at the
//! start.
//!
//! `specs/Conditions.antt` defines them by a fold over the visits in order; `specs/Passages.antt`
//! says when a run of the graph passes a visit. The laws are the clauses of [`laws`]: a run passes
//! a visit exactly where its condition is true, and then in its state.

#![tactic(auto)]

pub mod laws;
pub mod samples;
