//! Inlining: a call in a graph is replaced by the body of its callee.
//!
//! `specs/Naming.antt` gives a callee's own variables an instance; `specs/Inlined.antt`
//! defines the graph that inlining gives; `specs/Inlining.antt` says when two sets of graphs differ
//! by one inlined call; `specs/Beside.antt` puts a graph beside a set, under a number that no
//! function has. Its laws: a graph with a call inlined fails, returns and gives results as
//! the graph with the call does, and is valid ([`laws`]); [`examples`] has a small one, counted by
//! hand. Nothing of the crate runs: each function's clause is one law, and its body is empty.

#![tactic(auto)]

pub mod examples;
pub mod laws;
