//! Inlining: [`inline`] gives exactly the graph with a call inlined (`graph_inline_spec`,
//! `specs/Inlined.antt`), or says why there is none. What that graph does is said by
//! `graph_inline_spec`. The terms of both graphs are taken over once each, so the work is linear in
//! the two.
#![tactic(auto)]

mod bindings;
mod finish;
mod inlining;
mod marking;
mod naming;
mod nodes;
mod start;
mod terms;

pub use inlining::{InlineFault, inline};
