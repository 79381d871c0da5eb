//! The graph of a function of an executable.
//!
//! [`decompile`] answers the graph and, for the address of each instruction, the number of its
//! first node; [`decompile_within`] does so for at most so many nodes. When a graph is that of a
//! function is defined in `decompile_spec`, what the machine and such graphs do together is the
//! law of `decompile_laws`.
#![tactic(auto)]

mod bindings;
mod blocks;
mod callees;
mod error;
mod function;
mod graphs;
mod items;
mod numbers;
mod runs;

pub use code_reach::{CodeFault, code, reach, stack};
pub use error::GraphFault;
pub use function::graph_number;
pub use graphs::{CodeGraph, decompile, decompile_within};
