//! Why a proof may cut its runs in two.
//!
//! [`split_law`], [`call_law`], [`hold_law`] and [`wait_law`] say, over any two transition systems
//! ([`graph_core::Walks`]), that the sub-proofs of a rule give the simulation of its frame, for
//! every number of steps on either side. The rules are defined in `proof_tree_spec`,
//! `specs/Cuts.antt`. [`cut_allowed`] is true exactly where the goals of a frame allow a cut, which
//! the rules ask.
#![tactic(auto)]

mod allowed;
pub mod examples;
mod rules;

pub use allowed::cut_allowed;
pub use rules::{call_law, hold_law, split_law, wait_law};
