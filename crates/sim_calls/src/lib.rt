//! The rule Call of a proof: which calls two nodes are, and what is left to show of them.
//!
//! [`find_calls`] decides whether a node of each side is a call of given functions.
//! [`obligations`] gives exactly the two terms of `sim_rules_spec` (`specs/Calls.antt` there): the
//! relation where the callee begins, and the relation where both sides are back; or the first line
//! that is none. [`Callee::new`] states what the calling convention asks of a callee.

#![tactic(auto)]

mod begun;
mod bound;
mod callee;
mod cut;
mod given;
mod left;
mod listing;
mod returned;
mod rule;
mod sites;
mod variables;

pub use callee::Callee;
pub use cut::Cut;
pub use rule::{CallFault, CallLines, Setup, obligations};
pub use sites::{CallSite, Calls, call_at, find_calls};
