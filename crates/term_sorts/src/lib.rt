//! The sorts of the terms of a bank, each found once ([`add_sorts`]), and the distinct subterms of
//! a term in post-order ([`add_subterms`]): `term_core_spec`, `specs/Sort.antt` and
//! `specs/Subterms.antt`. Both are loops, however deep a term is.

#![tactic(auto)]

mod order;
mod sorts;

pub use order::add_subterms;
pub use sorts::{add_sorts, node_sort};
