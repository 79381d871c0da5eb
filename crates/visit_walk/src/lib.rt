//! The visits of a walk over the nodes of a graph.
//!
//! [`visits`] lists them as [`Visits`], in reversed post-order of a depth-first walk, with the
//! edges into each; or answers that the walk goes round a cycle, or has too many visits: exactly as
//! `visit_walk_spec` defines them (`specs/Visits.antt`, `specs/Outcomes.antt`). [`Shape`] is what
//! it reads of a graph.

#![tactic(auto)]

mod counts;
mod cycle;
mod depth_first;
mod found;
mod list;
mod listing;
mod shape;
mod table;

pub use found::{WalkFault, visits};
pub use list::Visits;
pub use shape::Shape;
