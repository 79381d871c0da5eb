//! Proofs as trees, and the frames that they prove.
//!
//! The main types are [`Frame`] and [`Reachable`], the nodes that a node of a graph leads to: a
//! frame keeps them for its starts and goals, so that a cut can be judged without memory. A clause
//! sees a frame as one of `proof_tree_spec` (`specs/Frames.antt` there).
#![tactic(auto)]

mod frame;
mod proof;
mod reachable;
mod scope;
mod subframe;

pub use frame::{Frame, Goal, Hold, Premise, Start, Stop};
pub use proof::{BinaryPoint, Point, Points, Proof, SourcePoint, nests_within, term_nests_within};
pub use reachable::Reachable;
pub use scope::{Body, Setting, is_line};
