//! The terms of which the obligations of a rule are made, in a bank.
//!
//! A [`Way`] is one side of a frame, a [`Sight`] its visits with their conditions and states, a
//! [`Part`] several of them as one. [`relation`] gives what holds at a point, [`premises`] and
//! [`bounded_premises`] what may be used: exactly the terms of `sim_rules_spec`
//! (`specs/Sides.antt`, `specs/Rules.antt` there). [`all_lines`] is the conjunction of lines over
//! the terms of their variables, [`first_bad`] the first term that is no line.

#![tactic(auto)]

mod convention;
mod families;
mod given;
mod lines;
mod logic;
mod points;
mod scope;
mod sight;
mod trees;
mod way;
mod which;

pub use convention::Convention;
pub use given::{bounded_premises, premises};
pub use lines::{Known, all_lines, and_lines};
pub use logic::{both, either, implication, negation, truth};
pub use points::{BothSides, Opening, relation};
pub use scope::first_bad;
pub use sight::{Part, Sight};
pub use trees::{negated, open, over_two, overlaid, word};
pub use way::{Way, conditions_of};
pub use which::Which;
