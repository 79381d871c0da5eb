//! The obligations of the rules of a proof: what is left to show, as terms of a bank.
//!
//! [`obligations`] gives exactly the terms of `sim_rules_spec` (`specs/Obligations.antt` there), in
//! their order, or why there are none ([`Refusal`]). That valid obligations give the simulation
//! of a frame is said by `sim_rules_spec::laws`. [`cut_to`] makes the shapes in which walks end at
//! each node that doesn't lead to a point, by one search backwards from the point, in time linear
//! in the graph; what they are is said by `IsCutTo` of `sim_rules_spec` (`specs/Sides.antt`).
#![tactic(auto)]

mod change;
mod cut;
mod denied;
mod fault;
mod leaf;
mod marks;
mod point;
mod restrict;
mod rule;
mod search;
mod setup;
mod sides;
mod stops;
mod table;
mod wait;

pub use cut::cut_to;
pub use fault::RuleFault;
pub use rule::{Rule, obligations};
pub use setup::Setup;
