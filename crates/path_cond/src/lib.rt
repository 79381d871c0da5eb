//! The condition of each visit of a walk, and the state there, as terms of a bank.
//!
//! [`conditions`] gives exactly the terms of `path_cond_spec` (`specs/Conditions.antt` there, with
//! what they say of runs): for each visit, for each stop, for the error and for each bounded
//! arrival. States share what they have in common ([`Ids`]).

#![tactic(auto)]

mod bound;
mod found;
mod ids;
mod known;
mod leave;
mod maps;
mod members;
mod merge;
mod states;
mod unite;
mod walk;

pub use found::Conditions;
pub use ids::Ids;
pub use known::Known;
pub use leave::Leaving;
pub use maps::state_map;
pub use members::several;
pub use states::State;
pub use walk::conditions;
