//! Pairs of functions: [`pair`] answers, for a list of names, where each function is in the
//! executable and how much stack it takes, or the first fault of the list, or that a graph is too
//! large. Which answer a list has is defined in `pair_setup_spec` (`specs/Outcome.antt` there).
#![tactic(auto)]

mod calling;
mod code;
mod globals;
mod names;
mod nodes;
mod outcome;
mod pairing;
mod reach;
mod stacks;
mod survey;
mod walk;

pub use outcome::{Function, Named, PairFault, Pairs};
pub use pairing::pair;
