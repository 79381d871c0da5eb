//! Closes goals: [`close`] says whether a log shows that a goal is true, [`seek`] searches for such
//! a log, and [`refute`] tries a few assignments before any search.
//!
//! When a log closes a goal is defined in `discharge_spec` (`specs/Closing.antt`). A goal that is
//! closed is true under each assignment whose memories of the source hold the fixed bytes. Which
//! assignments are tried no contract says: zeros first, then words that look random, and after
//! those what the values of the bank's terms suggest (`src/values.rt`).
#![tactic(auto)]

mod closer;
mod closing;
mod error;
mod guessing;
mod laws;
mod limits;
mod own;
mod rounds;
mod seeking;
mod steps;
mod truth;
mod values;

pub use closer::Closer;
pub use closing::close;
pub use discharge_spec::GoalQuantity;
pub use error::{CloseFault, SeekFault};
pub use guessing::refute;
pub use laws::closed_goals_are_true;
pub use memory_spec::Run;
pub use rounds::guess;
pub use sat_search::Counts;
pub use seeking::{Cost, Sought, seek, seek_counting};
pub use steps::{Listing, Steps};
pub use truth::is_true;
