//! The greatest relation that a step keeps, of a list of candidates.
//!
//! The lines of a relation are numbered. A [`Judge`] is asked of some lines: where all of them
//! hold, does an assignment make one of them false where they are to be shown? [`fit`] takes out
//! what is refuted until nothing is, and what is left is the greatest set of lines none of which is
//! refuted (`specs/Greatest.antt`), since what is refuted under some lines is so under fewer.
#![tactic(auto)]

mod answers;
mod fitting;
mod judging;

pub use answers::{Fit, Judged};
pub use fitting::fit;
pub use judging::Judge;
