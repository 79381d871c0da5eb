//! Listed functions, the frames at their entries, and what the check of a certificate keeps of a
//! part: the frame with the tests of Cases, the terms of variables there, and what is expected.
//!
//! [`Entry::new`] makes what a function's frame is made of, [`Entry::convention`] what holds where
//! the function returns, and [`list`] puts them together as the check takes them: exactly
//! `listed_of` of `validity_laws`, that is the frames and terms of `agreement_laws`
//! (`specs/EntryFrame.antt` there). [`frame`] gives the frame of a [`Listed`] with further
//! premises, [`known`] the terms of its variables in a bank. [`leaf_goals`] gives exactly the
//! obligations of a Leaf of `sim_rules_spec` (`specs/Obligations.antt` there) at that frame, or why
//! there are none (`specs/Goals.antt`): those that a certificate has logs for, and that the search
//! looks for logs of.
#![tactic(auto)]

mod entries;
mod entry;
mod facts;
mod goals;
mod jobs;
mod listed;
mod listing;
mod parts;
mod scope;
mod trees;

pub use entries::{Entry, File, Numbers};
pub use entry::{frame, known, premises};
pub use goals::leaf_goals;
pub use jobs::Branch;
pub use listed::{Fact, Listed, PlaceNode};
pub use listing::{Sites, list};
pub use parts::{free, has_part, missing};
pub use trees::{tests, tree};
