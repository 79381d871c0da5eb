//! What is expected inside a part of a certificate: proofs of frames, lines of relations, and logs
//! of obligations.
//!
//! A frame inside a part is that at its function's entry with some more: an [`Extra`] has the cut at
//! which it starts and the goals of the cuts above, the tests of Cases, and the bounds in force
//! ([`frame_with`] puts all together). [`rule_goals`] gives exactly the obligations of a rule there
//! (`specs/Obligations.antt` of `sim_rules_spec`), or why it has none. [`is_allowed`] decides
//! whether the goals of a frame allow a cut, of which a [`Draft`] has what is known before its lines
//! are read. [`binary_node`] and [`source_node`] give the node of a point, if there is one that is
//! no call.
#![tactic(auto)]

mod allowed;
mod cuts;
mod drafts;
mod extra;
mod frames;
mod goals;
mod jobs;
mod points;

pub use allowed::is_allowed;
pub use cuts::{CutGoal, CutStart, Cuts};
pub use drafts::{Draft, Reading, push_draft};
pub use extra::{Extra, at_entry};
pub use frames::{GoalTrees, Trees, extra_trees, frame_with, start_path};
pub use goals::rule_goals;
pub use jobs::{Job, push_branches, push_goals, push_proof, take_draft, take_goal, take_proof};
pub use points::{binary_node, source_node};
