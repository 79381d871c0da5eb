//! The loops of a graph: [`loops`] lists their heads, the nodes to which edges lead back in a
//! depth-first walk from the entry that takes the true branch first (`loop_find_spec`,
//! `specs/Loops.antt`).
#![tactic(auto)]

mod finding;
mod search;
mod tasks;

pub use finding::{Loop, loops};
