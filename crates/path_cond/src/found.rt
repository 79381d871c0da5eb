//! What is found of the visits of a walk.

use crate::ids::Ids;
use crate::known::Known;
use indexmap::IndexSet;
use term_core_spec::Variable;

/// The conditions and the states of the visits of a walk.
#[derive(Drop)]
pub struct Conditions {
    /// The variables that the graph binds; a state has the id of each by its index.
    pub variables: IndexSet<Variable>,
    /// The state of the start.
    pub start: Ids,
    /// The condition and the state of each visit, by its position.
    pub known: Known,
}
