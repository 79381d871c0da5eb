//! What a rule changes of a side's walk.

use graph_core_spec::Mark;

/// What a rule changes of a side's walk.
#[derive(Clone, Copy)]
pub(crate) enum Change {
    /// nothing
    Plain,
    /// the first arrival at this node is a stop before the goals
    Holding(usize),
    /// one more bound; the walk ends at each node that doesn't lead to the node of it
    Restricting(Mark),
}
