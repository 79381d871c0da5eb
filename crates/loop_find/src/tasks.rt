//! What a depth-first walk has to do.

ghost use Rattle.std.specs.Prelude.{◌≡◌, ◌++◌, ◌∷◌, [], List, map, reverse, OnOk};
ghost use Rattle.term_core_spec.specs.Term.{Term};
ghost use Rattle.graph_core.specs.Graphs.{graph_of};
ghost use Rattle.graph_core.specs.Shared.{shared_node_of};
ghost use Rattle.loop_find_spec.specs.Loops.{node_in, nodes_after, nodes_from};

use graph_core::{Graph, Next, SharedNode};
use std::alloc::AllocError;

/// How far a node is.
#[derive(Clone, Copy)]
pub(crate) enum Status {
    /// It is taken, and not all that follow it have been left.
    OnTheWay,
    /// It has been left.
    Left,
}

/// What is to be done with a node.
#[derive(Clone, Copy)]
pub(crate) enum Task {
    /// To take what follows it, unless that has been done.
    Take(usize),
    /// To leave it, after all that follow it.
    Leave(usize),
}

// Adds that the node is taken at which a run continues, if it is at one.
fn add_next(tasks: &mut Vec<Task>, next: Next) -> Result<(), AllocError>
    ensures { OnOk result (tasks.new.items ≡ tasks.old.items ++ map Task.Take (node_in next)) }
{
    match next {
        Next::At(node) => {
            tasks.push(Task::Take(node))?;
            Ok(())
        }
        Next::Ret | Next::Err => Ok(()),
    }
}

// Adds that both nodes are taken at which a run may continue after a test, the first of them on
// top.
fn add_both(tasks: &mut Vec<Task>, on_true: Next, on_false: Next) -> Result<(), AllocError>
    ensures { OnOk result (tasks.new.items ≡ tasks.old.items
        ++ map Task.Take (reverse (node_in on_true ++ node_in on_false))) }
{
    add_next(tasks, on_false)?;
    add_next(tasks, on_true)?;
    Ok(())
}

// Adds that those nodes are taken that follow a node, the first of them on top.
fn add_following(tasks: &mut Vec<Task>, node: &SharedNode) -> Result<(), AllocError>
    ensures { (trees : List Term) → OnOk result (tasks.new.items ≡ tasks.old.items
        ++ map Task.Take (reverse (nodes_after (shared_node_of trees node.now)))) }
{
    match node {
        SharedNode::Basic { next, .. } => {
            add_next(tasks, *next)?;
            Ok(())
        }
        SharedNode::Cond {
            on_true,
            on_false,
            ..
        } => {
            add_both(tasks, *on_true, *on_false)?;
            Ok(())
        }
        SharedNode::Call { landing, .. } => {
            tasks.push(Task::Take(*landing))?;
            Ok(())
        }
    }
}

/// Adds to the tasks that a node be left, and on top that those be taken that follow it, the first
/// of them on top of all.
pub(crate) fn add_tasks(tasks: &mut Vec<Task>, graph: &Graph, node: usize) -> Result<(), AllocError>
    ensures { OnOk result (tasks.new.items ≡ (tasks.old.items ++ Task.Leave node ∷ [])
        ++ map Task.Take (reverse (nodes_from (graph_of graph.now) node))) }
{
    tasks.push(Task::Leave(node))?;
    match graph.nodes().get(node) {
        None => Ok(()),
        Some(node) => {
            add_following(tasks, node)?;
            Ok(())
        }
    }
}
