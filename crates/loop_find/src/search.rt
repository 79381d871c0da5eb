//! The depth-first walk.

ghost use Rattle.std.specs.Prelude.{◌≡◌, ◌∷◌, [], nat_eq, OnOk};
ghost use Rattle.indexmap.specs.IndexMap.{get};
ghost use Rattle.graph_core.specs.Graphs.{graph_of};
ghost use Rattle.loop_find.specs.Search.{HasHeads, IsUntouched};

use crate::tasks::{Status, Task, add_tasks};
use graph_core::Graph;
use indexmap::IndexMap;
use std::alloc::AllocError;

/// Takes the entry and all to which it leads. A node that is met while it is on the way is added to
/// the heads.
pub(crate) fn search(
    graph: &Graph,
    statuses: &mut IndexMap<usize, Status>,
    tasks: &mut Vec<Task>,
    heads: &mut Vec<usize>,
) -> Result<(), AllocError>
    requires { IsUntouched (get nat_eq statuses.old) heads.old.items tasks.old.items }
    ensures { OnOk result (HasHeads (graph_of graph.now) heads.new.items) }
{
    tasks.push(Task::Take(graph.entry()))?;
    while let Some(task) = tasks.pop() {
        match task {
            Task::Leave(node) => {
                statuses.insert(node, Status::Left)?;
            }
            Task::Take(node) => match statuses.get(&node).copied() {
                Some(Status::Left) => {}
                Some(Status::OnTheWay) => heads.push(node)?,
                None => {
                    let _count = statuses.len();
                    statuses.insert(node, Status::OnTheWay)?;
                    add_tasks(tasks, graph, node)?;
                }
            },
        }
    }
    Ok(())
}
