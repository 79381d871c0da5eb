//! The loops of a graph.

ghost use Rattle.std.specs.Prelude.{map, IfOk};
ghost use Rattle.graph_core.specs.Graphs.{graph_of};
ghost use Rattle.loop_find_spec.specs.Loops.{AreLoops};
ghost use Rattle.loop_find.specs.Search.{HasHeads};

use crate::search::search;
use graph_core::Graph;
use indexmap::IndexMap;
use std::alloc::{AllocError, Global};

/// A loop of a graph.
#[derive(Clone, Copy)]
pub struct Loop {
    /// The node to which an edge leads back.
    pub head: usize,
}

// The heads in the order in which edges lead back to them, each as often as one does.
fn heads_of(alloc: Global, graph: &Graph) -> Result<Vec<usize>, AllocError>
    ensures { IfOk result (λ heads. HasHeads (graph_of graph.now) heads.items) }
{
    let mut statuses = IndexMap::new(alloc);
    let mut tasks = Vec::new(alloc);
    let mut heads = Vec::new(alloc);
    search(graph, &mut statuses, &mut tasks, &mut heads)?;
    Ok(heads)
}

/// The loops of a graph, each once, in ascending order of their heads.
pub fn loops(alloc: Global, graph: &Graph) -> Result<Vec<Loop>, AllocError>
    ensures { IfOk result (λ found. AreLoops (graph_of graph.now)
        (map (λ l. l.head) found.items)) }
{
    let mut heads = heads_of(alloc, graph)?;
    heads.sort_unstable();
    heads.dedup();
    heads.iter().map(|head| Loop { head: *head }).collect(alloc)
}
