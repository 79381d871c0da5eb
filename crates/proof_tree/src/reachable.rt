//! The nodes that a node of a graph leads to.

ghost use Rattle.std.specs.Prelude.{◌≡◌, ◌⊎◌, ◌↔◌, [], ◌∷◌, List, IsTrue, IfOk, OnOk, Contains};
ghost use Rattle.term_core_spec.specs.Term.{Term};
ghost use Rattle.graph_core_spec.specs.Run.{GoesTo, IsEdge};
ghost use Rattle.graph_core.specs.Graphs.{graph_of, graphs_of};
ghost use Rattle.graph_core.specs.Shared.{shared_node_of};
ghost use Rattle.proof_tree.specs.Ahead.{Grows, AreAhead};

use attempt::attempt;
use graph_core::{Graph, GraphRun, Next, SharedNode};
use indexmap::IndexSet;
use std::alloc::{AllocError, Global};

/// A node of a graph, and the nodes that it leads to: those that a walk reaches from it in one step
/// or more. A walk that comes to a call goes on after it.
#[derive(Drop)]
pub struct Reachable {
    /// The node.
    pub from: usize,
    /// What it leads to, each once.
    pub nodes: IndexSet<usize>,
}

impl Reachable {
    /// A node of the outermost graph of a run, and the nodes that it leads to there.
    pub fn new(alloc: Global, run: &GraphRun<'_>, from: usize) -> Result<Self, AllocError>
        ensures from { IfOk result (λ found. found.from ≡ from) }
        ensures ahead { IfOk result (λ found. AreAhead (graphs_of run.now.graphs.now)
            run.now.outermost from found.nodes.keys) }
    {
        let mut nodes = IndexSet::new(alloc);
        attempt!(add_ahead(&mut nodes, run, from));
        Ok(Reachable { from, nodes })
    }

    /// Whether the node leads to this one.
    pub fn leads_to(&self, node: usize) -> bool
        ensures { IsTrue result ↔ Contains self.now.nodes.keys node }
    {
        self.nodes.contains(&node)
    }
}

/// Adds a node.
fn add(found: &mut IndexSet<usize>, node: usize) -> Result<(), AllocError>
    ensures { OnOk result (Grows (λ n. node ≡ n) found.old.keys found.new.keys) }
{
    found.insert(node)?;
    Ok(())
}

/// Adds the node at which a run continues, if it does so at a node.
fn add_next(found: &mut IndexSet<usize>, next: Next) -> Result<(), AllocError>
    ensures { OnOk result (Grows (λ n. next ≡ Next.At n) found.old.keys found.new.keys) }
{
    match next {
        Next::At(node) => {
            add(found, node)?;
            Ok(())
        }
        Next::Ret | Next::Err => Ok(()),
    }
}

/// Adds both nodes at which a run may continue after a test.
fn add_both(found: &mut IndexSet<usize>, on_true: Next, on_false: Next) -> Result<(), AllocError>
    ensures { OnOk result (Grows (λ n. (on_true ≡ Next.At n) ⊎ (on_false ≡ Next.At n))
        found.old.keys found.new.keys) }
{
    add_next(found, on_true)?;
    add_next(found, on_false)?;
    Ok(())
}

/// Adds the nodes to which an edge goes from a node.
fn add_edges(found: &mut IndexSet<usize>, node: &SharedNode) -> Result<(), AllocError>
    ensures { (trees : List Term) → OnOk result (Grows (GoesTo (shared_node_of trees node.now))
        found.old.keys found.new.keys) }
{
    match node {
        SharedNode::Basic { next, .. } => {
            add_next(found, *next)?;
            Ok(())
        }
        SharedNode::Cond {
            on_true,
            on_false,
            ..
        } => {
            add_both(found, *on_true, *on_false)?;
            Ok(())
        }
        SharedNode::Call { landing, .. } => {
            add(found, *landing)?;
            Ok(())
        }
    }
}

/// Adds the nodes to which an edge goes from the node of this number, if there is one.
fn follow(found: &mut IndexSet<usize>, graph: &Graph, node: usize) -> Result<(), AllocError>
    ensures { OnOk result (Grows (IsEdge (graph_of graph.now ∷ []) 0 node) found.old.keys
        found.new.keys) }
{
    match graph.nodes().get(node) {
        None => Ok(()),
        Some(node) => {
            add_edges(found, node)?;
            Ok(())
        }
    }
}

/// Adds the nodes that a node of a graph leads to, each once.
fn search(found: &mut IndexSet<usize>, graph: &Graph, from: usize) -> Result<(), AllocError>
    requires { found.old.keys ≡ [] }
    ensures { OnOk result (AreAhead (graph_of graph.now ∷ []) 0 from found.new.keys) }
{
    follow(found, graph, from)?;
    let mut next = 0;
    while next < found.len() {
        let node = found.as_slice()[next];
        follow(found, graph, node)?;
        next += 1;
    }
    Ok(())
}

/// Adds the nodes that a node of a run's outermost graph leads to, each once.
fn add_ahead(found: &mut IndexSet<usize>, run: &GraphRun<'_>, from: usize) -> Result<(), AllocError>
    requires { found.old.keys ≡ [] }
    ensures { OnOk result (AreAhead (graphs_of run.now.graphs.now) run.now.outermost from
        found.new.keys) }
{
    match run.graphs.get(run.outermost) {
        None => Ok(()),
        Some(graph) => {
            search(found, graph, from)?;
            Ok(())
        }
    }
}
