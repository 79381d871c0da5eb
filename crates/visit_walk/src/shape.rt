//! The shape of a graph.

ghost use Rattle.std.specs.Prelude.{◌≡◌, [], List, map, slice_set, IfOk, OnOk};
ghost use Rattle.term_core_spec.specs.Term.{Term};
ghost use Rattle.graph_core.specs.Graphs.{graph_of};
ghost use Rattle.graph_core.specs.Shared.{shared_node_of};
ghost use Rattle.visit_walk_spec.specs.Shape as spec;

use graph_core::{Graph, SharedNode};
use std::alloc::{AllocError, Global};
use visit_walk_spec::Successors;

/// Where a run continues after each node of a graph, by the node's number.
#[derive(Drop)]
pub struct Shape {
    /// By the node's number.
    pub successors: Vec<Successors>,
}

/// Where a run continues after a node, whatever its terms are.
fn successors_of(node: &SharedNode) -> Successors
    ensures { (trees : List Term)
        → result ≡ spec.successors_of (shared_node_of trees node.now) }
{
    match node {
        SharedNode::Basic { next, .. } => Successors::One(*next),
        SharedNode::Cond {
            on_true,
            on_false,
            ..
        } => Successors::Two(*on_true, *on_false),
        SharedNode::Call { .. } => Successors::Callee,
    }
}

impl Shape {
    /// The shape of a graph.
    pub fn of(alloc: Global, graph: &Graph) -> Result<Shape, AllocError>
        ensures { IfOk result (λ shape. shape.successors.items
            ≡ spec.shape_of (graph_of graph.now)) }
    {
        let mut successors = Vec::new(alloc);
        add_successors(&mut successors, graph.nodes())?;
        Ok(Shape { successors })
    }

    /// Lets walks end at a node: what follows it isn't looked at.
    pub fn cut(&mut self, node: usize)
        ensures { self.new.successors.items
            ≡ slice_set self.old.successors.items node Successors.Nothing }
    {
        if node < self.successors.len() {
            self.successors[node] = Successors::Nothing;
        }
    }
}

/// Adds the successors of each node.
fn add_successors(successors: &mut Vec<Successors>, nodes: &[SharedNode]) -> Result<(), AllocError>
    requires { successors.old.items ≡ [] }
    ensures { (trees : List Term) → OnOk result (successors.new.items
        ≡ map spec.successors_of (map (shared_node_of trees) nodes.now)) }
{
    for node in nodes {
        successors.push(successors_of(node))?;
    }
    Ok(())
}
