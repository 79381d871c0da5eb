//! Shapes that are cut.

ghost use Rattle.std.specs.Prelude.{◌≡◌, ◌⊎◌, ◌↔◌, Contains, IsTrue, OnOk};
ghost use Rattle.graph_core.specs.Graphs.{graph_of};
ghost use Rattle.visit_walk_spec.specs.Shape.{shape_of};
ghost use Rattle.proof_tree_spec.specs.Frames.{Side};
ghost use Rattle.sim_rules_spec.specs.Sides.{IsCutTo, graph_at};
ghost use Rattle.sim_rules.specs.Tables.{IsCutUnless};

use crate::search::leading;
use attempt::attempt;
use graph_core::Graph;
use indexmap::IndexSet;
use std::alloc::{AllocError, Global};
use visit_walk::Shape;

// Whether a node was found.
fn is_found(found: &IndexSet<usize>, node: usize) -> bool
    ensures { IsTrue result ↔ Contains found.now.keys node }
{
    found.contains(&node)
}

// Whether a node is the point or was found.
fn is_kept(found: &IndexSet<usize>, point: usize, node: usize) -> bool
    ensures { IsTrue result ↔ ((node ≡ point) ⊎ Contains found.now.keys node) }
{
    if node == point {
        return true;
    }
    is_found(found, node)
}

// Lets walks end at a node, unless it is the point or was found.
fn cut_unless(shape: &mut Shape, found: &IndexSet<usize>, point: usize, node: usize)
    ensures { IsCutUnless found.now.keys point node shape.old.successors.items
        shape.new.successors.items }
{
    let kept = is_kept(found, point, node);
    if !kept {
        shape.cut(node);
    }
}

/// Lets walks over the shape of a graph end at each node from which none leads to the point.
pub fn cut_to(
    alloc: Global,
    shape: &mut Shape,
    graph: &Graph,
    point: usize,
) -> Result<(), AllocError>
    requires { shape.old.successors.items ≡ shape_of (graph_of graph.now) }
    ensures { (side : Side) → graph_at side ≡ graph_of graph.now
        → OnOk result (IsCutTo side point shape.new.successors.items) }
{
    let found = attempt!(leading(alloc, graph, point));
    for node in 0..shape.successors.len() {
        cut_unless(shape, &found, point, node);
    }
    Ok(())
}
