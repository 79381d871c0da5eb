//! The variables that the basic nodes of a graph bind.

ghost use Rattle.std.specs.Prelude.{◌≡◌, ℕ, ◌<◌, List, map, IfOk, OnOk};
ghost use Rattle.term_core_spec.specs.Term.{Term};
ghost use Rattle.graph_core.specs.Graphs.{graph_of};
ghost use Rattle.graph_core.specs.Shared.{shared_binding_of, shared_node_of};
ghost use Rattle.path_cond.specs.Bound.{AreListed, IsListedNode, KeepsListed, ListsAll};

use graph_core::{Graph, SharedBinding, SharedNode};
use indexmap::IndexSet;
use std::alloc::{AllocError, Global};
use term_core_spec::Variable;

// Adds the variables of some bindings.
fn add_bindings(
    variables: &mut IndexSet<Variable>,
    bindings: &[SharedBinding],
) -> Result<(), AllocError>
    ensures listed { (trees : List Term) → OnOk result (AreListed variables.new.keys
        (map (shared_binding_of trees) bindings.now)) }
    ensures kept { OnOk result (KeepsListed variables.old.keys variables.new.keys) }
{
    for binding in bindings {
        variables.insert(binding.variable)?;
    }
    Ok(())
}

// Adds the variables that a node binds, if it is a basic one.
fn add_node(variables: &mut IndexSet<Variable>, node: &SharedNode) -> Result<(), AllocError>
    ensures listed { (trees : List Term) → OnOk result (IsListedNode variables.new.keys
        (shared_node_of trees node.now)) }
    ensures kept { OnOk result (KeepsListed variables.old.keys variables.new.keys) }
{
    match node {
        SharedNode::Basic { bindings, .. } => add_bindings(variables, bindings.as_slice()),
        SharedNode::Cond { .. } | SharedNode::Call { .. } => Ok(()),
    }
}

// Adds the variables that some nodes bind.
fn add_nodes(variables: &mut IndexSet<Variable>, nodes: &[SharedNode]) -> Result<(), AllocError>
    ensures { (trees : List Term) → OnOk result (ListsAll variables.new.keys
        (map (shared_node_of trees) nodes.now)) }
{
    for node in nodes {
        add_node(variables, node)?;
    }
    Ok(())
}

/// The variables that the basic nodes of a graph bind, each once: a variable's number is its index.
pub fn bound_variables(alloc: Global, graph: &Graph) -> Result<IndexSet<Variable>, AllocError>
    ensures { IfOk result (λ found. ListsAll found.keys (graph_of graph.now).nodes) }
{
    let mut variables = IndexSet::new(alloc);
    add_nodes(&mut variables, graph.nodes())?;
    Ok(variables)
}
