//! What is reached from a node.

ghost use Rattle.std.specs.Prelude.{ℕ, ◌≡◌, ◌↔◌, Contains, IfOk, OnOk};
ghost use Rattle.pair_setup_calls.specs.Graph as spec;
ghost use Rattle.pair_setup_calls.specs.Graph.{Grows, IsClosed, Reaches, graph_of};

use indexmap::IndexSet;
use std::alloc::{AllocError, Global};

/// What a node calls.
pub fn called(graph: &[Vec<usize>], node: usize) -> &[usize]
    ensures { result.now ≡ spec.called_by (graph_of graph.now) node }
{
    if node < graph.len() {
        graph[node].as_slice()
    } else {
        &[]
    }
}

/// Adds a node, last, unless it is there.
fn add(nodes: &mut IndexSet<usize>, node: usize) -> Result<(), AllocError>
    ensures { OnOk result (Grows (λ t. t ≡ node) nodes.old.keys nodes.new.keys) }
{
    nodes.insert(node)?;
    Ok(())
}

/// Adds some nodes.
fn add_all(nodes: &mut IndexSet<usize>, added: &[usize]) -> Result<(), AllocError>
    ensures { OnOk result (Grows (Contains added.now) nodes.old.keys nodes.new.keys) }
{
    for node in added {
        add(nodes, *node)?;
    }
    Ok(())
}

/// Adds what is reached from a node, itself too. What the nodes call that are there already is
/// there.
pub fn extend(
    nodes: &mut IndexSet<usize>,
    graph: &[Vec<usize>],
    start: usize,
) -> Result<(), AllocError>
    requires closed { IsClosed (graph_of graph.now) nodes.old.keys }
    ensures grows { OnOk result (Grows (Reaches (graph_of graph.now) start) nodes.old.keys
        nodes.new.keys) }
    ensures closed { OnOk result (IsClosed (graph_of graph.now) nodes.new.keys) }
{
    let mut next = nodes.len();
    add(nodes, start)?;
    while next < nodes.len() {
        let node = nodes.as_slice()[next];
        add_all(nodes, called(graph, node))?;
        next += 1;
    }
    Ok(())
}

/// What is reached from a node, itself too.
pub fn reached(
    alloc: Global,
    graph: &[Vec<usize>],
    start: usize,
) -> Result<IndexSet<usize>, AllocError>
    ensures { IfOk result (λ nodes. (node : ℕ) → Contains nodes.keys node
        ↔ Reaches (graph_of graph.now) start node) }
{
    let mut nodes = IndexSet::new(alloc);
    extend(&mut nodes, graph, start)?;
    Ok(nodes)
}
