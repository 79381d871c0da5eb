//! Nodes of one graph in another: those of the caller, which stay, and those of the callee.

ghost use Rattle.std.specs.Prelude.{◌≡◌, ◌<◌, ◌≤◌, ◌∷◌, [], List, All, length, map, drop, take};
ghost use Rattle.std.specs.Prelude.{get_or, OnOk, IfOk};
ghost use Rattle.term_core_spec.specs.Term.{Term};
ghost use Rattle.graph_core_spec.specs.Graph.{Node, with_nodes};
ghost use Rattle.graph_core.specs.Graphs.{graph_of};
ghost use Rattle.graph_inline.specs.Moved as moved;
ghost use Rattle.graph_inline.specs.Moved.{NextFits, NumberFits, NodeFits, NodeWithin};
ghost use Rattle.graph_inline.specs.Moved.{NodeTaken, NodesTaken, IsMoved};

use crate::bindings::move_bindings;
use graph_core::{Graph, Next, SharedNode};
use std::alloc::{AllocError, Global};
use term_bank::TermId;

/// Where a callee's body is placed.
#[derive(Clone, Copy)]
pub(crate) struct Placing {
    /// To which its own variables belong.
    pub(crate) instance: usize,
    /// Its first node.
    pub(crate) first: usize,
    /// The node where it returns.
    pub(crate) last: usize,
}

fn instance_of(placing: Option<Placing>) -> Option<usize>
    ensures { result ≡ moved.instance_of placing }
{
    match placing {
        Some(placing) => Some(placing.instance),
        None => None,
    }
}

fn move_next(placing: Option<Placing>, next: Next) -> Next
    requires { NextFits placing next }
    ensures { result ≡ moved.moved_next placing next }
{
    match placing {
        Some(placing) => match next {
            Next::At(node) => Next::At(placing.first + node),
            Next::Ret => Next::At(placing.last),
            Next::Err => Next::Err,
        },
        None => next,
    }
}

fn move_number(placing: Option<Placing>, node: usize) -> usize
    requires { NumberFits placing node }
    ensures { result ≡ moved.moved_number placing node }
{
    match placing {
        Some(placing) => placing.first + node,
        None => node,
    }
}

/// A node of the one graph, over the terms of the other.
fn move_node(
    alloc: Global,
    node: &SharedNode,
    renamed: &[TermId],
    kept: &[TermId],
    placing: Option<Placing>,
) -> Result<SharedNode, AllocError>
    requires within { NodeWithin (length renamed.now) (length kept.now) node.now }
    requires fits { NodeFits placing node.now }
    ensures { (from trees : List Term)
        → NodeTaken (moved.instance_of placing) from trees renamed.now kept.now node.now
        → IfOk result (IsMoved placing from trees node.now) }
{
    match node {
        SharedNode::Basic { bindings, next } => {
            let variables = instance_of(placing);
            let bindings = move_bindings(alloc, bindings.as_slice(), renamed, variables)?;
            let next = move_next(placing, *next);
            Ok(SharedNode::Basic { bindings, next })
        }
        SharedNode::Cond {
            test,
            on_true,
            on_false,
        } => Ok(SharedNode::Cond {
            test: renamed[*test],
            on_true: move_next(placing, *on_true),
            on_false: move_next(placing, *on_false),
        }),
        SharedNode::Call {
            callee,
            inputs,
            outputs,
            landing,
        } => {
            let variables = instance_of(placing);
            let inputs = move_bindings(alloc, inputs.as_slice(), renamed, None)?;
            let outputs = move_bindings(alloc, outputs.as_slice(), kept, variables)?;
            Ok(SharedNode::Call {
                callee: *callee,
                inputs,
                outputs,
                landing: move_number(placing, *landing),
            })
        }
    }
}

/// Adds a node of a graph.
fn add_node(
    alloc: Global,
    graph: &mut Graph,
    source: &Graph,
    k: usize,
    renamed: &[TermId],
    kept: &[TermId],
    placing: Option<Placing>,
) -> Result<(), AllocError>
    requires k { k < length source.now.nodes }
    requires taken { NodesTaken (moved.instance_of placing) source.now.trees graph.old.trees
        renamed.now kept.now source.now.nodes }
    requires fits { All (NodeFits placing) source.now.nodes }
    ensures added { (d : Node) → OnOk result (graph_of graph.new ≡ with_nodes (graph_of graph.old)
        (moved.moved_node placing (get_or (graph_of source.now).nodes k d) ∷ [])) }
    ensures trees { graph.new.trees ≡ graph.old.trees }
{
    let nodes = source.nodes();
    let node = move_node(alloc, &nodes[k], renamed, kept, placing)?;
    graph.add_shared(node)?;
    Ok(())
}

/// Adds some nodes of a graph, in their order. The tables have where the graph's terms are, with
/// its own variables in the instance and as they are.
pub(crate) fn add_nodes(
    alloc: Global,
    graph: &mut Graph,
    source: &Graph,
    first: usize,
    last: usize,
    renamed: &[TermId],
    kept: &[TermId],
    placing: Option<Placing>,
) -> Result<(), AllocError>
    requires range { (first ≤ last) × (last ≤ length source.now.nodes) }
    requires taken { NodesTaken (moved.instance_of placing) source.now.trees graph.old.trees
        renamed.now kept.now source.now.nodes }
    requires fits { All (NodeFits placing) source.now.nodes }
    ensures added { OnOk result (graph_of graph.new ≡ with_nodes (graph_of graph.old)
        (map (moved.moved_node placing)
        (drop first (take last (graph_of source.now).nodes)))) }
    ensures trees { graph.new.trees ≡ graph.old.trees }
{
    for k in first..last {
        add_node(alloc, graph, source, k, renamed, kept, placing)?;
    }
    Ok(())
}
