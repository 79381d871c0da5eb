//! Which nodes are calls.

ghost use Rattle.std.specs.Prelude.{length};
ghost use Rattle.graph_core.specs.Shared.{IsSharedNode};
ghost use Rattle.proof_tree.specs.Frames.{frame_of, side_of};
ghost use Rattle.sim_calls.specs.Sites.{AreFound, IsFound, IsFoundTo, IsSiteIn};

use graph_core::{Graph, GraphRun, SharedBinding, SharedNode};
use proof_tree::Frame;
use proof_tree_spec::Nodes;

/// A call of a side's outermost graph, whose callee and landing node are there.
#[derive(Clone, Copy)]
pub struct CallSite<'a> {
    /// The outermost graph.
    pub graph: &'a Graph,
    /// The index of the callee's graph in the set.
    pub callee: usize,
    /// What the call binds where the callee begins, over the graph's terms.
    pub inputs: &'a [SharedBinding],
    /// What it binds where the callee has returned.
    pub outputs: &'a [SharedBinding],
    /// The landing node.
    pub landing: usize,
}

/// The calls of both sides.
#[derive(Clone, Copy)]
pub struct Calls<'a> {
    /// The binary's.
    pub binary: CallSite<'a>,
    /// The source's.
    pub source: CallSite<'a>,
}

// The call that a node of a graph is, where the set has so many graphs.
fn call_in<'a>(graph: &'a Graph, graphs: usize, node: &'a SharedNode) -> Option<CallSite<'a>>
    requires { IsSharedNode (length graph.now.trees) node.now }
    ensures { IsSiteIn graph.now graphs node.now result }
{
    match node {
        SharedNode::Basic { .. } | SharedNode::Cond { .. } => None,
        SharedNode::Call {
            callee,
            inputs,
            outputs,
            landing,
        } => {
            if *callee < graphs && *landing < graph.len() {
                Some(CallSite {
                    graph,
                    callee: *callee,
                    inputs: inputs.as_slice(),
                    outputs: outputs.as_slice(),
                    landing: *landing,
                })
            } else {
                None
            }
        }
    }
}

/// The call that a node of the outermost graph is, if it is one.
pub fn call_at<'a>(run: &GraphRun<'a>, node: usize) -> Option<CallSite<'a>>
    ensures { IsFound (side_of run.now) node result }
{
    match run.graphs.get(run.outermost) {
        None => None,
        Some(graph) => match graph.nodes().get(node) {
            None => None,
            Some(found) => call_in(graph, run.graphs.len(), found),
        },
    }
}

// The call of this function that a node is, if it is one.
fn call_to<'a>(run: &GraphRun<'a>, node: usize, callee: usize) -> Option<CallSite<'a>>
    ensures { IsFoundTo (side_of run.now) node callee result }
{
    match call_at(run, node) {
        None => None,
        Some(site) => {
            if site.callee == callee {
                Some(site)
            } else {
                None
            }
        }
    }
}

/// The calls that a node of each side is, where both are calls of the functions with these graphs.
pub fn find_calls<'a>(
    frame: &Frame<'a>,
    nodes: Nodes,
    binary_callee: usize,
    source_callee: usize,
) -> Option<Calls<'a>>
    ensures { AreFound (frame_of frame.now) nodes binary_callee source_callee result }
{
    match call_to(&frame.binary, nodes.binary, binary_callee) {
        None => None,
        Some(binary) => match call_to(&frame.source, nodes.source, source_callee) {
            None => None,
            Some(source) => Some(Calls { binary, source }),
        },
    }
}
