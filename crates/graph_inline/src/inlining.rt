//! A graph with a call inlined.

ghost use Rattle.std.specs.Prelude.{◌≡◌, ◌<◌, ◌+◌, ◌^◌, ◌++◌, ◌∷◌, [], All, length, map, slice_set};
ghost use Rattle.std.specs.Prelude.{IfOk, OnOk, None, Some};
ghost use Rattle.graph_core_spec.specs.Graph as spec;
ghost use Rattle.graph_core_spec.specs.Graph.{with_nodes};
ghost use Rattle.graph_core.specs.Graphs.{graph_of, Grows};
ghost use Rattle.graph_core.specs.Shared.{shared_node_of, IsSharedNode};
ghost use Rattle.graph_inline_spec.specs.Inlined.{inlined_node};
ghost use Rattle.graph_inline.specs.declared.inlining.InlineFault.TheVariants.{NoMemory};
ghost use Rattle.graph_inline.specs.Taken.{AllTaken};
ghost use Rattle.graph_inline.specs.Moved.{NodesTaken};
ghost use Rattle.graph_inline.specs.Outcome.{IsInlining};
ghost use Rattle.graph_inline.specs.Filled.{IsCall, HasTables, filled};

use crate::finish::{end_bindings, take_outputs};
use crate::nodes::{Placing, add_nodes};
use crate::start::start_bindings;
use crate::terms::take_all;
use attempt::attempt;
use graph_core::{Graph, Next, SharedBinding, SharedNode};
use std::alloc::{AllocError, Global};
use term_bank::TermId;
use term_core_spec::Variable;
use tv_limits::MAX_NODES;

/// Why a call wasn't inlined.
#[derive(Clone, Copy)]
pub enum InlineFault {
    /// The node is no call, or is not there.
    NotCall,
    /// There would be this many nodes, more than a graph may have.
    TooLarge(usize),
    /// There was no memory.
    NoMemory,
}

impl From<AllocError> for InlineFault {
    ghost from_gives = { λ _ fault. fault ≡ NoMemory };

    fn from(_: AllocError) -> Self {
        InlineFault::NoMemory
    }
}

/// What a call passes, what it takes, and where it continues.
#[derive(Clone, Copy)]
struct Passing<'a> {
    inputs: &'a [SharedBinding],
    outputs: &'a [SharedBinding],
    landing: usize,
}

/// Where the terms of both graphs are in the new one.
#[derive(Drop)]
struct Tables {
    /// Those of the caller.
    caller: Vec<TermId>,
    /// Those of the callee, with its own variables in the instance.
    renamed: Vec<TermId>,
    /// Those of the callee that its own calls take, as they are.
    kept: Vec<TermId>,
}

/// The call at a node, if it is one.
fn call_at(caller: &Graph, node: usize) -> Option<Passing<'_>>
    ensures { IsCall caller.now node result }
{
    match caller.nodes().get(node) {
        Some(
            SharedNode::Call {
                inputs,
                outputs,
                landing,
                ..
            },
        ) => Some(Passing {
            inputs: inputs.as_slice(),
            outputs: outputs.as_slice(),
            landing: *landing,
        }),
        _ => None,
    }
}

fn take_tables(
    alloc: Global,
    graph: &mut Graph,
    caller: &Graph,
    callee: &Graph,
    instance: usize,
) -> Result<Tables, AllocError>
    ensures tables { IfOk result (HasTables caller.now callee.now graph.new.trees instance) }
    ensures grows { Grows graph.old graph.new }
{
    let kept = take_outputs(alloc, graph, callee)?;
    let caller = take_all(alloc, graph, caller.bank(), None)?;
    let renamed = take_all(alloc, graph, callee.bank(), Some(instance))?;
    Ok(Tables {
        caller,
        renamed,
        kept,
    })
}

/// Adds the nodes of the caller, with another one in place of the call.
fn add_caller(
    alloc: Global,
    graph: &mut Graph,
    caller: &Graph,
    node: usize,
    start: SharedNode,
    table: &[TermId],
) -> Result<(), AllocError>
    requires node { node < length caller.now.nodes }
    requires within { All (IsSharedNode (length caller.now.trees)) caller.now.nodes }
    requires table { AllTaken None caller.now.trees graph.old.trees table.now }
    requires start { IsSharedNode (length graph.old.trees) start }
    ensures added { OnOk result (graph_of graph.new ≡ with_nodes (graph_of graph.old)
        (slice_set (graph_of caller.now).nodes node (shared_node_of graph.old.trees start))) }
    ensures trees { graph.new.trees ≡ graph.old.trees }
{
    let count = caller.len();
    add_nodes(alloc, graph, caller, 0, node, table, table, None)?;
    graph.add_shared(start)?;
    add_nodes(alloc, graph, caller, node + 1, count, table, table, None)?;
    Ok(())
}

/// Adds the nodes of the callee, and after them the one where it returns.
fn add_callee(
    alloc: Global,
    graph: &mut Graph,
    callee: &Graph,
    end: SharedNode,
    tables: &Tables,
    placing: Placing,
) -> Result<(), AllocError>
    requires valid { spec.IsValid (graph_of callee.now) }
    requires fits { placing.first + length callee.now.nodes < 2 ^ 64 }
    requires taken { NodesTaken (Some placing.instance) callee.now.trees graph.old.trees
        tables.now.renamed.items tables.now.kept.items callee.now.nodes }
    requires end { IsSharedNode (length graph.old.trees) end }
    ensures added { OnOk result (graph_of graph.new ≡ with_nodes (graph_of graph.old)
        (map (inlined_node placing.instance placing.first placing.last) (graph_of callee.now).nodes
        ++ shared_node_of graph.old.trees end ∷ [])) }
{
    let renamed = tables.renamed.as_slice();
    let kept = tables.kept.as_slice();
    let count = callee.len();
    add_nodes(alloc, graph, callee, 0, count, renamed, kept, Some(placing))?;
    graph.add_shared(end)?;
    Ok(())
}

/// Fills a graph with the nodes of the caller, its call inlined.
fn fill(
    alloc: Global,
    graph: &mut Graph,
    caller: &Graph,
    node: usize,
    call: Passing<'_>,
    callee: &Graph,
    own: &[Variable],
    instance: usize,
) -> Result<(), AllocError>
    requires empty { graph_of graph.old ≡ spec.empty }
    requires valid { spec.IsValid (graph_of callee.now) }
    requires call { IsCall caller.now node (Some call) }
    ensures { OnOk result (graph_of graph.new ≡ filled caller.now node call.entry callee.now
        own.now instance) }
{
    let count = caller.len();
    let size = callee.len();
    let entry = callee.entry();
    let tables = take_tables(alloc, graph, caller, callee, instance)?;
    let table = tables.caller.as_slice();
    let started = start_bindings(alloc, graph, call.inputs, table, own, instance)?;
    let ended = end_bindings(alloc, graph, caller.bank(), call.outputs, instance)?;
    let next = Next::At(count + entry);
    let start = SharedNode::Basic {
        bindings: started,
        next,
    };
    let end = SharedNode::Basic {
        bindings: ended,
        next: Next::At(call.landing),
    };
    let placing = Placing {
        instance,
        first: count,
        last: count + size,
    };
    add_caller(alloc, graph, caller, node, start, table)?;
    add_callee(alloc, graph, callee, end, &tables, placing)?;
    graph.set_entry(caller.entry());
    Ok(())
}

fn inline_call(
    alloc: Global,
    caller: &Graph,
    node: usize,
    call: Passing<'_>,
    callee: &Graph,
    own: &[Variable],
    instance: usize,
) -> Result<Graph, AllocError>
    requires valid { spec.IsValid (graph_of callee.now) }
    requires call { IsCall caller.now node (Some call) }
    ensures { IfOk result (λ g. graph_of g ≡ filled caller.now node call.entry callee.now
        own.now instance) }
{
    let mut graph = Graph::new(alloc);
    attempt!(fill(alloc, &mut graph, caller, node, call, callee, own, instance));
    Ok(graph)
}

/// The graph of the caller with its call at a node inlined: the callee's own variables, all of
/// which are listed, belong to the instance there. The caller's nodes keep their numbers; the
/// callee's follow, and after them comes the node where it returns.
pub fn inline(
    alloc: Global,
    caller: &Graph,
    node: usize,
    callee: &Graph,
    own: &[Variable],
    instance: usize,
) -> Result<Graph, InlineFault>
    requires { spec.IsValid (graph_of callee.now) }
    ensures { IsInlining (graph_of caller.now) node (graph_of callee.now) own.now instance
        result }
{
    match call_at(caller, node) {
        Some(call) => {
            let size = caller.len() + callee.len() + 1;
            if size > MAX_NODES {
                return Err(InlineFault::TooLarge(size));
            }
            let graph = inline_call(alloc, caller, node, call, callee, own, instance)?;
            Ok(graph)
        }
        None => Err(InlineFault::NotCall),
    }
}
