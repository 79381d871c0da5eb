//! What calls take from their callees: other functions' terms.

ghost use Rattle.std.specs.Prelude.{All, length, map, IfOk};
ghost use Rattle.graph_core.specs.Graphs.{AreShared, Grows};
ghost use Rattle.graph_core.specs.Shared.{shared_binding_of, AreSharedBindings, IsSharedNode};
ghost use Rattle.graph_inline_spec.specs.Naming.{with_inlined_term};
ghost use Rattle.graph_inline.specs.Marks.{AreFor};
ghost use Rattle.graph_inline.specs.Moved.{OutputsTaken};

use crate::bindings::move_bindings;
use crate::marking::{mark_bindings, mark_outputs, mark_subterms};
use crate::terms::take_marked;
use graph_core::{Graph, SharedBinding};
use std::alloc::{AllocError, Global};
use term_bank::{Bank, TermId};

/// Marks for the terms of bindings, and for the arguments of what is marked.
fn marks_for(
    alloc: Global,
    from: &Bank,
    bindings: &[SharedBinding],
) -> Result<Vec<bool>, AllocError>
    requires { AreSharedBindings (length from.now) bindings.now }
    ensures { IfOk result (λ marks. AreFor from.now bindings.now marks.items) }
{
    let mut marks = vec![in alloc; false; from.len()]?;
    mark_bindings(marks.as_mut_slice(), bindings);
    mark_subterms(marks.as_mut_slice(), from);
    Ok(marks)
}

/// What is bound where the inlined callee has returned. The graph gets the terms of these bindings.
pub(crate) fn end_bindings(
    alloc: Global,
    graph: &mut Graph,
    from: &Bank,
    outputs: &[SharedBinding],
    instance: usize,
) -> Result<Vec<SharedBinding>, AllocError>
    requires { AreSharedBindings (length from.now) outputs.now }
    ensures found { IfOk result (λ found. AreShared graph.new.trees
        (map (with_inlined_term instance) (map (shared_binding_of from.now) outputs.now))
        found.items) }
    ensures grows { Grows graph.old graph.new }
{
    let marks = marks_for(alloc, from, outputs)?;
    let table = take_marked(alloc, graph, from, marks.as_slice(), Some(instance))?;
    let found = move_bindings(alloc, outputs, table.as_slice(), None)?;
    Ok(found)
}

/// Where the terms are that the calls of a graph take from their callees. The other graph gets them
/// as they are.
pub(crate) fn take_outputs(
    alloc: Global,
    graph: &mut Graph,
    source: &Graph,
) -> Result<Vec<TermId>, AllocError>
    ensures taken { IfOk result (λ table.
        All (OutputsTaken source.now.trees graph.new.trees table.items) source.now.nodes) }
    ensures within { All (IsSharedNode (length source.now.trees)) source.now.nodes }
    ensures grows { Grows graph.old graph.new }
{
    let from = source.bank();
    let nodes = source.nodes();
    let mut marks = vec![in alloc; false; from.len()]?;
    mark_outputs(marks.as_mut_slice(), nodes);
    mark_subterms(marks.as_mut_slice(), from);
    take_marked(alloc, graph, from, marks.as_slice(), None)
}
