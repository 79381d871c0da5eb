//! Terms and nodes over a bank, added to a graph.

ghost use Rattle.std.specs.Prelude.{◌≡◌, ◌<◌, [], ◌∷◌, ℕ, List, OnOk, IfOk, length, map};
ghost use Rattle.term_core_spec.specs.Term.{Term};
ghost use Rattle.term_bank.specs.Nodes.{tree_at};
ghost use Rattle.graph_core.specs.Shared.{AreSharedBindings, IsSharedNode, shared_node_of};
ghost use Rattle.c_graph_terms.specs.Tables.{AreWithin, id_at};
ghost use Rattle.c_graph.specs.Emitted.{AreImported, Emits, Imports, binding_under};

use attempt::attempt;
use c_graph_terms::placed;
use graph_core::{Graph, SharedBinding, SharedNode};
use std::alloc::{AllocError, Global};
use term_bank::{Bank, TermId};

/// Adds the terms of a bank to a graph's, and their ids to a list that is empty.
fn import_into(graph: &mut Graph, bank: &Bank, ids: &mut Vec<TermId>) -> Result<(), AllocError>
    requires { ids.old.items ≡ [] }
    ensures { OnOk result (AreImported graph.old graph.new bank.now ids.new.items) }
{
    for i in 0..bank.len() {
        let node = placed(ids.as_slice(), bank.node(i));
        let id = attempt!(graph.add_term(node));
        ids.push(id)?;
    }
    Ok(())
}

/// Adds the terms of a bank to a graph's, in order, and answers their ids there.
pub(crate) fn import(
    alloc: Global,
    graph: &mut Graph,
    bank: &Bank,
) -> Result<Vec<TermId>, AllocError>
    ensures { Imports graph.old graph.new result bank.now }
{
    let mut ids = Vec::new(alloc);
    attempt!(import_into(graph, bank, &mut ids));
    Ok(ids)
}

/// The ids in a graph of ids of a bank, whose terms have these ids in the graph.
pub(crate) fn mapped(
    alloc: Global,
    ids: &[TermId],
    given: &[TermId],
) -> Result<Vec<TermId>, AllocError>
    requires { AreWithin (length ids.now) given.now }
    ensures { IfOk result (λ found. found.items ≡ map (id_at ids.now) given.now) }
{
    let mut found = Vec::new(alloc);
    for id in given {
        found.push(ids[*id])?;
    }
    Ok(found)
}

/// The same of bindings.
fn mapped_bindings(
    alloc: Global,
    ids: &[TermId],
    given: &[SharedBinding],
) -> Result<Vec<SharedBinding>, AllocError>
    requires { AreSharedBindings (length ids.now) given.now }
    ensures { IfOk result (λ found. found.items ≡ map (binding_under ids.now) given.now) }
{
    let mut found = Vec::new(alloc);
    for binding in given {
        found.push(SharedBinding {
            variable: binding.variable,
            term: ids[binding.term],
        })?;
    }
    Ok(found)
}

/// Adds a node whose terms are the graph's.
pub(crate) fn add_node(graph: &mut Graph, node: SharedNode) -> Result<(), AllocError>
    requires { IsSharedNode (length graph.old.trees) node }
    ensures nodes { Emits graph.old graph.new result (shared_node_of graph.old.trees node ∷ []) }
    ensures trees { graph.new.trees ≡ graph.old.trees }
{
    match graph.add_shared(node) {
        Ok(_) => Ok(()),
        Err(error) => Err(error),
    }
}

/// Adds a node that is written over a bank, whose terms have these ids in the graph.
pub(crate) fn add_mapped(
    alloc: Global,
    graph: &mut Graph,
    ids: &[TermId],
    node: &SharedNode,
) -> Result<(), AllocError>
    requires ids { AreWithin (length graph.old.trees) ids.now }
    requires node { IsSharedNode (length ids.now) node.now }
    ensures { Emits graph.old graph.new result
        (shared_node_of (map (tree_at graph.old.trees) ids.now) node.now ∷ []) }
{
    match node {
        SharedNode::Basic { bindings, next } => {
            let bindings = attempt!(mapped_bindings(alloc, ids, bindings.as_slice()));
            let next = *next;
            add_node(graph, SharedNode::Basic { bindings, next })
        }
        SharedNode::Cond {
            test,
            on_true,
            on_false,
        } => add_node(
            graph,
            SharedNode::Cond {
                test: ids[*test],
                on_true: *on_true,
                on_false: *on_false,
            },
        ),
        SharedNode::Call {
            callee,
            inputs,
            outputs,
            landing,
        } => {
            let inputs = attempt!(mapped_bindings(alloc, ids, inputs.as_slice()));
            let outputs = attempt!(mapped_bindings(alloc, ids, outputs.as_slice()));
            add_node(
                graph,
                SharedNode::Call {
                    callee: *callee,
                    inputs,
                    outputs,
                    landing: *landing,
                },
            )
        }
    }
}
