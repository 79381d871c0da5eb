//! The variables of a graph.

ghost use Rattle.std.specs.Prelude.{◌≡◌, ◌<◌, All, length, map, IfOk, OnOk};
ghost use Rattle.term_bank.specs.Nodes.{tree_at};
ghost use Rattle.graph_core_spec.specs.Variables as spec;
ghost use Rattle.graph_core.specs.Graphs.{graph_of};
ghost use Rattle.graph_core.specs.Seen.{own_variables, AreSeen};
ghost use Rattle.graph_core.specs.Shared.{shared_binding_of, shared_node_of};
ghost use Rattle.graph_core.specs.Shared.{AreSharedBindings, IsSharedNode};

use crate::graph::Graph;
use crate::shared::{SharedBinding, SharedNode};
use attempt::attempt;
use indexmap::IndexSet;
use std::alloc::{AllocError, Global};
use term_bank::{Bank, TermId, TermNode};
use term_core_spec::{Atom, Variable};
use term_substitution::arguments;

/// Adds the variable that a term is, if it is one.
fn add_leaf(variables: &mut IndexSet<Variable>, node: TermNode) -> Result<(), AllocError>
    ensures { OnOk result (variables.new.keys
        ≡ spec.with_variables variables.old.keys (own_variables node)) }
{
    if let TermNode::Leaf(Atom::Open(variable)) = node {
        variables.insert(variable)?;
    }
    Ok(())
}

/// Adds the variables of a term, from left to right, unless it was seen. It calls itself once a
/// level: a term of a graph is that of one instruction, or of one C expression, whose operators are
/// at most `OPERATOR_LIMIT` (`tv_limits`), each of a few levels; the tests of runs of fixed bytes
/// are joined by halves, 16 levels deep.
fn add_term(
    variables: &mut IndexSet<Variable>,
    seen: &mut IndexSet<TermId>,
    bank: &Bank,
    id: TermId,
) -> Result<(), AllocError>
    requires id { id < length bank.now }
    requires seen { AreSeen bank.now variables.old.keys seen.old.keys }
    ensures added { OnOk result (variables.new.keys
        ≡ spec.with_variables variables.old.keys (spec.occurrences (tree_at bank.now id))) }
    ensures seen { OnOk result (AreSeen bank.now variables.new.keys seen.new.keys) }
{
    if seen.contains(&id) {
        return Ok(());
    }
    let node = bank.node(id);
    add_leaf(variables, node)?;
    let (ids, count) = arguments(node);
    for k in 0..count {
        add_term(variables, seen, bank, ids[k])?;
    }
    seen.insert(id)?;
    Ok(())
}

/// Adds of each binding the variable that is bound, then those of its term.
fn add_bindings(
    variables: &mut IndexSet<Variable>,
    seen: &mut IndexSet<TermId>,
    bank: &Bank,
    bindings: &[SharedBinding],
) -> Result<(), AllocError>
    requires within { AreSharedBindings (length bank.now) bindings.now }
    requires seen { AreSeen bank.now variables.old.keys seen.old.keys }
    ensures added { OnOk result (variables.new.keys
        ≡ spec.with_variables variables.old.keys
        (spec.occurrences_in_bindings (map (shared_binding_of bank.now) bindings.now))) }
    ensures seen { OnOk result (AreSeen bank.now variables.new.keys seen.new.keys) }
{
    for binding in bindings {
        variables.insert(binding.variable)?;
        add_term(variables, seen, bank, binding.term)?;
    }
    Ok(())
}

/// Adds the variables of a node.
fn add_node(
    variables: &mut IndexSet<Variable>,
    seen: &mut IndexSet<TermId>,
    bank: &Bank,
    node: &SharedNode,
) -> Result<(), AllocError>
    requires within { IsSharedNode (length bank.now) node.now }
    requires seen { AreSeen bank.now variables.old.keys seen.old.keys }
    ensures added { OnOk result (variables.new.keys
        ≡ spec.with_variables variables.old.keys
        (spec.occurrences_in_node (shared_node_of bank.now node.now))) }
    ensures seen { OnOk result (AreSeen bank.now variables.new.keys seen.new.keys) }
{
    match node {
        SharedNode::Basic { bindings, .. } => {
            add_bindings(variables, seen, bank, bindings.as_slice())
        }
        SharedNode::Cond { test, .. } => add_term(variables, seen, bank, *test),
        SharedNode::Call {
            inputs,
            outputs,
            ..
        } => {
            attempt!(add_bindings(variables, seen, bank, inputs.as_slice()));
            add_bindings(variables, seen, bank, outputs.as_slice())
        }
    }
}

/// Adds the variables of nodes, in order.
fn add_nodes(
    variables: &mut IndexSet<Variable>,
    seen: &mut IndexSet<TermId>,
    bank: &Bank,
    nodes: &[SharedNode],
) -> Result<(), AllocError>
    requires within { All (IsSharedNode (length bank.now)) nodes.now }
    requires seen { AreSeen bank.now variables.old.keys seen.old.keys }
    ensures { OnOk result (variables.new.keys
        ≡ spec.with_variables variables.old.keys
        (spec.occurrences_in_nodes (map (shared_node_of bank.now) nodes.now))) }
{
    for node in nodes {
        add_node(variables, seen, bank, node)?;
    }
    Ok(())
}

impl Graph {
    /// Each variable that the graph binds, tests, passes to a callee or takes from it, once, in the
    /// order of the nodes in which they occur first. Each term is gone through once.
    pub fn variables(&self, alloc: Global) -> Result<IndexSet<Variable>, AllocError>
        ensures { IfOk result (λ found. found.keys ≡ spec.variables (graph_of self.now)) }
    {
        let mut variables = IndexSet::new(alloc);
        let mut seen = IndexSet::new(alloc);
        attempt!(add_nodes(&mut variables, &mut seen, self.bank(), self.nodes()));
        Ok(variables)
    }
}
