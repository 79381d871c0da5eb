//! What the inlined graph binds in place of the call: the inputs, and the callee's own variables.

ghost use Rattle.std.specs.Prelude.{◌≡◌, ◌<◌, ◌++◌, List, [], length, map, filter, OnOk, IfOk};
ghost use Rattle.std.specs.Prelude.{None};
ghost use Rattle.term_core_spec.specs.Term.{Term, Leaf};
ghost use Rattle.term_bank.specs.Nodes.{Holds};
ghost use Rattle.graph_core_spec.specs.Graph.{Binding};
ghost use Rattle.graph_core.specs.Graphs.{AreShared, Grows};
ghost use Rattle.graph_core.specs.Shared.{shared_binding_of, AreSharedBindings};
ghost use Rattle.graph_inline_spec.specs.Inlined as spec;
ghost use Rattle.graph_inline.specs.Taken.{id_at};
ghost use Rattle.graph_inline.specs.Moved.{input_of, shared_inputs, BindingsTaken};

use crate::bindings::move_bindings;
use crate::naming::{is_shared, name};
use attempt::attempt;
use graph_core::{Graph, SharedBinding};
use std::alloc::{AllocError, Global};
use term_bank::{TermId, TermNode};
use term_core_spec::{Atom, Sort, Variable};

/// What a function's own variable holds before it is bound.
fn unset_atom(variable: Variable) -> Atom
    ensures { Leaf result ≡ spec.unset_term variable variable.sort }
{
    match variable.sort {
        Sort::Truth => Atom::Truth(false),
        Sort::Word(width) => Atom::Constant(width, 0),
        Sort::Memory => Atom::Open(variable),
    }
}

/// The term of the input that binds a variable, if one does.
fn find_input(inputs: &[SharedBinding], variable: Variable) -> Option<TermId>
    ensures { result ≡ input_of inputs.now variable }
{
    for input in inputs {
        if variable == input.variable {
            return Some(input.term);
        }
    }
    None
}

// Where a term was taken to.
fn entry(table: &[TermId], id: TermId) -> TermId
    requires { id < length table.now }
    ensures { result ≡ id_at table.now id }
{
    table[id]
}

/// The term with which the callee's variable starts.
fn start_term(
    graph: &mut Graph,
    inputs: &[SharedBinding],
    table: &[TermId],
    variable: Variable,
) -> Result<TermId, AllocError>
    requires { AreSharedBindings (length table.now) inputs.now }
    ensures id { (from : List Term) → BindingsTaken None from graph.old.trees table.now inputs.now
        → IfOk result (λ id. Holds graph.new.trees id
        (spec.start_term (map (shared_binding_of from) inputs.now) variable)) }
    ensures grows { Grows graph.old graph.new }
{
    match find_input(inputs, variable) {
        Some(id) => Ok(entry(table, id)),
        None => graph.add_term(TermNode::Leaf(unset_atom(variable))),
    }
}

/// Adds the bindings of the callee's own variables.
fn add_own(
    graph: &mut Graph,
    inputs: &[SharedBinding],
    table: &[TermId],
    own: &[Variable],
    instance: usize,
    found: &mut Vec<SharedBinding>,
) -> Result<(), AllocError>
    requires { AreSharedBindings (length table.now) inputs.now }
    ensures found { (from : List Term) (before : List Binding)
        → BindingsTaken None from graph.old.trees table.now inputs.now
        → AreShared graph.old.trees before found.old.items
        → OnOk result (AreShared graph.new.trees (before
        ++ map (spec.start_binding instance (map (shared_binding_of from) inputs.now)) own.now)
        found.new.items) }
    ensures grows { Grows graph.old graph.new }
{
    for variable in own {
        let term = start_term(graph, inputs, table, *variable)?;
        found.push(SharedBinding {
            variable: name(Some(instance), *variable),
            term,
        })?;
    }
    Ok(())
}

/// The inputs that bind what is shared.
fn add_shared_inputs(
    inputs: &[SharedBinding],
    found: &mut Vec<SharedBinding>,
) -> Result<(), AllocError>
    requires { found.old.items ≡ [] }
    ensures { OnOk result (found.new.items ≡ shared_inputs inputs.now) }
{
    for input in inputs {
        if is_shared(input.variable) {
            found.push(*input)?;
        }
    }
    Ok(())
}

fn shared_of(alloc: Global, inputs: &[SharedBinding]) -> Result<Vec<SharedBinding>, AllocError>
    ensures { IfOk result (λ found. found.items ≡ shared_inputs inputs.now) }
{
    let mut found = Vec::new(alloc);
    attempt!(add_shared_inputs(inputs, &mut found));
    Ok(found)
}

/// What is bound where the callee begins: what the inputs bind of memory and registers, then all of
/// its own variables. The table has where the caller's terms are in the graph, which gets some
/// more.
pub(crate) fn start_bindings(
    alloc: Global,
    graph: &mut Graph,
    inputs: &[SharedBinding],
    table: &[TermId],
    own: &[Variable],
    instance: usize,
) -> Result<Vec<SharedBinding>, AllocError>
    requires { AreSharedBindings (length table.now) inputs.now }
    ensures found { (from : List Term)
        → BindingsTaken None from graph.old.trees table.now inputs.now
        → IfOk result (λ found. AreShared graph.new.trees
        (spec.start_bindings own.now instance (map (shared_binding_of from) inputs.now))
        found.items) }
    ensures grows { Grows graph.old graph.new }
{
    let shared = shared_of(alloc, inputs)?;
    let mut found = move_bindings(alloc, shared.as_slice(), table, None)?;
    add_own(graph, inputs, table, own, instance, &mut found)?;
    Ok(found)
}
