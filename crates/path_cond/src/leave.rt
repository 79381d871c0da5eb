//! What leaves a node: the condition of each of its branches, and the state after it.

ghost use Rattle.std.specs.Prelude.{◌≡◌, ◌<◌, length, map, IfOk, OnOk, Some, None, List};
ghost use Rattle.std.specs.Prelude.{option_map, IfSome};
ghost use Rattle.std.specs.HashMap.{get};
ghost use Rattle.term_core_spec.specs.Same.{same_variable};
ghost use Rattle.term_core_spec.specs.Term as tree;
ghost use Rattle.term_core_spec.specs.Substitution.{State as Terms, substituted};
ghost use Rattle.term_core_spec.specs.declared.Variable as spec;
ghost use Rattle.term_bank.specs.Nodes.{tree_at, Extends, Holds};
ghost use Rattle.term_substitution.specs.States.{AreBelow};
ghost use Rattle.visit_walk_spec.specs.declared.Branch.{Branch};
ghost use Rattle.path_cond_spec.specs.Conditions.{Conditional, node_of_place};
ghost use Rattle.path_cond.specs.Branches.{HasBranches, IsLeft, id_by};
ghost use Rattle.path_cond_spec.specs.Conditions.{assigned};
ghost use Rattle.graph_core.specs.Graphs.{graph_of};
ghost use Rattle.graph_core.specs.Shared.{shared_binding_of, shared_node_of};
ghost use Rattle.graph_core.specs.Shared.{AreSharedBindings, IsSharedNode};
ghost use Rattle.path_cond.specs.Bound.{AreListed, IsListedNode, ListsAll};
ghost use Rattle.path_cond.specs.Ids.{id_at};
ghost use Rattle.path_cond.specs.States.{HasState, IsCurrent, IsFull, IsOutside, IsSet};
ghost use Rattle.path_cond.specs.States.{Stays};

use crate::ids::Ids;
use crate::states::{State, assign, set_current};
use attempt::attempt;
use graph_core::{Graph, Next, SharedBinding, SharedNode};
use indexmap::IndexSet;
use std::alloc::{AllocError, Global};
use std::collections::HashMap;
use term_bank::{Bank, TermId, TermNode};
use term_core_spec::{BinaryOperator, UnaryOperator, Variable};
use term_substitution::transfer_one;

/// The conditions of the branches of a node: all are the node's own, unless it has a test.
#[derive(Clone, Copy)]
pub struct Leaving {
    /// of the only branch
    pub only: TermId,
    /// of the branch that is taken if the test holds
    pub if_true: TermId,
    /// of the branch that is taken if the test doesn't hold
    pub if_false: TermId,
}

/// The conditions of the branches of a conditional node, whose test is in the bank `from`, by that
/// of the node and the state there.
pub fn branches(
    alloc: Global,
    bank: &mut Bank,
    from: &Bank,
    condition: TermId,
    test: TermId,
    current: &State,
) -> Result<Leaving, AllocError>
    requires test { test < length from.now }
    requires condition { condition < length bank.old }
    requires current { AreBelow (length bank.old) (get same_variable current.now) }
    ensures branches { (c : tree.Term) (state : Terms) → Holds bank.old condition c
        → IsCurrent bank.old (get same_variable current.now) state
        → IfOk result (HasBranches bank.new c (substituted state (tree_at from.now test))) }
    ensures extends { Extends bank.old bank.new }
{
    let holds = transfer_one(alloc, bank, from, test, current)?;
    let fails = bank.add(TermNode::Unary(UnaryOperator::Not, holds))?;
    let if_true = bank.add(TermNode::Binary(BinaryOperator::And, condition, holds))?;
    let if_false = bank.add(TermNode::Binary(BinaryOperator::And, condition, fails))?;
    Ok(Leaving {
        only: condition,
        if_true,
        if_false,
    })
}

// The state after some bindings, whose terms, of the bank `from`, speak of the state before.
fn bind(
    alloc: Global,
    bank: &mut Bank,
    from: &Bank,
    variables: &IndexSet<Variable>,
    current: &mut State,
    bindings: &[SharedBinding],
    state: &Ids,
) -> Result<Ids, AllocError>
    requires within { AreSharedBindings (length from.now) bindings.now }
    requires current { AreBelow (length bank.old) (get same_variable current.old) }
    requires listed { AreListed variables.now.keys
        (map (shared_binding_of from.now) bindings.now) }
    requires full { IsFull (length bank.old) (length variables.now.keys) (id_at state.now) }
    ensures state { (start s : Terms)
        → HasState bank.old variables.now.keys start (id_at state.now) s
        → IsOutside bank.old variables.now.keys start (get same_variable current.old)
        → IfOk result (λ new. HasState bank.new variables.now.keys start (id_at new)
        (assigned (map (shared_binding_of from.now) bindings.now) s s)) }
    ensures current { OnOk result (IsSet variables.now.keys (id_at state.now)
        (get same_variable current.old) (get same_variable current.new)) }
    ensures extends { Extends bank.old bank.new }
{
    set_current(current, variables, state)?;
    let mut done = HashMap::new(alloc);
    assign(
        alloc, bank, from, variables, current, bindings, state, &mut done,
    )
}

// The conditions of the branches of a test, whose term, of the bank `from`, speaks of the state.
fn divide(
    alloc: Global,
    bank: &mut Bank,
    from: &Bank,
    variables: &IndexSet<Variable>,
    current: &mut State,
    test: TermId,
    condition: TermId,
    state: &Ids,
) -> Result<Leaving, AllocError>
    requires test { test < length from.now }
    requires current { AreBelow (length bank.old) (get same_variable current.old) }
    requires condition { condition < length bank.old }
    requires full { IsFull (length bank.old) (length variables.now.keys) (id_at state.now) }
    ensures branches { (start s : Terms) (c : tree.Term)
        → HasState bank.old variables.now.keys start (id_at state.now) s
        → IsOutside bank.old variables.now.keys start (get same_variable current.old)
        → Holds bank.old condition c
        → IfOk result (HasBranches bank.new c (substituted s (tree_at from.now test))) }
    ensures current { OnOk result (IsSet variables.now.keys (id_at state.now)
        (get same_variable current.old) (get same_variable current.new)) }
    ensures extends { Extends bank.old bank.new }
{
    set_current(current, variables, state)?;
    branches(alloc, bank, from, condition, test, current)
}

// The conditions of the branches of a node without a test.
fn undivided(condition: TermId) -> Leaving
    ensures { (b : Branch) → id_by result b ≡ condition }
{
    Leaving {
        only: condition,
        if_true: condition,
        if_false: condition,
    }
}

// What leaves a node that is there, whose terms are in the bank `from`.
fn leave_node(
    alloc: Global,
    bank: &mut Bank,
    from: &Bank,
    variables: &IndexSet<Variable>,
    current: &mut State,
    node: &SharedNode,
    condition: TermId,
    state: &Ids,
) -> Result<(Leaving, Ids), AllocError>
    requires within { IsSharedNode (length from.now) node.now }
    requires current { AreBelow (length bank.old) (get same_variable current.old) }
    requires condition { condition < length bank.old }
    requires listed { IsListedNode variables.now.keys (shared_node_of from.now node.now) }
    requires full { IsFull (length bank.old) (length variables.now.keys) (id_at state.now) }
    ensures left { (start : Terms) (c : Conditional) → Holds bank.old condition c.condition
        → HasState bank.old variables.now.keys start (id_at state.now) c.state
        → IsOutside bank.old variables.now.keys start (get same_variable current.old)
        → IfOk result (IsLeft bank.new variables.now.keys start
        (Some (shared_node_of from.now node.now)) c) }
    ensures current { OnOk result (Stays bank.old bank.new variables.now.keys
        (get same_variable current.old) (get same_variable current.new)) }
    ensures extends { Extends bank.old bank.new }
{
    match node {
        SharedNode::Basic { bindings, .. } => {
            let after = bind(
                alloc,
                bank,
                from,
                variables,
                current,
                bindings.as_slice(),
                state,
            )?;
            Ok((undivided(condition), after))
        }
        SharedNode::Cond { test, .. } => {
            let after = state.share()?;
            let leaving = divide(
                alloc, bank, from, variables, current, *test, condition, state,
            )?;
            Ok((leaving, after))
        }
        SharedNode::Call { .. } => {
            let after = state.share()?;
            Ok((undivided(condition), after))
        }
    }
}

// The node of a place.
fn node_at(graph: &Graph, place: Next) -> Option<&SharedNode>
    ensures node { option_map (λ n. shared_node_of graph.now.trees n.now) result
        ≡ node_of_place (graph_of graph.now) place }
    ensures within { IfSome result (λ n. IsSharedNode (length graph.now.trees) n.now) }
{
    match place {
        Next::At(n) => graph.nodes().get(n),
        Next::Ret | Next::Err => None,
    }
}

// Where there is no node, the condition and the state stay.
fn unchanged(condition: TermId, state: &Ids) -> Result<(Leaving, Ids), AllocError>
    ensures { (trees : List tree.Term) (variables : List spec.Variable) (start : Terms)
        (c : Conditional) → Holds trees condition c.condition
        → HasState trees variables start (id_at state.now) c.state
        → IfOk result (IsLeft trees variables start None c) }
{
    let after = attempt!(state.share());
    Ok((undivided(condition), after))
}

/// What leaves the node of a place, from the condition and the state there; where there is no node,
/// that is these.
pub fn leave(
    alloc: Global,
    bank: &mut Bank,
    graph: &Graph,
    variables: &IndexSet<Variable>,
    current: &mut State,
    place: Next,
    condition: TermId,
    state: &Ids,
) -> Result<(Leaving, Ids), AllocError>
    requires current { AreBelow (length bank.old) (get same_variable current.old) }
    requires condition { condition < length bank.old }
    requires listed { ListsAll variables.now.keys (graph_of graph.now).nodes }
    requires full { IsFull (length bank.old) (length variables.now.keys) (id_at state.now) }
    ensures left { (start : Terms) (c : Conditional) → Holds bank.old condition c.condition
        → HasState bank.old variables.now.keys start (id_at state.now) c.state
        → IsOutside bank.old variables.now.keys start (get same_variable current.old)
        → IfOk result (IsLeft bank.new variables.now.keys start
        (node_of_place (graph_of graph.now) place) c) }
    ensures current { OnOk result (Stays bank.old bank.new variables.now.keys
        (get same_variable current.old) (get same_variable current.new)) }
    ensures extends { Extends bank.old bank.new }
{
    match node_at(graph, place) {
        Some(node) => leave_node(
            alloc,
            bank,
            graph.bank(),
            variables,
            current,
            node,
            condition,
            state,
        ),
        None => unchanged(condition, state),
    }
}
