//! The conditions of all visits of a walk.

ghost use Rattle.std.specs.Prelude.{◌≡◌, ℕ, length, IfOk, OnOk};
ghost use Rattle.std.specs.HashMap.{get};
ghost use Rattle.term_core_spec.specs.Same.{same_variable};
ghost use Rattle.term_core_spec.specs.Substitution.{State as Terms};
ghost use Rattle.term_bank.specs.Nodes.{Extends};
ghost use Rattle.term_substitution.specs.States.{AreBelow, IsAt, state_of};
ghost use Rattle.graph_core.specs.Graphs.{graph_of};
ghost use Rattle.visit_walk_spec.specs.Listing.{IsListing};
ghost use Rattle.visit_walk_spec.specs.Visits.{Walk};
ghost use Rattle.path_cond_spec.specs.Junctions.{junctions};
ghost use Rattle.path_cond_spec.specs.Conditions.{conditionals};
ghost use Rattle.path_cond.specs.Bound.{ListsAll};
ghost use Rattle.path_cond.specs.Ids.{id_at};
ghost use Rattle.path_cond.specs.Listed.{junctions_of};
ghost use Rattle.path_cond.specs.Result.{AreConditions};
ghost use Rattle.path_cond.specs.Table.{AreEarlier, AreKnown, IsNothing};
ghost use Rattle.path_cond.specs.States.{HasState, IsStart};

use crate::bound::bound_variables;
use crate::found::Conditions;
use crate::ids::Ids;
use crate::known::{Known, add_visit};
use crate::states::State;
use graph_core::Graph;
use indexmap::IndexSet;
use std::alloc::{AllocError, Global};
use term_bank::{Bank, TermId, TermNode};
use term_core_spec::{Atom, Variable};
use visit_walk::Visits;

// The term of a variable in a state; one that has none is itself.
fn start_term(bank: &mut Bank, start: &State, variable: Variable) -> Result<TermId, AllocError>
    requires { AreBelow (length bank.old) (get same_variable start.now) }
    ensures tree { IsAt bank.new result (state_of bank.old (get same_variable start.now) variable) }
    ensures extends { Extends bank.old bank.new }
{
    match start.get(&variable) {
        Some(id) => Ok(*id),
        None => bank.add(TermNode::Leaf(Atom::Open(variable))),
    }
}

// The state of the start by the numbers of variables.
fn start_ids(
    alloc: Global,
    bank: &mut Bank,
    variables: &IndexSet<Variable>,
    start: &State,
) -> Result<Ids, AllocError>
    requires { AreBelow (length bank.old) (get same_variable start.now) }
    ensures state { IfOk result (λ ids. HasState bank.new variables.now.keys
        (state_of bank.old (get same_variable start.now)) (id_at ids)
        (state_of bank.old (get same_variable start.now))) }
    ensures extends { Extends bank.old bank.new }
{
    let mut ids = Ids::Empty;
    for number in 0..variables.len() {
        let id = start_term(bank, start, variables[number])?;
        ids = ids.with(alloc, number, id)?;
    }
    Ok(ids)
}

// Adds all visits; `current` has the terms of the start, and `first` their ids.
fn add_visits(
    alloc: Global,
    bank: &mut Bank,
    graph: &Graph,
    visits: &Visits,
    variables: &IndexSet<Variable>,
    first: &Ids,
    current: &mut State,
    known: &mut Known,
) -> Result<(), AllocError>
    requires earlier { AreEarlier (junctions_of visits.now) }
    requires listed { ListsAll variables.now.keys (graph_of graph.now).nodes }
    requires below { AreBelow (length bank.old) (get same_variable current.old) }
    requires nothing { IsNothing known.old }
    requires some { (start : Terms) × IsStart bank.old variables.now.keys start (id_at first.now)
        (get same_variable current.old) }
    ensures known { (start : Terms)
        → IsStart bank.old variables.now.keys start (id_at first.now)
        (get same_variable current.old)
        → OnOk result (AreKnown bank.new variables.now.keys start (graph_of graph.now)
        (junctions_of visits.now) known.new
        (conditionals (graph_of graph.now) (junctions_of visits.now) start)) }
    ensures extends { Extends bank.old bank.new }
{
    for position in 0..visits.len() {
        let place = visits.place(position);
        let edges = visits.incoming(position);
        add_visit(
            alloc, bank, graph, variables, first, current, known, place, edges,
        )?;
    }
    Ok(())
}

// A copy of a state.
pub(crate) fn copied(start: &State) -> Result<State, AllocError>
    ensures { IfOk result (λ m. get same_variable m ≡ get same_variable start.now) }
{
    start.clone()
}

// Fills in the conditions of all visits.
fn fill(
    alloc: Global,
    bank: &mut Bank,
    graph: &Graph,
    visits: &Visits,
    start: &State,
    conditions: &mut Conditions,
) -> Result<(), AllocError>
    requires earlier { AreEarlier (junctions_of visits.now) }
    requires below { AreBelow (length bank.old) (get same_variable start.now) }
    requires listed { ListsAll conditions.old.variables.keys (graph_of graph.now).nodes }
    requires nothing { IsNothing conditions.old.known }
    ensures conditions { OnOk result (AreConditions bank.new
        (state_of bank.old (get same_variable start.now)) (graph_of graph.now)
        (junctions_of visits.now) conditions.new) }
    ensures extends { Extends bank.old bank.new }
{
    let first = start_ids(alloc, bank, &conditions.variables, start)?;
    let mut current = copied(start)?;
    add_visits(
        alloc,
        bank,
        graph,
        visits,
        &conditions.variables,
        &first,
        &mut current,
        &mut conditions.known,
    )?;
    conditions.start = first;
    Ok(())
}

/// The condition of each visit of a walk over a graph, and the state there, as terms over the
/// values at the start, where the variables have the terms of `start`. Of two equal terms the bank
/// has one, and a state shares with others what it has in common with them. Out of memory, the bank
/// may have some more terms.
pub fn conditions(
    alloc: Global,
    graph: &Graph,
    visits: &Visits,
    start: &State,
    bank: &mut Bank,
) -> Result<Conditions, AllocError>
    requires listing { (w : Walk) × (maximum : ℕ) × IsListing w maximum visits.now }
    requires below { AreBelow (length bank.old) (get same_variable start.now) }
    ensures conditions { (w : Walk) (maximum : ℕ) → IsListing w maximum visits.now
        → IfOk result (AreConditions bank.new (state_of bank.old (get same_variable start.now))
        (graph_of graph.now) (junctions w visits.now.visits)) }
    ensures extends { Extends bank.old bank.new }
{
    let variables = bound_variables(alloc, graph)?;
    let mut conditions = Conditions {
        variables,
        start: Ids::Empty,
        known: Known::new(alloc),
    };
    fill(alloc, bank, graph, visits, start, &mut conditions)?;
    Ok(conditions)
}
