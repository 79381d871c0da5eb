//! What is known of the visits so far: of each its condition and its state, and what leaves it.

ghost use Rattle.std.specs.Prelude.{◌≡◌, ◌++◌, ◌∷◌, ℕ, ◌<◌, [], length, map, IfOk, OnOk, List};
ghost use Rattle.std.specs.Prelude.{slice_get, Some};
ghost use Rattle.std.specs.List.{All};
ghost use Rattle.std.specs.HashMap.{get};
ghost use Rattle.term_core_spec.specs.Same.{same_variable};
ghost use Rattle.term_core_spec.specs.Substitution.{State as Terms};
ghost use Rattle.term_bank.specs.Nodes.{Extends};
ghost use Rattle.term_substitution.specs.States.{AreBelow};
ghost use Rattle.graph_core.specs.Graphs.{graph_of};
ghost use Rattle.visit_walk_spec.specs.declared.Incoming.{Incoming as Edge};
ghost use Rattle.path_cond_spec.specs.Junctions.{Junction};
ghost use Rattle.path_cond_spec.specs.Conditions.{Conditional, conditional_next, entered_by};
ghost use Rattle.path_cond_spec.specs.Conditions.{united};
ghost use Rattle.path_cond.specs.Bound.{ListsAll};
ghost use Rattle.path_cond.specs.Ids.{id_at};
ghost use Rattle.path_cond.specs.Known.{HasConditional, IsFullConditional};
ghost use Rattle.path_cond.specs.Table.{AreArriving, AreEdges, AreKnown, IsPushed, edge_id};
ghost use Rattle.path_cond.specs.States.{HasState, IsFull, IsOutside, Stays};

use crate::ids::Ids;
use crate::leave::{Leaving, leave};
use crate::states::State;
use crate::unite::unite_all;
use graph_core::{Graph, Next};
use indexmap::IndexSet;
use std::alloc::{AllocError, Global};
use term_bank::{Bank, TermId, TermNode};
use term_core_spec::{Atom, Variable};
use visit_walk_spec::{Branch, Incoming};

/// What is known of the visits so far, by their positions.
#[derive(Drop)]
pub struct Known {
    /// the condition of each visit
    pub conditions: Vec<TermId>,
    /// the state there
    pub states: Vec<Ids>,
    /// the conditions of the branches of its node
    pub leaving: Vec<Leaving>,
    /// the state after its node
    pub after: Vec<Ids>,
}

impl Known {
    /// No visit yet.
    pub fn new(alloc: Global) -> Known
        ensures conditions { result.conditions.items ≡ [] }
        ensures states { result.states.items ≡ [] }
        ensures others { (result.leaving.items ≡ []) × (result.after.items ≡ []) }
    {
        Known {
            conditions: Vec::new(alloc),
            states: Vec::new(alloc),
            leaving: Vec::new(alloc),
            after: Vec::new(alloc),
        }
    }

    // One more visit.
    fn push(
        &mut self,
        condition: TermId,
        state: Ids,
        leaving: Leaving,
        after: Ids,
    ) -> Result<(), AllocError>
        ensures { OnOk result (IsPushed self.old self.new condition state leaving after) }
    {
        self.conditions.push(condition)?;
        self.states.push(state)?;
        self.leaving.push(leaving)?;
        self.after.push(after)?;
        Ok(())
    }
}

// The condition of an edge.
fn edge_condition(known: &Known, edge: Incoming) -> TermId
    requires { edge.source < length known.now.leaving.items }
    ensures { result ≡ edge_id known.now edge }
{
    let leaving = known.leaving[edge.source];
    match edge.branch {
        Branch::Only => leaving.only,
        Branch::IfTrue => leaving.if_true,
        Branch::IfFalse => leaving.if_false,
    }
}

// Adds the conditions and the sources of some edges.
fn arrive(
    known: &Known,
    edges: &[Incoming],
    conditions: &mut Vec<TermId>,
    sources: &mut Vec<usize>,
) -> Result<(), AllocError>
    requires edges { All (λ e. e.source < length known.now.leaving.items) edges.now }
    requires conditions { conditions.old.items ≡ [] }
    requires sources { sources.old.items ≡ [] }
    ensures conditions { OnOk result (conditions.new.items ≡ map (edge_id known.now) edges.now) }
    ensures sources { OnOk result (sources.new.items ≡ map (λ e. e.source) edges.now) }
{
    for edge in edges {
        conditions.push(edge_condition(known, *edge))?;
        sources.push(edge.source)?;
    }
    Ok(())
}

// At the first visit the condition is true, and the state is that of the start.
fn at_start(bank: &mut Bank, first: &Ids) -> Result<(TermId, Ids), AllocError>
    ensures entered { (variables : List Variable) (start : Terms)
        → HasState bank.old variables start (id_at first.now) start
        → IfOk result (HasConditional bank.new variables start (entered_by start [])) }
    ensures full { (count : ℕ) → IsFull (length bank.old) count (id_at first.now)
        → IfOk result (IsFullConditional (length bank.new) count) }
    ensures extends { Extends bank.old bank.new }
{
    let condition = bank.add(TermNode::Leaf(Atom::Truth(true)))?;
    let state = first.share()?;
    Ok((condition, state))
}

// At a visit to which edges lead; `conditions` and `sources` are room.
fn enter_by(
    alloc: Global,
    bank: &mut Bank,
    variables: &IndexSet<Variable>,
    known: &Known,
    edges: &[Incoming],
    conditions: &mut Vec<TermId>,
    sources: &mut Vec<usize>,
) -> Result<(TermId, Ids), AllocError>
    requires some { 0 < length edges.now }
    requires conditions { conditions.old.items ≡ [] }
    requires sources { sources.old.items ≡ [] }
    requires arriving { AreArriving (length bank.old) (length variables.now.keys) known.now
        edges.now }
    ensures entered { (start : Terms) (f : Edge → Conditional)
        → AreEdges bank.old variables.now.keys start known.now f edges.now
        → IfOk result (HasConditional bank.new variables.now.keys start
        (united start (map f edges.now))) }
    ensures full { IfOk result (IsFullConditional (length bank.new) (length variables.now.keys)) }
    ensures extends { Extends bank.old bank.new }
{
    arrive(known, edges, conditions, sources)?;
    unite_all(
        alloc,
        bank,
        variables,
        conditions.as_slice(),
        sources.as_slice(),
        known.after.as_slice(),
    )
}

// The condition of a visit and the state there, by the edges into it.
fn enter(
    alloc: Global,
    bank: &mut Bank,
    variables: &IndexSet<Variable>,
    known: &Known,
    edges: &[Incoming],
    first: &Ids,
) -> Result<(TermId, Ids), AllocError>
    requires arriving { AreArriving (length bank.old) (length variables.now.keys) known.now
        edges.now }
    requires first { IsFull (length bank.old) (length variables.now.keys) (id_at first.now) }
    ensures entered { (start : Terms) (f : Edge → Conditional)
        → HasState bank.old variables.now.keys start (id_at first.now) start
        → AreEdges bank.old variables.now.keys start known.now f edges.now
        → IfOk result (HasConditional bank.new variables.now.keys start
        (entered_by start (map f edges.now))) }
    ensures full { IfOk result (IsFullConditional (length bank.new) (length variables.now.keys)) }
    ensures extends { Extends bank.old bank.new }
{
    if edges.len() == 0 {
        return at_start(bank, first);
    }
    let mut conditions = Vec::new(alloc);
    let mut sources = Vec::new(alloc);
    enter_by(
        alloc,
        bank,
        variables,
        known,
        edges,
        &mut conditions,
        &mut sources,
    )
}

/// Adds a visit: its condition and its state, by the edges into it, and what leaves it.
pub fn add_visit(
    alloc: Global,
    bank: &mut Bank,
    graph: &Graph,
    variables: &IndexSet<Variable>,
    first: &Ids,
    current: &mut State,
    known: &mut Known,
    place: Next,
    edges: &[Incoming],
) -> Result<(), AllocError>
    requires arriving { AreArriving (length bank.old) (length variables.now.keys) known.old
        edges.now }
    requires first { IsFull (length bank.old) (length variables.now.keys) (id_at first.now) }
    requires current { AreBelow (length bank.old) (get same_variable current.old) }
    requires listed { ListsAll variables.now.keys (graph_of graph.now).nodes }
    ensures known { (start : Terms) (js : List Junction) (cs : List Conditional)
        → AreKnown bank.old variables.now.keys start (graph_of graph.now) js known.old cs
        → slice_get js (length cs) ≡ Some (record { place = place; edges = edges.now })
        → HasState bank.old variables.now.keys start (id_at first.now) start
        → IsOutside bank.old variables.now.keys start (get same_variable current.old)
        → All (λ e. e.source < length cs) edges.now
        → OnOk result (AreKnown bank.new variables.now.keys start (graph_of graph.now) js known.new
        (cs ++ conditional_next (graph_of graph.now) js start cs
        (record { place = place; edges = edges.now }) ∷ [])) }
    ensures current { OnOk result (Stays bank.old bank.new variables.now.keys
        (get same_variable current.old) (get same_variable current.new)) }
    ensures extends { Extends bank.old bank.new }
{
    let (condition, state) = enter(alloc, bank, variables, known, edges, first)?;
    let (leaving, after) = leave(
        alloc, bank, graph, variables, current, place, condition, &state,
    )?;
    known.push(condition, state, leaving, after)
}
