//! Several visits as one: those of a stop, of the error, or of a bounded arrival.

ghost use Rattle.std.specs.Prelude.{◌≡◌, ℕ, ◌<◌, [], length, IfOk, OnOk, List};
ghost use Rattle.std.specs.List.{All};
ghost use Rattle.term_core_spec.specs.declared.Variable.{Variable};
ghost use Rattle.term_core_spec.specs.Substitution.{State as Terms};
ghost use Rattle.term_bank.specs.Nodes.{Extends};
ghost use Rattle.graph_core_spec.specs.Graph.{Graph as Nodes};
ghost use Rattle.path_cond_spec.specs.Junctions.{Junction};
ghost use Rattle.path_cond_spec.specs.Conditions.{conditional_of, conditionals, united};
ghost use Rattle.path_cond.specs.Ids.{id_at};
ghost use Rattle.path_cond.specs.Known.{HasConditional};
ghost use Rattle.path_cond.specs.Result.{AreConditions, AreMembers, conditions_at};
ghost use Rattle.path_cond.specs.States.{HasState};

use crate::found::Conditions;
use crate::ids::Ids;
use crate::unite::unite_all;
use std::alloc::{AllocError, Global};
use term_bank::{Bank, TermId, TermNode};
use term_core_spec::Atom;

// The conditions of some visits.
fn find_conditions(
    found: &mut Vec<TermId>,
    members: &[usize],
    conditions: &[TermId],
) -> Result<(), AllocError>
    requires members { All (λ m. m < length conditions.now) members.now }
    requires found { found.old.items ≡ [] }
    ensures { OnOk result (found.new.items ≡ conditions_at conditions.now members.now) }
{
    for member in members {
        found.push(conditions[*member])?;
    }
    Ok(())
}

// Of no visit the condition is false, and the state is that of the start.
fn none(bank: &mut Bank, first: &Ids) -> Result<(TermId, Ids), AllocError>
    ensures one { (variables : List Variable) (start : Terms)
        → HasState bank.old variables start (id_at first.now) start
        → IfOk result (HasConditional bank.new variables start (united start [])) }
    ensures extends { Extends bank.old bank.new }
{
    let condition = bank.add(TermNode::Leaf(Atom::Truth(false)))?;
    let state = first.share()?;
    Ok((condition, state))
}

// Some visits as one; `conditions` is room.
fn some(
    alloc: Global,
    bank: &mut Bank,
    found: &Conditions,
    members: &[usize],
    conditions: &mut Vec<TermId>,
) -> Result<(TermId, Ids), AllocError>
    requires some { 0 < length members.now }
    requires members { AreMembers bank.old found.now members.now }
    requires conditions { conditions.old.items ≡ [] }
    ensures one { (start : Terms) (graph : Nodes) (junctions : List Junction)
        → AreConditions bank.old start graph junctions found.now
        → IfOk result (HasConditional bank.new found.now.variables.keys start
        (conditional_of start (conditionals graph junctions start) members.now)) }
    ensures extends { Extends bank.old bank.new }
{
    find_conditions(conditions, members, found.known.conditions.as_slice())?;
    unite_all(
        alloc,
        bank,
        &found.variables,
        conditions.as_slice(),
        members,
        found.known.states.as_slice(),
    )
}

/// The visits at some positions as one: their condition, which is false where there is none, and
/// the state there, as `conditional_of` of `path_cond_spec` says. Out of memory, the bank may have
/// some more terms.
pub fn several(
    alloc: Global,
    bank: &mut Bank,
    found: &Conditions,
    members: &[usize],
) -> Result<(TermId, Ids), AllocError>
    requires members { AreMembers bank.old found.now members.now }
    ensures one { (start : Terms) (graph : Nodes) (junctions : List Junction)
        → AreConditions bank.old start graph junctions found.now
        → IfOk result (HasConditional bank.new found.now.variables.keys start
        (conditional_of start (conditionals graph junctions start) members.now)) }
    ensures extends { Extends bank.old bank.new }
{
    if members.len() == 0 {
        return none(bank, &found.start);
    }
    let mut conditions = Vec::new(alloc);
    some(alloc, bank, found, members, &mut conditions)
}
