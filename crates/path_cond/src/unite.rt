//! Several states as one.

ghost use Rattle.std.specs.Prelude.{◌≡◌, ℕ, ◌<◌, ◌==◌, if◌then◌else◌, length, get_or, Some};
ghost use Rattle.std.specs.Prelude.{IfOk, OnOk, List};
ghost use Rattle.term_core_spec.specs.Substitution.{State as Terms};
ghost use Rattle.term_bank.specs.Nodes.{Extends};
ghost use Rattle.path_cond_spec.specs.Conditions.{Conditional, united};
ghost use Rattle.path_cond.specs.Ids.{id_at};
ghost use Rattle.path_cond.specs.Known.{AreConditionals, HasConditional};
ghost use Rattle.path_cond.specs.Known.{IsFullConditional};
ghost use Rattle.path_cond.specs.Merged.{AreIds};
ghost use Rattle.path_cond.specs.United.{AreFull, AreFullAt, IsUnitedAt, id_of};
ghost use Rattle.path_cond.specs.United.{ids_of};

use crate::ids::Ids;
use crate::merge::{any_of, merged};
use indexmap::IndexSet;
use std::alloc::{AllocError, Global};
use term_bank::{Bank, TermId};
use term_core_spec::Variable;

// The id that a state of a list has at a number.
fn id_in(states: &[Ids], source: usize, number: usize) -> Option<TermId>
    ensures { result ≡ id_of states.now number source }
{
    match states.get(source) {
        Some(ids) => ids.get(number),
        None => None,
    }
}

// The ids that some states have at a number.
fn find_ids(
    found: &mut Vec<TermId>,
    sources: &[usize],
    states: &[Ids],
    number: usize,
) -> Result<(), AllocError>
    ensures { OnOk result (found.new.items ≡ ids_of states.now sources.now number) }
{
    found.clear();
    for source in sources {
        if let Some(id) = id_in(states, *source, number) {
            found.push(id)?;
        }
    }
    Ok(())
}

// The ids with one changed, unless it is what stands there.
fn set_unless(
    alloc: Global,
    made: Ids,
    number: usize,
    id: TermId,
    first: TermId,
) -> Result<Ids, AllocError>
    requires { id_at made number ≡ Some first }
    ensures { IfOk result (λ new. (n : ℕ)
        → id_at new n ≡ (if n == number then Some id else id_at made n)) }
{
    if id == first {
        Ok(made)
    } else {
        made.with(alloc, number, id)
    }
}

// The states as one at one number, where `made` has the first's id; `found` is room.
fn unite_at(
    alloc: Global,
    bank: &mut Bank,
    conditions: &[TermId],
    sources: &[usize],
    states: &[Ids],
    number: usize,
    found: &mut Vec<TermId>,
    made: Ids,
) -> Result<Ids, AllocError>
    requires some { 0 < length sources.now }
    requires many { length conditions.now ≡ length sources.now }
    requires conditions { AreIds (length bank.old) conditions.now }
    requires states { AreFullAt (length bank.old) number states.now sources.now }
    requires first { id_at made number ≡ id_of states.now number (get_or sources.now 0 0) }
    ensures here { IfOk result (λ new. IsUnitedAt bank.old bank.new conditions.now states.now
        sources.now (id_at new) number) }
    ensures others { IfOk result (λ new. (k : ℕ) → (k ≡ number → ⊥) → id_at new k ≡ id_at made k) }
    ensures extends { Extends bank.old bank.new }
{
    find_ids(found, sources, states, number)?;
    let id = merged(bank, conditions, found.as_slice())?;
    set_unless(alloc, made, number, id, found[0])
}

// The states as one, from the first of them; `found` is room.
fn unite_from(
    alloc: Global,
    bank: &mut Bank,
    conditions: &[TermId],
    sources: &[usize],
    states: &[Ids],
    count: usize,
    found: &mut Vec<TermId>,
) -> Result<Ids, AllocError>
    requires some { 0 < length sources.now }
    requires many { length conditions.now ≡ length sources.now }
    requires conditions { AreIds (length bank.old) conditions.now }
    requires states { AreFull (length bank.old) count states.now sources.now }
    ensures united { IfOk result (λ new. (k : ℕ) → k < count
        → IsUnitedAt bank.old bank.new conditions.now states.now sources.now (id_at new) k) }
    ensures extends { Extends bank.old bank.new }
{
    let mut made = states[sources[0]].share()?;
    for number in 0..count {
        made = unite_at(
            alloc, bank, conditions, sources, states, number, found, made,
        )?;
    }
    Ok(made)
}

/// The states at some positions as one, each under its condition; `count` is the number of
/// variables.
pub fn unite(
    alloc: Global,
    bank: &mut Bank,
    conditions: &[TermId],
    sources: &[usize],
    states: &[Ids],
    count: usize,
) -> Result<Ids, AllocError>
    requires some { 0 < length sources.now }
    requires many { length conditions.now ≡ length sources.now }
    requires conditions { AreIds (length bank.old) conditions.now }
    requires states { AreFull (length bank.old) count states.now sources.now }
    ensures united { IfOk result (λ new. (k : ℕ) → k < count
        → IsUnitedAt bank.old bank.new conditions.now states.now sources.now (id_at new) k) }
    ensures extends { Extends bank.old bank.new }
{
    let mut found = Vec::new(alloc);
    unite_from(alloc, bank, conditions, sources, states, count, &mut found)
}

/// Conditions, and the states at some positions, as one.
pub fn unite_all(
    alloc: Global,
    bank: &mut Bank,
    variables: &IndexSet<Variable>,
    conditions: &[TermId],
    sources: &[usize],
    states: &[Ids],
) -> Result<(TermId, Ids), AllocError>
    requires some { 0 < length sources.now }
    requires many { length conditions.now ≡ length sources.now }
    requires conditions { AreIds (length bank.old) conditions.now }
    requires states { AreFull (length bank.old) (length variables.now.keys) states.now sources.now }
    ensures united { (start : Terms) (cs : List Conditional)
        → AreConditionals bank.old variables.now.keys start conditions.now states.now sources.now cs
        → IfOk result (HasConditional bank.new variables.now.keys start (united start cs)) }
    ensures full { IfOk result (IsFullConditional (length bank.new) (length variables.now.keys)) }
    ensures extends { Extends bank.old bank.new }
{
    let condition = any_of(bank, conditions)?;
    let count = variables.len();
    let state = unite(alloc, bank, conditions, sources, states, count)?;
    Ok((condition, state))
}
