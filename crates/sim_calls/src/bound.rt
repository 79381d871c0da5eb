//! What a call binds, as terms of a bank.

ghost use Rattle.std.specs.Prelude.{◌<◌, ◌≤◌, ◌∷◌, length, map, IfOk, List, OnOk};
ghost use Rattle.std.specs.HashMap.{get};
ghost use Rattle.graph_core.specs.Shared.{AreSharedBindings, shared_binding_of};
ghost use Rattle.graph_core_spec.specs.Graph.{Binding};
ghost use Rattle.sim_calls.specs.Bound.{AreBound};
ghost use Rattle.sim_calls.specs.Left.{IsEmpty};
ghost use Rattle.term_bank.specs.Nodes.{Extends};
ghost use Rattle.term_core_spec.specs.Same.{same_variable};
ghost use Rattle.term_substitution.specs.States.{AreBelow, state_of};

use graph_core::SharedBinding;
use sim_rules_terms::Known;
use std::alloc::{AllocError, Global};
use std::collections::HashMap;
use term_bank::Bank;
use term_substitution::transfer_one;

// Adds one binding, whose term, of the bank `from`, speaks of a state.
fn add_one(
    alloc: Global,
    bank: &mut Bank,
    from: &Bank,
    binding: SharedBinding,
    state: &Known,
    terms: &mut Known,
) -> Result<(), AllocError>
    requires term { binding.term < length from.now }
    requires state { AreBelow (length bank.old) (get same_variable state.now) }
    ensures bound { (rest : List Binding) → AreBound bank.old rest
        (state_of bank.old (get same_variable state.now)) (get same_variable terms.old)
        → OnOk result (AreBound bank.new (shared_binding_of from.now binding ∷ rest)
        (state_of bank.old (get same_variable state.now)) (get same_variable terms.new)) }
    ensures extends { Extends bank.old bank.new }
    ensures longer { length bank.old ≤ length bank.new }
{
    let id = transfer_one(alloc, bank, from, binding.term, state)?;
    terms.insert(binding.variable, id)?;
    Ok(())
}

// Adds some bindings: the first of a variable holds.
fn add_bound(
    alloc: Global,
    bank: &mut Bank,
    from: &Bank,
    bindings: &[SharedBinding],
    state: &Known,
    terms: &mut Known,
) -> Result<(), AllocError>
    requires within { AreSharedBindings (length from.now) bindings.now }
    requires state { AreBelow (length bank.old) (get same_variable state.now) }
    requires empty { IsEmpty (get same_variable terms.old) }
    ensures bound { OnOk result (AreBound bank.new (map (shared_binding_of from.now) bindings.now)
        (state_of bank.old (get same_variable state.now)) (get same_variable terms.new)) }
    ensures extends { Extends bank.old bank.new }
    ensures longer { length bank.old ≤ length bank.new }
{
    let mut i = bindings.len();
    while i > 0 {
        i -= 1;
        add_one(alloc, bank, from, bindings[i], state, terms)?;
    }
    Ok(())
}

/// What some bindings give, whose terms, of the bank `from`, speak of a state. Out of memory, the
/// bank may have some more terms.
pub(crate) fn bound_terms(
    alloc: Global,
    bank: &mut Bank,
    from: &Bank,
    bindings: &[SharedBinding],
    state: &Known,
) -> Result<Known, AllocError>
    requires within { AreSharedBindings (length from.now) bindings.now }
    requires state { AreBelow (length bank.old) (get same_variable state.now) }
    ensures bound { IfOk result (λ terms. AreBound bank.new
        (map (shared_binding_of from.now) bindings.now)
        (state_of bank.old (get same_variable state.now)) (get same_variable terms)) }
    ensures extends { Extends bank.old bank.new }
    ensures longer { length bank.old ≤ length bank.new }
{
    let mut terms = HashMap::new(alloc);
    add_bound(alloc, bank, from, bindings, state, &mut terms)?;
    Ok(terms)
}
