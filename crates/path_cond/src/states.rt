//! States: the term of each variable, as a map, and by the numbers of the variables that a graph
//! binds.

ghost use Rattle.std.specs.Prelude.{◌≡◌, ◌<◌, ◌∷◌, true, length, map, nat_eq, List, IfOk, OnOk};
ghost use Rattle.std.specs.HashMap.{get};
ghost use Rattle.term_core_spec.specs.Same.{same_variable};
ghost use Rattle.term_core_spec.specs.Substitution.{State as Terms};
ghost use Rattle.term_bank.specs.Nodes.{Extends};
ghost use Rattle.term_substitution.specs.States.{AreBelow};
ghost use Rattle.term_substitution.specs.Transfers.{AreTaken, AreWithin, TakesMore};
ghost use Rattle.path_cond_spec.specs.Conditions.{assigned};
ghost use Rattle.graph_core.specs.Shared.{shared_binding_of, AreSharedBindings};
ghost use Rattle.graph_core_spec.specs.Graph as spec;
ghost use Rattle.path_cond.specs.Bound.{AreListed, has};
ghost use Rattle.path_cond.specs.Ids.{id_at};
ghost use Rattle.path_cond.specs.States.{HasState, IsCurrent, IsNumbered, IsPut, IsSet};
ghost use Rattle.path_cond.specs.States.{IsUntaken};

use crate::ids::Ids;
use graph_core::SharedBinding;
use indexmap::IndexSet;
use std::alloc::{AllocError, Global};
use std::collections::HashMap;
use term_bank::{Bank, TermId};
use term_core_spec::Variable;
use term_substitution::{Taken, transfer};

/// The term of each variable; one that has none is itself.
pub type State = HashMap<Variable, TermId>;

/// Gives each of the variables its id.
pub fn set_current(
    current: &mut State,
    variables: &IndexSet<Variable>,
    ids: &Ids,
) -> Result<(), AllocError>
    requires { IsNumbered (length variables.now.keys) (id_at ids.now) }
    ensures { OnOk result (IsSet variables.now.keys (id_at ids.now)
        (get same_variable current.old) (get same_variable current.new)) }
{
    for number in 0..variables.len() {
        let id = ids.get(number).unwrap();
        current.insert(variables[number], id)?;
    }
    Ok(())
}

// The ids with that of one variable changed.
fn put(
    alloc: Global,
    variables: &IndexSet<Variable>,
    ids: &Ids,
    variable: Variable,
    id: TermId,
) -> Result<Ids, AllocError>
    requires { has variables.now.keys variable ≡ true }
    ensures { IfOk result (λ new.
        IsPut variables.now.keys (id_at ids.now) variable id (id_at new)) }
{
    let _ = variables.len();
    let number = variables.get_index_of(&variable).unwrap();
    ids.with(alloc, number, id)
}

// The state after one more binding, whose term, of the bank `from`, speaks of the state that
// `current` has.
fn assign_one(
    alloc: Global,
    bank: &mut Bank,
    from: &Bank,
    variables: &IndexSet<Variable>,
    current: &State,
    binding: SharedBinding,
    made: &Ids,
    done: &mut Taken,
) -> Result<Ids, AllocError>
    requires term { binding.term < length from.now }
    requires current { AreBelow (length bank.old) (get same_variable current.now) }
    requires listed { has variables.now.keys binding.variable ≡ true }
    requires done { AreWithin (length bank.old) (get nat_eq done.old) }
    ensures state { (start state : Terms) (rest : List spec.Binding)
        → HasState bank.old variables.now.keys start (id_at made.now) (assigned rest state state)
        → IsCurrent bank.old (get same_variable current.now) state
        → AreTaken state from.now bank.old (get nat_eq done.old)
        → IfOk result (λ new. HasState bank.new variables.now.keys start (id_at new)
        (assigned (shared_binding_of from.now binding ∷ rest) state state)) }
    ensures more { OnOk result (TakesMore from.now (get same_variable current.now) bank.old
        bank.new (get nat_eq done.old) (get nat_eq done.new)) }
    ensures extends { Extends bank.old bank.new }
{
    let id = transfer(alloc, bank, from, binding.term, current, done)?;
    put(alloc, variables, made, binding.variable, id)
}

/// The state after some bindings, all at once, from the state `ids`, whose terms `current` has. The
/// terms of the bindings are in the bank `from`, and nothing is taken from it yet.
pub fn assign(
    alloc: Global,
    bank: &mut Bank,
    from: &Bank,
    variables: &IndexSet<Variable>,
    current: &State,
    bindings: &[SharedBinding],
    ids: &Ids,
    done: &mut Taken,
) -> Result<Ids, AllocError>
    requires within { AreSharedBindings (length from.now) bindings.now }
    requires current { AreBelow (length bank.old) (get same_variable current.now) }
    requires listed { AreListed variables.now.keys
        (map (shared_binding_of from.now) bindings.now) }
    requires done { IsUntaken (get nat_eq done.old) }
    ensures state { (start state : Terms)
        → HasState bank.old variables.now.keys start (id_at ids.now) state
        → IsCurrent bank.old (get same_variable current.now) state
        → IfOk result (λ new. HasState bank.new variables.now.keys start (id_at new)
        (assigned (map (shared_binding_of from.now) bindings.now) state state)) }
    ensures extends { Extends bank.old bank.new }
{
    let mut made = ids.share()?;
    let mut i = bindings.len();
    while i > 0 {
        i -= 1;
        made = assign_one(
            alloc,
            bank,
            from,
            variables,
            current,
            bindings[i],
            &made,
            done,
        )?;
    }
    Ok(made)
}
