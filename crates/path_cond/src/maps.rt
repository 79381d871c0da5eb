//! A state as a map from variables to terms.

ghost use Rattle.std.specs.Prelude.{length, IfOk, List};
ghost use Rattle.std.specs.HashMap.{get};
ghost use Rattle.term_core_spec.specs.Same.{same_variable};
ghost use Rattle.term_core_spec.specs.Substitution.{State as Terms};
ghost use Rattle.term_core_spec.specs.Term.{Term};
ghost use Rattle.term_bank.specs.Nodes.{Extends};
ghost use Rattle.term_substitution.specs.States.{AreBelow, state_of};
ghost use Rattle.path_cond.specs.Ids.{id_at};
ghost use Rattle.path_cond.specs.States.{HasState, IsMapOf, IsNumbered};

use crate::found::Conditions;
use crate::ids::Ids;
use crate::states::{State, set_current};
use crate::walk::copied;
use std::alloc::AllocError;

/// The terms of a visit's state, or of that of several visits, as `term_substitution` takes them:
/// a variable that the graph doesn't bind has its term in `start`.
pub fn state_map(found: &Conditions, start: &State, ids: &Ids) -> Result<State, AllocError>
    requires { IsNumbered (length found.now.variables.keys) (id_at ids.now) }
    ensures { (before now : List Term) (state : Terms) → Extends before now
        → AreBelow (length before) (get same_variable start.now)
        → HasState now found.now.variables.keys (state_of before (get same_variable start.now))
        (id_at ids.now) state
        → IfOk result (λ map. IsMapOf now (get same_variable map) state) }
{
    let mut map = copied(start)?;
    set_current(&mut map, &found.variables, ids)?;
    Ok(map)
}
