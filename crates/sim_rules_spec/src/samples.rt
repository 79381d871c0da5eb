//! Obligations of a small frame, worked by hand: each function's clause is one fact, and its body
//! is empty.

ghost use Rattle.std.specs.Prelude.{◌≡◌, [], ◌∷◌};
ghost use Rattle.sim_rules_spec.specs.Samples.{call_obligations, callee_begins, callee_returns};
ghost use Rattle.sim_rules_spec.specs.Samples.{goal, goal_alike, goal_too, no_failure, obligations};
ghost use Rattle.sim_rules_spec.specs.Samples.{return_alike, return_too};

/// Both sides return at once: the binary doesn't fail, it returns too, and what holds there.
pub fn a_leaf_has_these_obligations()
    ensures { obligations [] [] ≡ no_failure ∷ return_too ∷ return_alike ∷ [] }
{}

/// Return comes before a goal, and all stops that are met before what holds at each. At a goal that
/// a side doesn't meet nothing has to hold.
pub fn stops_are_in_this_order()
    ensures { obligations (goal ∷ []) (0 ∷ [])
        ≡ no_failure ∷ return_too ∷ goal_too ∷ return_alike ∷ goal_alike ∷ [] }
{}

/// A call: what holds where the callee begins, and what holds where it is back.
pub fn a_call_has_these_obligations()
    ensures { call_obligations ≡ callee_begins ∷ callee_returns ∷ [] }
{}
