//! Small graphs with a call inlined, node by node, written out by hand.

ghost use Rattle.std.specs.Prelude.{◌≡◌, Some, None, [], ◌∷◌};
ghost use Rattle.graph_inline_spec.specs.Inlined.{inlined};
ghost use Rattle.graph_inline_spec.specs.Samples.{c_caller, c_callee, c_own, c_inlined};
ghost use Rattle.graph_inline_spec.specs.Samples.{code_caller, code_callee, code_inlined, e};
ghost use Rattle.graph_inline_spec.specs.Samples.{CanInlineBoth};

/// A call in C: all locals of the callee are bound at its entry, those that the call doesn't set to
/// false and 0; its argument is the caller's, its result the callee's.
pub fn a_source_call_is_inlined()
    ensures { inlined c_caller 1 c_callee c_own 2 ≡ Some c_inlined }
{}

/// A call in code: registers are shared, and the registers at entry are the callee's own.
pub fn a_code_call_is_inlined()
    ensures { inlined code_caller 1 code_callee (e 1 0 ∷ []) 2 ≡ Some code_inlined }
{}

/// The node after the call, and a node that is not there, are no calls.
pub fn no_other_node_is_inlined()
    ensures { (inlined code_caller 2 code_callee (e 1 0 ∷ []) 2 ≡ None)
        × (inlined code_caller 4 code_callee (e 1 0 ∷ []) 2 ≡ None) }
{}

/// What the laws ask holds of both calls.
pub fn both_calls_can_be_inlined()
    ensures { CanInlineBoth }
{}
