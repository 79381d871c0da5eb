//! Why a cut has to be allowed: frames that the rules would prove without it, though they are
//! false. Each function's clause is one fact, and its body is empty.

ghost use Rattle.std.specs.Prelude.{◌≡◌, ℕ, Bool, true};
ghost use Rattle.graph_core_spec.specs.Simulation.{Simulates};
ghost use Rattle.proof_tree_spec.specs.Cuts.{Calls, IsClear, Passes, Splits, once};
ghost use Rattle.sim_cut.specs.Examples.{always, any_state, both_at, fails_after_a_call};
ghost use Rattle.sim_cut.specs.Examples.{frame_of, mark, there_and_back};

/// A run goes from node 0 to node 1, to node 2 and back to node 1, where its second arrival is a
/// goal that fails. A cut at node 2 would count the arrivals anew, and miss it: the sub-proofs of
/// Split hold, and their frame doesn't. So a goal at node 1 that counts two arrivals lets no cut at
/// node 2 pass.
pub fn a_goal_counts_arrivals_before_the_cut()
    ensures holds { Splits (frame_of there_and_back (mark 1 2)) any_state any_state always
        (both_at 2 2) once once }
    ensures fails { Simulates (frame_of there_and_back (mark 1 2)) any_state any_state → ⊥ }
    ensures refused { (leads : ℕ → ℕ → Bool) → leads 0 1 ≡ true → leads 1 2 ≡ true
        → Passes (λ m n. leads m n ≡ true) 0 2 (mark 1 2) → ⊥ }
{}

/// A run calls at node 1, lands at node 2, which is a goal that fails, and fails after it. A frame
/// that starts at node 2 does not count the arrival there: what Call leaves to show holds, and its
/// frame doesn't. So no goal may be at the landing node.
pub fn a_goal_is_at_the_landing_node()
    ensures holds { Calls (frame_of fails_after_a_call (mark 2 1)) any_state any_state always
        (both_at 1 1) (both_at 2 2) }
    ensures fails { Simulates (frame_of fails_after_a_call (mark 2 1)) any_state any_state → ⊥ }
    ensures refused { IsClear (frame_of fails_after_a_call (mark 2 1)) (both_at 2 2) → ⊥ }
{}
