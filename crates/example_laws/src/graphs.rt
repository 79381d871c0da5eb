//! Worked facts of the definitions of graphs and walks: each function's clause is one fact, and its
//! body is empty.
//!
//! They hold the runs of `graph_core_spec` against two small graphs (`specs/Call.antt`), of which
//! one calls the other, worked by hand; and the simulation of `graph_core_spec` against walks that
//! end alike or unlike (`specs/Loops.antt`).

ghost use Rattle.std.specs.Prelude.{◌≡◌, ℕ, Some, None, true, false, [], ◌∷◌};
ghost use Rattle.graph_core_spec.specs.TransitionSystem.{after, arrivals, KeepsBounds, StopsAt};
ghost use Rattle.graph_core_spec.specs.Simulation.{Simulates};
ghost use Rattle.example_laws.specs.Countdown.{countdown};
ghost use Rattle.example_laws.specs.Loops.{any_state, endless, failing, frame_of};
ghost use Rattle.term_core_spec.specs.Value.{Assignment};
ghost use Rattle.graph_core_spec.specs.Graph.{IsValid};
ghost use Rattle.graph_core_spec.specs.Run.{Running, Failed};
ghost use Rattle.example_laws.specs.Call.{caller, callee, walk, start, start_with, place, words};
ghost use Rattle.example_laws.specs.Call.{first_byte, mark, ended};

/// Both graphs are valid.
pub fn two_graphs_are_valid()
    ensures caller { IsValid caller }
    ensures callee { IsValid callee }
{}

/// A call begins at the callee's landing node, and continues at the caller's landing node after the
/// call.
pub fn a_call_runs_the_callee()
    ensures begins { place (after walk 0 start) ≡ Some (0, 0, 0) }
    ensures calls { place (after walk 1 start) ≡ Some (0, 1, 0) }
    ensures enters { place (after walk 2 start) ≡ Some (1, 0, 1) }
    ensures tests { place (after walk 3 start) ≡ Some (1, 1, 1) }
    ensures works { place (after walk 4 start) ≡ Some (1, 2, 1) }
    ensures lands { place (after walk 5 start) ≡ Some (0, 2, 0) }
    ensures adds { place (after walk 6 start) ≡ Some (0, 3, 0) }
    ensures returns { place (after walk 7 start) ≡ None }
    ensures ends { ended (after walk 7 start) ≡ true }
{}

/// The callee's variables are its own, and the caller's are as they were when it continues; the
/// result has come.
pub fn a_frame_keeps_the_callers_variables()
    ensures starts { words (after walk 1 start) ≡ (3, 7) }
    ensures callee { words (after walk 2 start) ≡ (4, 0) }
    ensures back { words (after walk 5 start) ≡ (3, 8) }
    ensures end { words (after walk 7 start) ≡ (3, 10) }
{}

/// Memory is no part of a frame: what the callee writes is there after the call.
pub fn memory_outlives_the_callee()
    ensures before { first_byte (after walk 4 start) ≡ 0 }
    ensures after { first_byte (after walk 5 start) ≡ 4 }
{}

/// Where the callee fails, the run has failed; so it has at a node that is missing.
pub fn a_failure_ends_the_run()
    ensures before { place (after walk 3 (start_with 9)) ≡ Some (1, 1, 1) }
    ensures inside { after walk 4 (start_with 9) ≡ Failed }
    ensures missing { (values : Assignment) → after walk 1 (Running 0 4 values []) ≡ Failed }
    ensures no_node { (values : Assignment) → walk.at 4 (Running 0 4 values []) ≡ false }
{}

/// Inside the call the run is at no node of the outermost graph, and arrives at none.
pub fn no_node_is_met_inside_a_call()
    ensures callees_node { arrivals walk 1 4 start ≡ 1 }
    ensures landing { arrivals walk 2 4 start ≡ 0 }
    ensures landed { arrivals walk 2 7 start ≡ 1 }
    ensures stops { StopsAt walk (mark 2 1 ∷ []) 5 start }
{}

/// Both sides return, or both run for ever: the one simulates the other.
pub fn like_ends_are_simulated()
    ensures both_return { Simulates (frame_of countdown countdown) any_state any_state }
    ensures both_endless { Simulates (frame_of endless endless) any_state any_state }
{}

/// Code that returns doesn't simulate an endless source, and endless code no source that returns.
pub fn unlike_ends_are_not_simulated()
    ensures endless_source { Simulates (frame_of countdown endless) any_state any_state → ⊥ }
    ensures endless_binary { Simulates (frame_of endless countdown) any_state any_state → ⊥ }
{}

/// Code that fails simulates a source only where that fails too.
pub fn a_failure_is_excused_by_the_source_alone()
    ensures excused { Simulates (frame_of failing failing) any_state any_state }
    ensures refused { Simulates (frame_of failing endless) any_state any_state → ⊥ }
{}

/// Where one arrival is the stop and would break a bound, the stop comes first.
pub fn a_stop_comes_before_a_bound()
    ensures stops { StopsAt countdown (mark 0 2 ∷ []) 2 3 }
    ensures kept { (n : ℕ) → KeepsBounds countdown (mark 0 2 ∷ []) (mark 0 2 ∷ []) n 3 }
    ensures broken { KeepsBounds countdown (mark 0 2 ∷ []) (mark 0 1 ∷ []) 1 3 → ⊥ }
{}
