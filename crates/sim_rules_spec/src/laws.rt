//! The laws of the rules: each function's clause is one law, and its body is empty.

ghost use Rattle.std.specs.Prelude.{◌≡◌, ◌<◌, ◌≤◌, ◌^◌, ◌++◌, [], ℕ, List};
ghost use Rattle.std.specs.Prelude.{None, Option, true};
ghost use Rattle.std.specs.List.{All, Contains};
ghost use Rattle.term_core_spec.specs.Term.{Term, not_term};
ghost use Rattle.proof_tree_spec.specs.Frames.{Frame, with_binary_bound, with_premise};
ghost use Rattle.proof_tree_spec.specs.Frames.{Hold, from_cut, goal_at, with_goal};
ghost use Rattle.proof_tree_spec.specs.Frames.{with_source_bound};
ghost use Rattle.proof_tree_spec.specs.Cuts.{IsKept, Waits};
ghost use Rattle.proof_tree_spec.specs.Cuts as cuts;
ghost use Rattle.proof_tree_spec.specs.Cuts.{both};
ghost use Rattle.proof_tree_spec.specs.declared.Counts.{Counts};
ghost use Rattle.graph_core_spec.specs.Run.{Failed, Running, resumed};
ghost use Rattle.term_core_spec.specs.Value.{Assignment, IsAssignment};
ghost use Rattle.graph_core_spec.specs.Simulation.{IsRelated, Simulates};
ghost use Rattle.graph_core_spec.specs.declared.Mark.{Mark};
ghost use Rattle.proof_tree_spec.specs.Scope.{IsLine};
ghost use Rattle.sim_rules_spec.specs.Calling as calling;
ghost use Rattle.sim_rules_spec.specs.Calls.{AreTrueOfCall, BeginsWell, CallPair, Callee};
ghost use Rattle.sim_rules_spec.specs.Calls.{IsCallPair, IsGivenBack, IsReturnOf, IsTrueAcross};
ghost use Rattle.sim_rules_spec.specs.Calls.{entry_term, return_term};
ghost use Rattle.sim_rules_spec.specs.Crossing.{AreCallsAt, IsRightCallee, pair_of};
ghost use Rattle.sim_rules_spec.specs.Points.{Convention, all_hold};
ghost use Rattle.sim_rules_spec.specs.Proper.{IsConvention, IsEntryLine, IsProper, Opens};
ghost use Rattle.sim_rules_spec.specs.Rules.{AreOfBinaryRestrict, AreOfLeaf, AreOfSourceRestrict};
ghost use Rattle.sim_rules_spec.specs.Rules.{AreOfWait};
ghost use Rattle.sim_rules_spec.specs.Rules.{AreTrueWith, IsTrueWith, Opening, at_cut};
ghost use Rattle.sim_rules_spec.specs.Systems.{IsBinaryFine, IsSimulated, IsSourceFine, Relation};
ghost use Rattle.sim_rules_spec.specs.Systems.{entry_holds, frame_over, hold_over, relation};
ghost use Rattle.sim_rules_spec.specs.Systems.{binary_always, source_always};

/// Leaf: where its obligations are true wherever the source's memory holds the fixed bytes, the
/// frame is simulated.
pub fn leaf_law()
    ensures { (c : Convention) (f : Frame) (o : Opening) (terms : List Term) → IsProper f
        → Opens c f o → AreOfLeaf c o f terms → AreTrueWith c terms → IsSimulated c o.known f }
{}

/// Case: the frame where the term holds and the frame where it doesn't give the frame.
pub fn case_law()
    ensures { (c : Convention) (f : Frame) (known : Relation) (test : Term)
        → IsLine f.setting f.start.path test
        → IsSimulated c known (record f { start = with_premise f.start test })
        → IsSimulated c known (record f { start = with_premise f.start (not_term test) })
        → IsSimulated c known f }
{}

/// Restrict of the binary: where its obligation is true wherever the source's memory holds the
/// fixed bytes, the frame with the bound gives the frame.
pub fn binary_restrict_law()
    ensures { (c : Convention) (f : Frame) (o : Opening) (bound : Mark) (terms : List Term)
        → IsProper f → Opens c f o → 1 ≤ bound.count → AreOfBinaryRestrict o f bound terms
        → AreTrueWith c terms
        → IsSimulated c o.known (record f { start = with_binary_bound f.start bound })
        → IsSimulated c o.known f }
{}

/// Restrict of the source.
pub fn source_restrict_law()
    ensures { (c : Convention) (f : Frame) (o : Opening) (bound : Mark) (terms : List Term)
        → IsProper f → Opens c f o → 1 ≤ bound.count → AreOfSourceRestrict o f bound terms
        → AreTrueWith c terms
        → IsSimulated c o.known (record f { start = with_source_bound f.start bound })
        → IsSimulated c o.known f }
{}

/// At a cut, where memories are equal outside the zone, two states have the values of the terms
/// there.
pub fn cuts_open()
    ensures { (c : Convention) (f : Frame) → IsConvention c → Opens c f (at_cut c) }
{}

/// Wait: where its obligations are true, the binary alone comes to the hold.
pub fn wait_law()
    ensures { (c : Convention) (f : Frame) (o : Opening) (hold : Hold) (terms : List Term)
        → IsProper f → Opens c f o → Contains f.holds hold
        → hold.nodes.source ≡ f.start.nodes.source → AreOfWait c o f hold terms
        → AreTrueWith c terms → Waits (frame_over c o.known f) (IsBinaryFine c f) (IsSourceFine c f)
        (hold_over c hold) }
{}

/// Call: where its first obligation is true, and what holds at entry and the relation before hold
/// at the calls, the callee's entry relation holds where it begins.
pub fn call_entry_law()
    ensures { (c : Convention) (f : Frame) (calls : CallPair) (callee : Callee)
        (before : List Term) (g m k n : ℕ) (x y : Assignment) → IsConvention c
        → IsCallPair calls → IsTrueWith c (entry_term c f calls callee before)
        → IsRelated (both (all_hold f.entry) (relation c before))
        (Running g m x []) (Running k n y [])
        → IsBinaryFine c f (Running g m x []) → IsSourceFine c f (Running k n y [])
        → BeginsWell c calls callee x y }
{}

/// Call: where its second obligation is true wherever the source's memory holds the fixed bytes at
/// the calls and where both are back, and the callee has given back what it owes, the relation
/// after the calls holds there.
pub fn call_return_law()
    ensures { (c : Convention) (f : Frame) (calls : CallPair) (callee : Callee)
        (before later : List Term) (g m l k n e : ℕ) (x y r s : Assignment)
        → IsConvention c → IsReturnOf c f calls callee before later
        → IsTrueAcross c (return_term c f calls callee before later)
        → IsRelated (both (all_hold f.entry) (relation c before))
        (Running g m x []) (Running k n y [])
        → IsBinaryFine c f (Running g m x []) → IsSourceFine c f (Running k n y [])
        → IsAssignment r → IsAssignment s → IsGivenBack c callee x r s
        → IsRelated (relation c later) (Running g l (resumed [] r x) [])
        (Running k e (resumed calls.source_outputs s y) []) }
{}

/// Call: where its obligations are true, and the callee is right, the frame from the calls to the
/// landing nodes is simulated, as the rule asks. In code a call binds nothing where it is back.
pub fn call_law()
    ensures { (c : Convention) (known : Relation) (f : Frame) (callee : Callee)
        (call landing : Hold)
        (calls : AreCallsAt f (hold_over c call) (hold_over c landing)) → IsConvention c
        → calls.binary_outputs ≡ []
        → IsCallPair (pair_of f (hold_over c call) (hold_over c landing) calls)
        → IsReturnOf c f (pair_of f (hold_over c call) (hold_over c landing) calls) callee
        call.relation landing.relation
        → AreTrueOfCall c f (pair_of f (hold_over c call) (hold_over c landing) calls) callee
        call.relation landing.relation
        → IsRightCallee c known f callee call landing calls
        → Simulates (cuts.across (frame_over c known f) (entry_holds f) (hold_over c call)
        (hold_over c landing)) (IsBinaryFine c f) (IsSourceFine c f) }
{}

/// What holds at entry is kept by steps of either side.
pub fn entry_is_kept()
    ensures { (c : Convention) (f : Frame) (known : Relation) (more : List Term)
        → All IsEntryLine f.entry → f.start.premises ≡ f.entry ++ more
        → IsKept (frame_over c known f) (IsBinaryFine c f) (IsSourceFine c f) (entry_holds f) }
{}

/// The frame with a cut as a goal, and those from the cut on, with it as a goal and without, over
/// graphs and terms as over their systems.
pub fn frames_of_cuts()
    ensures enters { (c : Convention) (f : Frame) (known : Relation) (cut : Hold) (counts : Counts)
        → IsSimulated c known (with_goal f (goal_at cut.nodes counts cut.relation))
        → Simulates (cuts.with_goal (frame_over c known f) (cuts.goal_at (hold_over c cut) counts))
        (IsBinaryFine c f) (IsSourceFine c f) }
    ensures steps { (c : Convention) (f : Frame) (known : Relation) (cut : Hold) (path : List ℕ)
        (counts : Counts) → IsSimulated c (at_cut c).known
        (with_goal (from_cut f cut.nodes path cut.relation) (goal_at cut.nodes counts cut.relation))
        → Simulates (cuts.with_goal
        (cuts.from_cut (frame_over c known f) (entry_holds f) (hold_over c cut))
        (cuts.goal_at (hold_over c cut) counts)) (IsBinaryFine c f) (IsSourceFine c f) }
    ensures later { (c : Convention) (f : Frame) (known : Relation) (cut : Hold) (path : List ℕ)
        → IsSimulated c (at_cut c).known (from_cut f cut.nodes path cut.relation)
        → Simulates (cuts.from_cut (frame_over c known f) (entry_holds f) (hold_over c cut))
        (IsBinaryFine c f) (IsSourceFine c f) }
{}

/// The calling convention's zone is from one word to another, over values at entry.
pub fn the_calling_convention_is_one()
    ensures { (stack bottom top : ℕ) (result : Option Term) (fixed : ℕ → Option ℕ)
        → stack < 2 ^ 32 → ((at : ℕ) → 2 ^ 32 ≤ at → fixed at ≡ None)
        → IsConvention (calling.convention stack bottom top result fixed) }
{}

/// The obligations of a frame, and whether they are true, are the same wherever the zone is in the
/// runs that are spoken of.
pub fn the_zone_may_be_anywhere()
    ensures leaf { (c : Convention) (bottom top : ℕ) (o : Opening) (f : Frame) (terms : List Term)
        → AreOfLeaf c o f terms
        → AreOfLeaf (record c { bottom = bottom; top = top }) o f terms }
    ensures wait { (c : Convention) (bottom top : ℕ) (o : Opening) (f : Frame) (hold : Hold)
        (terms : List Term) → AreOfWait c o f hold terms
        → AreOfWait (record c { bottom = bottom; top = top }) o f hold terms }
    ensures truth { (c : Convention) (bottom top : ℕ) (terms : List Term) → AreTrueWith c terms
        → AreTrueWith (record c { bottom = bottom; top = top }) terms }
{}

/// What always holds of a side holds of one that has failed: runs that fail are spoken of.
pub fn failed_states_are_spoken_of()
    ensures binary { (c : Convention) (f : Frame) (at : ℕ) → binary_always c f at Failed ≡ true }
    ensures source { (c : Convention) (at : ℕ) → source_always c at Failed ≡ true }
{}
