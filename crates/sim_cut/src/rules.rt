//! The laws of the rules that cut runs in two. In each, both sides' states have the property that
//! their system's steps keep, and tests that always hold: of the source, that its memory holds the
//! fixed bytes.

ghost use Rattle.std.specs.Prelude.{ℕ, Bool};
ghost use Rattle.graph_core_spec.specs.Simulation.{Frame, Hold, Simulates};
ghost use Rattle.proof_tree_spec.specs.declared.Counts.{Counts};
ghost use Rattle.proof_tree_spec.specs.Cuts.{AreCounts, Calls, Holds, IsAllowed, IsClear};
ghost use Rattle.proof_tree_spec.specs.Cuts.{IsFine, IsKept, IsOver, Splits, Waits};

use graph_core::Walks;

/// Split: where the cut is allowed, the frame with the cut as a goal and the frame from the cut on
/// give the frame.
pub fn split_law<A: Walks, C: Walks>(a: &A, c: &C)
    ensures { (f : Frame A.State C.State) (cut : Hold A.State C.State) (enter step : Counts)
        (entry : ℕ → A.State → C.State → Bool)
        (always : ℕ → A.State → Bool) (source_always : ℕ → C.State → Bool)
        → let fine = IsFine (A.system a.now) (A.fine a.now) always in
        let source_fine = IsFine (C.system c.now) (C.fine c.now) source_always in
        IsOver f (A.system a.now) (C.system c.now) → IsKept f fine source_fine entry
        → AreCounts enter → AreCounts step → IsAllowed f (A.leads a.now) (C.leads c.now) cut
        → Splits f fine source_fine entry cut enter step → Simulates f fine source_fine }
{}

/// Call: where the cut at the calls is allowed and no goal is at a landing node after them, the
/// frame with the calls as a goal, the callees from there to the landing nodes, and the frame from
/// these on give the frame.
pub fn call_law<A: Walks, C: Walks>(a: &A, c: &C)
    ensures { (f : Frame A.State C.State) (call landing : Hold A.State C.State)
        (entry : ℕ → A.State → C.State → Bool)
        (always : ℕ → A.State → Bool) (source_always : ℕ → C.State → Bool)
        → let fine = IsFine (A.system a.now) (A.fine a.now) always in
        let source_fine = IsFine (C.system c.now) (C.fine c.now) source_always in
        IsOver f (A.system a.now) (C.system c.now) → IsKept f fine source_fine entry
        → A.lands a.now call.binary landing.binary → C.lands c.now call.source landing.source
        → IsAllowed f (A.leads a.now) (C.leads c.now) call → IsClear f landing
        → Calls f fine source_fine entry call landing → Simulates f fine source_fine }
{}

/// Hold: where the cut is allowed, the frame with the cut as a hold and the frame from the cut on
/// give the frame.
pub fn hold_law<A: Walks, C: Walks>(a: &A, c: &C)
    ensures { (f : Frame A.State C.State) (cut : Hold A.State C.State) (step : Counts)
        (entry : ℕ → A.State → C.State → Bool)
        (always : ℕ → A.State → Bool) (source_always : ℕ → C.State → Bool)
        → let fine = IsFine (A.system a.now) (A.fine a.now) always in
        let source_fine = IsFine (C.system c.now) (C.fine c.now) source_always in
        IsOver f (A.system a.now) (C.system c.now) → IsKept f fine source_fine entry
        → AreCounts step → IsAllowed f (A.leads a.now) (C.leads c.now) cut
        → Holds f fine source_fine entry cut step → Simulates f fine source_fine }
{}

/// Wait: an open hold at the node where the source starts, to which the binary side comes alone,
/// gives the frame.
pub fn wait_law<A: Walks, C: Walks>(a: &A, c: &C)
    ensures { (f : Frame A.State C.State) (hold : Hold A.State C.State)
        (always : ℕ → A.State → Bool) (source_always : ℕ → C.State → Bool)
        → let fine = IsFine (A.system a.now) (A.fine a.now) always in
        let source_fine = IsFine (C.system c.now) (C.fine c.now) source_always in
        Waits f fine source_fine hold → Simulates f fine source_fine }
{}
