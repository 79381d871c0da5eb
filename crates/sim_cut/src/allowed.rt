//! Which cuts the goals of a frame allow.

ghost use Rattle.std.specs.Prelude.{ℕ, ◌↔◌, IsTrue};
ghost use Rattle.graph_core_spec.specs.Graph.{Graphs};
ghost use Rattle.graph_core_spec.specs.Run.{IsPath};
ghost use Rattle.proof_tree_spec.specs.Cuts.{Passes};
ghost use Rattle.proof_tree_spec.specs.Frames as spec;
ghost use Rattle.proof_tree.specs.Ahead.{AreAhead};
ghost use Rattle.proof_tree.specs.Frames.{HasPaths, frame_of, stop_of};

use proof_tree::{Frame, Goal, Reachable, Stop};
use proof_tree_spec::{Cut, Nodes};

/// Whether the goals of a frame, which knows what its starts and goals lead to, allow a cut: each
/// is at another node, and where it counts more than one arrival, no walk goes from the start to it
/// and on to the cut, on either side. Where the cut is at calls, none is at a landing node after
/// them either. It takes no memory.
pub fn cut_allowed(frame: &Frame<'_>, cut: Cut) -> bool
    ensures { HasPaths frame.now → (IsTrue result ↔ spec.IsAllowed (frame_of frame.now) cut) }
{
    match cut {
        Cut::At(nodes) => let_pass(frame, nodes),
        Cut::Calls(call, landing) => let_pass(frame, call) && are_clear(frame, landing),
    }
}

/// Whether each goal of a frame lets a cut pass on both sides.
fn let_pass(frame: &Frame<'_>, cut: Nodes) -> bool
    ensures { HasPaths frame.now → (IsTrue result ↔ spec.LetsPass (frame_of frame.now) cut) }
{
    for goal in frame.goals.as_slice() {
        if !passes_both(&frame.start.binary, &frame.start.source, goal, cut) {
            return false;
        }
    }
    true
}

/// Whether a goal lets a cut pass on both sides.
fn passes_both(binary: &Reachable, source: &Reachable, goal: &Goal<'_>, cut: Nodes) -> bool
    ensures { (a c : Graphs) (i k : ℕ)
        → AreAhead a i binary.now.from binary.now.nodes.keys
        → AreAhead c k source.now.from source.now.nodes.keys
        → AreAhead a i goal.now.binary.at.from goal.now.binary.at.nodes.keys
        → AreAhead c k goal.now.source.at.from goal.now.source.at.nodes.keys
        → (IsTrue result ↔ (Passes (IsPath a i) binary.now.from cut.binary (stop_of goal.now.binary)
        × Passes (IsPath c k) source.now.from cut.source (stop_of goal.now.source))) }
{
    passes(binary, &goal.binary, cut.binary) && passes(source, &goal.source, cut.source)
}

/// Whether a goal lets a cut pass on one side.
fn passes(start: &Reachable, goal: &Stop, cut: usize) -> bool
    ensures { (graphs : Graphs) (i : ℕ)
        → AreAhead graphs i start.now.from start.now.nodes.keys
        → AreAhead graphs i goal.now.at.from goal.now.at.nodes.keys
        → (IsTrue result ↔ Passes (IsPath graphs i) start.now.from cut (stop_of goal.now)) }
{
    let node = goal.at.from;
    if node == cut {
        return false;
    }
    if goal.count <= 1 {
        return true;
    }
    !(start.leads_to(node) && goal.at.leads_to(cut))
}

/// Whether no goal of a frame is at these nodes.
fn are_clear(frame: &Frame<'_>, nodes: Nodes) -> bool
    ensures { IsTrue result ↔ spec.IsClear (frame_of frame.now) nodes }
{
    for goal in frame.goals.as_slice() {
        if goal.binary.at.from == nodes.binary || goal.source.at.from == nodes.source {
            return false;
        }
    }
    true
}
