//! Frames inside a part.

ghost use Rattle.std.specs.Prelude.{◌≡◌, IfOk, OnOk, [], length, map, List};
ghost use Rattle.term_core_spec.specs.Term as tree_spec;
ghost use Rattle.graph_core.specs.Graphs.{boxed_term};
ghost use Rattle.proof_tree.specs.Frames.{HasPaths, frame_of, start_of};
ghost use Rattle.cert_check_frames.specs.Listed.{frame_at};
ghost use Rattle.cert_check_jobs.specs.Cuts.{AreGoalsBelow, AreIds, goal_in, goal_seen};
ghost use Rattle.cert_check_jobs.specs.Cuts.{goals_in, goals_seen, lines_at, start_seen};
ghost use Rattle.cert_check_jobs.specs.Extras.{IsBelow, added_at, frame_added, started};
ghost use Rattle.cert_check_jobs.specs.Frames.{AreFrameGoals, AreTrees, IsFrameGoal, IsStopAt};
ghost use Rattle.cert_check_jobs.specs.Frames.{KnowsStarts, goal_given, start_given};

use crate::cuts::{CutGoal, Cuts, copied};
use crate::extra::Extra;
use attempt::attempt;
use cert_check_frames::{Listed, premises, tests, tree};
use graph_core::GraphRun;
use proof_tree::{Frame, Goal, Reachable, Start, Stop};
use proof_tree_spec::{Counts, Nodes};
use std::alloc::{AllocError, Global};
use term_bank::{Bank, TermId};
use term_core::Term;

// ---- trees

/// A goal, with the trees of its lines.
#[derive(Drop)]
pub struct GoalTrees {
    /// The node of each side.
    pub nodes: Nodes,
    /// At which arrival there each side stops.
    pub counts: Counts,
    /// The lines of the relation there.
    pub lines: Vec<Box<Term>>,
}

/// The trees of what a frame has more.
#[derive(Drop)]
pub struct Trees {
    /// Of its tests.
    pub tests: Vec<Box<Term>>,
    /// Its goals.
    pub goals: Vec<GoalTrees>,
}

// Adds the trees of lines.
fn add_trees(
    alloc: Global,
    bank: &Bank,
    ids: &[TermId],
    trees: &mut Vec<Box<Term>>,
) -> Result<(), AllocError>
    requires empty { trees.old.items ≡ [] }
    requires below { AreIds (length bank.now) ids.now }
    ensures { OnOk result (map boxed_term trees.new.items ≡ lines_at bank.now ids.now) }
{
    for index in 0..ids.len() {
        let line = attempt!(tree(alloc, bank, ids[index]));
        attempt!(trees.push(line), AllocError);
    }
    Ok(())
}

// A goal, with the trees of its lines.
fn goal_trees(alloc: Global, bank: &Bank, goal: &CutGoal) -> Result<GoalTrees, AllocError>
    requires { AreIds (length bank.now) goal.now.lines.items }
    ensures { IfOk result (λ made. goal_given made ≡ goal_in bank.now (goal_seen goal.now)) }
{
    let mut lines = Vec::new(alloc);
    attempt!(add_trees(alloc, bank, goal.lines.as_slice(), &mut lines));
    Ok(GoalTrees {
        nodes: goal.nodes,
        counts: goal.counts,
        lines,
    })
}

// Adds goals, with the trees of their lines.
fn add_goal_trees(
    alloc: Global,
    bank: &Bank,
    goals: &[CutGoal],
    all: &mut Vec<GoalTrees>,
) -> Result<(), AllocError>
    requires empty { all.old.items ≡ [] }
    requires below { AreGoalsBelow (length bank.now) (goals_seen goals.now) }
    ensures { OnOk result (map goal_given all.new.items ≡ goals_in bank.now (goals_seen goals.now)) }
{
    for index in 0..goals.len() {
        let made = attempt!(goal_trees(alloc, bank, &goals[index]));
        attempt!(all.push(made), AllocError);
    }
    Ok(())
}

/// The trees of what a frame has more.
pub fn extra_trees(alloc: Global, bank: &Bank, extra: &Extra) -> Result<Trees, AllocError>
    requires { IsBelow (length bank.now) extra.now }
    ensures { IfOk result (AreTrees bank.now extra.now) }
{
    let mut goals = Vec::new(alloc);
    attempt!(add_goal_trees(alloc, bank, extra.cuts.goals.as_slice(), &mut goals));
    let tests = attempt!(tests(alloc, bank, extra.premises.as_slice()));
    Ok(Trees { tests, goals })
}

// ---- where it starts

// The node of each side.
fn nodes(function: &Listed<'_>, cuts: &Cuts) -> Nodes
    ensures { result ≡ (started (frame_at function.now) (start_seen cuts.now.start)).nodes }
{
    match &cuts.start {
        Some(start) => start.nodes,
        None => function.nodes,
    }
}

/// The path of the source body where a frame starts.
pub fn start_path<'a>(function: &Listed<'a>, cuts: &'a Cuts) -> &'a [u32]
    ensures { result.now ≡ (started (frame_at function.now) (start_seen cuts.now.start)).path }
{
    match &cuts.start {
        Some(start) => start.path.as_slice(),
        None => function.path,
    }
}

// Where the frame starts, where the trees of the tests are given.
fn start<'a>(
    alloc: Global,
    function: &Listed<'a>,
    extra: &'a Extra,
    tests: &'a [Box<Term>],
) -> Result<Start<'a>, AllocError>
    requires { length extra.now.premises.items ≡ length tests.now }
    ensures start { IfOk result (λ start. start_of start
        ≡ start_given function.now extra.now (map boxed_term tests.now)) }
    ensures paths { IfOk result (KnowsStarts function.now) }
{
    let nodes = nodes(function, &extra.cuts);
    let binary = attempt!(Reachable::new(alloc, &function.binary, nodes.binary));
    let source = attempt!(Reachable::new(alloc, &function.source, nodes.source));
    let binary_bounds = attempt!(copied(alloc, extra.binary_bounds.as_slice()));
    let source_bounds = attempt!(copied(alloc, extra.source_bounds.as_slice()));
    let premises = attempt!(premises(alloc, function.entry, extra.premises.as_slice(), tests));
    Ok(Start {
        binary,
        source,
        path: start_path(function, &extra.cuts),
        premises,
        binary_bounds,
        source_bounds,
    })
}

// ---- goals

// A stop at a node, at an arrival there.
fn stop(alloc: Global, run: &GraphRun<'_>, node: usize, count: usize) -> Result<Stop, AllocError>
    ensures { IfOk result (IsStopAt run.now node count) }
{
    let at = attempt!(Reachable::new(alloc, run, node));
    Ok(Stop { at, count })
}

// A goal, of which the trees are given.
fn frame_goal<'a>(
    alloc: Global,
    function: &Listed<'_>,
    goal: &'a GoalTrees,
) -> Result<Goal<'a>, AllocError>
    ensures { IfOk result (IsFrameGoal function.now goal.now) }
{
    let nodes = goal.nodes;
    let counts = goal.counts;
    let binary = attempt!(stop(alloc, &function.binary, nodes.binary, counts.binary));
    let source = attempt!(stop(alloc, &function.source, nodes.source, counts.source));
    Ok(Goal {
        binary,
        source,
        relation: goal.lines.as_slice(),
    })
}

// Adds goals, of which the trees are given.
fn add_frame_goals<'a>(
    alloc: Global,
    function: &Listed<'_>,
    goals: &'a [GoalTrees],
    all: &mut Vec<Goal<'a>>,
) -> Result<(), AllocError>
    requires { all.old.items ≡ [] }
    ensures { OnOk result (AreFrameGoals function.now goals.now all.new.items) }
{
    for index in 0..goals.len() {
        let made = attempt!(frame_goal(alloc, function, &goals[index]));
        attempt!(all.push(made), AllocError);
    }
    Ok(())
}

/// The frame of a function with all that, of which the trees are given. Work is linear in both
/// graphs for each goal, and in what is added.
pub fn frame_with<'a>(
    alloc: Global,
    function: &'a Listed<'a>,
    extra: &'a Extra,
    trees: &'a Trees,
) -> Result<Frame<'a>, AllocError>
    requires { length extra.now.premises.items ≡ length trees.now.tests.items }
    ensures frame { (bank : List tree_spec.Term) → AreTrees bank extra.now trees.now
        → IfOk result (λ frame. frame_of frame
        ≡ frame_added (frame_at function.now) (added_at bank extra.now)) }
    ensures paths { IfOk result HasPaths }
{
    let mut goals = Vec::new(alloc);
    attempt!(add_frame_goals(alloc, function, trees.goals.as_slice(), &mut goals));
    let start = attempt!(start(alloc, function, extra, trees.tests.as_slice()));
    Ok(Frame {
        binary: function.binary,
        source: function.source,
        setting: function.setting,
        entry: function.entry,
        start,
        goals,
        holds: Vec::new(alloc),
    })
}
