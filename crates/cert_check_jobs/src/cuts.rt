//! Where frames start at cuts, and the goals of cuts.

ghost use Rattle.std.specs.Prelude.{◌≡◌, ◌++◌, ◌∷◌, [], IfOk, OnOk};
ghost use Rattle.cert_check_jobs.specs.Cuts.{IsCutFrom, IsWithGoal, at_of, goal_seen};
ghost use Rattle.cert_check_jobs.specs.Cuts.{goals_seen, no_cut, seen, start_seen};

use attempt::attempt;
use proof_tree_spec::{Counts, Nodes};
use std::alloc::{AllocError, Global};
use term_bank::TermId;

/// Where a frame starts that starts at a cut.
#[derive(Drop)]
pub struct CutStart {
    /// The node of each side.
    pub nodes: Nodes,
    /// The path of the source body there.
    pub path: Vec<u32>,
}

/// The goal of a cut.
#[derive(Drop)]
pub struct CutGoal {
    /// The node of each side.
    pub nodes: Nodes,
    /// At which arrival there each side stops.
    pub counts: Counts,
    /// The lines of the relation there.
    pub lines: Vec<TermId>,
}

/// What the cuts above give a frame.
#[derive(Drop)]
pub struct Cuts {
    /// Where it starts, if at a cut.
    pub start: Option<CutStart>,
    /// Its goals, outermost first.
    pub goals: Vec<CutGoal>,
}

/// The same items.
pub(crate) fn copied<T: Copy>(alloc: Global, items: &[T]) -> Result<Vec<T>, AllocError>
    ensures { IfOk result (λ all. all.items ≡ items.now) }
{
    let mut all = Vec::new(alloc);
    attempt!(all.extend_from_slice(items));
    Ok(all)
}

// ---- one cut

impl CutStart {
    // The same.
    fn copy(&self, alloc: Global) -> Result<Self, AllocError>
        ensures { IfOk result (λ x. at_of x ≡ at_of self.now) }
    {
        let path = attempt!(copied(alloc, self.path.as_slice()));
        Ok(CutStart {
            nodes: self.nodes,
            path,
        })
    }
}

impl CutGoal {
    // The same.
    fn copy(&self, alloc: Global) -> Result<Self, AllocError>
        ensures { IfOk result (λ x. goal_seen x ≡ goal_seen self.now) }
    {
        let lines = attempt!(copied(alloc, self.lines.as_slice()));
        Ok(CutGoal {
            nodes: self.nodes,
            counts: self.counts,
            lines,
        })
    }
}

// The same start.
fn same_start(alloc: Global, start: &Option<CutStart>) -> Result<Option<CutStart>, AllocError>
    ensures { IfOk result (λ copy. start_seen copy ≡ start_seen start.now) }
{
    match start {
        Some(start) => {
            let copy = attempt!(start.copy(alloc));
            Ok(Some(copy))
        }
        None => Ok(None),
    }
}

// Adds the same goals.
fn add_goals(alloc: Global, all: &mut Vec<CutGoal>, goals: &[CutGoal]) -> Result<(), AllocError>
    ensures { OnOk result (goals_seen all.new.items
        ≡ goals_seen all.old.items ++ goals_seen goals.now) }
{
    for index in 0..goals.len() {
        let goal = attempt!(goals[index].copy(alloc));
        attempt!(all.push(goal), AllocError);
    }
    Ok(())
}

// The same goals, and one more.
fn with_more(alloc: Global, goals: &[CutGoal], more: CutGoal) -> Result<Vec<CutGoal>, AllocError>
    ensures { IfOk result (λ all. goals_seen all.items
        ≡ goals_seen goals.now ++ goal_seen more ∷ []) }
{
    let mut all = Vec::new(alloc);
    attempt!(add_goals(alloc, &mut all, goals));
    attempt!(all.push(more), AllocError);
    Ok(all)
}

// ---- all cuts

/// No cut: the frame starts at the function's entry, and has no goals.
pub(crate) fn no_cuts(alloc: Global) -> Result<Box<Cuts>, AllocError>
    ensures { IfOk result (λ x. seen x.value ≡ no_cut) }
{
    let cuts = Cuts {
        start: None,
        goals: Vec::new(alloc),
    };
    Ok(Box::new(alloc, cuts)?)
}

impl Cuts {
    /// The same.
    pub(crate) fn copy(&self, alloc: Global) -> Result<Box<Self>, AllocError>
        ensures { IfOk result (λ x. seen x.value ≡ seen self.now) }
    {
        let start = attempt!(same_start(alloc, &self.start));
        let mut goals = Vec::new(alloc);
        attempt!(add_goals(alloc, &mut goals, self.goals.as_slice()));
        Ok(Box::new(alloc, Cuts { start, goals })?)
    }

    /// The same with one goal more.
    pub(crate) fn with_goal(&self, alloc: Global, goal: CutGoal) -> Result<Box<Self>, AllocError>
        ensures { IfOk result (λ x. IsWithGoal self.now (goal_seen goal) x.value) }
    {
        let start = attempt!(same_start(alloc, &self.start));
        let goals = attempt!(with_more(alloc, self.goals.as_slice(), goal));
        Ok(Box::new(alloc, Cuts { start, goals })?)
    }

    /// From a cut on, which is one goal more.
    pub(crate) fn from_cut(
        &self,
        alloc: Global,
        start: CutStart,
        goal: CutGoal,
    ) -> Result<Box<Self>, AllocError>
        ensures { IfOk result (λ x. IsCutFrom self.now (at_of start) (goal_seen goal)
            x.value) }
    {
        let goals = attempt!(with_more(alloc, self.goals.as_slice(), goal));
        let cuts = Cuts {
            start: Some(start),
            goals,
        };
        Ok(Box::new(alloc, cuts)?)
    }
}
