//! Cuts whose lines are read.

ghost use Rattle.std.specs.Prelude.{◌≡◌, ◌++◌, IfOk, OnOk};
ghost use Rattle.cert_check_jobs.specs.Cuts.{at_of, goal_seen};
ghost use Rattle.cert_check_jobs.specs.Drafts.{AreFinished, AreReading, IsAfter, IsBefore};
ghost use Rattle.cert_check_jobs.specs.Drafts.{IsNewDraft, draft_goal, draft_site, holding};

use crate::cuts::{CutGoal, CutStart, copied};
use crate::extra::{Extra, made};
use crate::jobs::{Job, push_proof};
use attempt::attempt;
use cert_check_frames::Branch;
use proof_tree_spec::{Counts, Nodes};
use std::alloc::{AllocError, Global};
use term_bank::TermId;

/// The cut of a Split.
#[derive(Drop)]
pub struct Draft {
    /// What the frame has that is cut.
    pub extra: Box<Extra>,
    /// The node of each side.
    pub nodes: Nodes,
    /// The path of the source body there.
    pub path: Vec<u32>,
    /// At which arrivals both sides stop there, from the frame's start on.
    pub enter: Counts,
    /// At which they do so from the cut on.
    pub step: Counts,
}

/// A cut, and how far its lines are read.
#[derive(Drop)]
pub struct Reading {
    /// The cut.
    pub draft: Box<Draft>,
    /// The lines so far.
    pub lines: Vec<TermId>,
    /// How many lines come after the next.
    pub left: u32,
}

// Adds lines that hold.
fn add_holding(premises: &mut Vec<Branch>, lines: &[TermId]) -> Result<(), AllocError>
    ensures { OnOk result (premises.new.items ≡ premises.old.items ++ holding lines.now) }
{
    for index in 0..lines.len() {
        let branch = Branch {
            test: lines[index],
            holds: true,
        };
        attempt!(premises.push(branch), AllocError);
    }
    Ok(())
}

impl Draft {
    /// At these nodes of the frame that has all that.
    pub fn new(
        alloc: Global,
        extra: Box<Extra>,
        nodes: Nodes,
        path: &[u32],
        enter: Counts,
        step: Counts,
    ) -> Result<Box<Self>, AllocError>
        ensures { IfOk result (λ d. IsNewDraft extra nodes path.now enter step d.value) }
    {
        let path = attempt!(copied(alloc, path));
        let draft = Draft {
            extra,
            nodes,
            path,
            enter,
            step,
        };
        Ok(Box::new(alloc, draft)?)
    }

    // The cut as a goal, at some counts, where these lines hold.
    fn goal(&self, alloc: Global, counts: Counts, lines: &[TermId]) -> Result<CutGoal, AllocError>
        ensures { IfOk result (λ g. goal_seen g ≡ draft_goal self.now counts lines.now) }
    {
        let lines = attempt!(copied(alloc, lines));
        Ok(CutGoal {
            nodes: self.nodes,
            counts,
            lines,
        })
    }

    // The cut as a start.
    fn start(&self, alloc: Global) -> Result<CutStart, AllocError>
        ensures { IfOk result (λ s. at_of s ≡ draft_site self.now) }
    {
        let path = attempt!(copied(alloc, self.path.as_slice()));
        Ok(CutStart {
            nodes: self.nodes,
            path,
        })
    }

    // The frame from its start on, with the cut as one goal more.
    fn before(&self, alloc: Global, lines: &[TermId]) -> Result<Box<Extra>, AllocError>
        ensures { IfOk result (λ x. IsBefore self.now lines.now x.value) }
    {
        let goal = attempt!(self.goal(alloc, self.enter, lines));
        let cuts = attempt!(self.extra.cuts.with_goal(alloc, goal));
        let premises = attempt!(copied(alloc, self.extra.premises.as_slice()));
        let binary_bounds = attempt!(copied(alloc, self.extra.binary_bounds.as_slice()));
        let source_bounds = attempt!(copied(alloc, self.extra.source_bounds.as_slice()));
        made(alloc, cuts, premises, binary_bounds, source_bounds)
    }

    // The frame from the cut on, with the cut as one goal more.
    fn after(&self, alloc: Global, lines: &[TermId]) -> Result<Box<Extra>, AllocError>
        ensures { IfOk result (λ x. IsAfter self.now lines.now x.value) }
    {
        let start = attempt!(self.start(alloc));
        let goal = attempt!(self.goal(alloc, self.step, lines));
        let cuts = attempt!(self.extra.cuts.from_cut(alloc, start, goal));
        let mut premises = Vec::new(alloc);
        attempt!(add_holding(&mut premises, lines));
        let binary_bounds = Vec::new(alloc);
        let source_bounds = Vec::new(alloc);
        made(alloc, cuts, premises, binary_bounds, source_bounds)
    }
}

// The two proofs that a cut leaves whose lines are read: first the one from the frame's start.
fn finish(
    alloc: Global,
    jobs: &mut Vec<Job>,
    draft: &Draft,
    lines: &[TermId],
) -> Result<(), AllocError>
    ensures { OnOk result (AreFinished draft.now lines.now jobs.old.items jobs.new.items) }
{
    let after = attempt!(draft.after(alloc, lines));
    let before = attempt!(draft.before(alloc, lines));
    attempt!(push_proof(jobs, after));
    push_proof(jobs, before)
}

/// What is expected after these lines of a cut, where so many are still to be read: the next line,
/// or the two proofs.
pub fn push_draft(
    alloc: Global,
    jobs: &mut Vec<Job>,
    draft: Box<Draft>,
    lines: Vec<TermId>,
    left: u32,
) -> Result<(), AllocError>
    ensures { OnOk result (AreReading draft lines left jobs.old.items jobs.new.items) }
{
    if left == 0 {
        return finish(alloc, jobs, &draft, lines.as_slice());
    }
    let reading = Reading {
        draft,
        lines,
        left: left - 1,
    };
    attempt!(jobs.push(Job::Relate(reading)), AllocError);
    Ok(())
}
