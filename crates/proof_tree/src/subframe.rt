//! The frames of sub-proofs. A frame and its start are changed in place for a sub-proof, and back
//! after it; a cut's start takes the place of the frame's by `std::mem::swap`.

ghost use Rattle.std.specs.Prelude.{◌≡◌, IfOk, OnErr, OnOk, map, ◌++◌};
ghost use Rattle.term_core_spec.specs.Term as tree;
ghost use Rattle.graph_core_spec.specs.declared.Mark.{Mark};
ghost use Rattle.proof_tree_spec.specs.Frames as spec;
ghost use Rattle.proof_tree.specs.Frames.{HasPaths, KnowsPaths, frame_of, goal_of, hold_of};
ghost use Rattle.proof_tree.specs.Frames.{mark_of, premise_of, start_of, stop_of, terms_of};

use crate::frame::{Frame, Goal, Hold, Premise, Start, Stop};
use crate::reachable::Reachable;
use attempt::attempt;
use graph_core::GraphRun;
use graph_core_spec::Mark;
use proof_tree_spec::{Counts, Nodes};
use std::alloc::{AllocError, Global};
use term_core::Term;

impl<'a> Start<'a> {
    /// Adds a premise.
    pub fn add_premise(&mut self, premise: Premise<'a>) -> Result<(), AllocError>
        ensures added { OnOk result (start_of self.new ≡ spec.with_premise (start_of self.old)
            (premise_of premise.entry)) }
        ensures kept { OnErr result (start_of self.new ≡ start_of self.old) }
    {
        self.premises.push(premise)?;
        Ok(())
    }

    /// Takes back the premise that was added last.
    pub fn remove_premise(&mut self)
        ensures { (start : spec.Start) (premise : tree.Term)
            → start_of self.old ≡ spec.with_premise start premise → start_of self.new ≡ start }
    {
        self.premises.pop();
    }

    /// Excludes the arrivals of the binary side at a node from this one on.
    pub fn add_binary_bound(&mut self, bound: Mark) -> Result<(), AllocError>
        ensures added { OnOk result (start_of self.new ≡ spec.with_binary_bound (start_of self.old)
            (mark_of bound)) }
        ensures kept { OnErr result (start_of self.new ≡ start_of self.old) }
    {
        self.binary_bounds.push(bound)?;
        Ok(())
    }

    /// Takes back the bound of the binary side that was added last.
    pub fn remove_binary_bound(&mut self)
        ensures { (start : spec.Start) (bound : Mark)
            → start_of self.old ≡ spec.with_binary_bound start bound → start_of self.new ≡ start }
    {
        self.binary_bounds.pop();
    }

    /// Excludes the arrivals of the source side at a node from this one on.
    pub fn add_source_bound(&mut self, bound: Mark) -> Result<(), AllocError>
        ensures added { OnOk result (start_of self.new ≡ spec.with_source_bound (start_of self.old)
            (mark_of bound)) }
        ensures kept { OnErr result (start_of self.new ≡ start_of self.old) }
    {
        self.source_bounds.push(bound)?;
        Ok(())
    }

    /// Takes back the bound of the source side that was added last.
    pub fn remove_source_bound(&mut self)
        ensures { (start : spec.Start) (bound : Mark)
            → start_of self.old ≡ spec.with_source_bound start bound → start_of self.new ≡ start }
    {
        self.source_bounds.pop();
    }
}

impl<'a> Frame<'a> {
    /// Adds a goal.
    pub fn add_goal(&mut self, goal: Goal<'a>) -> Result<(), AllocError>
        ensures added { OnOk result (frame_of self.new ≡ spec.with_goal (frame_of self.old)
            (goal_of goal.entry)) }
        ensures paths { HasPaths self.old → KnowsPaths self.old.binary goal.entry.binary.at
            → KnowsPaths self.old.source goal.entry.source.at → HasPaths self.new }
        ensures kept { OnErr result (frame_of self.new ≡ frame_of self.old) }
    {
        self.goals.push(goal)?;
        Ok(())
    }

    /// Takes back the goal that was added last.
    pub fn remove_goal(&mut self)
        ensures back { (frame : spec.Frame) (goal : spec.Goal)
            → frame_of self.old ≡ spec.with_goal frame goal → frame_of self.new ≡ frame }
        ensures paths { HasPaths self.old → HasPaths self.new }
    {
        self.goals.pop();
    }

    /// Adds a hold.
    pub fn add_hold(&mut self, hold: Hold<'a>) -> Result<(), AllocError>
        ensures added { OnOk result (frame_of self.new ≡ spec.with_hold (frame_of self.old)
            (hold_of hold.entry)) }
        ensures paths { HasPaths self.old → HasPaths self.new }
        ensures kept { OnErr result (frame_of self.new ≡ frame_of self.old) }
    {
        self.holds.push(hold)?;
        Ok(())
    }

    /// Takes back the hold that was added last.
    pub fn remove_hold(&mut self)
        ensures back { (frame : spec.Frame) (hold : spec.Hold)
            → frame_of self.old ≡ spec.with_hold frame hold → frame_of self.new ≡ frame }
        ensures paths { HasPaths self.old → HasPaths self.new }
    {
        self.holds.pop();
    }

    /// A cut as a goal of the frame, at so many arrivals.
    pub fn goal_at(
        &self,
        alloc: Global,
        nodes: Nodes,
        counts: Counts,
        lines: &'a [Box<Term>],
    ) -> Result<Goal<'a>, AllocError>
        ensures goal { IfOk result (λ g. goal_of g ≡ spec.goal_at nodes counts
            (terms_of lines.now)) }
        ensures binary { IfOk result (λ g. KnowsPaths self.now.binary g.binary.at) }
        ensures source { IfOk result (λ g. KnowsPaths self.now.source g.source.at) }
    {
        let binary = attempt!(stop_at(alloc, &self.binary, nodes.binary, counts.binary));
        let source = attempt!(stop_at(alloc, &self.source, nodes.source, counts.source));
        Ok(Goal {
            binary,
            source,
            relation: lines,
        })
    }

    /// The start of the frame from a cut on.
    pub fn start_at(
        &self,
        alloc: Global,
        nodes: Nodes,
        path: &'a [u32],
        lines: &'a [Box<Term>],
    ) -> Result<Start<'a>, AllocError>
        ensures start { IfOk result (λ s. start_of s
            ≡ (spec.from_cut (frame_of self.now) nodes path.now (terms_of lines.now)).start) }
        ensures binary { IfOk result (λ s. KnowsPaths self.now.binary s.binary) }
        ensures source { IfOk result (λ s. KnowsPaths self.now.source s.source) }
    {
        let binary = attempt!(Reachable::new(alloc, &self.binary, nodes.binary));
        let source = attempt!(Reachable::new(alloc, &self.source, nodes.source));
        let premises = attempt!(premises(alloc, self.entry, lines));
        Ok(Start {
            binary,
            source,
            path,
            premises,
            binary_bounds: Vec::new(alloc),
            source_bounds: Vec::new(alloc),
        })
    }
}

/// Where a goal stops a run.
fn stop_at(alloc: Global, run: &GraphRun<'_>, node: usize, count: usize) -> Result<Stop, AllocError>
    ensures stop { IfOk result (λ s. stop_of s ≡ record { node = node; count = count }) }
    ensures paths { IfOk result (λ s. KnowsPaths run.now s.at) }
{
    let at = attempt!(Reachable::new(alloc, run, node));
    Ok(Stop { at, count })
}

/// What holds at entry, then the lines of a relation, as premises.
fn premises<'a>(
    alloc: Global,
    entry: &'a [Box<Term>],
    lines: &'a [Box<Term>],
) -> Result<Vec<Premise<'a>>, AllocError>
    ensures { IfOk result (λ premises. map premise_of premises.items
        ≡ terms_of entry.now ++ terms_of lines.now) }
{
    let mut premises = Vec::new(alloc);
    attempt!(add_lines(&mut premises, entry));
    attempt!(add_lines(&mut premises, lines));
    Ok(premises)
}

/// Adds lines that hold to premises.
fn add_lines<'a>(premises: &mut Vec<Premise<'a>>, lines: &'a [Box<Term>]) -> Result<(), AllocError>
    ensures { OnOk result (map premise_of premises.new.items
        ≡ map premise_of premises.old.items ++ terms_of lines.now) }
{
    for line in lines {
        premises.push(Premise {
            term: line,
            holds: true,
        })?;
    }
    Ok(())
}
