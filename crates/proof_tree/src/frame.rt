//! Frames: what a proof has to show, and of which runs.

use crate::reachable::Reachable;
use crate::scope::Setting;
use graph_core::GraphRun;
use graph_core_spec::Mark;
use proof_tree_spec::Nodes;
use term_core::Term;

/// A premise: a term, or its negation.
#[derive(Clone, Copy)]
pub struct Premise<'a> {
    /// The term.
    pub term: &'a Term,
    /// Whether the term holds; else its negation does.
    pub holds: bool,
}

/// Where a frame starts.
#[derive(Drop)]
pub struct Start<'a> {
    /// The node of the binary side.
    pub binary: Reachable,
    /// The node of the source side.
    pub source: Reachable,
    /// The path of the source body there.
    pub path: &'a [u32],
    /// What holds there.
    pub premises: Vec<Premise<'a>>,
    /// Arrivals of the binary side that are excluded, in the order of their restrictions.
    pub binary_bounds: Vec<Mark>,
    /// Arrivals of the source side that are excluded.
    pub source_bounds: Vec<Mark>,
}

/// Where a goal stops one side.
#[derive(Drop)]
pub struct Stop {
    /// The node.
    pub at: Reachable,
    /// At which arrival there.
    pub count: usize,
}

/// A stop on each side, and what holds of the states there.
#[derive(Drop)]
pub struct Goal<'a> {
    /// Where the binary side stops.
    pub binary: Stop,
    /// Where the source side stops.
    pub source: Stop,
    /// The lines of the relation.
    pub relation: &'a [Box<Term>],
}

/// A node on each side, and what may hold of the states there.
#[derive(Clone, Copy)]
pub struct Hold<'a> {
    /// The nodes.
    pub nodes: Nodes,
    /// The lines of the relation.
    pub relation: &'a [Box<Term>],
}

/// What a proof has to show: that two runs agree up to their stops, from a start on
/// (`proof_tree_spec`, `specs/Frames.antt`).
#[derive(Drop)]
pub struct Frame<'a> {
    /// The run of the binary.
    pub binary: GraphRun<'a>,
    /// The run of the source.
    pub source: GraphRun<'a>,
    /// What the variables are.
    pub setting: &'a Setting,
    /// What holds at the entry of the function, and at each cut too.
    pub entry: &'a [Box<Term>],
    /// Where it starts.
    pub start: Start<'a>,
    /// The goals, outermost first.
    pub goals: Vec<Goal<'a>>,
    /// The holds, outermost first.
    pub holds: Vec<Hold<'a>>,
}
