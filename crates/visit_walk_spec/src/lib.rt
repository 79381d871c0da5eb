//! Visits: the nodes of a graph, told apart by how often a walk has arrived at marked nodes.
//!
//! `specs/Shape.antt` defines the shape of a graph, its list of successors; `specs/Visits.antt`
//! visits, the edges between them and where a walk ends; `specs/Outcomes.antt` the list of a walk's
//! visits by `specs/DepthFirst.antt`, and its two faults; `specs/EdgesInto.antt` the edges into a
//! visit. Of the crate only its types run; its functions are laws.

#![tactic(auto)]

ghost use Rattle.std.specs.Prelude.{◌≡◌, ◌||◌, List};
ghost use Rattle.visit_walk_spec.specs.Order.{AreOrdered};
ghost use Rattle.visit_walk_spec.specs.Outcomes.{AreVisits, IsAcyclic};
ghost use Rattle.visit_walk_spec.specs.Visits.{Visit, Walk, is_bounded, is_marked_end, is_stop};

use graph_core_spec::Next;

/// Where a run continues after a node.
#[derive(Clone, Copy)]
pub enum Successors {
    /// at one place
    One(Next),
    /// at the first place if a test holds, at the second if it doesn't
    Two(Next, Next),
    /// in a callee: the node is a call
    Callee,
    /// not looked at: a walk ends at the node
    Nothing,
}

/// Which edge of a visit.
#[derive(Clone, Copy)]
pub enum Branch {
    /// the only one: it has no test
    Only,
    /// the one that is taken if the test holds
    IfTrue,
    /// the one that is taken if the test doesn't hold
    IfFalse,
}

/// An edge into a visit.
#[derive(Clone, Copy)]
pub struct Incoming {
    /// The position of the visit that it comes from, in the order of the visits.
    pub source: usize,
    /// Which of that visit's edges it is.
    pub branch: Branch,
}

/// The visits of a walk are those that it reaches, each once; each edge leads to a later one.
pub fn visits_are_ordered()
    ensures { (w : Walk) (visits : List Visit) → AreVisits w visits → AreOrdered w visits }
{}

/// A walk that goes round a cycle has no list of visits.
pub fn listed_walks_are_acyclic()
    ensures { (w : Walk) (visits : List Visit) → AreVisits w visits → IsAcyclic w }
{}

/// A walk has one list of visits at most.
pub fn visits_are_one_list()
    ensures { (w : Walk) (a b : List Visit) → AreVisits w a → AreVisits w b → a ≡ b }
{}

/// Where a mark ends the walk it is at a stop, or else at an arrival that breaks a bound.
pub fn marks_are_stops_or_bounds()
    ensures { (w : Walk) (v : Visit) → is_marked_end w v ≡ (is_stop w v || is_bounded w v) }
{}
