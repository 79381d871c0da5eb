//! One side of a frame.

ghost use Rattle.std.specs.Prelude.{◌≤◌, ℕ, length, IfErr, IfOk};
ghost use Rattle.std.specs.HashMap.{get};
ghost use Rattle.term_core_spec.specs.Same.{same_variable};
ghost use Rattle.term_bank.specs.Nodes.{Extends};
ghost use Rattle.term_substitution.specs.States.{AreBelow};
ghost use Rattle.visit_walk_spec.specs.Listing.{IsListing};
ghost use Rattle.visit_walk_spec.specs.Visits.{Walk};
ghost use Rattle.visit_walk.specs.Found.{IsWalkFault};
ghost use Rattle.path_cond_spec.specs.Junctions.{junctions};
ghost use Rattle.path_cond.specs.Result.{AreConditions};
ghost use Rattle.sim_rules_spec.specs.Sides as sides;
ghost use Rattle.sim_rules_terms.specs.Ways.{IsWay, walk_on};

use crate::lines::Known;
use attempt::Refusal;
use graph_core::Graph;
use graph_core_spec::Mark;
use path_cond::{Conditions, conditions};
use std::alloc::{AllocError, Global};
use term_bank::Bank;
use visit_walk::{Shape, Visits, WalkFault, visits};

/// One side of a frame: its graph, its walk, and the terms of its variables where it starts.
#[derive(Drop)]
pub struct Way<'a> {
    /// The graph.
    pub graph: &'a Graph,
    /// Where the walk continues after each node: as in the graph, or it ends at some nodes.
    pub shape: Shape,
    /// The node at which it starts.
    pub start: usize,
    /// Its stops.
    pub stops: Vec<Mark>,
    /// Its bounds.
    pub bounds: Vec<Mark>,
    /// The terms of the side's variables there.
    pub terms: &'a Known,
}

impl<'a> Way<'a> {
    /// The visits of the walk, or why there is no list of them.
    pub fn visits(&self, alloc: Global, maximum: usize) -> Result<Visits, Refusal<WalkFault>>
        ensures listing { IfOk result (IsListing (walk_on self.now) maximum) }
        ensures fault { IfErr result (IsWalkFault (walk_on self.now) maximum) }
    {
        visits(
            alloc,
            &self.shape,
            self.start,
            self.stops.as_slice(),
            self.bounds.as_slice(),
            maximum,
        )
    }
}

/// The conditions and the states of the visits of a side's walk. Out of memory, the bank may have
/// some more terms.
pub fn conditions_of(
    alloc: Global,
    way: &Way<'_>,
    visits: &Visits,
    bank: &mut Bank,
) -> Result<Conditions, AllocError>
    requires listing { (w : Walk) × (maximum : ℕ) × IsListing w maximum visits.now }
    requires below { AreBelow (length bank.old) (get same_variable way.now.terms.now) }
    ensures conditions { (w : sides.Way) (maximum : ℕ) → IsWay bank.old w way.now
        → IsListing w.walk maximum visits.now → IfOk result (AreConditions bank.new w.start w.graph
        (junctions w.walk visits.now.visits)) }
    ensures extends { Extends bank.old bank.new }
    ensures longer { length bank.old ≤ length bank.new }
{
    conditions(alloc, way.graph, visits, way.terms, bank)
}
