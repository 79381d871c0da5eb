//! Both sides of a frame, walked as a rule changes them.

ghost use Rattle.std.specs.Prelude.{◌≡◌, ℕ, IfOk, List};
ghost use Rattle.graph_core.specs.Graphs.{graph_of};
ghost use Rattle.graph_core_spec.specs.Graph as nodes;
ghost use Rattle.proof_tree_spec.specs.Frames as frames;
ghost use Rattle.proof_tree.specs.Frames.{side_of};
ghost use Rattle.sim_rules_spec.specs.Sides as sides;
ghost use Rattle.sim_rules_terms.specs.Seen.{IsSeen};
ghost use Rattle.sim_rules_terms.specs.Ways.{walk_on};
ghost use Rattle.term_bank.specs.Nodes.{Extends};
ghost use Rattle.term_core_spec.specs.Term as tree;
ghost use Rattle.sim_rules.specs.Faults.{AnswersWalks, IsOutcome};
ghost use Rattle.sim_rules.specs.Made.{IsMade, IsShapeFor};
ghost use Rattle.sim_rules.specs.Sides.{IsOneSide};
ghost use Rattle.sim_rules.specs.Walks.{AreFound, AreFoundIf, AreOf, AreSeen, AreWalked};
ghost use Rattle.sim_rules.specs.Walks.{IsWalked, seen_by};

use crate::change::Change;
use crate::cut_to;
use crate::fault::{Needs, RuleFault, first_fault, walk_fault};
use crate::marks::{bounds_of, stops_of};
use crate::setup::Setup;
use attempt::{Refusal, attempt};
use graph_core::{Graph, GraphRun};
use graph_core_spec::Mark;
use path_cond::Conditions;
use sim_rules_spec::Side;
use sim_rules_terms::{Known, Sight, Way, conditions_of};
use std::alloc::{AllocError, Global};
use term_bank::Bank;
use visit_walk::{Shape, Visits, WalkFault};

/// A side's walk, and the list of its visits, or why it has none.
#[derive(Drop)]
pub(crate) struct Walked<'a> {
    /// The walk.
    pub way: Way<'a>,
    /// Its visits.
    pub visits: Result<Visits, Refusal<WalkFault>>,
}

/// Both sides of a frame, walked.
#[derive(Drop)]
pub(crate) struct Sides<'a> {
    /// The binary.
    pub binary: Walked<'a>,
    /// The source.
    pub source: Walked<'a>,
}

/// The conditions and the states of both sides' visits, of each that has a list of them.
#[derive(Drop)]
pub(crate) struct Found {
    /// Those of the binary's.
    pub binary: Option<Conditions>,
    /// Those of the source's.
    pub source: Option<Conditions>,
}

/// A frame with both sides' visits, their conditions and states; of each side that has a list of
/// visits.
#[derive(Clone, Copy)]
pub(crate) struct Both<'a> {
    /// The frame, and what its obligations speak of.
    pub setup: &'a Setup<'a>,
    /// The visits of the binary.
    pub binary: Option<Sight<'a>>,
    /// The visits of the source.
    pub source: Option<Sight<'a>>,
}

// ---- one side

// What a frame has of a side.
#[derive(Clone, Copy)]
struct OneSide<'a> {
    // its run
    pub run: &'a GraphRun<'a>,
    // the node where it starts
    pub start: usize,
    // its bounds
    pub bounds: &'a [Mark],
    // the terms of its variables there
    pub terms: &'a Known,
}

// What a frame has of a side.
fn one_side<'a>(setup: &Setup<'a>, side: Side) -> OneSide<'a>
    ensures { IsOneSide setup.now side result }
{
    let frame = setup.frame;
    match side {
        Side::Binary => OneSide {
            run: &frame.binary,
            start: frame.start.binary.from,
            bounds: frame.start.binary_bounds.as_slice(),
            terms: setup.opening.binary,
        },
        Side::Source => OneSide {
            run: &frame.source,
            start: frame.start.source.from,
            bounds: frame.start.source_bounds.as_slice(),
            terms: setup.opening.source,
        },
    }
}

// The graph that a side runs; where there is none, one without nodes.
fn graph_at<'a>(run: &GraphRun<'a>, empty: &'a Graph) -> &'a Graph
    requires { graph_of empty.now ≡ nodes.empty }
    ensures { graph_of result.now ≡ sides.graph_at (side_of run.now) }
{
    match run.graphs.get(run.outermost) {
        Some(graph) => graph,
        None => empty,
    }
}

// The shape of a side's graph, as a rule changes it.
fn shape_of(alloc: Global, graph: &Graph, change: Change) -> Result<Shape, AllocError>
    ensures { (side : frames.Side) → sides.graph_at side ≡ graph_of graph.now
        → IfOk result (λ shape. IsShapeFor side change shape.successors.items) }
{
    let mut shape = attempt!(Shape::of(alloc, graph));
    match change {
        Change::Restricting(bound) => {
            attempt!(cut_to(alloc, &mut shape, graph, bound.node));
            Ok(shape)
        }
        Change::Plain | Change::Holding(_) => Ok(shape),
    }
}

// The way of a side, as a rule changes it; `empty` in place of a graph that is not there.
fn way<'a>(
    alloc: Global,
    setup: &Setup<'a>,
    side: Side,
    change: Change,
    empty: &'a Graph,
) -> Result<Way<'a>, AllocError>
    requires { graph_of empty.now ≡ nodes.empty }
    ensures { IfOk result (IsMade setup.now side change) }
{
    let one = one_side(setup, side);
    let graph = graph_at(one.run, empty);
    let shape = attempt!(shape_of(alloc, graph, change));
    let goals = setup.frame.goals.as_slice();
    let stops = attempt!(stops_of(alloc, goals, side, change));
    let bounds = attempt!(bounds_of(alloc, one.bounds, change));
    Ok(Way {
        graph,
        shape,
        start: one.start,
        stops,
        bounds,
        terms: one.terms,
    })
}

// The conditions and the states of a side's visits, where there is a list of them.
fn conditions_if(
    alloc: Global,
    walked: &Walked<'_>,
    bank: &mut Bank,
) -> Result<Option<Conditions>, AllocError>
    requires { (w : sides.Way) × IsWalked bank.old w walked.now }
    ensures found { (w : sides.Way) → IsWalked bank.old w walked.now
        → IfOk result (AreFoundIf bank.new w walked.now.visits) }
    ensures extends { Extends bank.old bank.new }
{
    match &walked.visits {
        Ok(visits) => {
            let found = attempt!(conditions_of(alloc, &walked.way, visits, bank));
            Ok(Some(found))
        }
        Err(_) => Ok(None),
    }
}

// A side's visits with their conditions and states, where there is a list of them.
fn sight_if<'a>(walked: &'a Walked<'a>, found: &'a Option<Conditions>) -> Option<Sight<'a>>
    ensures { (trees : List tree.Term) (w : sides.Way) → IsWalked trees w walked.now
        → AreFoundIf trees w walked.now.visits found.now
        → IsSeen trees (seen_by w walked.now.visits) result }
{
    match &walked.visits {
        Err(_) => None,
        Ok(visits) => match found {
            None => None,
            Some(found) => Some(Sight {
                stops: walked.way.stops.as_slice(),
                terms: walked.way.terms,
                visits,
                found,
            }),
        },
    }
}

// ---- both

impl<'a> Sides<'a> {
    /// Both sides of a frame, as a rule changes them; `empty` in place of graphs that are not there.
    pub fn of(
        alloc: Global,
        setup: &Setup<'a>,
        binary: Change,
        source: Change,
        empty: &'a Graph,
    ) -> Result<Sides<'a>, AllocError>
        requires { graph_of empty.now ≡ nodes.empty }
        ensures { IfOk result (AreWalked setup.now binary source) }
    {
        let binary = attempt!(way(alloc, setup, Side::Binary, binary, empty));
        let source = attempt!(way(alloc, setup, Side::Source, source, empty));
        let visits = binary.visits(alloc, setup.maximum);
        let others = source.visits(alloc, setup.maximum);
        Ok(Sides {
            binary: Walked {
                way: binary,
                visits,
            },
            source: Walked {
                way: source,
                visits: others,
            },
        })
    }

    /// That the walks that have to be acyclic are so, and that neither has too many visits.
    pub fn ends(&self, needs: Needs) -> Result<(), Refusal<RuleFault>>
        ensures { (maximum : ℕ)
            → IsOutcome (walk_on self.now.binary.way) maximum self.now.binary.visits
            → IsOutcome (walk_on self.now.source.way) maximum self.now.source.visits
            → AnswersWalks needs (walk_on self.now.binary.way) (walk_on self.now.source.way)
            self.now.binary.visits self.now.source.visits maximum result }
    {
        match first_fault(
            needs,
            walk_fault(&self.binary.visits),
            walk_fault(&self.source.visits),
        ) {
            Some(fault) => Err(fault),
            None => Ok(()),
        }
    }

    /// The conditions and the states of both sides' visits.
    pub fn conditions(&self, alloc: Global, bank: &mut Bank) -> Result<Found, AllocError>
        requires { (a d : sides.Way) × AreOf bank.old a d self.now }
        ensures found { (a d : sides.Way) → AreOf bank.old a d self.now
            → IfOk result (AreFound bank.new a d self.now) }
        ensures extends { Extends bank.old bank.new }
    {
        let binary = attempt!(conditions_if(alloc, &self.binary, bank));
        let source = attempt!(conditions_if(alloc, &self.source, bank));
        Ok(Found { binary, source })
    }

    /// Both sides with these conditions and states.
    pub fn seen<'b>(&'b self, setup: &'b Setup<'b>, found: &'b Found) -> Both<'b>
        ensures seen { (trees : List tree.Term) (a d : sides.Way) → AreOf trees a d self.now
            → AreFound trees a d self.now found.now
            → AreSeen trees (seen_by a self.now.binary.visits) (seen_by d self.now.source.visits)
            result }
        ensures setup { result.setup.now ≡ setup.now }
    {
        Both {
            setup,
            binary: sight_if(&self.binary, &found.binary),
            source: sight_if(&self.source, &found.source),
        }
    }
}
