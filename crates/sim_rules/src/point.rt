//! A point where both sides may stop, and what a Leaf leaves to show there.

ghost use Rattle.std.specs.Prelude.{◌≡◌, ◌<◌, ◌≤◌, List, length};
ghost use Rattle.term_core_spec.specs.Term as tree;
ghost use Rattle.term_core.specs.Trees.{term_of};
ghost use Rattle.term_bank.specs.Nodes.{Extends, Holds};
ghost use Rattle.term_substitution.specs.States.{IsAt, IsFound};
ghost use Rattle.proof_tree.specs.Frames.{goal_of, terms_of};
ghost use Rattle.visit_walk_spec.specs.Visits.{Visit};
ghost use Rattle.sim_rules_spec.specs.Rules as rules;
ghost use Rattle.sim_rules_spec.specs.Sides as sides;
ghost use Rattle.sim_rules.specs.Compared as over;
ghost use Rattle.sim_rules.specs.Compared.{Compared};
ghost use Rattle.sim_rules.specs.Stops.{ArePartsIn, CanMeet, IsMeeting, IsMet, binary_visits};
ghost use Rattle.sim_rules.specs.Stops.{goal_stop, shown_term, source_visits, stop_at};

use crate::marks::goal_arrival;
use attempt::attempt;
use proof_tree::Goal;
use sim_rules_spec::Side;
use sim_rules_terms::{Part, Sight, Which, both, either, implication, relation, truth};
use std::alloc::{AllocError, Global};
use term_bank::{Bank, TermId};
use term_core::Term;

/// Both sides of a Leaf, and what its obligations have in common.
#[derive(Clone, Copy)]
pub(crate) struct Meeting<'a> {
    /// The visits of the binary.
    pub binary: Sight<'a>,
    /// The visits of the source.
    pub source: Sight<'a>,
    /// That memories are equal outside the zone.
    pub memory: &'a Term,
    /// The negation of the premises.
    pub denied: TermId,
}

/// Where both sides may stop.
#[derive(Clone, Copy)]
pub(crate) struct Point<'a> {
    /// The visits of the binary there.
    pub binary: Which,
    /// The visits of the source there.
    pub source: Which,
    /// What holds there beside memory.
    pub lines: &'a [Box<Term>],
}

/// What is shown at a point.
#[derive(Clone, Copy)]
pub(crate) enum Claim {
    /// where the source comes there, the binary does
    ComesToo,
    /// where both come there, the lines hold and memories are equal
    EndsAlike,
}

/// The point of a goal, whose index among the goals this is.
pub(crate) fn goal_point<'a>(goal: &Goal<'a>, index: usize) -> Point<'a>
    ensures { (a d : sides.Way) → stop_at a d result ≡ goal_stop index (goal_of goal.now) }
{
    Point {
        binary: Which::Arrives(goal_arrival(goal, Side::Binary), index),
        source: Which::Arrives(goal_arrival(goal, Side::Source), index),
        lines: goal.relation,
    }
}

// Under the premises: where the source comes to the point, the binary does.
fn comes_too(
    alloc: Global,
    bank: &mut Bank,
    meeting: &Meeting<'_>,
    point: &Point<'_>,
) -> Result<TermId, AllocError>
    requires { CanMeet bank.old meeting.now }
    ensures tree { (t : tree.Term) (c : Compared) (a d : sides.Way)
        → IsMeeting bank.old t c a d meeting.now → IsAt bank.new result (tree.or_term t
        (over.comes_too c a d (binary_visits meeting.now) (source_visits meeting.now)
        (stop_at a d point.now))) }
    ensures extends { Extends bank.old bank.new }
{
    let binary = attempt!(meeting.binary.condition(alloc, point.binary, bank));
    let source = attempt!(meeting.source.condition(alloc, point.source, bank));
    let too = attempt!(implication(bank, source, binary));
    either(bank, meeting.denied, too)
}

// What holds at a point; true where a side has no visit there.
fn related_if(
    bank: &mut Bank,
    memory: &Term,
    binary: &Part,
    source: &Part,
    lines: &[Box<Term>],
) -> Result<TermId, AllocError>
    requires { ArePartsIn (length bank.old) binary.now source.now }
    ensures tree { (c : Compared) (a d : sides.Way) (v w : List Visit) (s : rules.Stop)
        → IsMet bank.old c a d v w s (term_of memory.now) (terms_of lines.now) binary.now source.now
        → IsAt bank.new result (over.related_if c a d v w s) }
    ensures within { IsFound bank.new result }
    ensures extends { Extends bank.old bank.new }
    ensures longer { length bank.old ≤ length bank.new }
{
    if binary.any && source.any {
        relation(bank, &binary.terms, &source.terms, lines, memory)
    } else {
        truth(bank, true)
    }
}

// Under the premises: where both parts come to a point, what holds there.
fn alike(
    bank: &mut Bank,
    meeting: &Meeting<'_>,
    binary: &Part,
    source: &Part,
    lines: &[Box<Term>],
) -> Result<TermId, AllocError>
    requires denied { meeting.now.denied < length bank.old }
    requires parts { ArePartsIn (length bank.old) binary.now source.now }
    ensures tree { (t : tree.Term) (c : Compared) (a d : sides.Way) (v w : List Visit)
        (s : rules.Stop) → Holds bank.old meeting.now.denied t
        → IsMet bank.old c a d v w s (term_of meeting.now.memory.now) (terms_of lines.now)
        binary.now source.now
        → IsAt bank.new result (tree.or_term t (over.ends_alike c a d v w s)) }
    ensures extends { Extends bank.old bank.new }
{
    let related = attempt!(related_if(bank, meeting.memory, binary, source, lines));
    let there = attempt!(both(bank, binary.condition, source.condition));
    let alike = attempt!(implication(bank, there, related));
    either(bank, meeting.denied, alike)
}

// Under the premises: where both sides come to the point, what holds there.
fn ends_alike(
    alloc: Global,
    bank: &mut Bank,
    meeting: &Meeting<'_>,
    point: &Point<'_>,
) -> Result<TermId, AllocError>
    requires { CanMeet bank.old meeting.now }
    ensures tree { (t : tree.Term) (c : Compared) (a d : sides.Way)
        → IsMeeting bank.old t c a d meeting.now → IsAt bank.new result (tree.or_term t
        (over.ends_alike c a d (binary_visits meeting.now) (source_visits meeting.now)
        (stop_at a d point.now))) }
    ensures extends { Extends bank.old bank.new }
{
    let binary = attempt!(meeting.binary.part(alloc, point.binary, bank));
    let source = attempt!(meeting.source.part(alloc, point.source, bank));
    alike(bank, meeting, &binary, &source, point.lines)
}

/// A claim at a point, under the premises.
pub(crate) fn shown(
    alloc: Global,
    bank: &mut Bank,
    meeting: &Meeting<'_>,
    point: &Point<'_>,
    claim: Claim,
) -> Result<TermId, AllocError>
    requires { CanMeet bank.old meeting.now }
    ensures tree { (t : tree.Term) (c : Compared) (a d : sides.Way)
        → IsMeeting bank.old t c a d meeting.now → IsAt bank.new result
        (shown_term claim t c a d (binary_visits meeting.now) (source_visits meeting.now)
        (stop_at a d point.now)) }
    ensures extends { Extends bank.old bank.new }
{
    match claim {
        Claim::ComesToo => comes_too(alloc, bank, meeting, point),
        Claim::EndsAlike => ends_alike(alloc, bank, meeting, point),
    }
}
