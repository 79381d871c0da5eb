//! What a Leaf leaves to show at its stops.

ghost use Rattle.std.specs.Prelude.{◌≡◌, ◌∷◌, [], OnOk, map};
ghost use Rattle.term_core_spec.specs.Term as tree;
ghost use Rattle.term_bank.specs.Nodes.{Extends};
ghost use Rattle.proof_tree.specs.Frames.{frame_of, goal_of};
ghost use Rattle.sim_rules_spec.specs.Rules as rules;
ghost use Rattle.sim_rules_spec.specs.Sides as sides;
ghost use Rattle.sim_rules.specs.Compared as over;
ghost use Rattle.sim_rules.specs.Compared.{AreCompared, Compared};
ghost use Rattle.sim_rules.specs.Held.{HasAdded};
ghost use Rattle.sim_rules.specs.Stops.{CanMeet, IsMeeting, binary_visits, shown_terms};
ghost use Rattle.sim_rules.specs.Stops.{source_visits, stop_at};
ghost use Rattle.sim_rules.specs.Terms.{stop_terms};

use crate::point::{Claim, Meeting, Point, goal_point, shown};
use crate::setup::Setup;
use attempt::attempt;
use proof_tree::Goal;
use sim_rules_terms::Which;
use std::alloc::{AllocError, Global};
use term_bank::{Bank, TermId};

// Adds a claim at a point.
fn add_shown(
    alloc: Global,
    bank: &mut Bank,
    meeting: &Meeting<'_>,
    point: &Point<'_>,
    claim: Claim,
    ids: &mut Vec<TermId>,
) -> Result<(), AllocError>
    requires { CanMeet bank.old meeting.now }
    ensures added { (t : tree.Term) (c : Compared) (a d : sides.Way)
        → IsMeeting bank.old t c a d meeting.now → OnOk result (HasAdded bank.old bank.new
        (shown_terms claim t c a d (binary_visits meeting.now) (source_visits meeting.now)
        (stop_at a d point.now ∷ [])) ids.old.items ids.new.items) }
    ensures extends { Extends bank.old bank.new }
{
    let id = attempt!(shown(alloc, bank, meeting, point, claim));
    attempt!(ids.push(id), AllocError);
    Ok(())
}

// Adds a claim at each goal.
fn add_goals(
    alloc: Global,
    bank: &mut Bank,
    meeting: &Meeting<'_>,
    goals: &[Goal<'_>],
    claim: Claim,
    ids: &mut Vec<TermId>,
) -> Result<(), AllocError>
    requires { CanMeet bank.old meeting.now }
    ensures added { (t : tree.Term) (c : Compared) (a d : sides.Way)
        → IsMeeting bank.old t c a d meeting.now → OnOk result (HasAdded bank.old bank.new
        (shown_terms claim t c a d (binary_visits meeting.now) (source_visits meeting.now)
        (rules.goal_stops 0 (map goal_of goals.now))) ids.old.items ids.new.items) }
    ensures extends { Extends bank.old bank.new }
{
    for index in 0..goals.len() {
        let point = goal_point(&goals[index], index);
        attempt!(add_shown(alloc, bank, meeting, &point, claim, ids));
    }
    Ok(())
}

// Adds a claim at each stop, return first and then the goals.
fn add_stops(
    alloc: Global,
    bank: &mut Bank,
    setup: &Setup<'_>,
    meeting: &Meeting<'_>,
    claim: Claim,
    ids: &mut Vec<TermId>,
) -> Result<(), AllocError>
    requires { CanMeet bank.old meeting.now }
    ensures added { (t : tree.Term) (c : Compared) (a d : sides.Way)
        → IsMeeting bank.old t c a d meeting.now → AreCompared setup.now.convention.now c
        → OnOk result (HasAdded bank.old bank.new
        (shown_terms claim t c a d (binary_visits meeting.now) (source_visits meeting.now)
        (over.stops c (frame_of setup.now.frame.now))) ids.old.items ids.new.items) }
    ensures extends { Extends bank.old bank.new }
{
    let point = Point {
        binary: Which::Returns,
        source: Which::Returns,
        lines: setup.convention.returns,
    };
    attempt!(add_shown(alloc, bank, meeting, &point, claim, ids));
    add_goals(
        alloc,
        bank,
        meeting,
        setup.frame.goals.as_slice(),
        claim,
        ids,
    )
}

/// Adds what is left to show at the stops: first at each that the binary comes there too, then at
/// each what holds there.
pub(crate) fn add_met(
    alloc: Global,
    bank: &mut Bank,
    setup: &Setup<'_>,
    meeting: &Meeting<'_>,
    ids: &mut Vec<TermId>,
) -> Result<(), AllocError>
    requires { CanMeet bank.old meeting.now }
    ensures added { (t : tree.Term) (c : Compared) (a d : sides.Way)
        → IsMeeting bank.old t c a d meeting.now → AreCompared setup.now.convention.now c
        → OnOk result (HasAdded bank.old bank.new
        (stop_terms t c a d (binary_visits meeting.now) (source_visits meeting.now)
        (over.stops c (frame_of setup.now.frame.now))) ids.old.items ids.new.items) }
    ensures extends { Extends bank.old bank.new }
{
    attempt!(add_stops(alloc, bank, setup, meeting, Claim::ComesToo, ids));
    add_stops(alloc, bank, setup, meeting, Claim::EndsAlike, ids)
}
