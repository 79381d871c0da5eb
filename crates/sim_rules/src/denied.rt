//! What may be used, negated, and what is left to show first under it.

ghost use Rattle.std.specs.Prelude.{◌<◌, ◌≤◌, length, OnOk};
ghost use Rattle.term_core_spec.specs.Term as tree;
ghost use Rattle.term_bank.specs.Nodes.{Extends, Holds};
ghost use Rattle.term_substitution.specs.States.{IsAt, IsFound};
ghost use Rattle.proof_tree.specs.Frames.{frame_of};
ghost use Rattle.sim_rules_spec.specs.Rules as rules;
ghost use Rattle.sim_rules_spec.specs.Sides as sides;
ghost use Rattle.sim_rules_terms.specs.Openings.{IsOpening};
ghost use Rattle.sim_rules_terms.specs.Seen.{IsSeen};
ghost use Rattle.sim_rules_terms.specs.Ways.{IsSight};
ghost use Rattle.sim_rules_terms.specs.Which.{test_of};
ghost use Rattle.sim_rules.specs.Held.{HasAdded};
ghost use Rattle.sim_rules.specs.Terms.{conjunction, denial, never_if, premises_if};
ghost use Rattle.sim_rules.specs.Walks.{AreSeen, CanSee};

use crate::sides::Both;
use attempt::attempt;
use sim_rules_terms::{Sight, Which, bounded_premises, either, negation, premises};
use std::alloc::{AllocError, Global};
use term_bank::{Bank, TermId};

// What a rule may use of a frame, with that the source doesn't fail or without.
fn given(
    alloc: Global,
    bank: &mut Bank,
    both: &Both<'_>,
    is_source_safe: bool,
) -> Result<TermId, AllocError>
    requires { CanSee bank.old both.now }
    ensures tree { (o : rules.Opening) (a d : rules.Seen)
        → IsOpening bank.old o both.now.setup.now.opening → AreSeen bank.old a d both.now
        → IsAt bank.new result (conjunction
        (premises_if is_source_safe o (frame_of both.now.setup.now.frame.now) a d)) }
    ensures within { IsFound bank.new result }
    ensures extends { Extends bank.old bank.new }
    ensures longer { length bank.old ≤ length bank.new }
{
    let Both {
        setup,
        binary,
        source,
    } = *both;
    let start = &setup.frame.start;
    if is_source_safe {
        premises(alloc, bank, setup.opening, start, binary, source)
    } else {
        bounded_premises(alloc, bank, setup.opening, start, binary, source)
    }
}

/// The negation of what a rule may use of a frame.
pub(crate) fn denied(
    alloc: Global,
    bank: &mut Bank,
    both: &Both<'_>,
    is_source_safe: bool,
) -> Result<TermId, AllocError>
    requires { CanSee bank.old both.now }
    ensures tree { (o : rules.Opening) (a d : rules.Seen)
        → IsOpening bank.old o both.now.setup.now.opening → AreSeen bank.old a d both.now
        → IsAt bank.new result (denial
        (premises_if is_source_safe o (frame_of both.now.setup.now.frame.now) a d)) }
    ensures within { IsFound bank.new result }
    ensures extends { Extends bank.old bank.new }
    ensures longer { length bank.old ≤ length bank.new }
{
    let given = attempt!(given(alloc, bank, both, is_source_safe));
    negation(bank, given)
}

// Under what may be used, a run comes to none of the visits asked for.
fn never(
    alloc: Global,
    bank: &mut Bank,
    denied: TermId,
    sight: &Sight<'_>,
    which: Which,
) -> Result<TermId, AllocError>
    requires denied { denied < length bank.old }
    requires sight { (w : sides.Way) × IsSight bank.old w sight.now }
    ensures tree { (w : sides.Way) (t : tree.Term) → IsSight bank.old w sight.now
        → Holds bank.old denied t → IsAt bank.new result (tree.or_term t (tree.not_term
        (sides.condition_where w sight.now.visits.now.visits (test_of w.walk.stops which)))) }
    ensures extends { Extends bank.old bank.new }
    ensures longer { length bank.old ≤ length bank.new }
{
    let comes = attempt!(sight.condition(alloc, which, bank));
    let stays_away = attempt!(negation(bank, comes));
    either(bank, denied, stays_away)
}

/// Adds that, where the side has a list of visits.
pub(crate) fn add_never(
    alloc: Global,
    bank: &mut Bank,
    denied: TermId,
    sight: Option<Sight<'_>>,
    which: Which,
    ids: &mut Vec<TermId>,
) -> Result<(), AllocError>
    requires denied { denied < length bank.old }
    requires sight { (s : rules.Seen) × IsSeen bank.old s sight }
    ensures added { (s : rules.Seen) (t : tree.Term) → IsSeen bank.old s sight.entry
        → Holds bank.old denied t → OnOk result (HasAdded bank.old bank.new
        (never_if t s (test_of s.way.walk.stops which)) ids.old.items ids.new.items) }
    ensures extends { Extends bank.old bank.new }
    ensures longer { length bank.old ≤ length bank.new }
{
    match sight {
        Some(sight) => {
            let id = attempt!(never(alloc, bank, denied, &sight, which));
            attempt!(ids.push(id), AllocError);
            Ok(())
        }
        None => Ok(()),
    }
}
