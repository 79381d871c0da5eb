//! The obligations of a rule.

ghost use Rattle.std.specs.Prelude.{◌≡◌, ◌<◌, All, IfOk, length};
ghost use Rattle.proof_tree.specs.Frames.{frame_of};
ghost use Rattle.sim_rules.specs.Outcome.{IsCount};
ghost use Rattle.sim_rules.specs.Rules.{rule_of};
ghost use Rattle.sim_rules_terms.specs.Conventions.{IsConventionOf};
ghost use Rattle.sim_rules_terms.specs.Openings.{IsOpening, IsOpeningIn};
ghost use Rattle.sim_rules_spec.specs.Calling.{at_entry, zone_from};
ghost use Rattle.sim_rules_spec.specs.Points as points;
ghost use Rattle.sim_rules_spec.specs.Rules as rules;
ghost use Rattle.sim_rules_spec.specs.Rules.{at_cut};
ghost use Rattle.sim_calls.specs.Cuts.{IsCut};
ghost use Rattle.term_bank.specs.Nodes.{Extends};
ghost use Rattle.cert_check_spec.specs.Verdict as spec;
ghost use Rattle.cert_check_frames.specs.Goals.{AreOpened};
ghost use Rattle.cert_check_frames.specs.Listed.{IsListed};
ghost use Rattle.cert_check_jobs.specs.Cuts.{start_seen};
ghost use Rattle.cert_check_jobs.specs.Extras.{IsBelow, added_at, frame_added, opening_at};
ghost use Rattle.cert_check_jobs.specs.Goals.{AnswersRule};

use crate::extra::Extra;
use crate::frames::{extra_trees, frame_with};
use attempt::{Refusal, attempt};
use cert_check_frames::Listed;
use cert_check_relations::{STACK_POINTER, at_entry, zone_from};
use proof_tree::Frame;
use sim_calls::Cut;
use sim_rules::{Rule, RuleFault, Setup, obligations};
use sim_rules_terms::{Convention, Opening};
use std::alloc::{AllocError, Global};
use term_bank::{Bank, TermId};
use tv_limits::MAX_VISITS;

// The obligations of a rule at a frame, or why it has none.
fn frame_goals(
    alloc: Global,
    frame: &Frame<'_>,
    convention: &Convention<'_>,
    opening: Opening<'_>,
    rule: Rule<'_>,
    bank: &mut Bank,
) -> Result<Vec<TermId>, Refusal<RuleFault>>
    requires { IsOpeningIn (length bank.old) opening }
    ensures goals { (f : spec.Listed) (o : rules.Opening)
        → IsConventionOf convention.now f.convention → IsOpening bank.old o opening.entry
        → AnswersRule f o (frame_of frame.now) (rule_of rule.entry) bank.new result }
    ensures within { IfOk result (λ goals. All (λ goal. goal < length bank.new) goals.items) }
    ensures count { IfOk result (λ goals. IsCount (rule_of rule.entry) (length goals.items)) }
    ensures extends { Extends bank.old bank.new }
{
    let setup = Setup {
        frame: &*frame,
        convention: &*convention,
        opening: Opening {
            binary: &*opening.binary,
            source: &*opening.source,
        },
        maximum: MAX_VISITS,
    };
    obligations(alloc, &setup, rule, bank)
}

// The terms of both sides' variables where a frame of a function starts at a cut.
fn cut_terms(alloc: Global, function: &Listed<'_>, bank: &mut Bank) -> Result<Cut, AllocError>
    ensures cut { (c : points.Convention) → c.zone_from ≡ zone_from function.now.stack
        → c.zone_to ≡ at_entry 2 → IfOk result (IsCut bank.new c) }
    ensures extends { Extends bank.old bank.new }
{
    let from = attempt!(zone_from(alloc, function.stack));
    let to = attempt!(at_entry(alloc, STACK_POINTER));
    Cut::new(alloc, bank, &from, &to)
}

// The obligations of a rule at a frame that starts at a cut, or why it has none.
fn cut_goals(
    alloc: Global,
    function: &Listed<'_>,
    frame: &Frame<'_>,
    rule: Rule<'_>,
    bank: &mut Bank,
) -> Result<Vec<TermId>, Refusal<RuleFault>>
    ensures goals { (f : spec.Listed) → IsListed function.now f → AnswersRule f
        (at_cut f.convention) (frame_of frame.now) (rule_of rule.entry) bank.new result }
    ensures within { IfOk result (λ goals. All (λ goal. goal < length bank.new) goals.items) }
    ensures count { IfOk result (λ goals. IsCount (rule_of rule.entry) (length goals.items)) }
    ensures extends { Extends bank.old bank.new }
{
    let cut = attempt!(cut_terms(alloc, function, bank), Refusal::NoMemory);
    let opening = Opening {
        binary: &cut.binary,
        source: &cut.source,
    };
    frame_goals(alloc, frame, function.convention, opening, rule, bank)
}

/// The obligations of a rule at a frame of a function, which has some more than that at the entry,
/// or why it has none. Out of memory, the bank may have some more terms.
pub fn rule_goals(
    alloc: Global,
    function: &Listed<'_>,
    opening: Opening<'_>,
    extra: &Extra,
    rule: Rule<'_>,
    bank: &mut Bank,
) -> Result<Vec<TermId>, Refusal<RuleFault>>
    requires opened { AreOpened function.now bank.old opening }
    requires below { IsBelow (length bank.old) extra.now }
    ensures goals { (f : spec.Listed) → IsListed function.now f
        → AnswersRule f (opening_at f (start_seen extra.now.cuts.value.start))
        (frame_added f.frame (added_at bank.old extra.now)) (rule_of rule.entry) bank.new result }
    ensures within { IfOk result (λ goals. All (λ goal. goal < length bank.new) goals.items) }
    ensures count { IfOk result (λ goals. IsCount (rule_of rule.entry) (length goals.items)) }
    ensures extends { Extends bank.old bank.new }
{
    let trees = attempt!(extra_trees(alloc, &*bank, extra), Refusal::NoMemory);
    let frame = attempt!(
        frame_with(alloc, &*function, extra, &trees),
        Refusal::NoMemory
    );
    match &extra.cuts.start {
        None => frame_goals(alloc, &frame, function.convention, opening, rule, bank),
        Some(_) => cut_goals(alloc, function, &frame, rule, bank),
    }
}
