//! The obligations of a Leaf.

ghost use Rattle.std.specs.Prelude.{◌<◌, All, IfErr, IfOk, length};
ghost use Rattle.proof_tree.specs.Frames.{frame_of};
ghost use Rattle.sim_rules_terms.specs.Conventions.{IsConventionOf};
ghost use Rattle.sim_rules_terms.specs.Openings.{IsOpening, IsOpeningIn};
ghost use Rattle.term_bank.specs.Nodes.{Extends};
ghost use Rattle.cert_check_spec.specs.Verdict as spec;
ghost use Rattle.cert_check_frames.specs.Jobs.{AreBelow, frame_with, premises_at};
ghost use Rattle.cert_check_frames.specs.Listed.{IsListed};
ghost use Rattle.cert_check_frames.specs.Goals.{AnswersGoals, AreOpened, IsLeafFault};

use crate::{Branch, Listed, frame, tests};
use attempt::{Refusal, attempt};
use proof_tree::Frame;
use sim_rules::{Rule, RuleFault, Setup, obligations};
use sim_rules_terms::{Convention, Opening};
use std::alloc::Global;
use term_bank::{Bank, TermId};
use tv_limits::MAX_VISITS;

// The obligations of a Leaf at a frame, or why it has none.
fn frame_goals(
    alloc: Global,
    frame: &Frame<'_>,
    convention: &Convention<'_>,
    opening: Opening<'_>,
    bank: &mut Bank,
) -> Result<Vec<TermId>, Refusal<RuleFault>>
    requires { IsOpeningIn (length bank.old) opening }
    ensures goals { (f : spec.Listed) → IsConventionOf convention.now f.convention
        → IsOpening bank.old f.opening opening.entry
        → AnswersGoals f (frame_of frame.now) bank.new result }
    ensures within { IfOk result (λ goals. All (λ goal. goal < length bank.new) goals.items) }
    ensures fault { IfErr result IsLeafFault }
    ensures extends { Extends bank.old bank.new }
{
    let setup = Setup {
        frame: &*frame,
        convention: &*convention,
        opening: Opening {
            binary: &*opening.binary,
            source: &*opening.source,
        },
        maximum: MAX_VISITS,
    };
    obligations(alloc, &setup, Rule::Leaf, bank)
}

/// The obligations of a Leaf at the entry of a function, where the frame has these further
/// premises, or why it has none. Out of memory, the bank may have some more terms.
pub fn leaf_goals(
    alloc: Global,
    function: &Listed<'_>,
    opening: Opening<'_>,
    premises: &[Branch],
    bank: &mut Bank,
) -> Result<Vec<TermId>, Refusal<RuleFault>>
    requires opened { AreOpened function.now bank.old opening }
    requires below { AreBelow (length bank.old) premises.now }
    ensures goals { (f : spec.Listed) → IsListed function.now f
        → AnswersGoals f (frame_with f.frame (premises_at bank.old premises.now)) bank.new result }
    ensures within { IfOk result (λ goals. All (λ goal. goal < length bank.new) goals.items) }
    ensures fault { IfErr result IsLeafFault }
    ensures extends { Extends bank.old bank.new }
{
    let tests = attempt!(tests(alloc, bank, premises), Refusal::NoMemory);
    let frame = attempt!(
        frame(alloc, &*function, premises, tests.as_slice()),
        Refusal::NoMemory
    );
    frame_goals(alloc, &frame, function.convention, opening, bank)
}
