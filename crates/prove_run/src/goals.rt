//! The obligations of a bare Leaf at a function's entry.

ghost use Rattle.std.specs.Prelude.{◌<◌, All, IfErr, IfOk, length};
ghost use Rattle.cert_check_spec.specs.Verdict as spec;
ghost use Rattle.cert_check_frames.specs.Listed.{IsListed};
ghost use Rattle.cert_check_frames.specs.Goals.{AnswersGoals, IsLeafFault};

use attempt::{Refusal, attempt};
use cert_check_frames::{Listed, known, leaf_goals};
use sim_rules::RuleFault;
use sim_rules_terms::Opening;
use std::alloc::Global;
use term_bank::{Bank, TermId};

/// The obligations of a bare Leaf at the entry of a function, or why it has none. The terms of the
/// variables at the entry are added to the bank first.
pub fn leaf_obligations(
    alloc: Global,
    function: &Listed<'_>,
    bank: &mut Bank,
) -> Result<Vec<TermId>, Refusal<RuleFault>>
    ensures goals { (f : spec.Listed) → IsListed function.now f
        → AnswersGoals f f.frame bank.new result }
    ensures within { IfOk result (λ goals. All (λ goal. goal < length bank.new) goals.items) }
    ensures fault { IfErr result IsLeafFault }
{
    let binary = attempt!(known(alloc, bank, function.binary_terms), Refusal::NoMemory);
    let source = attempt!(known(alloc, bank, function.source_terms), Refusal::NoMemory);
    let opening = Opening {
        binary: &binary,
        source: &source,
    };
    let none = Vec::new(alloc);
    leaf_goals(alloc, function, opening, none.as_slice(), bank)
}
