//! Whether a call can meet the premises of obligations.

ghost use Rattle.std.specs.Prelude.{◌<◌, All, length};
ghost use Rattle.term_bank.specs.Nodes.{Extends};

use attempt::attempt;
use discharge::is_true;
use memory_spec::Run;
use std::alloc::{AllocError, Global};
use term_bank::{Bank, TermId, TermNode};
use term_core_spec::BinaryOperator;
use tv_base::{Note, Notes};

// Whether the premises of an obligation have the normal form false: it begins with their negation.
fn are_false(alloc: Global, bank: &mut Bank, goal: TermId, runs: &[Run]) -> Result<bool, AllocError>
    requires { goal < length bank.old }
    ensures { Extends bank.old bank.new }
{
    match bank.node(goal) {
        TermNode::Binary(BinaryOperator::Or, denied, _) => is_true(alloc, bank, denied, runs),
        _ => Ok(false),
    }
}

/// Notes it where no call meets the premises of the obligations of a Leaf, which have the same.
pub(crate) fn note_premises<N: Notes>(
    alloc: Global,
    bank: &mut Bank,
    goals: &[TermId],
    runs: &[Run],
    notes: &mut N,
) -> Result<(), AllocError>
    requires { All (λ goal. goal < length bank.old) goals.now }
    ensures { Extends bank.old bank.new }
{
    if goals.is_empty() {
        return Ok(());
    }
    if attempt!(are_false(alloc, bank, goals[0], runs)) {
        notes.note(&Note::Vacuous);
    }
    Ok(())
}
