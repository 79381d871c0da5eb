//! Goals that are refuted without a search.

ghost use Rattle.std.specs.Prelude.{◌≡◌, ◌<◌, false, length, IfOk, IfSome};
ghost use Rattle.memory_spec.specs.Viewed.{runs_of};
ghost use Rattle.term_core_spec.specs.Value.{Truth, value};
ghost use Rattle.term_core.specs.Assignment.{assignment_of};
ghost use Rattle.term_bank.specs.Nodes.{Extends, tree_at};
ghost use Rattle.discharge.specs.Answers.{RefutesGoal};

use crate::guess;
use crate::limits::is_within;
use crate::truth::is_truth;
use memory_spec::Run;
use std::alloc::{AllocError, Global};
use term_bank::{Bank, TermId};
use term_core::Assignment;
use term_norm::normal;

// An assignment under which a term in normal form is false, if one of a few that are tried is.
fn guess_form(alloc: Global, bank: &Bank, form: TermId) -> Result<Option<Assignment>, AllocError>
    requires { form < length bank.now }
    ensures { IfOk result (λ found. IfSome found (λ assignment.
        value (assignment_of assignment) (tree_at bank.now form) ≡ Truth false)) }
{
    if is_truth(bank, form) {
        return Ok(None);
    }
    guess(alloc, bank, form)
}

/// An assignment under which the normal form of the goal is false, if one of a few that are tried
/// is. Of a goal that is too large none is tried.
pub fn refute(
    alloc: Global,
    bank: &mut Bank,
    goal: TermId,
    runs: &[Run],
) -> Result<Option<Assignment>, AllocError>
    requires { goal < length bank.old }
    ensures refutes { IfOk result (λ found. IfSome found
        (RefutesGoal (runs_of runs.now) (tree_at bank.old goal))) }
    ensures extends { Extends bank.old bank.new }
{
    match is_within(alloc, bank, goal) {
        Ok(true) => {}
        Ok(false) => return Ok(None),
        Err(error) => return Err(error),
    }
    match normal(alloc, bank, goal, runs) {
        Ok(form) => guess_form(alloc, bank, form),
        Err(error) => Err(error),
    }
}
