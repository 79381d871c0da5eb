//! Goals whose normal form is true.

ghost use Rattle.std.specs.Prelude.{◌≡◌, ◌<◌, length, true, IfOk};
ghost use Rattle.memory_spec.specs.Viewed.{runs_of};
ghost use Rattle.term_norm_spec.specs.Normal as spec;
ghost use Rattle.term_bank.specs.Nodes.{Extends, tree_at};
ghost use Rattle.discharge_spec.specs.Closing.{is_truth as is_truth_term};

use crate::limits::is_within;
use memory_spec::Run;
use std::alloc::{AllocError, Global};
use term_bank::{Bank, TermId, TermNode};
use term_core_spec::Atom;
use term_norm::normal;

/// Whether a term is the truth value true.
pub fn is_truth(bank: &Bank, form: TermId) -> bool
    requires { form < length bank.now }
    ensures { result ≡ is_truth_term (tree_at bank.now form) }
{
    match bank.node(form) {
        TermNode::Leaf(Atom::Truth(truth)) => truth,
        _ => false,
    }
}

/// Whether a goal has the normal form true. Of a goal that is too large it is not known.
pub fn is_true(
    alloc: Global,
    bank: &mut Bank,
    goal: TermId,
    runs: &[Run],
) -> Result<bool, AllocError>
    requires { goal < length bank.old }
    ensures true_form { IfOk result (λ found. found ≡ true
        → is_truth_term (spec.normal (runs_of runs.now) (tree_at bank.old goal)) ≡ true) }
    ensures extends { Extends bank.old bank.new }
{
    match is_within(alloc, bank, goal) {
        Ok(true) => {}
        Ok(false) => return Ok(false),
        Err(error) => return Err(error),
    }
    match normal(alloc, bank, goal, runs) {
        Ok(form) => Ok(is_truth(bank, form)),
        Err(error) => Err(error),
    }
}
