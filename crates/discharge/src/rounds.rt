//! The rounds of a guess.

ghost use Rattle.std.specs.Prelude.{◌≡◌, ◌<◌, false, true, length, map, IfOk, IfSome};
ghost use Rattle.term_core_spec.specs.Value.{Truth, value};
ghost use Rattle.term_core.specs.Values.{value_of};
ghost use Rattle.term_core.specs.Assignment.{assignment_of};
ghost use Rattle.term_bank.specs.Nodes.{tree_at, value_at};

use crate::own::alone;
use crate::values::{follow, scatter};
use attempt::attempt;
use std::alloc::{AllocError, Global};
use term_bank::{Bank, TermId};
use term_core::{Assignment, Value};

/// How many assignments are tried: zeros, and then three times four that begin with other values.
const ROUNDS: u64 = 13;

// Whether a term has the value false.
fn is_false(values: &[Value], id: TermId) -> bool
    requires { id < length values.now }
    ensures { result ≡ true → value_at (map value_of values.now) id ≡ Truth false }
{
    match &values[id] {
        Value::Truth(truth) => !*truth,
        _ => false,
    }
}

// Other values for the variables, after a round.
fn change(
    alloc: Global,
    bank: &Bank,
    values: &[Value],
    round: u64,
    assignment: &mut Assignment,
) -> Result<(), AllocError> {
    if round % 4 == 0 {
        scatter(bank, round, assignment)
    } else {
        follow(alloc, bank, values, round, assignment)
    }
}

// Whether a term is false under the assignment; else the assignment is changed.
fn falsify(
    alloc: Global,
    bank: &Bank,
    form: TermId,
    round: u64,
    assignment: &mut Assignment,
) -> Result<bool, AllocError>
    requires { form < length bank.now }
    ensures { IfOk result (λ found. found ≡ true
        → value (assignment_of assignment.new) (tree_at bank.now form) ≡ Truth false) }
{
    let values = attempt!(bank.eval_all(alloc, &*assignment));
    if is_false(values.as_slice(), form) {
        return Ok(true);
    }
    attempt!(change(alloc, bank, values.as_slice(), round, assignment));
    Ok(false)
}

// An assignment under which a term is false, if one of those that are tried is.
fn guess_in(alloc: Global, bank: &Bank, form: TermId) -> Result<Option<Assignment>, AllocError>
    requires { form < length bank.now }
    ensures { IfOk result (λ found. IfSome found (λ assignment.
        value (assignment_of assignment) (tree_at bank.now form) ≡ Truth false)) }
{
    let mut assignment = Assignment::new(alloc);
    for round in 0..ROUNDS {
        if attempt!(falsify(alloc, bank, form, round, &mut assignment)) {
            return Ok(Some(assignment));
        }
    }
    Ok(None)
}

/// An assignment under which a term is false, if one of those that are tried is. The work is that
/// of evaluating each of its subterms so often, and it holds a value for each of them.
pub fn guess(alloc: Global, bank: &Bank, form: TermId) -> Result<Option<Assignment>, AllocError>
    requires { form < length bank.now }
    ensures { IfOk result (λ found. IfSome found (λ assignment.
        value (assignment_of assignment) (tree_at bank.now form) ≡ Truth false)) }
{
    let mut own = Bank::new(alloc);
    match alone(alloc, bank, form, &mut own) {
        Ok(id) => guess_in(alloc, &own, id),
        Err(error) => Err(error),
    }
}
