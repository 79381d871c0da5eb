//! A term in a bank of its own, where evaluating the bank evaluates its subterms alone.

ghost use Rattle.std.specs.Prelude.{◌<◌, length};
ghost use Rattle.term_bank.specs.Nodes.{tree_at};
ghost use Rattle.term_substitution.specs.States.{IsAt, IsFound};

use std::alloc::{AllocError, Global};
use std::collections::HashMap;
use term_bank::{Bank, TermId};
use term_core_spec::Variable;
use term_substitution::transfer_one;

/// The index of a term of `bank` in `own`.
pub(crate) fn alone(
    alloc: Global,
    bank: &Bank,
    id: TermId,
    own: &mut Bank,
) -> Result<TermId, AllocError>
    requires { id < length bank.now }
    ensures tree { IsAt own.new result (tree_at bank.now id) }
    ensures within { IsFound own.new result }
{
    let none: HashMap<Variable, TermId> = HashMap::new(alloc);
    transfer_one(alloc, own, bank, id, &none)
}
