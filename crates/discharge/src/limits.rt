//! The limits on a goal.

ghost use Rattle.std.specs.Prelude.{◌≡◌, ◌<◌, nat_le, length, IfOk};
ghost use Rattle.term_core_spec.specs.Subterms.{subterm_count};
ghost use Rattle.term_bank.specs.Nodes.{tree_at};

use std::alloc::{AllocError, Global};
use term_bank::{Bank, TermId};
use tv_limits::MAX_TERMS;

/// Whether a goal has at most as many distinct subterms as the maximum.
pub fn is_within(alloc: Global, bank: &Bank, goal: TermId) -> Result<bool, AllocError>
    requires { goal < length bank.now }
    ensures { IfOk result (λ small. small
        ≡ nat_le (subterm_count (tree_at bank.now goal)) MAX_TERMS) }
{
    match bank.count_subterms(alloc, goal, MAX_TERMS) {
        Ok(Some(_)) => Ok(true),
        Ok(None) => Ok(false),
        Err(error) => Err(error),
    }
}
