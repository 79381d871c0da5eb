// The flat term of a term.

ghost use Rattle.std.specs.Prelude.{◌≡◌, ◌↔◌, ◌<◌, length, Some, IfOk};
ghost use Rattle.term_core_spec.specs.declared.Sort.TheVariants as sort;
ghost use Rattle.term_core_spec.specs.Sort.{sort_of};
ghost use Rattle.term_bank.specs.Nodes.{tree_at, Extends};
ghost use Rattle.mem_terms_spec.specs.Assignments.{LoadsFromVariables, IsWithoutMemory, HasNoBytes};
ghost use Rattle.mem_terms_spec.specs.Assignments.{IsAlwaysTrue};
ghost use Rattle.mem_terms.specs.Ids.{IsFlatOf};

use crate::build::{implied, truth};
use crate::ids::Flat;
use crate::ties::consistent;
use crate::walk::Walk;
use std::alloc::{AllocError, Global};
use term_bank::{Bank, TermId};

// The flat term of a term, in the same bank.
fn flat_of(alloc: Global, bank: &mut Bank, goal: TermId) -> Result<Flat, AllocError>
    requires { goal < length bank.old }
    ensures flat { IfOk result (λ flat. IsFlatOf bank.new flat (tree_at bank.old goal)) }
    ensures extends { Extends bank.old bank.new }
{
    // equal trees have one index from here on
    let _truth = truth(bank)?;
    let mut walk = Walk::new(alloc, bank, goal)?;
    walk.run(bank)?;
    let without = walk.flat_id(goal);
    let loads = walk.into_loads();
    let all = consistent(alloc, bank, &loads)?;
    let term = implied(bank, all, without)?;
    Ok(Flat { term, loads })
}

/// The flat term of a term, in the same bank: each load of a memory variable is a byte of its own.
/// Out of memory, the bank may have some more terms.
pub fn flat(alloc: Global, bank: &mut Bank, goal: TermId) -> Result<Flat, AllocError>
    requires { goal < length bank.old }
    ensures flat { IfOk result (λ flat. IsFlatOf bank.new flat (tree_at bank.old goal)) }

    // The flat term is a truth value without memory, and true under every assignment exactly where
    // the term is.
    ensures sort { IfOk result (λ flat. let t = tree_at bank.old goal in sort_of t ≡ Some sort.Truth
        → LoadsFromVariables t → sort_of (tree_at bank.new flat.term) ≡ Some sort.Truth) }
    ensures memory { IfOk result (λ flat. let t = tree_at bank.old goal in sort_of t
        ≡ Some sort.Truth → LoadsFromVariables t → IsWithoutMemory (tree_at bank.new flat.term)) }
    ensures valid { IfOk result (λ flat. let t = tree_at bank.old goal in sort_of t
        ≡ Some sort.Truth → LoadsFromVariables t → HasNoBytes t
        → IsAlwaysTrue t ↔ IsAlwaysTrue (tree_at bank.new flat.term)) }
    ensures extends { Extends bank.old bank.new }
{
    flat_of(alloc, bank, goal)
}
