//! Bindings of trees as bindings over the terms of a bank.

ghost use Rattle.std.specs.Prelude.{◌≡◌, [], map, IfOk, OnOk};
ghost use Rattle.term_bank.specs.Nodes.{Extends};
ghost use Rattle.graph_core.specs.Graphs.{binding_of, AreShared};

use crate::graph::Binding;
use crate::shared::SharedBinding;
use attempt::attempt;
use std::alloc::{AllocError, Global};
use term_bank::Bank;
use term_substitution::intern;

/// Adds the bindings over the terms of a bank, to which their terms are added.
fn add_bindings(
    alloc: Global,
    bank: &mut Bank,
    bindings: &[Binding],
    shared: &mut Vec<SharedBinding>,
) -> Result<(), AllocError>
    requires { shared.old.items ≡ [] }
    ensures shared { OnOk result (AreShared bank.new (map binding_of bindings.now)
        shared.new.items) }
    ensures extends { Extends bank.old bank.new }
{
    for binding in bindings {
        let term = intern(alloc, bank, &binding.term)?;
        shared.push(SharedBinding {
            variable: binding.variable,
            term,
        })?;
    }
    Ok(())
}

/// Bindings over the terms of a bank, to which their terms are added. Out of memory, the bank may
/// have some more terms.
pub(crate) fn share(
    alloc: Global,
    bank: &mut Bank,
    bindings: &[Binding],
) -> Result<Vec<SharedBinding>, AllocError>
    ensures shared { IfOk result (λ found. AreShared bank.new (map binding_of bindings.now)
        found.items) }
    ensures extends { Extends bank.old bank.new }
{
    let mut shared = Vec::new(alloc);
    attempt!(add_bindings(alloc, bank, bindings, &mut shared));
    Ok(shared)
}
