//! Bindings of one graph in another.

ghost use Rattle.std.specs.Prelude.{◌≡◌, length, map, OnOk, IfOk, []};
ghost use Rattle.graph_core.specs.Shared.{AreSharedBindings};
ghost use Rattle.graph_inline.specs.Moved.{moved_shared};

use crate::naming::name;
use attempt::attempt;
use graph_core::SharedBinding;
use std::alloc::{AllocError, Global};
use term_bank::TermId;

fn add_bindings(
    bindings: &[SharedBinding],
    table: &[TermId],
    variables: Option<usize>,
    found: &mut Vec<SharedBinding>,
) -> Result<(), AllocError>
    requires empty { found.old.items ≡ [] }
    requires within { AreSharedBindings (length table.now) bindings.now }
    ensures { OnOk result (found.new.items
        ≡ map (moved_shared variables table.now) bindings.now) }
{
    for binding in bindings {
        found.push(SharedBinding {
            variable: name(variables, binding.variable),
            term: table[binding.term],
        })?;
    }
    Ok(())
}

/// Bindings with the terms of a table, whose variables belong to the instance, if there is one.
pub(crate) fn move_bindings(
    alloc: Global,
    bindings: &[SharedBinding],
    table: &[TermId],
    variables: Option<usize>,
) -> Result<Vec<SharedBinding>, AllocError>
    requires { AreSharedBindings (length table.now) bindings.now }
    ensures { IfOk result (λ found. found.items
        ≡ map (moved_shared variables table.now) bindings.now) }
{
    let mut found = Vec::new(alloc);
    attempt!(add_bindings(bindings, table, variables, &mut found));
    Ok(found)
}
