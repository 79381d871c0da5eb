// How many distinct subterms a term of a bank has.

ghost use Rattle.std.specs.Prelude.{◌≡◌, ◌<◌, ◌≤◌, [], ◌∷◌, length, IfOk, OnOk};
ghost use Rattle.term_core_spec.specs.Subterms.{subterm_count, up_to};
ghost use Rattle.term_bank.specs.Nodes.{tree_at};
ghost use Rattle.term_bank.specs.Subterms.{with_ids, arguments_of};

use crate::bank::{Bank, TermId};
use crate::node::TermNode;
use attempt::attempt;
use indexmap::IndexSet;
use std::alloc::AllocError;

// Adds two ids to those that were found.
fn add_two(found: &mut IndexSet<TermId>, a: TermId, b: TermId) -> Result<(), AllocError>
    ensures { OnOk result (found.new.keys ≡ with_ids found.old.keys (a ∷ b ∷ [])) }
{
    found.insert(a)?;
    found.insert(b)?;
    Ok(())
}

// Adds four ids to those that were found.
fn add_four(
    found: &mut IndexSet<TermId>,
    a: TermId,
    b: TermId,
    c: TermId,
    d: TermId,
) -> Result<(), AllocError>
    ensures { OnOk result (found.new.keys ≡ with_ids found.old.keys (a ∷ b ∷ c ∷ d ∷ [])) }
{
    attempt!(add_two(found, a, b));
    add_two(found, c, d)
}

// Adds the arguments of a node to the ids that were found.
fn add_arguments(found: &mut IndexSet<TermId>, node: TermNode) -> Result<(), AllocError>
    ensures { OnOk result (found.new.keys ≡ with_ids found.old.keys (arguments_of node)) }
{
    match node {
        TermNode::Leaf(_) => Ok(()),
        TermNode::Unary(_, a) => {
            found.insert(a)?;
            Ok(())
        }
        TermNode::Binary(_, a, b) => add_two(found, a, b),
        TermNode::Ternary(_, a, b, c) => {
            attempt!(add_two(found, a, b));
            found.insert(c)?;
            Ok(())
        }
        TermNode::Quaternary(_, a, b, c, d) => add_four(found, a, b, c, d),
        TermNode::Octonary(a, b, c, d, e, f, g, h) => {
            attempt!(add_four(found, a, b, c, d));
            add_four(found, e, f, g, h)
        }
    }
}

/// The number of distinct subterms of a term, where it is at most the maximum. Nothing is found
/// yet.
pub fn count_found(
    bank: &Bank,
    id: TermId,
    maximum: usize,
    found: &mut IndexSet<TermId>,
) -> Result<Option<usize>, AllocError>
    requires within { id < length bank.now }
    requires empty { found.old.keys ≡ [] }
    ensures { IfOk result (λ count. count ≡ up_to maximum
        (subterm_count (tree_at bank.now id))) }
{
    bank.are_distinct();
    found.insert(id)?;
    for i in 0..maximum {
        let count = found.len();
        if i == count {
            return Ok(Some(i));
        }
        add_arguments(found, bank.node(found[i]))?;
        let more = found.len();
        if maximum < more {
            return Ok(None);
        }
    }
    let last = found.len();
    if maximum < last {
        return Ok(None);
    }
    Ok(Some(last))
}
