// The distinct subterms of a term in post-order.

ghost use Rattle.std.specs.Prelude.{◌≡◌, ◌<◌, ℕ, List, [], false, length, IfOk, OnOk, OnErr};
ghost use Rattle.term_bank.specs.Nodes.{tree_at};
ghost use Rattle.term_bank.specs.Subterms.{arguments_of};
ghost use Rattle.term_sorts.specs.Order as spec;

use indexmap::IndexSet;
use std::alloc::{AllocError, Global};
use term_bank::{Bank, TermId, TermNode};

// The first of some ids that wasn't found.
#[tactic(auto, unfolding(crate::specs::Order::first_missing))]
fn first_missing(found: &IndexSet<TermId>, ids: &[TermId]) -> Option<TermId>
    ensures { result ≡ spec.first_missing found.now.keys ids.now }
{
    match ids.split_first() {
        None => None,
        Some((id, rest)) => {
            if found.contains(id) {
                first_missing(found, rest)
            } else {
                Some(*id)
            }
        }
    }
}

// The first argument of a node that wasn't found.
fn missing(found: &IndexSet<TermId>, node: TermNode) -> Option<TermId>
    ensures { result ≡ spec.first_missing found.now.keys (arguments_of node) }
{
    match node {
        TermNode::Leaf(_) => first_missing(found, &[]),
        TermNode::Unary(_, a) => first_missing(found, &[a]),
        TermNode::Binary(_, a, b) => first_missing(found, &[a, b]),
        TermNode::Ternary(_, a, b, c) => first_missing(found, &[a, b, c]),
        TermNode::Quaternary(_, a, b, c, d) => first_missing(found, &[a, b, c, d]),
        TermNode::Octonary(a, b, c, d, e, f, g, h) => {
            first_missing(found, &[a, b, c, d, e, f, g, h])
        }
    }
}

// One step of the walk: the term at hand waits for its first argument that wasn't found, which is
// next; or it is added, and the last that waits is next, if one does.
fn step(
    bank: &Bank,
    found: &mut IndexSet<TermId>,
    waiting: &mut Vec<TermId>,
    at: TermId,
) -> Result<Option<TermId>, AllocError>
    requires { at < length bank.now }
    ensures step { IfOk result (λ next. (start : ℕ) (old : List ℕ) → start < length bank.now
        → spec.IsWalk bank.now start old found.old.keys waiting.old.items at
        → spec.IsStep bank.now start old found.old.keys found.new.keys waiting.new.items at next) }
    ensures err { OnErr result (found.new.keys ≡ found.old.keys) }
{
    bank.are_distinct();
    match missing(found, bank.node(at)) {
        Some(argument) => {
            waiting.push(at)?;
            Ok(Some(argument))
        }
        None => {
            found.insert(at)?;
            Ok(waiting.pop())
        }
    }
}

// Adds the subterms of a term that wasn't found; none waits yet.
fn add_missing(
    bank: &Bank,
    id: TermId,
    found: &mut IndexSet<TermId>,
    waiting: &mut Vec<TermId>,
) -> Result<(), AllocError>
    requires within { id < length bank.now }
    requires order { spec.IsOrder bank.now found.old.keys }
    requires none { waiting.old.items ≡ [] }
    requires new { spec.is_among found.old.keys id ≡ false }
    ensures adds { OnOk result (spec.AddsSubterms bank.now id found.old.keys found.new.keys) }
    ensures order { spec.IsOrder bank.now found.new.keys }
    ensures begins { spec.Begins found.old.keys found.new.keys }
{
    let mut at = id;
    'steps: while let Some(next) = step(bank, found, waiting, at)? {
        at = next;
    }
    Ok(())
}

/// Adds the distinct subterms of a term in post-order, each that wasn't found yet. Out of memory,
/// some of them are added.
pub fn add_subterms(
    alloc: Global,
    bank: &Bank,
    id: TermId,
    found: &mut IndexSet<TermId>,
) -> Result<(), AllocError>
    requires within { id < length bank.now }
    requires order { spec.IsOrder bank.now found.old.keys }
    ensures adds { OnOk result (spec.AddsSubterms bank.now id found.old.keys found.new.keys) }
    ensures order { spec.IsOrder bank.now found.new.keys }
    ensures begins { spec.Begins found.old.keys found.new.keys }
{
    bank.are_distinct();
    if found.contains(&id) {
        return Ok(());
    }
    let mut waiting = Vec::new(alloc);
    add_missing(bank, id, found, &mut waiting)
}
