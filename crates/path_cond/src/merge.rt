//! Several conditions as one, and the terms of a variable under several conditions as one.

ghost use Rattle.std.specs.Prelude.{◌≡◌, ℕ, ◌<◌, ◌==◌, ◌↔◌, IsTrue, length, map, List, All};
ghost use Rattle.std.specs.List.{list_all};
ghost use Rattle.term_bank.specs.Nodes.{tree_at, Extends};
ghost use Rattle.term_substitution.specs.States.{IsAt};
ghost use Rattle.path_cond.specs.Merged.{AreIds, any_term, chosen_term, merged_term};

use std::alloc::AllocError;
use term_bank::{Bank, TermId, TermNode};
use term_core_spec::{Atom, BinaryOperator, TernaryOperator};

/// `or` of conditions, nested to the left; of none, `false`.
pub fn any_of(bank: &mut Bank, conditions: &[TermId]) -> Result<TermId, AllocError>
    requires { AreIds (length bank.old) conditions.now }
    ensures tree { IsAt bank.new result (any_term (map (tree_at bank.old) conditions.now)) }
    ensures extends { Extends bank.old bank.new }
{
    if conditions.len() == 0 {
        return bank.add(TermNode::Leaf(Atom::Truth(false)));
    }
    let mut any = conditions[0];
    for i in 1..conditions.len() {
        any = bank.add(TermNode::Binary(BinaryOperator::Or, any, conditions[i]))?;
    }
    Ok(any)
}

/// The term of the first condition that is true; the last term is not tested.
fn chosen(bank: &mut Bank, conditions: &[TermId], terms: &[TermId]) -> Result<TermId, AllocError>
    requires some { 0 < length terms.now }
    requires many { length conditions.now ≡ length terms.now }
    requires conditions { AreIds (length bank.old) conditions.now }
    requires terms { AreIds (length bank.old) terms.now }
    ensures tree { IsAt bank.new result (chosen_term (map (tree_at bank.old) conditions.now)
        (map (tree_at bank.old) terms.now)) }
    ensures extends { Extends bank.old bank.new }
{
    let mut i = terms.len() - 1;
    let mut chosen = terms[i];
    while i > 0 {
        i -= 1;
        let node = TermNode::Ternary(TernaryOperator::Choose, conditions[i], terms[i], chosen);
        chosen = bank.add(node)?;
    }
    Ok(chosen)
}

/// Whether all ids are the first.
fn are_same(first: TermId, ids: &[TermId]) -> bool
    ensures { result ≡ list_all (λ i. i == first) ids.now }
{
    ids.iter().all(|id| *id == first)
}

/// The term of a variable under several conditions: the one that all are, else nested choices.
pub fn merged(
    bank: &mut Bank,
    conditions: &[TermId],
    terms: &[TermId],
) -> Result<TermId, AllocError>
    requires some { 0 < length terms.now }
    requires many { length conditions.now ≡ length terms.now }
    requires conditions { AreIds (length bank.old) conditions.now }
    requires terms { AreIds (length bank.old) terms.now }
    ensures tree { IsAt bank.new result (merged_term (map (tree_at bank.old) conditions.now)
        (map (tree_at bank.old) terms.now)) }
    ensures extends { Extends bank.old bank.new }
{
    bank.are_distinct();
    if are_same(terms[0], terms) {
        return Ok(terms[0]);
    }
    chosen(bank, conditions, terms)
}
