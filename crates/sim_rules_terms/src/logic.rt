//! Negations, conjunctions and disjunctions of terms of a bank.

ghost use Rattle.std.specs.Prelude.{◌<◌, ◌≤◌, length};
ghost use Rattle.term_core_spec.specs.Term as tree;
ghost use Rattle.term_bank.specs.Nodes.{Extends, Holds};
ghost use Rattle.term_substitution.specs.States.{IsAt, IsFound};

use std::alloc::AllocError;
use term_bank::{Bank, TermId, TermNode};
use term_core_spec::{Atom, BinaryOperator, UnaryOperator};

/// The negation of a term.
pub fn negation(bank: &mut Bank, a: TermId) -> Result<TermId, AllocError>
    requires { a < length bank.old }
    ensures tree { (s : tree.Term) → Holds bank.old a s → IsAt bank.new result (tree.not_term s) }
    ensures within { IsFound bank.new result }
    ensures extends { Extends bank.old bank.new }
    ensures longer { length bank.old ≤ length bank.new }
{
    bank.add(TermNode::Unary(UnaryOperator::Not, a))
}

/// Both of two terms.
pub fn both(bank: &mut Bank, a: TermId, b: TermId) -> Result<TermId, AllocError>
    requires a { a < length bank.old }
    requires b { b < length bank.old }
    ensures tree { (s t : tree.Term) → Holds bank.old a s → Holds bank.old b t
        → IsAt bank.new result (tree.and_term s t) }
    ensures within { IsFound bank.new result }
    ensures extends { Extends bank.old bank.new }
    ensures longer { length bank.old ≤ length bank.new }
{
    bank.add(TermNode::Binary(BinaryOperator::And, a, b))
}

/// One of two terms.
pub fn either(bank: &mut Bank, a: TermId, b: TermId) -> Result<TermId, AllocError>
    requires a { a < length bank.old }
    requires b { b < length bank.old }
    ensures tree { (s t : tree.Term) → Holds bank.old a s → Holds bank.old b t
        → IsAt bank.new result (tree.or_term s t) }
    ensures within { IsFound bank.new result }
    ensures extends { Extends bank.old bank.new }
    ensures longer { length bank.old ≤ length bank.new }
{
    bank.add(TermNode::Binary(BinaryOperator::Or, a, b))
}

/// A truth value.
pub fn truth(bank: &mut Bank, value: bool) -> Result<TermId, AllocError>
    ensures tree { IsAt bank.new result (tree.truth value) }
    ensures within { IsFound bank.new result }
    ensures extends { Extends bank.old bank.new }
    ensures longer { length bank.old ≤ length bank.new }
{
    bank.add(TermNode::Leaf(Atom::Truth(value)))
}

/// Where the first of two terms is true, the second.
pub fn implication(bank: &mut Bank, a: TermId, b: TermId) -> Result<TermId, AllocError>
    requires a { a < length bank.old }
    requires b { b < length bank.old }
    ensures tree { (s t : tree.Term) → Holds bank.old a s → Holds bank.old b t
        → IsAt bank.new result (tree.or_term (tree.not_term s) t) }
    ensures within { IsFound bank.new result }
    ensures extends { Extends bank.old bank.new }
    ensures longer { length bank.old ≤ length bank.new }
{
    let not_a = negation(bank, a)?;
    either(bank, not_a, b)
}
