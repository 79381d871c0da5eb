// Terms that are added to a bank by their operators.

ghost use Rattle.std.specs.Prelude.{◌<◌, ◌≡◌, length, true, IfOk};
ghost use Rattle.term_core_spec.specs.Term.{truth, open_term, not_term, and_term, or_term, equal};
ghost use Rattle.term_bank.specs.Nodes.{tree_at, Extends, AreDistinct};
ghost use Rattle.mem_terms_spec.specs.Flat.{byte_variable};
ghost use Rattle.mem_terms.specs.Ids.{IsTreeAt};

use attempt::attempt;
use std::alloc::AllocError;
use term_bank::{Bank, TermId, TermNode};
use term_core_spec::{Atom, BinaryOperator, Family, Sort, UnaryOperator, Variable, Width};

/// The truth value that holds. After it equal trees have one index.
pub fn truth(bank: &mut Bank) -> Result<TermId, AllocError>
    ensures tree { IfOk result (λ i. IsTreeAt bank.new i (truth true)) }
    ensures extends { Extends bank.old bank.new }
    ensures distinct { AreDistinct bank.new }
{
    bank.add(TermNode::Leaf(Atom::Truth(true)))
}

/// The variable of the byte of the load at an index.
fn byte_variable(index: usize) -> Variable
    ensures { result ≡ byte_variable index }
{
    Variable {
        family: Family::LoadedByte,
        index: index,
        instance: 0,
        sort: Sort::Word(Width::W8),
    }
}

/// The byte of the load at an index.
pub fn byte(bank: &mut Bank, index: usize) -> Result<TermId, AllocError>
    ensures tree { IfOk result (λ i. IsTreeAt bank.new i (open_term (byte_variable index))) }
    ensures extends { Extends bank.old bank.new }
{
    bank.add(TermNode::Leaf(Atom::Open(byte_variable(index))))
}

/// The other truth value.
pub fn not(bank: &mut Bank, x: TermId) -> Result<TermId, AllocError>
    requires { x < length bank.old }
    ensures tree { IfOk result (λ i. IsTreeAt bank.new i (not_term (tree_at bank.old x))) }
    ensures extends { Extends bank.old bank.new }
{
    bank.add(TermNode::Unary(UnaryOperator::Not, x))
}

/// Whether both are equal.
pub fn equal(bank: &mut Bank, x: TermId, y: TermId) -> Result<TermId, AllocError>
    requires x_within { x < length bank.old }
    requires y_within { y < length bank.old }
    ensures tree { IfOk result (λ i. IsTreeAt bank.new i
        (equal (tree_at bank.old x) (tree_at bank.old y))) }
    ensures extends { Extends bank.old bank.new }
{
    bank.add(TermNode::Binary(BinaryOperator::Equal, x, y))
}

/// Whether both hold.
pub fn and(bank: &mut Bank, x: TermId, y: TermId) -> Result<TermId, AllocError>
    requires x_within { x < length bank.old }
    requires y_within { y < length bank.old }
    ensures tree { IfOk result (λ i. IsTreeAt bank.new i
        (and_term (tree_at bank.old x) (tree_at bank.old y))) }
    ensures extends { Extends bank.old bank.new }
{
    bank.add(TermNode::Binary(BinaryOperator::And, x, y))
}

/// Whether one holds.
pub fn or(bank: &mut Bank, x: TermId, y: TermId) -> Result<TermId, AllocError>
    requires x_within { x < length bank.old }
    requires y_within { y < length bank.old }
    ensures tree { IfOk result (λ i. IsTreeAt bank.new i
        (or_term (tree_at bank.old x) (tree_at bank.old y))) }
    ensures extends { Extends bank.old bank.new }
{
    bank.add(TermNode::Binary(BinaryOperator::Or, x, y))
}

/// Whether the second holds wherever the first does.
pub fn implied(bank: &mut Bank, x: TermId, y: TermId) -> Result<TermId, AllocError>
    requires x_within { x < length bank.old }
    requires y_within { y < length bank.old }
    ensures tree { IfOk result (λ i. IsTreeAt bank.new i
        (or_term (not_term (tree_at bank.old x)) (tree_at bank.old y))) }
    ensures extends { Extends bank.old bank.new }
{
    let other = attempt!(not(bank, x));
    or(bank, other, y)
}
