// What the rules ask of a term.

ghost use Rattle.std.specs.Prelude.{◌≡◌, ◌<◌, ◌&&◌, ◌==◌, not, length, map, All, IfSome};
ghost use Rattle.std.specs.Prelude.{option_map};
ghost use Rattle.term_core_spec.specs.Term as tree;
ghost use Rattle.term_core_spec.specs.Same.{same_term};
ghost use Rattle.term_bank.specs.Nodes.{IsNode, tree_at, build};
ghost use Rattle.term_core.specs.Values.{value_of};
ghost use Rattle.term_norm_spec.specs.Patterns as patterns;

use term_bank::{Bank, TermId, TermNode};
use term_core::{Value, all_ones};
use term_core_spec::{Atom, BinaryOperator, Family, UnaryOperator, WordOperator};

/// The node at an index.
pub fn node_at(bank: &Bank, x: TermId) -> TermNode
    requires { x < length bank.now }
    ensures children { IsNode x result }
    ensures tree { tree_at bank.now x ≡ build bank.now result }
{
    bank.node(x)
}

/// Whether two terms are the same.
pub fn same(bank: &Bank, x: TermId, y: TermId) -> bool
    requires x_within { x < length bank.now }
    requires y_within { y < length bank.now }
    ensures { result ≡ same_term (tree_at bank.now x) (tree_at bank.now y) }
{
    bank.are_distinct();
    x == y
}

// ---- constants

/// Whether a term is true, false, or a word that is known.
#[tactic(auto, unfolding(term_norm_spec::specs::Patterns::is_constant))]
pub fn is_constant(bank: &Bank, x: TermId) -> bool
    requires { x < length bank.now }
    ensures { result ≡ patterns.is_constant (tree_at bank.now x) }
{
    match node_at(bank, x) {
        TermNode::Leaf(Atom::Truth(_) | Atom::Constant(_, _)) => true,
        _ => false,
    }
}

#[tactic(auto, unfolding(term_norm_spec::specs::Patterns::is_true))]
pub fn is_true(bank: &Bank, x: TermId) -> bool
    requires { x < length bank.now }
    ensures { result ≡ patterns.is_true (tree_at bank.now x) }
{
    match node_at(bank, x) {
        TermNode::Leaf(Atom::Truth(value)) => value,
        _ => false,
    }
}

#[tactic(auto, unfolding(term_norm_spec::specs::Patterns::is_false))]
pub fn is_false(bank: &Bank, x: TermId) -> bool
    requires { x < length bank.now }
    ensures { result ≡ patterns.is_false (tree_at bank.now x) }
{
    match node_at(bank, x) {
        TermNode::Leaf(Atom::Truth(value)) => !value,
        _ => false,
    }
}

#[tactic(auto, unfolding(term_norm_spec::specs::Patterns::is_zero))]
pub fn is_zero(bank: &Bank, x: TermId) -> bool
    requires { x < length bank.now }
    ensures { result ≡ patterns.is_zero (tree_at bank.now x) }
{
    match node_at(bank, x) {
        TermNode::Leaf(Atom::Constant(_, number)) => number == 0,
        _ => false,
    }
}

#[tactic(auto, unfolding(term_norm_spec::specs::Patterns::is_one))]
pub fn is_one(bank: &Bank, x: TermId) -> bool
    requires { x < length bank.now }
    ensures { result ≡ patterns.is_one (tree_at bank.now x) }
{
    match node_at(bank, x) {
        TermNode::Leaf(Atom::Constant(_, number)) => number == 1,
        _ => false,
    }
}

/// Whether a term is the word with all bits set.
#[tactic(auto, unfolding(term_norm_spec::specs::Patterns::is_full))]
pub fn is_full(bank: &Bank, x: TermId) -> bool
    requires { x < length bank.now }
    ensures { result ≡ patterns.is_full (tree_at bank.now x) }
{
    match node_at(bank, x) {
        TermNode::Leaf(Atom::Constant(width, number)) => number == all_ones(width),
        _ => false,
    }
}

/// The number of a word that is known; 0 for any other term.
#[tactic(auto, unfolding(term_norm_spec::specs::Patterns::number_of))]
pub fn number_of(bank: &Bank, x: TermId) -> u64
    requires { x < length bank.now }
    ensures { result ≡ patterns.number_of (tree_at bank.now x) }
{
    match node_at(bank, x) {
        TermNode::Leaf(Atom::Constant(_, number)) => number,
        _ => 0,
    }
}

/// The value of a constant; false for any other term.
#[tactic(auto, unfolding(term_norm_spec::specs::Patterns::known))]
pub fn known(bank: &Bank, x: TermId) -> Value
    requires { x < length bank.now }
    ensures { value_of result ≡ patterns.known (tree_at bank.now x) }
{
    match node_at(bank, x) {
        TermNode::Leaf(Atom::Truth(value)) => Value::Truth(value),
        TermNode::Leaf(Atom::Constant(width, number)) => Value::Number(width, number),
        _ => Value::Truth(false),
    }
}

/// Whether a term is a variable that is a memory of the source.
#[tactic(auto, unfolding(term_norm_spec::specs::Patterns::is_source_memory))]
pub fn is_source_memory(bank: &Bank, x: TermId) -> bool
    requires { x < length bank.now }
    ensures { result ≡ patterns.is_source_memory (tree_at bank.now x) }
{
    match node_at(bank, x) {
        TermNode::Leaf(Atom::Open(variable)) => is_of_source(variable.family),
        _ => false,
    }
}

fn is_of_source(family: Family) -> bool
    ensures { result ≡ patterns.is_of_source family }
{
    matches!(family, Family::SourceMemory)
}

// ---- operators

/// The argument of a `not`.
#[tactic(auto, unfolding(term_norm_spec::specs::Patterns::under_not))]
pub fn under_not(bank: &Bank, x: TermId) -> Option<TermId>
    requires { x < length bank.now }
    ensures tree { option_map (tree_at bank.now) result ≡ patterns.under_not (tree_at bank.now x) }
    ensures before { IfSome result (λ a. a < x) }
    ensures within { IfSome result (λ a. a < length bank.now) }
{
    match node_at(bank, x) {
        TermNode::Unary(UnaryOperator::Not, a) => Some(a),
        _ => None,
    }
}

/// The argument of a complement.
#[tactic(auto, unfolding(term_norm_spec::specs::Patterns::under_complement))]
pub fn under_complement(bank: &Bank, x: TermId) -> Option<TermId>
    requires { x < length bank.now }
    ensures tree { option_map (tree_at bank.now) result
        ≡ patterns.under_complement (tree_at bank.now x) }
    ensures before { IfSome result (λ a. a < x) }
    ensures within { IfSome result (λ a. a < length bank.now) }
{
    match node_at(bank, x) {
        TermNode::Unary(UnaryOperator::Complement, a) => Some(a),
        _ => None,
    }
}

/// The word that is extended.
#[tactic(auto, unfolding(term_norm_spec::specs::Patterns::under_extension))]
pub fn under_extension(bank: &Bank, x: TermId) -> Option<TermId>
    requires { x < length bank.now }
    ensures tree { option_map (tree_at bank.now) result
        ≡ patterns.under_extension (tree_at bank.now x) }
    ensures before { IfSome result (λ a. a < x) }
    ensures within { IfSome result (λ a. a < length bank.now) }
{
    match node_at(bank, x) {
        TermNode::Unary(UnaryOperator::ZeroExtend(_) | UnaryOperator::SignExtend(_), a) => Some(a),
        _ => None,
    }
}

// Whether a term is the `not` of another.
fn is_not_of(bank: &Bank, x: TermId, argument: TermId) -> bool
    requires x_within { x < length bank.now }
    requires argument_within { argument < length bank.now }
    ensures { result ≡ same_term (tree_at bank.now x) (tree.not_term (tree_at bank.now argument)) }
{
    match under_not(bank, x) {
        Some(a) => same(bank, a, argument),
        None => false,
    }
}

/// Whether one is the `not` of the other.
pub fn are_negations(bank: &Bank, x: TermId, y: TermId) -> bool
    requires x_within { x < length bank.now }
    requires y_within { y < length bank.now }
    ensures { result ≡ patterns.are_negations (tree_at bank.now x) (tree_at bank.now y) }
{
    if is_not_of(bank, y, x) {
        return true;
    }
    is_not_of(bank, x, y)
}

// Whether a term is the complement of another.
fn is_complement_of(bank: &Bank, x: TermId, argument: TermId) -> bool
    requires x_within { x < length bank.now }
    requires argument_within { argument < length bank.now }
    ensures { result ≡ same_term (tree_at bank.now x)
        (tree.complement (tree_at bank.now argument)) }
{
    match under_complement(bank, x) {
        Some(a) => same(bank, a, argument),
        None => false,
    }
}

/// Whether one is the complement of the other.
pub fn are_complements(bank: &Bank, x: TermId, y: TermId) -> bool
    requires x_within { x < length bank.now }
    requires y_within { y < length bank.now }
    ensures { result ≡ patterns.are_complements (tree_at bank.now x) (tree_at bank.now y) }
{
    if is_complement_of(bank, y, x) {
        return true;
    }
    is_complement_of(bank, x, y)
}

/// The constant that is added on the right: the summand, and the constant's number; else the term,
/// and 0.
#[tactic(auto, unfolding(term_norm_spec::specs::Patterns::base, term_norm_spec::specs::Patterns::offset))]
pub fn base_and_offset(bank: &Bank, x: TermId) -> (TermId, u64)
    requires { x < length bank.now }
    ensures base { tree_at bank.now result.0 ≡ patterns.base (tree_at bank.now x) }
    ensures within { result.0 < length bank.now }
    ensures offset { result.1 ≡ patterns.offset (tree_at bank.now x) }
{
    match node_at(bank, x) {
        TermNode::Binary(BinaryOperator::Word(WordOperator::Add), a, b) => match node_at(bank, b) {
            TermNode::Leaf(Atom::Constant(_, number)) => (a, number),
            _ => (x, 0),
        },
        _ => (x, 0),
    }
}
