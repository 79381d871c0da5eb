//! Terms as trees, from parts that may be out of memory.

ghost use Rattle.std.specs.Prelude.{◌≡◌, IfOk};
ghost use Rattle.sim_rules_spec.specs.Calling as calling;
ghost use Rattle.term_core.specs.Trees.{term_of};
ghost use Rattle.term_core_spec.specs.Term as tree;

use attempt::attempt;
use std::alloc::{AllocError, Global};
use term_core::Term;
use term_core_spec::{Atom, BinaryOperator, QuaternaryOperator, UnaryOperator, Variable, Width};

/// A variable.
pub fn open(alloc: Global, variable: Variable) -> Result<Box<Term>, AllocError>
    ensures { IfOk result (λ t. term_of t.value ≡ tree.open_term variable) }
{
    Term::leaf(alloc, Atom::Open(variable))
}

/// A word of 32 bits.
pub fn word(alloc: Global, number: u32) -> Result<Box<Term>, AllocError>
    ensures { IfOk result (λ t. term_of t.value ≡ calling.word number) }
{
    Term::leaf(alloc, Atom::Constant(Width::W32, u64::from(number)))
}

/// An operator over two terms.
pub fn over_two(
    alloc: Global,
    operator: BinaryOperator,
    first: Result<Box<Term>, AllocError>,
    second: Result<Box<Term>, AllocError>,
) -> Result<Box<Term>, AllocError>
    ensures { (s t : tree.Term) → IfOk first (λ x. term_of x.value ≡ s)
        → IfOk second (λ x. term_of x.value ≡ t)
        → IfOk result (λ x. term_of x.value ≡ tree.Binary operator s t) }
{
    let first = attempt!(first);
    let second = attempt!(second);
    Term::binary(alloc, operator, first, second)
}

/// The negation of a term.
pub fn negated(alloc: Global, term: Result<Box<Term>, AllocError>) -> Result<Box<Term>, AllocError>
    ensures { (s : tree.Term) → IfOk term (λ x. term_of x.value ≡ s)
        → IfOk result (λ x. term_of x.value ≡ tree.not_term s) }
{
    Term::unary(alloc, UnaryOperator::Not, attempt!(term))
}

/// A memory with the bytes of another one from an address to below the next.
pub fn overlaid(
    alloc: Global,
    memory: Result<Box<Term>, AllocError>,
    zone: Result<Box<Term>, AllocError>,
    from: Result<Box<Term>, AllocError>,
    to: Result<Box<Term>, AllocError>,
) -> Result<Box<Term>, AllocError>
    ensures { (m z s t : tree.Term) → IfOk memory (λ x. term_of x.value ≡ m)
        → IfOk zone (λ x. term_of x.value ≡ z) → IfOk from (λ x. term_of x.value ≡ s)
        → IfOk to (λ x. term_of x.value ≡ t)
        → IfOk result (λ x. term_of x.value ≡ tree.over m z s t) }
{
    let memory = attempt!(memory);
    let zone = attempt!(zone);
    let from = attempt!(from);
    let to = attempt!(to);
    Term::quaternary(alloc, QuaternaryOperator::Over, memory, zone, from, to)
}
