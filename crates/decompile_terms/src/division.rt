//! Signed division of words of 32 bits by their magnitudes.

ghost use Rattle.std.specs.Prelude.{◌≡◌};
ghost use Rattle.term_core.specs.Trees.{term_of};
ghost use Rattle.term_core_spec.specs.Term as tree;
ghost use Rattle.term_core_spec.specs.Shapes as shapes;
ghost use Rattle.term_core_spec.specs.declared.Width.TheVariants.{W32};
ghost use Rattle.decompile_terms.specs.Built.{Builds};

use crate::basic::{number, on_words};
use attempt::attempt;
use std::alloc::{AllocError, Global};
use term_core::Term;
use term_core_spec::{BinaryOperator, TernaryOperator, UnaryOperator, WordOperator};

/// The top bit is clear.
fn is_positive(alloc: Global, x: &Term) -> Result<Box<Term>, AllocError>
    ensures { Builds result (shapes.is_positive (term_of x.now)) }
{
    let copy = attempt!(x.copy(alloc));
    let bound = attempt!(number(alloc, 0x8000_0000));
    Term::binary(alloc, BinaryOperator::Less, copy, bound)
}

fn negated(alloc: Global, x: Box<Term>) -> Result<Box<Term>, AllocError>
    ensures { Builds result (shapes.negated (term_of x.value)) }
{
    let zero = attempt!(number(alloc, 0));
    on_words(alloc, WordOperator::Subtract, zero, x)
}

fn magnitude(alloc: Global, x: &Term) -> Result<Box<Term>, AllocError>
    ensures { Builds result (shapes.magnitude (term_of x.now)) }
{
    let test = attempt!(is_positive(alloc, x));
    let plain = attempt!(x.copy(alloc));
    let copy = attempt!(x.copy(alloc));
    let opposite = attempt!(negated(alloc, copy));
    Term::ternary(alloc, TernaryOperator::Choose, test, plain, opposite)
}

/// An operation on the magnitudes.
fn of_magnitudes(
    alloc: Global,
    operator: WordOperator,
    x: &Term,
    y: &Term,
) -> Result<Box<Term>, AllocError>
    ensures { Builds result (tree.on_words operator (shapes.magnitude (term_of x.now))
        (shapes.magnitude (term_of y.now))) }
{
    let first = attempt!(magnitude(alloc, x));
    let second = attempt!(magnitude(alloc, y));
    on_words(alloc, operator, first, second)
}

/// The signs differ.
fn signs_differ(alloc: Global, x: &Term, y: &Term) -> Result<Box<Term>, AllocError>
    ensures { Builds result (tree.not_term (tree.equal (shapes.is_positive (term_of x.now))
        (shapes.is_positive (term_of y.now)))) }
{
    let first = attempt!(is_positive(alloc, x));
    let second = attempt!(is_positive(alloc, y));
    let same = attempt!(Term::binary(alloc, BinaryOperator::Equal, first, second));
    Term::unary(alloc, UnaryOperator::Not, same)
}

/// The word is not 0.
fn is_not_zero(alloc: Global, x: &Term) -> Result<Box<Term>, AllocError>
    ensures { Builds result (tree.not_term (tree.equal (term_of x.now) (tree.constant W32 0))) }
{
    let copy = attempt!(x.copy(alloc));
    let zero = attempt!(number(alloc, 0));
    let same = attempt!(Term::binary(alloc, BinaryOperator::Equal, copy, zero));
    Term::unary(alloc, UnaryOperator::Not, same)
}

pub(crate) fn signed_quotient(alloc: Global, x: &Term, y: &Term) -> Result<Box<Term>, AllocError>
    ensures { Builds result (shapes.signed_quotient (term_of x.now) (term_of y.now)) }
{
    let differ = attempt!(signs_differ(alloc, x, y));
    let some = attempt!(is_not_zero(alloc, y));
    let test = attempt!(Term::binary(alloc, BinaryOperator::And, differ, some));
    let copy = attempt!(of_magnitudes(alloc, WordOperator::Divide, x, y));
    let opposite = attempt!(negated(alloc, copy));
    let plain = attempt!(of_magnitudes(alloc, WordOperator::Divide, x, y));
    Term::ternary(alloc, TernaryOperator::Choose, test, opposite, plain)
}

pub(crate) fn signed_remainder(alloc: Global, x: &Term, y: &Term) -> Result<Box<Term>, AllocError>
    ensures { Builds result (shapes.signed_remainder (term_of x.now) (term_of y.now)) }
{
    let test = attempt!(is_positive(alloc, x));
    let plain = attempt!(of_magnitudes(alloc, WordOperator::Remainder, x, y));
    let copy = attempt!(of_magnitudes(alloc, WordOperator::Remainder, x, y));
    let opposite = attempt!(negated(alloc, copy));
    Term::ternary(alloc, TernaryOperator::Choose, test, plain, opposite)
}
