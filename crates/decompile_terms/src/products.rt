//! High words of products.

ghost use Rattle.std.specs.Prelude.{◌≡◌};
ghost use Rattle.term_core.specs.Trees.{term_of};
ghost use Rattle.term_core_spec.specs.Term as tree;
ghost use Rattle.term_core_spec.specs.Shapes as shapes;
ghost use Rattle.decompile_terms.specs.Built.{Builds};

use crate::basic::on_words;
use attempt::attempt;
use std::alloc::{AllocError, Global};
use term_core::Term;
use term_core_spec::{QuaternaryOperator, UnaryOperator, Width, WordOperator};

/// One byte of a word.
pub(crate) fn byte(alloc: Global, place: u8, x: &Term) -> Result<Box<Term>, AllocError>
    ensures { Builds result (tree.byte place (term_of x.now)) }
{
    let copy = attempt!(x.copy(alloc));
    Term::unary(alloc, UnaryOperator::Byte(place), copy)
}

/// Bytes 4 to 7 of a word of 64 bits.
fn high_half(alloc: Global, x: &Term) -> Result<Box<Term>, AllocError>
    ensures { Builds result (shapes.high_half (term_of x.now)) }
{
    let a = attempt!(byte(alloc, 4, x));
    let b = attempt!(byte(alloc, 5, x));
    let c = attempt!(byte(alloc, 6, x));
    let d = attempt!(byte(alloc, 7, x));
    Term::quaternary(alloc, QuaternaryOperator::Join, a, b, c, d)
}

/// The high word of the product of two words that are widened to 64 bits first.
fn high_product_of(
    alloc: Global,
    first: UnaryOperator,
    second: UnaryOperator,
    x: Box<Term>,
    y: Box<Term>,
) -> Result<Box<Term>, AllocError>
    ensures { Builds result (shapes.high_half (tree.multiply (tree.Unary first (term_of x.value))
        (tree.Unary second (term_of y.value)))) }
{
    let left = attempt!(Term::unary(alloc, first, x));
    let right = attempt!(Term::unary(alloc, second, y));
    let product = attempt!(on_words(alloc, WordOperator::Multiply, left, right));
    high_half(alloc, &product)
}

const ZERO: UnaryOperator = UnaryOperator::ZeroExtend(Width::W64);

const SIGN: UnaryOperator = UnaryOperator::SignExtend(Width::W64);

pub(crate) fn high_product(
    alloc: Global,
    x: Box<Term>,
    y: Box<Term>,
) -> Result<Box<Term>, AllocError>
    ensures { Builds result (shapes.high_product (term_of x.value) (term_of y.value)) }
{
    high_product_of(alloc, ZERO, ZERO, x, y)
}

pub(crate) fn high_product_signed(
    alloc: Global,
    x: Box<Term>,
    y: Box<Term>,
) -> Result<Box<Term>, AllocError>
    ensures { Builds result (shapes.high_product_signed (term_of x.value) (term_of y.value)) }
{
    high_product_of(alloc, SIGN, SIGN, x, y)
}

pub(crate) fn high_product_signed_unsigned(
    alloc: Global,
    x: Box<Term>,
    y: Box<Term>,
) -> Result<Box<Term>, AllocError>
    ensures { Builds result (shapes.high_product_signed_unsigned (term_of x.value) (term_of
        y.value)) }
{
    high_product_of(alloc, SIGN, ZERO, x, y)
}
