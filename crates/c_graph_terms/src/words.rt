//! Words: conversions, operators and comparisons.

ghost use Rattle.std.specs.Prelude.{◌≡◌, ◌<◌, IfOk, length};
ghost use Rattle.term_core_spec.specs.Term as tree;
ghost use Rattle.term_core_spec.specs.Shapes as shapes;
ghost use Rattle.term_core_spec.specs.Sort.{bits};
ghost use Rattle.term_bank.specs.Nodes.{tree_at};
ghost use Rattle.c_graph_spec.specs.State as state;
ghost use Rattle.c_graph_spec.specs.Values as spec;
ghost use Rattle.c_graph_terms.specs.Built.{Builds, BuildsTerms, IsWithin, terms_at};

use crate::division::{signed_quotient, signed_remainder};
use crate::numbers::{
    ADD, DIVIDE, MASK, MULTIPLY, REMAINDER, SUBTRACT, XOR, bits_of, sign_bit, top_place,
};
use crate::table::{build, leaf};
use crate::values::ValueIds;
use crate::variables::width_of;
use attempt::attempt;
use c_types_spec::{Arithmetic, Comparison, Scalar};
use std::alloc::{AllocError, Global};
use term_bank::TermNode::{Binary, Leaf, Ternary, Unary};
use term_bank::{Bank, TermId};
use term_core_spec::Atom::{self, Constant};
use term_core_spec::{BinaryOperator, TernaryOperator, UnaryOperator, Width, WordOperator};

/// How many bits a word has.
fn bit_count(width: Width) -> u32
    ensures { result ≡ bits width }
{
    match width {
        Width::W8 => 8,
        Width::W16 => 16,
        Width::W32 => 32,
        Width::W64 => 64,
    }
}

/// A word of 32 bits as a term.
pub(crate) fn number(bank: &mut Bank, n: u64) -> Result<TermId, AllocError>
    ensures { Builds bank.old bank.new result (state.number n) }
{
    leaf(bank, Constant(Width::W32, n))
}

/// The word of a value of a type, at a width (6.3.1.3).
pub fn at_width(
    alloc: Global,
    bank: &mut Bank,
    source: Scalar,
    width: Width,
    x: TermId,
) -> Result<TermId, AllocError>
    requires { x < length bank.old }
    ensures { Builds bank.old bank.new result (spec.at_width source width (tree_at bank.old x)) }
{
    if source.width < bit_count(width) {
        if source.is_signed {
            build(
                alloc,
                bank,
                &[x],
                &[Unary(UnaryOperator::SignExtend(width), 0)],
            )
        } else {
            build(
                alloc,
                bank,
                &[x],
                &[Unary(UnaryOperator::ZeroExtend(width), 0)],
            )
        }
    } else if bit_count(width) < source.width {
        build(alloc, bank, &[x], &[Unary(UnaryOperator::Low(width), 0)])
    } else {
        build(alloc, bank, &[x], &[])
    }
}

/// An operation on two words.
fn on_words(
    alloc: Global,
    bank: &mut Bank,
    operator: BinaryOperator,
    x: TermId,
    y: TermId,
) -> Result<TermId, AllocError>
    requires x_within { x < length bank.old }
    requires y_within { y < length bank.old }
    ensures { Builds bank.old bank.new result (tree.Binary operator (tree_at bank.old x)
        (tree_at bank.old y)) }
{
    build(alloc, bank, &[x, y], &[Binary(operator, 0, 1)])
}

/// A shift by a count below the width (6.5.7).
fn shift(
    alloc: Global,
    bank: &mut Bank,
    operator: WordOperator,
    width: Width,
    x: TermId,
    y: TermId,
) -> Result<TermId, AllocError>
    requires x_within { x < length bank.old }
    requires y_within { y < length bank.old }
    ensures { Builds bank.old bank.new result (tree.on_words operator (tree_at bank.old x)
        (spec.places width (tree_at bank.old y))) }
{
    let nodes = [
        Leaf(Constant(width, top_place(width))),
        Binary(MASK, 1, 2),
        Binary(BinaryOperator::Word(operator), 0, 3),
    ];
    build(alloc, bank, &[x, y], &nodes)
}

/// `/` and `%` (6.5.5).
fn divided(
    alloc: Global,
    bank: &mut Bank,
    of: Scalar,
    x: TermId,
    y: TermId,
) -> Result<TermId, AllocError>
    requires x_within { x < length bank.old }
    requires y_within { y < length bank.old }
    ensures { Builds bank.old bank.new result (spec.if_signed of
        (shapes.signed_quotient (tree_at bank.old x) (tree_at bank.old y))
        (tree.divide (tree_at bank.old x) (tree_at bank.old y))) }
{
    if of.is_signed {
        signed_quotient(alloc, bank, x, y)
    } else {
        on_words(alloc, bank, DIVIDE, x, y)
    }
}

fn remaining(
    alloc: Global,
    bank: &mut Bank,
    of: Scalar,
    x: TermId,
    y: TermId,
) -> Result<TermId, AllocError>
    requires x_within { x < length bank.old }
    requires y_within { y < length bank.old }
    ensures { Builds bank.old bank.new result (spec.if_signed of
        (shapes.signed_remainder (tree_at bank.old x) (tree_at bank.old y))
        (tree.remainder (tree_at bank.old x) (tree_at bank.old y))) }
{
    if of.is_signed {
        signed_remainder(alloc, bank, x, y)
    } else {
        on_words(alloc, bank, REMAINDER, x, y)
    }
}

/// `>>`
fn shifted_right(
    alloc: Global,
    bank: &mut Bank,
    of: Scalar,
    x: TermId,
    y: TermId,
) -> Result<TermId, AllocError>
    requires x_within { x < length bank.old }
    requires y_within { y < length bank.old }
    ensures { Builds bank.old bank.new result (spec.if_signed of
        (tree.shift_right_signed (tree_at bank.old x)
        (spec.places (state.width_of of) (tree_at bank.old y)))
        (tree.shift_right (tree_at bank.old x)
        (spec.places (state.width_of of) (tree_at bank.old y)))) }
{
    let width = width_of(of);
    if of.is_signed {
        shift(alloc, bank, WordOperator::ShiftRightSigned, width, x, y)
    } else {
        shift(alloc, bank, WordOperator::ShiftRight, width, x, y)
    }
}

/// An operator on words of one width (6.5.5 to 6.5.7, 6.5.10 to 6.5.12).
#[tactic(auto, unfolding(c_graph_spec::specs::Values::computed))]
pub(crate) fn computed(
    alloc: Global,
    bank: &mut Bank,
    operator: Arithmetic,
    of: Scalar,
    x: TermId,
    y: TermId,
) -> Result<TermId, AllocError>
    requires x_within { x < length bank.old }
    requires y_within { y < length bank.old }
    ensures { Builds bank.old bank.new result
        (spec.computed operator of (tree_at bank.old x) (tree_at bank.old y)) }
{
    match operator {
        Arithmetic::Add => on_words(alloc, bank, ADD, x, y),
        Arithmetic::Subtract => on_words(alloc, bank, SUBTRACT, x, y),
        Arithmetic::Multiply => on_words(alloc, bank, MULTIPLY, x, y),
        Arithmetic::Divide => divided(alloc, bank, of, x, y),
        Arithmetic::Remainder => remaining(alloc, bank, of, x, y),
        Arithmetic::ShiftLeft => { shift(alloc, bank, WordOperator::ShiftLeft, width_of(of), x, y) }
        Arithmetic::ShiftRight => shifted_right(alloc, bank, of, x, y),
        Arithmetic::And => on_words(alloc, bank, MASK, x, y),
        Arithmetic::Or => { on_words(alloc, bank, BinaryOperator::Word(WordOperator::Or), x, y) }
        Arithmetic::Xor => on_words(alloc, bank, XOR, x, y),
    }
}

/// Signed less: unsigned less with both top bits flipped.
fn signed_less(
    alloc: Global,
    bank: &mut Bank,
    width: Width,
    x: TermId,
    y: TermId,
) -> Result<TermId, AllocError>
    requires x_within { x < length bank.old }
    requires y_within { y < length bank.old }
    ensures { Builds bank.old bank.new result
        (shapes.signed_less width (tree_at bank.old x) (tree_at bank.old y)) }
{
    let nodes = [
        Leaf(Constant(width, sign_bit(width))),
        Binary(XOR, 0, 2),
        Binary(XOR, 1, 2),
        Binary(BinaryOperator::Less, 3, 4),
    ];
    build(alloc, bank, &[x, y], &nodes)
}

/// Whether a value of a type is less than another.
fn less_of(
    alloc: Global,
    bank: &mut Bank,
    of: Scalar,
    x: TermId,
    y: TermId,
) -> Result<TermId, AllocError>
    requires x_within { x < length bank.old }
    requires y_within { y < length bank.old }
    ensures { Builds bank.old bank.new result
        (spec.less_of of (tree_at bank.old x) (tree_at bank.old y)) }
{
    if of.is_signed {
        signed_less(alloc, bank, width_of(of), x, y)
    } else {
        on_words(alloc, bank, BinaryOperator::Less, x, y)
    }
}

/// The other truth value.
pub(crate) fn opposite(alloc: Global, bank: &mut Bank, x: TermId) -> Result<TermId, AllocError>
    requires { x < length bank.old }
    ensures { Builds bank.old bank.new result (tree.not_term (tree_at bank.old x)) }
{
    build(alloc, bank, &[x], &[Unary(UnaryOperator::Not, 0)])
}

/// Whether two words are equal.
fn equal(alloc: Global, bank: &mut Bank, x: TermId, y: TermId) -> Result<TermId, AllocError>
    requires x_within { x < length bank.old }
    requires y_within { y < length bank.old }
    ensures { Builds bank.old bank.new result (tree.equal (tree_at bank.old x)
        (tree_at bank.old y)) }
{
    on_words(alloc, bank, BinaryOperator::Equal, x, y)
}

/// Whether two words differ.
fn differ(alloc: Global, bank: &mut Bank, x: TermId, y: TermId) -> Result<TermId, AllocError>
    requires x_within { x < length bank.old }
    requires y_within { y < length bank.old }
    ensures { Builds bank.old bank.new result (tree.not_term (tree.equal (tree_at bank.old x)
        (tree_at bank.old y))) }
{
    let nodes = [
        Binary(BinaryOperator::Equal, 0, 1),
        Unary(UnaryOperator::Not, 2),
    ];
    build(alloc, bank, &[x, y], &nodes)
}

/// Whether a value of a type is not less than another.
fn not_less(
    alloc: Global,
    bank: &mut Bank,
    of: Scalar,
    x: TermId,
    y: TermId,
) -> Result<TermId, AllocError>
    requires x_within { x < length bank.old }
    requires y_within { y < length bank.old }
    ensures { Builds bank.old bank.new result
        (tree.not_term (spec.less_of of (tree_at bank.old x) (tree_at bank.old y))) }
{
    let less = attempt!(less_of(alloc, bank, of, x, y));
    opposite(alloc, bank, less)
}

/// Whether two values of a type compare so (6.5.8, 6.5.9).
#[tactic(auto, unfolding(c_graph_spec::specs::Values::compared))]
pub(crate) fn compared(
    alloc: Global,
    bank: &mut Bank,
    operator: Comparison,
    of: Scalar,
    x: TermId,
    y: TermId,
) -> Result<TermId, AllocError>
    requires x_within { x < length bank.old }
    requires y_within { y < length bank.old }
    ensures { Builds bank.old bank.new result
        (spec.compared operator of (tree_at bank.old x) (tree_at bank.old y)) }
{
    match operator {
        Comparison::Equal => equal(alloc, bank, x, y),
        Comparison::NotEqual => differ(alloc, bank, x, y),
        Comparison::Less => less_of(alloc, bank, of, x, y),
        Comparison::Greater => less_of(alloc, bank, of, y, x),
        Comparison::LessOrEqual => not_less(alloc, bank, of, y, x),
        Comparison::GreaterOrEqual => not_less(alloc, bank, of, x, y),
    }
}

/// What a test of a value's truth against 0 gives.
pub(crate) fn zero_test(
    alloc: Global,
    bank: &mut Bank,
    operator: Comparison,
    truth: TermId,
) -> Result<TermId, AllocError>
    requires { truth < length bank.old }
    ensures { Builds bank.old bank.new result (spec.zero_test operator (tree_at bank.old truth)) }
{
    match operator {
        Comparison::Equal => opposite(alloc, bank, truth),
        Comparison::NotEqual
        | Comparison::Less
        | Comparison::Greater
        | Comparison::LessOrEqual
        | Comparison::GreaterOrEqual => build(alloc, bank, &[truth], &[]),
    }
}

/// A word of a type, and whether it is not 0.
pub(crate) fn of_word(
    alloc: Global,
    bank: &mut Bank,
    of: Scalar,
    x: TermId,
) -> Result<ValueIds, AllocError>
    requires { x < length bank.old }
    ensures { BuildsTerms bank.old bank.new result (spec.of_word of (tree_at bank.old x)) }
{
    let nodes = [
        Leaf(Constant(width_of(of), 0)),
        Binary(BinaryOperator::Equal, 0, 1),
        Unary(UnaryOperator::Not, 2),
    ];
    let truth = attempt!(build(alloc, bank, &[x], &nodes));
    Ok(ValueIds { word: x, truth })
}

/// 1 where a test holds, else 0.
pub(crate) fn of_truth(alloc: Global, bank: &mut Bank, test: TermId) -> Result<ValueIds, AllocError>
    requires { test < length bank.old }
    ensures { BuildsTerms bank.old bank.new result (spec.of_truth (tree_at bank.old test)) }
{
    let nodes = [
        Leaf(Constant(Width::W32, 1)),
        Leaf(Constant(Width::W32, 0)),
        Ternary(TernaryOperator::Choose, 0, 1, 2),
    ];
    let word = attempt!(build(alloc, bank, &[test], &nodes));
    Ok(ValueIds { word, truth: test })
}

/// A value in another type.
pub(crate) fn converted(
    alloc: Global,
    bank: &mut Bank,
    source: Scalar,
    of: Scalar,
    x: TermId,
) -> Result<ValueIds, AllocError>
    requires { x < length bank.old }
    ensures { BuildsTerms bank.old bank.new result (spec.of_word of
        (spec.at_width source (state.width_of of) (tree_at bank.old x))) }
{
    let word = attempt!(at_width(alloc, bank, source, width_of(of), x));
    of_word(alloc, bank, of, word)
}

/// The word of a value of a type.
pub fn value_atom(of: Scalar, value: i128) -> Result<Atom, AllocError>
    ensures { IfOk result (λ atom. tree.Leaf atom ≡ state.value_constant of value) }
{
    let n = attempt!(bits_of(of, value));
    Ok(Constant(width_of(of), n))
}

/// A constant of a type.
pub(crate) fn constant(
    alloc: Global,
    bank: &mut Bank,
    of: Scalar,
    value: i128,
) -> Result<ValueIds, AllocError>
    ensures { BuildsTerms bank.old bank.new result (spec.of_word of
        (state.value_constant of value)) }
{
    let atom = attempt!(value_atom(of, value));
    let word = attempt!(leaf(bank, atom));
    of_word(alloc, bank, of, word)
}

/// One of two values, by a test.
pub(crate) fn chosen(
    alloc: Global,
    bank: &mut Bank,
    test: ValueIds,
    first: ValueIds,
    second: ValueIds,
) -> Result<ValueIds, AllocError>
    requires test_within { test.truth < length bank.old }
    requires first_within { IsWithin (length bank.old) first }
    requires second_within { IsWithin (length bank.old) second }
    ensures { BuildsTerms bank.old bank.new result (spec.chosen (terms_at bank.old test)
        (terms_at bank.old first) (terms_at bank.old second)) }
{
    let choose = [Ternary(TernaryOperator::Choose, 0, 1, 2)];
    let words = [test.truth, first.word, second.word];
    let word = attempt!(build(alloc, bank, &words, &choose));
    let truths = [test.truth, first.truth, second.truth];
    let truth = attempt!(build(alloc, bank, &truths, &choose));
    Ok(ValueIds { word, truth })
}
