//! Tests of operators, and lists of tests.

ghost use Rattle.std.specs.Prelude.{◌≡◌, ◌<◌, ◌++◌, ◌∷◌, [], OnOk, List, ℕ, length};
ghost use Rattle.term_core_spec.specs.Term.{Term, and_term};
ghost use Rattle.term_bank.specs.Nodes.{tree_at};
ghost use Rattle.c_graph_spec.specs.State.{width_of};
ghost use Rattle.c_graph_spec.specs.Guards as guards;
ghost use Rattle.c_graph_terms.specs.Built.{Builds};
ghost use Rattle.c_graph_terms.specs.Tests.{BuildsTest, ids_of};

use crate::numbers::{ADD, MULTIPLY, SUBTRACT, XOR, sign_bit};
use crate::table::build;
use crate::variables::width_of;
use attempt::attempt;
use c_types_spec::{Arithmetic, Scalar};
use std::alloc::{AllocError, Global};
use term_bank::TermNode::{Binary, Leaf, Unary};
use term_bank::{Bank, TermId};
use term_core::all_ones;
use term_core_spec::Atom::Constant;
use term_core_spec::{BinaryOperator, UnaryOperator, Width};

/// Adds a test to a list.
pub(crate) fn keep(tests: &mut Vec<TermId>, test: TermId) -> Result<(), AllocError>
    ensures { OnOk result (tests.new.items ≡ tests.old.items ++ test ∷ []) }
{
    tests.push(test)?;
    Ok(())
}

/// Adds a test to a list, where there is one.
pub(crate) fn keep_some(tests: &mut Vec<TermId>, test: Option<TermId>) -> Result<(), AllocError>
    ensures { OnOk result (tests.new.items ≡ tests.old.items ++ ids_of test) }
{
    match test {
        Some(test) => keep(tests, test),
        None => Ok(()),
    }
}

/// Guard 2 of a sum: it is below the first operand exactly where the second is below 0.
fn sum_fits(
    alloc: Global,
    bank: &mut Bank,
    width: Width,
    x: TermId,
    y: TermId,
) -> Result<TermId, AllocError>
    requires x_within { x < length bank.old }
    requires y_within { y < length bank.old }
    ensures { Builds bank.old bank.new result
        (guards.sum_fits width (tree_at bank.old x) (tree_at bank.old y)) }
{
    let nodes = [
        Leaf(Constant(width, sign_bit(width))),
        // the sum is below the first operand
        Binary(ADD, 0, 1),
        Binary(XOR, 3, 2),
        Binary(XOR, 0, 2),
        Binary(BinaryOperator::Less, 4, 5),
        // the second operand is below 0
        Binary(XOR, 1, 2),
        Leaf(Constant(width, 0)),
        Binary(XOR, 8, 2),
        Binary(BinaryOperator::Less, 7, 9),
        Binary(BinaryOperator::Equal, 6, 10),
    ];
    build(alloc, bank, &[x, y], &nodes)
}

/// Guard 2 of a difference: it is below the first operand exactly where the second is above 0.
fn difference_fits(
    alloc: Global,
    bank: &mut Bank,
    width: Width,
    x: TermId,
    y: TermId,
) -> Result<TermId, AllocError>
    requires x_within { x < length bank.old }
    requires y_within { y < length bank.old }
    ensures { Builds bank.old bank.new result
        (guards.difference_fits width (tree_at bank.old x) (tree_at bank.old y)) }
{
    let nodes = [
        Leaf(Constant(width, sign_bit(width))),
        // the difference is below the first operand
        Binary(SUBTRACT, 0, 1),
        Binary(XOR, 3, 2),
        Binary(XOR, 0, 2),
        Binary(BinaryOperator::Less, 4, 5),
        // 0 is below the second operand
        Leaf(Constant(width, 0)),
        Binary(XOR, 7, 2),
        Binary(XOR, 1, 2),
        Binary(BinaryOperator::Less, 8, 9),
        Binary(BinaryOperator::Equal, 6, 10),
    ];
    build(alloc, bank, &[x, y], &nodes)
}

/// Guard 2 of a product: that of twice the width is that of the width, extended.
fn product_fits(alloc: Global, bank: &mut Bank, x: TermId, y: TermId) -> Result<TermId, AllocError>
    requires x_within { x < length bank.old }
    requires y_within { y < length bank.old }
    ensures { Builds bank.old bank.new result
        (guards.product_fits (tree_at bank.old x) (tree_at bank.old y)) }
{
    let nodes = [
        Binary(MULTIPLY, 0, 1),
        Unary(UnaryOperator::SignExtend(Width::W64), 2),
        Unary(UnaryOperator::SignExtend(Width::W64), 0),
        Unary(UnaryOperator::SignExtend(Width::W64), 1),
        Binary(MULTIPLY, 4, 5),
        Binary(BinaryOperator::Equal, 3, 6),
    ];
    build(alloc, bank, &[x, y], &nodes)
}

/// Guard 3 of unsigned operands: the divisor is not 0.
fn is_divisor(alloc: Global, bank: &mut Bank, width: Width, y: TermId) -> Result<TermId, AllocError>
    requires { y < length bank.old }
    ensures { Builds bank.old bank.new result (guards.is_divisor width (tree_at bank.old y)) }
{
    let nodes = [
        Leaf(Constant(width, 0)),
        Binary(BinaryOperator::Equal, 0, 1),
        Unary(UnaryOperator::Not, 2),
    ];
    build(alloc, bank, &[y], &nodes)
}

/// Guard 3 of signed operands: nor is it the least value by -1.
fn can_divide(
    alloc: Global,
    bank: &mut Bank,
    width: Width,
    x: TermId,
    y: TermId,
) -> Result<TermId, AllocError>
    requires x_within { x < length bank.old }
    requires y_within { y < length bank.old }
    ensures { Builds bank.old bank.new result (and_term
        (guards.is_divisor width (tree_at bank.old y))
        (guards.has_quotient width (tree_at bank.old x) (tree_at bank.old y))) }
{
    let nodes = [
        Leaf(Constant(width, 0)),
        Binary(BinaryOperator::Equal, 1, 2),
        Unary(UnaryOperator::Not, 3),
        Leaf(Constant(width, sign_bit(width))),
        Binary(BinaryOperator::Equal, 0, 5),
        Leaf(Constant(width, all_ones(width))),
        Binary(BinaryOperator::Equal, 1, 7),
        Binary(BinaryOperator::And, 6, 8),
        Unary(UnaryOperator::Not, 9),
        Binary(BinaryOperator::And, 4, 10),
    ];
    build(alloc, bank, &[x, y], &nodes)
}

/// Guard 3.
fn division_test(
    alloc: Global,
    bank: &mut Bank,
    of: Scalar,
    x: TermId,
    y: TermId,
) -> Result<TermId, AllocError>
    requires x_within { x < length bank.old }
    requires y_within { y < length bank.old }
    ensures { Builds bank.old bank.new result
        (guards.division_test of (tree_at bank.old x) (tree_at bank.old y)) }
{
    let width = width_of(of);
    if of.is_signed {
        can_divide(alloc, bank, width, x, y)
    } else {
        is_divisor(alloc, bank, width, y)
    }
}

/// Guard 4: the count is below the width. It is a word of its own type; one below 0 is a great one.
fn count_test(
    alloc: Global,
    bank: &mut Bank,
    of: Scalar,
    count: Scalar,
    y: TermId,
) -> Result<TermId, AllocError>
    requires { y < length bank.old }
    ensures { Builds bank.old bank.new result
        (guards.count_test of count (tree_at bank.old y)) }
{
    let nodes = [
        Leaf(Constant(width_of(count), u64::from(of.width))),
        Binary(BinaryOperator::Less, 0, 1),
    ];
    build(alloc, bank, &[y], &nodes)
}

/// A test that there is.
fn some(test: Result<TermId, AllocError>) -> Result<Option<TermId>, AllocError>
    ensures { (old new : List Term) (t : Term) → Builds old new test t
        → BuildsTest old new result (t ∷ []) }
{
    let test = attempt!(test);
    Ok(Some(test))
}

/// Guard 2 of a sum.
fn sum_test(
    alloc: Global,
    bank: &mut Bank,
    of: Scalar,
    x: TermId,
    y: TermId,
) -> Result<Option<TermId>, AllocError>
    requires x_within { x < length bank.old }
    requires y_within { y < length bank.old }
    ensures { BuildsTest bank.old bank.new result (guards.if_signed_test of
        (guards.sum_fits (width_of of) (tree_at bank.old x) (tree_at bank.old y))) }
{
    if !of.is_signed {
        return Ok(None);
    }
    let test = sum_fits(alloc, bank, width_of(of), x, y);
    some(test)
}

/// Guard 2 of a difference.
fn difference_test(
    alloc: Global,
    bank: &mut Bank,
    of: Scalar,
    x: TermId,
    y: TermId,
) -> Result<Option<TermId>, AllocError>
    requires x_within { x < length bank.old }
    requires y_within { y < length bank.old }
    ensures { BuildsTest bank.old bank.new result (guards.if_signed_test of
        (guards.difference_fits (width_of of) (tree_at bank.old x) (tree_at bank.old y))) }
{
    if !of.is_signed {
        return Ok(None);
    }
    let test = difference_fits(alloc, bank, width_of(of), x, y);
    some(test)
}

/// Guard 2 of a product.
fn product_test(
    alloc: Global,
    bank: &mut Bank,
    of: Scalar,
    x: TermId,
    y: TermId,
) -> Result<Option<TermId>, AllocError>
    requires x_within { x < length bank.old }
    requires y_within { y < length bank.old }
    ensures { BuildsTest bank.old bank.new result (guards.if_signed_test of
        (guards.product_fits (tree_at bank.old x) (tree_at bank.old y))) }
{
    if !of.is_signed {
        return Ok(None);
    }
    let test = product_fits(alloc, bank, x, y);
    some(test)
}

/// The test of the guard that an operator may break, if any: 2, 3 or 4. `second` is the type of the
/// right operand.
#[tactic(auto, unfolding(c_graph_spec::specs::Guards::operator_tests))]
pub(crate) fn operator_test(
    alloc: Global,
    bank: &mut Bank,
    operator: Arithmetic,
    of: Scalar,
    second: Scalar,
    x: TermId,
    y: TermId,
) -> Result<Option<TermId>, AllocError>
    requires x_within { x < length bank.old }
    requires y_within { y < length bank.old }
    ensures { BuildsTest bank.old bank.new result (guards.operator_tests operator of second
        (tree_at bank.old x) (tree_at bank.old y)) }
{
    match operator {
        Arithmetic::Add => sum_test(alloc, bank, of, x, y),
        Arithmetic::Subtract => difference_test(alloc, bank, of, x, y),
        Arithmetic::Multiply => product_test(alloc, bank, of, x, y),
        Arithmetic::Divide | Arithmetic::Remainder => {
            let test = division_test(alloc, bank, of, x, y);
            some(test)
        }
        Arithmetic::ShiftLeft | Arithmetic::ShiftRight => {
            let test = count_test(alloc, bank, of, second, y);
            some(test)
        }
        Arithmetic::And | Arithmetic::Or | Arithmetic::Xor => Ok(None),
    }
}
