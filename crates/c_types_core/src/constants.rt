//! Types of expressions of the typed core, and the values of constant ones (6.6).

ghost use Rattle.std.specs.Prelude.{◌≡◌, ◌↔◌, IfOk, IsTrue, option_map};
ghost use Rattle.c_types_spec.specs.Values as rule;
ghost use Rattle.c_types_spec.specs.Core as tree;
ghost use Rattle.c_types_core.specs.Expressions.{core_of};
ghost use Rattle.c_types_core.specs.Widths.{HasWidth, IsConverted, IsOperated};

use crate::expression::Core;
use crate::values::{TooWide, arithmetic_value, comparison_value, convert};
use attempt::attempt;
use c_types_spec::{Arithmetic, Comparison, INT_WIDTH, POINTER_WIDTH, Scalar};

/// `int`
pub const INT: Scalar = Scalar {
    width: INT_WIDTH,
    is_signed: true,
};

/// The type of a pointer's value, and of `sizeof`.
pub const WORD: Scalar = Scalar {
    width: POINTER_WIDTH,
    is_signed: false,
};

/// The type of an expression's value.
#[tactic(auto, using(crate::proofs::Views::views))]
pub fn type_of(x: &Core<'_>) -> Scalar
    ensures { result ≡ tree.type_of (core_of x.now) }
{
    match x {
        Core::Constant(of, _) | Core::ReadLocal(of, _, _) | Core::Target(of, _) => *of,
        Core::Load(of, _, _, _) | Core::Convert(of, _) | Core::Operate(_, of, _, _, _) => *of,
        Core::Choose(of, _, _, _) => *of,
        Core::GlobalAddress(_) | Core::Move(_, _, _, _, _, _) | Core::Aligned(_, _, _) => WORD,
        Core::Compare(_, _, _) => INT,
        Core::Within(_, index, _) => type_of(index),
    }
}

/// The program computes with values of the type.
pub fn has_width(of: Scalar) -> bool
    ensures { IsTrue result ↔ HasWidth of }
{
    0 < of.width && of.width <= 64
}

/// A value in another type, exactly where the program computes with that.
pub fn value_in(of: Scalar, value: i128) -> Result<i128, TooWide>
    ensures { IsConverted of value result }
{
    if !has_width(of) {
        return Err(TooWide);
    }
    Ok(convert(value, of))
}

/// A constant in another type.
fn converted(of: Scalar, value: Option<i128>) -> Result<Option<i128>, TooWide>
    ensures { IfOk result (λ r. r ≡ option_map (λ v. rule.converted of v) value) }
{
    match value {
        Some(value) => Ok(Some(attempt!(value_in(of, value)))),
        None => Ok(None),
    }
}

/// The value of an operator on two values, exactly where the program computes with the type and the
/// number that it takes.
pub fn operator_value(
    operator: Arithmetic,
    of: Scalar,
    left: i128,
    right: i128,
) -> Result<Option<i128>, TooWide>
    ensures { IsOperated operator of left right result }
{
    if !has_width(of) {
        return Err(TooWide);
    }
    arithmetic_value(operator, of, left, right)
}

/// An operator on constants.
fn operated(
    operator: Arithmetic,
    of: Scalar,
    left: Option<i128>,
    right: Option<i128>,
) -> Result<Option<i128>, TooWide>
    ensures { IfOk result (λ r. r ≡ tree.with_both left right (λ a b. rule.arithmetic_value
        operator of a b)) }
{
    match (left, right) {
        (Some(a), Some(b)) => operator_value(operator, of, a, b),
        _ => Ok(None),
    }
}

/// A comparison of constants.
fn compared(operator: Comparison, left: Option<i128>, right: Option<i128>) -> Option<i128>
    ensures { result ≡ tree.with_both left right
        (λ a b. Some (rule.comparison_value operator a b)) }
{
    match (left, right) {
        (Some(a), Some(b)) => Some(comparison_value(operator, a, b)),
        _ => None,
    }
}

/// One of two constants.
fn chosen(test: Option<i128>, first: Option<i128>, second: Option<i128>) -> Option<i128>
    ensures { result ≡ tree.chosen test first second }
{
    match test {
        Some(test) => if test == 0 { second } else { first },
        None => None,
    }
}

/// The value that an expression has in every state; none where it depends on the state, or breaks
/// a guard.
#[tactic(auto, using(crate::proofs::Views::views), unfolding(c_types_spec::specs::Core::constant_value),)]
pub fn constant_value(x: &Core<'_>) -> Result<Option<i128>, TooWide>
    ensures { IfOk result (λ r. r ≡ tree.constant_value (core_of x.now)) }
{
    match x {
        Core::Constant(_, value) => Ok(Some(*value)),
        Core::Convert(of, operand) => converted(*of, attempt!(constant_value(operand))),
        Core::Operate(operator, of, left, right, _) => {
            let a = attempt!(constant_value(left));
            let b = attempt!(constant_value(right));
            operated(*operator, *of, a, b)
        }
        Core::Compare(operator, left, right) => {
            let a = attempt!(constant_value(left));
            let b = attempt!(constant_value(right));
            Ok(compared(*operator, a, b))
        }
        Core::Choose(_, test, first, second) => {
            let c = attempt!(constant_value(test));
            let a = attempt!(constant_value(first));
            let b = attempt!(constant_value(second));
            Ok(chosen(c, a, b))
        }
        Core::ReadLocal(_, _, _) | Core::GlobalAddress(_) | Core::Load(_, _, _, _) => Ok(None),
        Core::Target(_, _) | Core::Move(_, _, _, _, _, _) => Ok(None),
        Core::Within(_, _, _) | Core::Aligned(_, _, _) => Ok(None),
    }
}
