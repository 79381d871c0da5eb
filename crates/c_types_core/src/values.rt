//! Values of scalar types (6.3.1.3, 6.5): a value is an `i128`, and a type has from 1 to 64 bits.

ghost use Rattle.std.specs.Prelude.{◌≡◌, ◌≤◌, ◌<◌, ◌^◌, pos};
ghost use Rattle.c_types_spec.specs.Values as rule;
ghost use Rattle.c_types_spec.specs.declared.Arithmetic.TheVariants as arithmetic;
ghost use Rattle.c_types_core.specs.Widths.{Computes, HasWidth, IsWhere};

use attempt::attempt;
use c_types_spec::{Arithmetic, Comparison, Scalar};

/// A value or a type is wider than the program computes with; those of a typed core are not.
#[derive(Clone, Copy)]
pub struct TooWide;

/// 2^exponent, for an exponent up to 64.
fn power(exponent: u32) -> i128
    requires { exponent ≤ 64 }
    ensures { result ≡ pos (2 ^ exponent) }
{
    2i128.pow(exponent)
}

/// The low bits of a value in two's complement.
pub fn bits_of(width: u32, value: i128) -> u64
    requires low { 0 < width }
    requires high { width ≤ 64 }
    ensures { result ≡ rule.bits_of width value }
{
    value.rem_euclid(power(width)) as u64
}

/// The value of a type that has these bits.
fn of_bits(of: Scalar, bits: u64) -> i128
    requires { HasWidth of }
    ensures { result ≡ rule.of_bits of bits }
{
    if of.is_signed && bits as i128 >= power(of.width - 1) {
        bits as i128 - power(of.width)
    } else {
        bits as i128
    }
}

/// A value converted to a type (6.3.1.3).
#[tactic(auto, unfolding(c_types_spec::specs::Values::converted))]
pub fn convert(value: i128, of: Scalar) -> i128
    requires { HasWidth of }
    ensures { result ≡ rule.converted of value }
{
    of_bits(of, bits_of(of.width, value))
}

/// The value is one of the type.
fn is_of(of: Scalar, value: i128) -> bool
    requires { HasWidth of }
    ensures { result ≡ rule.is_of of value }
{
    convert(value, of) == value
}

/// The result of `+`, `-` or `*` from its mathematical value (6.5p5), or none.
fn computed(of: Scalar, value: i128) -> Option<i128>
    requires { HasWidth of }
    ensures { result ≡ rule.computed of value }
{
    if of.is_signed && !is_of(of, value) {
        None
    } else {
        Some(convert(value, of))
    }
}

#[tactic(auto, unfolding(c_types_spec::specs::Values::arithmetic_value))]
fn sum(of: Scalar, left: i128, right: i128) -> Result<Option<i128>, TooWide>
    requires { HasWidth of }
    ensures { IsWhere (Computes arithmetic.Add left right)
        (rule.arithmetic_value arithmetic.Add of left right) result }
{
    match left.checked_add(right) {
        Some(value) => Ok(computed(of, value)),
        None => Err(TooWide),
    }
}

#[tactic(auto, unfolding(c_types_spec::specs::Values::arithmetic_value))]
fn difference(of: Scalar, left: i128, right: i128) -> Result<Option<i128>, TooWide>
    requires { HasWidth of }
    ensures { IsWhere (Computes arithmetic.Subtract left right)
        (rule.arithmetic_value arithmetic.Subtract of left right) result }
{
    match left.checked_sub(right) {
        Some(value) => Ok(computed(of, value)),
        None => Err(TooWide),
    }
}

#[tactic(auto, unfolding(c_types_spec::specs::Values::arithmetic_value))]
fn product(of: Scalar, left: i128, right: i128) -> Result<Option<i128>, TooWide>
    requires { HasWidth of }
    ensures { IsWhere (Computes arithmetic.Multiply left right)
        (rule.arithmetic_value arithmetic.Multiply of left right) result }
{
    match left.checked_mul(right) {
        Some(value) => Ok(computed(of, value)),
        None => Err(TooWide),
    }
}

/// The divisor is not 0, and the quotient is one of the type.
fn can_divide(of: Scalar, left: i128, right: i128) -> Result<bool, TooWide>
    requires { HasWidth of }
    ensures { IsWhere (Computes arithmetic.Divide left right)
        (rule.can_divide of left right) result }
{
    if right == 0 {
        return Ok(false);
    }
    match left.checked_div(right) {
        Some(quotient) => Ok(is_of(of, quotient)),
        None => Err(TooWide),
    }
}

#[tactic(auto, unfolding(c_types_spec::specs::Values::arithmetic_value))]
fn quotient(of: Scalar, left: i128, right: i128) -> Result<Option<i128>, TooWide>
    requires { HasWidth of }
    ensures { IsWhere (Computes arithmetic.Divide left right)
        (rule.arithmetic_value arithmetic.Divide of left right) result }
{
    if attempt!(can_divide(of, left, right)) {
        match left.checked_div(right) {
            Some(value) => Ok(Some(value)),
            None => Err(TooWide),
        }
    } else {
        Ok(None)
    }
}

#[tactic(auto, unfolding(c_types_spec::specs::Values::arithmetic_value))]
fn remainder(of: Scalar, left: i128, right: i128) -> Result<Option<i128>, TooWide>
    requires { HasWidth of }
    ensures { IsWhere (Computes arithmetic.Remainder left right)
        (rule.arithmetic_value arithmetic.Remainder of left right) result }
{
    if attempt!(can_divide(of, left, right)) {
        match left.checked_rem(right) {
            Some(value) => Ok(Some(value)),
            None => Err(TooWide),
        }
    } else {
        Ok(None)
    }
}

#[tactic(auto, unfolding(c_types_spec::specs::Values::arithmetic_value))]
fn shifted_left(of: Scalar, left: i128, right: i128) -> Result<Option<i128>, TooWide>
    requires { HasWidth of }
    ensures { IsWhere (Computes arithmetic.ShiftLeft left right)
        (rule.arithmetic_value arithmetic.ShiftLeft of left right) result }
{
    if right < 0 || right >= of.width as i128 {
        return Ok(None);
    }
    match left.checked_mul(power(right as u32)) {
        Some(value) => Ok(Some(convert(value, of))),
        None => Err(TooWide),
    }
}

#[tactic(auto, unfolding(c_types_spec::specs::Values::arithmetic_value))]
fn shifted_right(of: Scalar, left: i128, right: i128) -> Option<i128>
    requires { HasWidth of }
    ensures { result ≡ rule.arithmetic_value arithmetic.ShiftRight of left right }
{
    if right < 0 || right >= of.width as i128 {
        return None;
    }
    Some(convert(left >> (right as u32), of))
}

/// `&`
#[tactic(auto, unfolding(c_types_spec::specs::Values::arithmetic_value))]
fn bitwise_and(of: Scalar, left: i128, right: i128) -> i128
    requires { HasWidth of }
    ensures { rule.arithmetic_value arithmetic.And of left right ≡ Some result }
{
    of_bits(of, bits_of(of.width, left) & bits_of(of.width, right))
}

/// `|`
#[tactic(auto, unfolding(c_types_spec::specs::Values::arithmetic_value))]
fn bitwise_or(of: Scalar, left: i128, right: i128) -> i128
    requires { HasWidth of }
    ensures { rule.arithmetic_value arithmetic.Or of left right ≡ Some result }
{
    of_bits(of, bits_of(of.width, left) | bits_of(of.width, right))
}

/// `^`
#[tactic(auto, unfolding(c_types_spec::specs::Values::arithmetic_value))]
fn bitwise_xor(of: Scalar, left: i128, right: i128) -> i128
    requires { HasWidth of }
    ensures { rule.arithmetic_value arithmetic.Xor of left right ≡ Some result }
{
    of_bits(of, bits_of(of.width, left) ^ bits_of(of.width, right))
}

/// The value of an operator on two values of a type, or none where a guard is broken (6.5). The
/// right operand of a shift has a type of its own. It is too wide exactly where the number that is
/// computed with has more than 128 bits.
#[tactic(auto, unfolding(c_types_spec::specs::Values::arithmetic_value))]
pub fn arithmetic_value(
    operator: Arithmetic,
    of: Scalar,
    left: i128,
    right: i128,
) -> Result<Option<i128>, TooWide>
    requires { HasWidth of }
    ensures { IsWhere (Computes operator left right)
        (rule.arithmetic_value operator of left right) result }
{
    match operator {
        Arithmetic::Add => sum(of, left, right),
        Arithmetic::Subtract => difference(of, left, right),
        Arithmetic::Multiply => product(of, left, right),
        Arithmetic::Divide => quotient(of, left, right),
        Arithmetic::Remainder => remainder(of, left, right),
        Arithmetic::ShiftLeft => shifted_left(of, left, right),
        Arithmetic::ShiftRight => Ok(shifted_right(of, left, right)),
        Arithmetic::And => Ok(Some(bitwise_and(of, left, right))),
        Arithmetic::Or => Ok(Some(bitwise_or(of, left, right))),
        Arithmetic::Xor => Ok(Some(bitwise_xor(of, left, right))),
    }
}

/// 1 where the comparison holds, else 0 (6.5.8, 6.5.9).
#[tactic(auto, unfolding(c_types_spec::specs::Values::comparison_value))]
pub fn comparison_value(operator: Comparison, left: i128, right: i128) -> i128
    ensures { result ≡ rule.comparison_value operator left right }
{
    let holds = match operator {
        Comparison::Equal => left == right,
        Comparison::NotEqual => left != right,
        Comparison::Less => left < right,
        Comparison::Greater => left > right,
        Comparison::LessOrEqual => left <= right,
        Comparison::GreaterOrEqual => left >= right,
    };
    if holds { 1 } else { 0 }
}
