//! The operators of terms that the operators of a certificate are.

ghost use Rattle.std.specs.Prelude.{◌≡◌};
ghost use Rattle.cert_check_terms.specs.Operators.{binary_of, unary_of, width_of};
ghost use Rattle.cert_check_terms.specs.Operators as spec;

use cert_text_spec::Operator;
use term_core_spec::{BinaryOperator, UnaryOperator, Width, WordOperator};

/// The most bytes that a word has.
const MOST_BYTES: u32 = 8;

// The width of so many bits.
fn width(bits: u32) -> Option<Width>
    ensures { result ≡ width_of bits }
{
    if bits == 8 {
        return Some(Width::W8);
    }
    if bits == 16 {
        return Some(Width::W16);
    }
    if bits == 32 {
        return Some(Width::W32);
    }
    if bits == 64 {
        return Some(Width::W64);
    }
    None
}

// The operator to a width, if there is one of so many bits.
fn zero_extend(bits: u32) -> Option<UnaryOperator>
    ensures { result ≡ unary_of (Operator.ZeroExtend bits) }
{
    match width(bits) {
        Some(width) => Some(UnaryOperator::ZeroExtend(width)),
        None => None,
    }
}

fn sign_extend(bits: u32) -> Option<UnaryOperator>
    ensures { result ≡ unary_of (Operator.SignExtend bits) }
{
    match width(bits) {
        Some(width) => Some(UnaryOperator::SignExtend(width)),
        None => None,
    }
}

fn low(bits: u32) -> Option<UnaryOperator>
    ensures { result ≡ unary_of (Operator.Low bits) }
{
    match width(bits) {
        Some(width) => Some(UnaryOperator::Low(width)),
        None => None,
    }
}

// One byte, which some word has.
fn byte(place: u32) -> Option<UnaryOperator>
    ensures { result ≡ unary_of (Operator.Byte place) }
{
    if place < MOST_BYTES {
        Some(UnaryOperator::Byte(place as u8))
    } else {
        None
    }
}

/// The operator with one argument.
pub(crate) fn unary(operator: Operator) -> Option<UnaryOperator>
    ensures { result ≡ unary_of operator }
{
    match operator {
        Operator::Not => Some(UnaryOperator::Not),
        Operator::Complement => Some(UnaryOperator::Complement),
        Operator::ZeroExtend(bits) => zero_extend(bits),
        Operator::SignExtend(bits) => sign_extend(bits),
        Operator::Low(bits) => low(bits),
        Operator::Byte(place) => byte(place),
        _ => None,
    }
}

// The operation on words.
fn operation(operator: Operator) -> Option<WordOperator>
    ensures { result ≡ spec.operation_of operator }
{
    match operator {
        Operator::Add => Some(WordOperator::Add),
        Operator::Subtract => Some(WordOperator::Subtract),
        Operator::Multiply => Some(WordOperator::Multiply),
        Operator::BitAnd => Some(WordOperator::And),
        Operator::BitOr => Some(WordOperator::Or),
        Operator::BitXor => Some(WordOperator::Xor),
        Operator::ShiftLeft => Some(WordOperator::ShiftLeft),
        Operator::ShiftRight => Some(WordOperator::ShiftRight),
        Operator::ShiftRightSigned => Some(WordOperator::ShiftRightSigned),
        Operator::Divide => Some(WordOperator::Divide),
        Operator::Remainder => Some(WordOperator::Remainder),
        _ => None,
    }
}

// An operation on words as an operator with two arguments.
fn on_words(operator: Operator) -> Option<BinaryOperator>
    ensures { result ≡ spec.on_words operator }
{
    match operation(operator) {
        Some(operation) => Some(BinaryOperator::Word(operation)),
        None => None,
    }
}

/// The operator with two arguments.
pub(crate) fn binary(operator: Operator) -> Option<BinaryOperator>
    ensures { result ≡ binary_of operator }
{
    match operator {
        Operator::Equal => Some(BinaryOperator::Equal),
        Operator::Less => Some(BinaryOperator::Less),
        Operator::And => Some(BinaryOperator::And),
        Operator::Or => Some(BinaryOperator::Or),
        Operator::Load => Some(BinaryOperator::Load),
        Operator::Join => Some(BinaryOperator::Join),
        other => on_words(other),
    }
}

/// Whether it is that with three arguments.
pub(crate) fn is_choose(operator: Operator) -> bool
    ensures { result ≡ spec.is_choose operator }
{
    matches!(operator, Operator::Choose)
}

/// Whether it is that with four, or eight.
pub(crate) fn is_join(operator: Operator) -> bool
    ensures { result ≡ spec.is_join operator }
{
    matches!(operator, Operator::Join)
}
