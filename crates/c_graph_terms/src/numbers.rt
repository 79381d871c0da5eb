//! Operators, and numbers that depend on a width.

ghost use Rattle.std.specs.Prelude.{◌≡◌, ◌-◌, ◌/◌, ◌^◌, MatchResult};
ghost use Rattle.term_core_spec.specs.Sort.{bits};
ghost use Rattle.c_types_core.specs.Widths.{HasWidth};
ghost use Rattle.c_types_spec.specs.Values as rule;

use c_types_core::constants::has_width;
use c_types_core::values::bits_of as low_bits;
use c_types_spec::Scalar;
use std::alloc::AllocError;
use term_core_spec::{BinaryOperator, Width, WordOperator};

pub(crate) const ADD: BinaryOperator = BinaryOperator::Word(WordOperator::Add);

pub(crate) const SUBTRACT: BinaryOperator = BinaryOperator::Word(WordOperator::Subtract);

pub(crate) const MULTIPLY: BinaryOperator = BinaryOperator::Word(WordOperator::Multiply);

pub(crate) const MASK: BinaryOperator = BinaryOperator::Word(WordOperator::And);

pub(crate) const XOR: BinaryOperator = BinaryOperator::Word(WordOperator::Xor);

pub(crate) const SHIFT_LEFT: BinaryOperator = BinaryOperator::Word(WordOperator::ShiftLeft);

pub(crate) const DIVIDE: BinaryOperator = BinaryOperator::Word(WordOperator::Divide);

pub(crate) const REMAINDER: BinaryOperator = BinaryOperator::Word(WordOperator::Remainder);

/// The number of the top bit, which is the mask of counts of shifts.
pub(crate) fn top_place(width: Width) -> u64
    ensures { result ≡ bits width - 1 }
{
    match width {
        Width::W8 => 7,
        Width::W16 => 15,
        Width::W32 => 31,
        Width::W64 => 63,
    }
}

/// The word whose top bit alone is set.
pub(crate) fn sign_bit(width: Width) -> u64
    ensures { result ≡ 2 ^ (bits width - 1) }
{
    match width {
        Width::W8 => 0x80,
        Width::W16 => 0x8000,
        Width::W32 => 0x8000_0000,
        Width::W64 => 0x8000_0000_0000_0000,
    }
}

/// The number of the last byte of an object of a type.
pub(crate) fn last_place(width: Width) -> u64
    ensures { result ≡ bits width / 8 - 1 }
{
    match width {
        Width::W8 => 0,
        Width::W16 => 1,
        Width::W32 => 3,
        Width::W64 => 7,
    }
}

/// The bits of a value of a type; out of memory exactly where the type has no bit, or more than 64,
/// as none of a typed core has.
pub(crate) fn bits_of(of: Scalar, value: i128) -> Result<u64, AllocError>
    ensures { MatchResult result (λ n. n ≡ rule.bits_of of.width value)
        (λ _. HasWidth of → ⊥) }
{
    if !has_width(of) {
        return Err(AllocError);
    }
    Ok(low_bits(of.width, value))
}
