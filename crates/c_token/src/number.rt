//! Numbers: their extent, their value and their type.

ghost use Rattle.std.specs.Prelude.{◌≡◌, ◌≤◌, ◌<◌, ◌^◌, length, SomeIff};
ghost use Rattle.std.specs.List.{prefix_len};
ghost use Rattle.c_token_spec.specs.Words.{entry_of};
ghost use Rattle.c_token_spec.specs.Numbers.{goes_on, number_len, is_digit_to, digit_value};
ghost use Rattle.c_token_spec.specs.Numbers.{digits_value};
ghost use Rattle.c_token_spec.specs.Numbers.{suffixes, type_of, number_to, number_of};

use crate::word::{entry_of, is_word_byte};
use c_token_spec::token::{NumberType, Suffix};

const PLAIN: Suffix = Suffix {
    is_unsigned: false,
    is_long_long: false,
};

const UNSIGNED: Suffix = Suffix {
    is_unsigned: true,
    is_long_long: false,
};

const LONG_LONG: Suffix = Suffix {
    is_unsigned: false,
    is_long_long: true,
};

const UNSIGNED_LONG_LONG: Suffix = Suffix {
    is_unsigned: true,
    is_long_long: true,
};

/// The suffixes, each with its spelling.
static SUFFIXES: [(&[u8], Suffix); 23] = [
    (b"", PLAIN),
    (b"l", PLAIN),
    (b"L", PLAIN),
    (b"u", UNSIGNED),
    (b"U", UNSIGNED),
    (b"ul", UNSIGNED),
    (b"uL", UNSIGNED),
    (b"Ul", UNSIGNED),
    (b"UL", UNSIGNED),
    (b"lu", UNSIGNED),
    (b"lU", UNSIGNED),
    (b"Lu", UNSIGNED),
    (b"LU", UNSIGNED),
    (b"ll", LONG_LONG),
    (b"LL", LONG_LONG),
    (b"ull", UNSIGNED_LONG_LONG),
    (b"uLL", UNSIGNED_LONG_LONG),
    (b"Ull", UNSIGNED_LONG_LONG),
    (b"ULL", UNSIGNED_LONG_LONG),
    (b"llu", UNSIGNED_LONG_LONG),
    (b"llU", UNSIGNED_LONG_LONG),
    (b"LLu", UNSIGNED_LONG_LONG),
    (b"LLU", UNSIGNED_LONG_LONG),
];

/// Whether a byte continues a number after another byte of it.
fn goes_on(before: u8, byte: u8) -> bool
    ensures { result ≡ goes_on before byte }
{
    is_word_byte(byte)
        || byte == b'.'
        || (matches!(before, b'e' | b'E' | b'p' | b'P') && matches!(byte, b'+' | b'-'))
}

/// How many bytes of a text continue a number, after a byte of it.
pub fn number_len(before: u8, text: &[u8]) -> usize
    ensures count { result ≡ number_len before text.now }
    ensures within { result ≤ length text.now }
{
    let mut last = before;
    for (count, byte) in text.iter().enumerate() {
        if !goes_on(last, *byte) {
            return count;
        }
        last = *byte;
    }
    text.len()
}

/// Whether a byte is a digit to base 8, 10 or 16.
pub fn is_digit_to(base: u8, byte: u8) -> bool
    requires { base ≤ 16 }
    ensures { result ≡ is_digit_to base byte }
{
    (b'0' <= byte && byte < 58 && byte < 48 + base)
        || (base == 16 && matches!(byte, b'A'..=b'F' | b'a'..=b'f'))
}

/// How many digits a text begins with.
#[tactic(auto, using(crate::proofs::Fronts::fronts))]
pub fn count_digits(base: u8, text: &[u8]) -> usize
    requires { base ≤ 16 }
    ensures count { result ≡ prefix_len (is_digit_to base) text.now }
    ensures within { result ≤ length text.now }
{
    text.iter()
        .take_while(|byte| is_digit_to(base, **byte))
        .count()
}

/// The value of a digit.
fn digit_value(byte: u8) -> u64
    ensures { result ≡ digit_value byte }
{
    let below = if byte < 58 {
        48
    } else if byte < 71 {
        55
    } else {
        87
    };
    byte.saturating_sub(below) as u64
}

/// The value of some digits, if it is below 2^64.
pub fn digits_value(base: u8, digits: &[u8]) -> Option<u64>
    requires { 0 < base }
    ensures { SomeIff result (digits_value base digits.now < 2 ^ 64)
        (digits_value base digits.now) }
{
    let mut value: u64 = 0;
    for digit in digits {
        value = value
            .checked_mul(base as u64)?
            .checked_add(digit_value(*digit))?;
    }
    Some(value)
}

/// The suffix that a text is.
fn suffix_of(text: &[u8]) -> Option<Suffix>
    ensures { result ≡ entry_of suffixes text.now }
{
    entry_of(&SUFFIXES, text)
}

/// The first type of C11's list that holds the value.
fn type_of(is_decimal: bool, suffix: Suffix, value: u64) -> Option<NumberType>
    ensures { result ≡ type_of is_decimal suffix value }
{
    let may_be_unsigned = suffix.is_unsigned || !is_decimal;
    if !suffix.is_unsigned && !suffix.is_long_long && value < 0x8000_0000 {
        return Some(NumberType::SignedInt);
    }
    if may_be_unsigned && !suffix.is_long_long && value < 0x1_0000_0000 {
        return Some(NumberType::UnsignedInt);
    }
    if !suffix.is_unsigned && value < 0x8000_0000_0000_0000 {
        return Some(NumberType::SignedLongLong);
    }
    if may_be_unsigned {
        return Some(NumberType::UnsignedLongLong);
    }
    None
}

/// Digits and a suffix.
fn number_to(base: u8, text: &[u8]) -> Option<(u64, NumberType)>
    requires low { 0 < base }
    requires high { base ≤ 16 }
    ensures { result ≡ number_to base text.now }
{
    let (digits, rest) = text.split_at(count_digits(base, text));
    if digits.is_empty() {
        return None;
    }
    let suffix = suffix_of(rest)?;
    let value = digits_value(base, digits)?;
    let number_type = type_of(base == 10, suffix, value)?;
    Some((value, number_type))
}

/// The value and the type of a number.
#[tactic(auto, unfolding(c_token_spec::specs::Numbers::number_of))]
pub fn number_of(text: &[u8]) -> Option<(u64, NumberType)>
    ensures { result ≡ number_of text.now }
{
    match text {
        [b'0', b'x' | b'X', digits @ ..] => number_to(16, digits),
        [b'0', ..] => number_to(8, text),
        _ => number_to(10, text),
    }
}
