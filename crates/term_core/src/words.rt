// Words of a width as numbers.

ghost use Rattle.std.specs.Prelude.{◌≡◌, ◌+◌, ◌-◌, ◌*◌, ◌/◌, ◌%◌, ◌^◌, ◌==◌, ◌<◌, ◌≤◌};
ghost use Rattle.std.specs.Prelude.{if◌then◌else◌, nat_lt};
ghost use Rattle.term_core_spec.specs.Sort.{bits};
ghost use Rattle.term_core_spec.specs.Value.{low_bits, is_negative, ones_if, shifted_with_sign};
ghost use Rattle.term_core_spec.specs.Value.{operation};

use term_core_spec::{Width, WordOperator};

/// How many bits a word of the width has.
pub fn bit_count(width: Width) -> u32
    ensures value { result ≡ bits width }
    ensures most { result ≤ 64 }
{
    match width {
        Width::W8 => 8,
        Width::W16 => 16,
        Width::W32 => 32,
        Width::W64 => 64,
    }
}

/// The greatest word of the width.
pub fn all_ones(width: Width) -> u64
    ensures { result ≡ 2 ^ bits width - 1 }
{
    match width {
        Width::W8 => 0xff,
        Width::W16 => 0xffff,
        Width::W32 => 0xffff_ffff,
        Width::W64 => u64::MAX,
    }
}

/// The low bits of a number that a word of the width has.
pub fn low_bits(width: Width, number: u64) -> u64
    ensures { result ≡ low_bits (bits width) number }
{
    match width {
        Width::W8 => number % 0x100,
        Width::W16 => number % 0x1_0000,
        Width::W32 => number % 0x1_0000_0000,
        Width::W64 => number,
    }
}

/// Whether the top bit of a word is set.
pub fn is_negative(width: Width, number: u64) -> bool
    ensures { result ≡ is_negative (bits width) number }
{
    match width {
        Width::W8 => number >= 0x80,
        Width::W16 => number >= 0x8000,
        Width::W32 => number >= 0x8000_0000,
        Width::W64 => number >= 0x8000_0000_0000_0000,
    }
}

fn sum(width: Width, a: u64, b: u64) -> u64
    ensures { result ≡ low_bits (bits width) (a + b) }
{
    low_bits(width, a.wrapping_add(b))
}

fn difference(width: Width, a: u64, b: u64) -> u64
    ensures { result ≡ low_bits (bits width) (a + (2 ^ bits width - low_bits (bits width) b)) }
{
    low_bits(width, a.wrapping_sub(low_bits(width, b)))
}

fn product(width: Width, a: u64, b: u64) -> u64
    ensures { result ≡ low_bits (bits width) (a * b) }
{
    low_bits(width, a.wrapping_mul(b))
}

fn shifted_left(width: Width, a: u64, places: u64) -> u64
    ensures { result ≡ (if nat_lt places (bits width) then low_bits (bits width)
        (a * 2 ^ places) else 0) }
{
    if places < u64::from(bit_count(width)) {
        low_bits(width, a << places)
    } else {
        0
    }
}

fn shifted_right(width: Width, a: u64, places: u64) -> u64
    ensures { result ≡ (if nat_lt places (bits width) then a / 2 ^ places else 0) }
{
    if places < u64::from(bit_count(width)) {
        a >> places
    } else {
        0
    }
}

/// A word with its top bit taken into all bits above it, at another width.
pub fn extended_with_sign(from: Width, to: Width, number: u64) -> u64
    ensures { result ≡ low_bits (bits to)
        (number + ones_if (is_negative (bits from) number) (bits from) (bits to)) }
{
    if is_negative(from, number) {
        let ones = all_ones(to).saturating_sub(all_ones(from));
        low_bits(to, number.wrapping_add(ones))
    } else {
        low_bits(to, number)
    }
}

// The top bits that come in where a word is moved down.
fn top_ones(width: Width, places: u64) -> u64
    requires { places < bits width }
    ensures { result ≡ 2 ^ bits width - 2 ^ (bits width - places) }
{
    let ones = all_ones(width);
    let _most = bit_count(width);
    ones - (ones >> places)
}

fn moved_with_sign(width: Width, a: u64, places: u64) -> u64
    requires { places < bits width }
    ensures { result ≡ shifted_with_sign (bits width) a places }
{
    let top = if is_negative(width, a) {
        top_ones(width, places)
    } else {
        0
    };
    let _most = bit_count(width);
    low_bits(width, (a >> places).wrapping_add(top))
}

fn shifted_right_with_sign(width: Width, a: u64, places: u64) -> u64
    ensures { result ≡ (if nat_lt places (bits width) then shifted_with_sign
        (bits width) a places else ones_if (is_negative (bits width) a) 0 (bits width)) }
{
    if places < u64::from(bit_count(width)) {
        moved_with_sign(width, a, places)
    } else if is_negative(width, a) {
        all_ones(width)
    } else {
        0
    }
}

fn quotient(width: Width, a: u64, b: u64) -> u64
    ensures { result ≡ (if b == 0 then 2 ^ bits width - 1 else a / b) }
{
    if b == 0 { all_ones(width) } else { a / b }
}

fn rest(a: u64, b: u64) -> u64
    ensures { result ≡ (if b == 0 then a else a % b) }
{
    if b == 0 { a } else { a % b }
}

/// What an operation gives at two words of the width.
#[tactic(auto, unfolding(term_core_spec::specs::Value::operation))]
pub fn operate(operator: WordOperator, width: Width, a: u64, b: u64) -> u64
    ensures { result ≡ operation operator (bits width) a b }
{
    match operator {
        WordOperator::Add => sum(width, a, b),
        WordOperator::Subtract => difference(width, a, b),
        WordOperator::Multiply => product(width, a, b),
        WordOperator::And => a & b,
        WordOperator::Or => a | b,
        WordOperator::Xor => a ^ b,
        WordOperator::ShiftLeft => shifted_left(width, a, b),
        WordOperator::ShiftRight => shifted_right(width, a, b),
        WordOperator::ShiftRightSigned => shifted_right_with_sign(width, a, b),
        WordOperator::Divide => quotient(width, a, b),
        WordOperator::Remainder => rest(a, b),
    }
}

/// One byte of a number, 0 the lowest.
pub fn byte_at(number: u64, place: u8) -> u64
    ensures { result ≡ low_bits 8 (number / 2 ^ (8 * place)) }
{
    if place < 8 {
        (number >> (8 * place)) % 0x100
    } else {
        0
    }
}
