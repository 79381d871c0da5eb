// Values, and what the operators give at them.

ghost use Rattle.std.specs.Prelude.{◌≡◌, ℕ, ◌+◌, ◌*◌, ◌^◌, [], ◌∷◌, IfSome, ◌<◌, ◌&&◌, ◌||◌, ◌++◌};
ghost use Rattle.std.specs.Prelude.{nat_lt, if◌then◌else◌, IfOk, option_map};
ghost use Rattle.term_core_spec.specs.Sort.{bits};
ghost use Rattle.term_core_spec.specs.Value as spec;
ghost use Rattle.term_core.specs.Memory.{bytes_of};
ghost use Rattle.term_core.specs.Values.{value_of, four_more};

use crate::memory::Memory;
use crate::words::{all_ones, bit_count, byte_at, extended_with_sign, low_bits, operate};
use attempt::attempt;
use std::alloc::AllocError;
use term_core_spec::{
    BinaryOperator, QuaternaryOperator, TernaryOperator, UnaryOperator, Width, WordOperator,
};

/// The value of a term.
#[derive(Debug, Drop)]
pub enum Value {
    /// a truth value
    Truth(bool),
    /// a word of a width
    Number(Width, u64),
    /// a memory
    Bytes(Memory),
}

impl Value {
    /// The same value, in memory of its own.
    pub fn copy(&self) -> Result<Value, AllocError>
        ensures { IfOk result (λ v. value_of v ≡ value_of self.now) }
    {
        match self {
            Value::Truth(truth) => Ok(Value::Truth(*truth)),
            Value::Number(width, number) => Ok(Value::Number(*width, *number)),
            Value::Bytes(memory) => Ok(Value::Bytes(attempt!(memory.copy()))),
        }
    }
}

// The value of what is not well sorted.
fn stray() -> Value
    ensures { value_of result ≡ spec.stray }
{
    Value::Truth(false)
}

/// What an operator gives at one value.
#[tactic(auto, unfolding(term_core_spec::specs::Value::unary_value))]
pub fn unary(operator: UnaryOperator, value: &Value) -> Value
    ensures { value_of result ≡ spec.unary_value operator (value_of value.now) }
{
    match value {
        Value::Truth(truth) => on_truth(operator, *truth),
        Value::Number(width, number) => on_word(operator, *width, *number),
        Value::Bytes(_) => stray(),
    }
}

#[tactic(auto, unfolding(term_core_spec::specs::Value::unary_value))]
fn on_truth(operator: UnaryOperator, truth: bool) -> Value
    ensures { value_of result ≡ spec.unary_value operator (spec.Truth truth) }
{
    match operator {
        UnaryOperator::Not => Value::Truth(!truth),
        _ => stray(),
    }
}

#[tactic(auto, unfolding(term_core_spec::specs::Value::unary_value))]
fn on_word(operator: UnaryOperator, width: Width, number: u64) -> Value
    ensures { value_of result ≡ spec.unary_value operator (spec.Number width number) }
{
    match operator {
        UnaryOperator::Not => stray(),
        UnaryOperator::Complement => {
            Value::Number(width, all_ones(width).wrapping_sub(low_bits(width, number)))
        }
        UnaryOperator::ZeroExtend(to) => Value::Number(to, number),
        UnaryOperator::SignExtend(to) => Value::Number(to, extended_with_sign(width, to, number)),
        UnaryOperator::Low(to) => Value::Number(to, low_bits(to, number)),
        UnaryOperator::Byte(place) => Value::Number(Width::W8, byte_at(number, place)),
    }
}

/// The number of a byte, where the value is one.
pub fn byte_of(value: &Value) -> Option<u8>
    ensures { result ≡ spec.byte_of (value_of value.now) }
{
    match value {
        Value::Number(Width::W8, number) => Some((number % 0x100) as u8),
        _ => None,
    }
}

// The word that a number is, where there is one.
fn word_or_stray(width: Width, number: Option<u64>) -> Value
    ensures { value_of result ≡ spec.word_or_stray width number }
{
    match number {
        Some(number) => Value::Number(width, number),
        None => stray(),
    }
}

fn number_of_two(a: Option<u8>, b: Option<u8>) -> Option<u64>
    ensures { result ≡ spec.number_of_bytes (a ∷ b ∷ []) }
{
    Some(u64::from(a?) + 0x100 * u64::from(b?))
}

fn number_of_four(bytes: [Option<u8>; 4]) -> Option<u64>
    ensures value { result ≡ spec.number_of_bytes bytes }
    ensures below { IfSome result (λ n. n < 2 ^ 32) }
{
    let [a, b, c, d] = bytes;
    let low = u64::from(a?) + 0x100 * u64::from(b?);
    Some(low + 0x1_0000 * (u64::from(c?) + 0x100 * u64::from(d?)))
}

// Four bytes, and four above them.
fn both_fours(lower: Option<u64>, upper: Option<u64>) -> Option<u64>
    requires lower { IfSome lower (λ n. n < 2 ^ 32) }
    requires upper { IfSome upper (λ n. n < 2 ^ 32) }
    ensures { result ≡ four_more lower upper }
{
    match (lower, upper) {
        (Some(lower), Some(upper)) => Some(lower + 0x1_0000_0000 * upper),
        _ => None,
    }
}

// The byte of a memory at an address.
fn load(memory: &Memory, address: &Value) -> Value
    ensures { value_of result ≡ spec.loaded (spec.Bytes (bytes_of memory.now))
        (value_of address.now) }
{
    match address {
        Value::Number(Width::W32, number) => {
            let address = (number % 0x1_0000_0000) as u32;
            Value::Number(Width::W8, u64::from(memory.byte(address)))
        }
        _ => stray(),
    }
}

fn equal(first: &Value, second: &Value) -> Value
    ensures { value_of result ≡ spec.equal_values (value_of first.now) (value_of second.now) }
{
    match (first, second) {
        (Value::Truth(a), Value::Truth(b)) => Value::Truth(a == b),
        (Value::Number(v, a), Value::Number(w, b)) if bit_count(*v) == bit_count(*w) => {
            Value::Truth(a == b)
        }
        _ => stray(),
    }
}

fn less(first: &Value, second: &Value) -> Value
    ensures { value_of result ≡ spec.on_two_words (λ w a b. spec.Truth (nat_lt a b))
        (value_of first.now) (value_of second.now) }
{
    match (first, second) {
        (Value::Number(v, a), Value::Number(w, b)) if bit_count(*v) == bit_count(*w) => {
            Value::Truth(a < b)
        }
        _ => stray(),
    }
}

fn on_words(operator: WordOperator, first: &Value, second: &Value) -> Value
    ensures { value_of result ≡ spec.on_two_words
        (λ w a b. spec.Number w (spec.operation operator (bits w) a b)) (value_of first.now)
        (value_of second.now) }
{
    match (first, second) {
        (Value::Number(v, a), Value::Number(w, b)) if bit_count(*v) == bit_count(*w) => {
            Value::Number(*v, operate(operator, *v, *a, *b))
        }
        _ => stray(),
    }
}

fn both(first: &Value, second: &Value) -> Value
    ensures { value_of result ≡ spec.on_truths (λ a b. spec.Truth (a && b)) (value_of first.now)
        (value_of second.now) }
{
    match (first, second) {
        (Value::Truth(a), Value::Truth(b)) => Value::Truth(*a && *b),
        _ => stray(),
    }
}

fn either(first: &Value, second: &Value) -> Value
    ensures { value_of result ≡ spec.on_truths (λ a b. spec.Truth (a || b)) (value_of first.now)
        (value_of second.now) }
{
    match (first, second) {
        (Value::Truth(a), Value::Truth(b)) => Value::Truth(*a || *b),
        _ => stray(),
    }
}

/// What an operator gives at two values.
#[tactic(auto, unfolding(term_core_spec::specs::Value::binary_value))]
pub fn binary(operator: BinaryOperator, first: &Value, second: &Value) -> Value
    ensures { value_of result ≡ spec.binary_value operator (value_of first.now)
        (value_of second.now) }
{
    match operator {
        BinaryOperator::And => both(first, second),
        BinaryOperator::Or => either(first, second),
        BinaryOperator::Equal => equal(first, second),
        BinaryOperator::Less => less(first, second),
        BinaryOperator::Word(operator) => on_words(operator, first, second),
        BinaryOperator::Load => match first {
            Value::Bytes(memory) => load(memory, second),
            _ => stray(),
        },
        BinaryOperator::Join => word_or_stray(
            Width::W16,
            number_of_two(byte_of(first), byte_of(second)),
        ),
    }
}

// The memory with one byte changed.
fn store(memory: &Memory, address: &Value, byte: &Value) -> Result<Value, AllocError>
    ensures { IfOk result (λ v. value_of v
        ≡ spec.stored (spec.Bytes (bytes_of memory.now)) (value_of address.now)
        (value_of byte.now)) }
{
    match (address, byte) {
        (Value::Number(Width::W32, number), Value::Number(Width::W8, byte)) => {
            let address = (number % 0x1_0000_0000) as u32;
            let byte = (byte % 0x100) as u8;
            Ok(Value::Bytes(memory.with(address, byte)?))
        }
        _ => Ok(stray()),
    }
}

fn choose(test: &Value, first: &Value, second: &Value) -> Result<Value, AllocError>
    ensures { IfOk result (λ v. value_of v
        ≡ spec.chosen (value_of test.now) (value_of first.now) (value_of second.now)) }
{
    match test {
        Value::Truth(true) => first.copy(),
        Value::Truth(false) => second.copy(),
        _ => Ok(stray()),
    }
}

/// What an operator gives at three values.
#[tactic(auto, unfolding(term_core_spec::specs::Value::ternary_value))]
pub fn ternary(
    operator: TernaryOperator,
    first: &Value,
    second: &Value,
    third: &Value,
) -> Result<Value, AllocError>
    ensures { IfOk result (λ v. value_of v
        ≡ spec.ternary_value operator (value_of first.now) (value_of second.now)
        (value_of third.now)) }
{
    match operator {
        TernaryOperator::Choose => choose(first, second, third),
        TernaryOperator::Store => match first {
            Value::Bytes(memory) => store(memory, second, third),
            _ => Ok(stray()),
        },
    }
}

// A memory with the bytes of another between two addresses.
fn over(memory: &Memory, zone: &Value, low: &Value, high: &Value) -> Result<Value, AllocError>
    ensures { IfOk result (λ v. value_of v
        ≡ spec.laid_over (spec.Bytes (bytes_of memory.now)) (value_of zone.now) (value_of low.now)
        (value_of high.now)) }
{
    match (zone, low, high) {
        (Value::Bytes(zone), Value::Number(Width::W32, low), Value::Number(Width::W32, high)) => {
            Ok(Value::Bytes(memory.over(zone, *low, *high)?))
        }
        _ => Ok(stray()),
    }
}

/// What an operator gives at four values.
#[tactic(auto, unfolding(term_core_spec::specs::Value::quaternary_value))]
pub fn quaternary(
    operator: QuaternaryOperator,
    first: &Value,
    second: &Value,
    third: &Value,
    fourth: &Value,
) -> Result<Value, AllocError>
    ensures { IfOk result (λ v. value_of v
        ≡ spec.quaternary_value operator (value_of first.now) (value_of second.now)
        (value_of third.now) (value_of fourth.now)) }
{
    match operator {
        QuaternaryOperator::Over => match first {
            Value::Bytes(memory) => over(memory, second, third, fourth),
            _ => Ok(stray()),
        },
        QuaternaryOperator::Join => {
            let bytes = [
                byte_of(first),
                byte_of(second),
                byte_of(third),
                byte_of(fourth),
            ];
            Ok(word_or_stray(Width::W32, number_of_four(bytes)))
        }
    }
}

/// The word of eight bytes, the lowest first, where all are there.
#[tactic(auto, using(crate::proofs::Bytes::joined_four))]
pub fn octonary(
    a: Option<u8>,
    b: Option<u8>,
    c: Option<u8>,
    d: Option<u8>,
    high: [Option<u8>; 4],
) -> Value
    ensures { value_of result ≡ spec.word_or_stray Width.W64
        (spec.number_of_bytes (a ∷ b ∷ c ∷ d ∷ high)) }
{
    let low = number_of_four([a, b, c, d]);
    word_or_stray(Width::W64, both_fours(low, number_of_four(high)))
}
