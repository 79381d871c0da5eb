// Bits of words, and operators on them.

ghost use Rattle.std.specs.Prelude.{◌≡◌, ◌<◌, List, length};
ghost use Rattle.term_core_spec.specs.Term.{Term};
ghost use Rattle.term_bank.specs.Nodes.{tree_at};
ghost use Rattle.word_steps_spec.specs.Bitwise as spec;
ghost use Rattle.word_steps_spec.specs.Numbers as numbers;
ghost use Rattle.word_steps_rules.specs.Bits.{bit_in, IsBit, AreBits};

use term_bank::{Bank, TermId};

/// A bit that is known, or the bit of a word at a place, from 0 at the lowest.
#[derive(Clone, Copy)]
pub(crate) enum Bit {
    /// 1 or 0
    Fixed(bool),
    /// of this word, at this place
    Of(TermId, usize),
}

/// The bits of both arguments of an operator, and that of the operator itself.
#[derive(Clone, Copy)]
pub(crate) struct Bits {
    /// of the first argument
    pub first: Bit,
    /// of the second argument
    pub second: Bit,
    /// of the operator itself
    pub otherwise: Bit,
}

// Whether two truth values are the same.
fn same_sign(first: bool, second: bool) -> bool
    ensures { result ≡ numbers.same_sign first second }
{
    if first { second } else { !second }
}

// Whether a bit is that of a word at a place.
fn is_of(bank: &Bank, word: TermId, place: usize, bit: Bit) -> bool
    requires word { word < length bank.now }
    requires bit { IsBit (length bank.now) bit }
    ensures { result ≡ spec.same_bit (spec.Of (tree_at bank.now word) place)
        (bit_in bank.now bit) }
{
    bank.are_distinct();
    match bit {
        Bit::Fixed(_) => false,
        Bit::Of(other, at) => place == at && word == other,
    }
}

// Whether a bit is known to be this, the known one second.
fn is_known(is_one: bool, bit: Bit) -> bool
    ensures { (trees : List Term) → result ≡ spec.same_bit (spec.Fixed is_one)
        (bit_in trees bit) }
{
    match bit {
        Bit::Fixed(found) => same_sign(is_one, found),
        Bit::Of(_, _) => false,
    }
}

/// Whether two bits are the same.
pub(crate) fn same_bit(bank: &Bank, first: Bit, second: Bit) -> bool
    requires first { IsBit (length bank.now) first }
    requires second { IsBit (length bank.now) second }
    ensures { result ≡ spec.same_bit (bit_in bank.now first) (bit_in bank.now second) }
{
    match first {
        Bit::Fixed(is_one) => is_known(is_one, second),
        Bit::Of(word, place) => is_of(bank, word, place, second),
    }
}

/// Whether a bit is known to be this.
pub(crate) fn is_fixed(is_one: bool, bit: Bit) -> bool
    ensures { (trees : List Term) → result ≡ spec.is_fixed is_one (bit_in trees bit) }
{
    match bit {
        Bit::Fixed(found) => same_sign(found, is_one),
        Bit::Of(_, _) => false,
    }
}

/// A bit of `band`.
pub(crate) fn and_bit(bank: &Bank, bits: Bits) -> Bit
    requires { AreBits (length bank.now) bits }
    ensures value { bit_in bank.now result ≡ spec.and_bit (bit_in bank.now bits.first)
        (bit_in bank.now bits.second) (bit_in bank.now bits.otherwise) }
    ensures within { IsBit (length bank.now) result }
{
    if is_fixed(false, bits.first) || is_fixed(false, bits.second) {
        return Bit::Fixed(false);
    }
    if is_fixed(true, bits.first) {
        return bits.second;
    }
    if is_fixed(true, bits.second) {
        return bits.first;
    }
    if same_bit(bank, bits.first, bits.second) {
        bits.first
    } else {
        bits.otherwise
    }
}

/// A bit of `bor`.
pub(crate) fn or_bit(bank: &Bank, bits: Bits) -> Bit
    requires { AreBits (length bank.now) bits }
    ensures value { bit_in bank.now result ≡ spec.or_bit (bit_in bank.now bits.first)
        (bit_in bank.now bits.second) (bit_in bank.now bits.otherwise) }
    ensures within { IsBit (length bank.now) result }
{
    if is_fixed(true, bits.first) || is_fixed(true, bits.second) {
        return Bit::Fixed(true);
    }
    if is_fixed(false, bits.first) {
        return bits.second;
    }
    if is_fixed(false, bits.second) {
        return bits.first;
    }
    if same_bit(bank, bits.first, bits.second) {
        bits.first
    } else {
        bits.otherwise
    }
}

/// A bit of `bxor`.
pub(crate) fn xor_bit(bank: &Bank, bits: Bits) -> Bit
    requires { AreBits (length bank.now) bits }
    ensures value { bit_in bank.now result ≡ spec.xor_bit (bit_in bank.now bits.first)
        (bit_in bank.now bits.second) (bit_in bank.now bits.otherwise) }
    ensures within { IsBit (length bank.now) result }
{
    if is_fixed(false, bits.first) {
        return bits.second;
    }
    if is_fixed(false, bits.second) {
        return bits.first;
    }
    if same_bit(bank, bits.first, bits.second) {
        Bit::Fixed(false)
    } else {
        bits.otherwise
    }
}

/// A bit of `ite`.
pub(crate) fn choose_bit(bank: &Bank, bits: Bits) -> Bit
    requires { AreBits (length bank.now) bits }
    ensures value { bit_in bank.now result ≡ spec.choose_bit (bit_in bank.now bits.first)
        (bit_in bank.now bits.second) (bit_in bank.now bits.otherwise) }
    ensures within { IsBit (length bank.now) result }
{
    if same_bit(bank, bits.first, bits.second) {
        bits.first
    } else {
        bits.otherwise
    }
}
