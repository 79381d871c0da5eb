// How the bits of a term come from those of its arguments.

ghost use Rattle.std.specs.Prelude.{◌≡◌, ◌+◌, ◌-◌, ◌<◌, ℕ, List, Some, None, length, nat_lt};
ghost use Rattle.std.specs.Prelude.{◌==◌, false, if◌then◌else◌};
ghost use Rattle.std.specs.Int.{bit_at};
ghost use Rattle.term_bank.specs.Nodes.{tree_at};
ghost use Rattle.word_steps_rules.specs.declared.bit.Bit.TheVariants.{Fixed};
ghost use Rattle.word_steps_rules.specs.Bits as views;
ghost use Rattle.word_steps_rules.specs.Bits.{bit_in, bits_in, row_in, rows_of, AreBits, AreIn};
ghost use Rattle.word_steps_rules.specs.Bits.{IsBit};

use crate::bit::{Bit, Bits, and_bit, choose_bit, or_bit, xor_bit};
use term_bank::{Bank, TermId};

/// An operator on the bits of two rows, place by place.
#[derive(Clone, Copy)]
pub(crate) enum Gate {
    /// `band`
    And,
    /// `bor`, and `add` where at each place one side is 0
    Or,
    /// `bxor`
    Xor,
    /// `ite`
    Choose,
}

/// Bits at other places.
#[derive(Clone, Copy)]
pub(crate) enum Shift {
    /// each at a higher place; the lowest are 0
    Up,
    /// each at a lower place; the highest are 0
    Down,
    /// each at a lower place; the highest are the sign
    DownSigned,
}

/// Bytes, the lowest first, by the indices of their rows.
#[derive(Clone, Copy)]
pub(crate) enum Bytes {
    /// of 16 bits
    Two(usize, usize),
    /// of 32 bits
    Four(usize, usize, usize, usize),
    /// of 64 bits
    Eight(usize, usize, usize, usize, usize, usize, usize, usize),
}

/// How the bits of a term come from rows, which are named by their indices.
#[derive(Clone, Copy)]
pub(crate) enum Plan {
    /// they are its own
    Own,
    /// those of a number
    Number(u64),
    /// those of two rows, place by place
    Both(Gate, usize, usize),
    /// those of a row, by so many places
    Shifted(Shift, usize, usize),
    /// those of bytes
    Joined(Bytes),
}

/// The row at an index; no bit where there is none.
pub(crate) fn row_at(rows: &[Vec<Bit>], index: usize) -> &[Bit]
    ensures { result.now ≡ row_in (rows_of rows.now) index }
{
    match rows.get(index) {
        Some(row) => row.as_slice(),
        None => &[],
    }
}

/// The bit of a row at a place; 0 beyond it.
pub(crate) fn row_bit(row: &[Bit], place: usize) -> Bit
    ensures { result ≡ views.row_bit row.now place }
{
    match row.get(place) {
        Some(bit) => *bit,
        None => Bit::Fixed(false),
    }
}

// The place so many places on, if it is below a count.
fn place_on(count: usize, places: usize, place: usize) -> Option<usize>
    ensures { result ≡ (if nat_lt (places + place) count then Some (places + place) else None) }
{
    match places.checked_add(place) {
        Some(on) => { if on < count { Some(on) } else { None } }
        None => None,
    }
}

// The bit of a row at a place so many places on, or else this.
fn bit_on(row: &[Bit], places: usize, place: usize, otherwise: Bit) -> Bit
    ensures { result ≡ (if nat_lt (places + place) (length row.now)
        then views.row_bit row.now (places + place) else otherwise) }
{
    match place_on(row.len(), places, place) {
        Some(on) => row_bit(row, on),
        None => otherwise,
    }
}

// The last bit of a row.
fn sign(row: &[Bit]) -> Bit
    ensures { result ≡ views.row_bit row.now (length row.now - 1) }
{
    row_bit(row, row.len().saturating_sub(1))
}

// The bit of a row at a place so many places before; 0 where there is none.
fn bit_before(row: &[Bit], places: usize, place: usize) -> Bit
    ensures { result ≡ (if nat_lt place places then Fixed false
        else views.row_bit row.now (place - places)) }
{
    if place < places {
        Bit::Fixed(false)
    } else {
        row_bit(row, place - places)
    }
}

// The bit of a row that comes to a place.
#[tactic(auto, unfolding(crate::specs::Bits::shifted_bit))]
fn shifted_bit(shift: Shift, row: &[Bit], places: usize, place: usize) -> Bit
    ensures { result ≡ views.shifted_bit shift row.now places place }
{
    match shift {
        Shift::Up => bit_before(row, places, place),
        Shift::Down => bit_on(row, places, place, Bit::Fixed(false)),
        Shift::DownSigned => bit_on(row, places, place, sign(row)),
    }
}

// A bit of bytes, the lowest first.
#[tactic(auto, unfolding(crate::specs::Bits::joined_bit))]
fn joined_bit(rows: &[Vec<Bit>], bytes: &[usize], place: usize) -> Bit
    ensures { result ≡ views.joined_bit (rows_of rows.now) bytes.now place }
{
    match bytes.split_first() {
        None => Bit::Fixed(false),
        Some((byte, rest)) => {
            if place < 8 {
                row_bit(row_at(rows, *byte), place)
            } else {
                joined_bit(rows, rest, place - 8)
            }
        }
    }
}

// The same of two, four or eight bytes.
fn bit_of_bytes(rows: &[Vec<Bit>], bytes: Bytes, place: usize) -> Bit
    ensures { result ≡ views.joined_bit (rows_of rows.now) (views.bytes_of bytes) place }
{
    match bytes {
        Bytes::Two(a, b) => joined_bit(rows, &[a, b], place),
        Bytes::Four(a, b, c, d) => joined_bit(rows, &[a, b, c, d], place),
        Bytes::Eight(a, b, c, d, e, f, g, h) => {
            joined_bit(rows, &[a, b, c, d, e, f, g, h], place)
        }
    }
}

// A bit of an operator on two words, or of `ite`.
#[tactic(auto, unfolding(crate::specs::Bits::gate_bit))]
fn gate_bit(bank: &Bank, gate: Gate, bits: Bits) -> Bit
    requires { AreBits (length bank.now) bits }
    ensures value { bit_in bank.now result ≡ views.gate_bit gate (bit_in bank.now bits.first)
        (bit_in bank.now bits.second) (bit_in bank.now bits.otherwise) }
    ensures within { IsBit (length bank.now) result }
{
    match gate {
        Gate::And => and_bit(bank, bits),
        Gate::Or => or_bit(bank, bits),
        Gate::Xor => xor_bit(bank, bits),
        Gate::Choose => choose_bit(bank, bits),
    }
}

// The bits of two rows at a place, and that of a term itself.
fn bits_at(rows: &[Vec<Bit>], id: TermId, first: usize, second: usize, place: usize) -> Bits
    ensures { result ≡ views.bits_at (rows_of rows.now) id first second place }
{
    Bits {
        first: row_bit(row_at(rows, first), place),
        second: row_bit(row_at(rows, second), place),
        otherwise: Bit::Of(id, place),
    }
}

// Whether a number has the bit at a place.
fn has_bit(number: u64, place: usize) -> bool
    requires { place < 64 }
    ensures { result ≡ (bit_at number place == 1) }
{
    (number >> place) & 1 == 1
}

/// The bit of a term at a place, by its plan.
#[tactic(auto, unfolding(crate::specs::Bits::planned))]
pub(crate) fn planned_bit(
    bank: &Bank,
    rows: &[Vec<Bit>],
    id: TermId,
    plan: Plan,
    place: usize,
) -> Bit
    requires id { id < length bank.now }
    requires place { place < 64 }
    requires rows { (k : ℕ) → AreIn (length bank.now) (row_in (rows_of rows.now) k) }
    ensures value { bit_in bank.now result ≡ views.planned bank.now (rows_of rows.now)
        (tree_at bank.now id) plan place }
    ensures within { IsBit (length bank.now) result }
{
    match plan {
        Plan::Own => Bit::Of(id, place),
        Plan::Number(number) => Bit::Fixed(has_bit(number, place)),
        Plan::Both(gate, first, second) => {
            gate_bit(bank, gate, bits_at(rows, id, first, second, place))
        }
        Plan::Shifted(shift, index, places) => {
            shifted_bit(shift, row_at(rows, index), places, place)
        }
        Plan::Joined(bytes) => bit_of_bytes(rows, bytes, place),
    }
}
