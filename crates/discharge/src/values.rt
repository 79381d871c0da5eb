//! Values that are tried for the variables of a goal. No contract depends on which they are.

ghost use Rattle.std.specs.Prelude.{◌<◌, ◌≤◌, length};

use attempt::attempt;
use std::alloc::{AllocError, Global};
use term_bank::{Bank, TermId, TermNode};
use term_core::{Assignment, Value, low_bits};
use term_core_spec::{Atom, BinaryOperator, Family, Sort, Variable, Width};

/// A number that looks like a random one: the output function of the generator SplitMix64.
fn scrambled(number: u64) -> u64 {
    let a = number.wrapping_mul(0x9e37_79b9_7f4a_7c15);
    let b = (a ^ (a >> 30)).wrapping_mul(0xbf58_476d_1ce4_e5b9);
    let c = (b ^ (b >> 27)).wrapping_mul(0x94d0_49bb_1331_11eb);
    c ^ (c >> 31)
}

// The bits that a word may have in a round: those of small aligned words, of aligned ones, or any.
fn mask(family: Family, round: u64) -> u64 {
    match (family, round / 4 % 3) {
        (Family::Entry, _) => 0xffff_ffff_ffff_fff0,
        (_, 0) => 0x3c,
        (_, 1) => 0xffff_ffff_ffff_fffc,
        (_, _) => 0xffff_ffff_ffff_ffff,
    }
}

// A value of a variable, if it is no memory.
fn value_for(variable: Variable, number: u64, round: u64) -> Option<Value> {
    match variable.sort {
        Sort::Truth => Some(Value::Truth(number % 2 == 0)),
        Sort::Word(width) => {
            let bits = number & mask(variable.family, round);
            Some(Value::Number(width, low_bits(width, bits)))
        }
        Sort::Memory => None,
    }
}

// Gives a variable another value, if it is no memory.
fn scatter_one(
    variable: Variable,
    number: u64,
    round: u64,
    assignment: &mut Assignment,
) -> Result<(), AllocError> {
    match value_for(variable, number, round) {
        Some(value) => assignment.set(variable, value),
        None => Ok(()),
    }
}

// The variable that a term is.
fn variable_at(bank: &Bank, id: TermId) -> Option<Variable>
    requires { id < length bank.now }
{
    match bank.node(id) {
        TermNode::Leaf(Atom::Open(variable)) => Some(variable),
        _ => None,
    }
}

/// Gives each variable of a bank another value, but for memories.
pub(crate) fn scatter(
    bank: &Bank,
    round: u64,
    assignment: &mut Assignment,
) -> Result<(), AllocError> {
    for id in 0..bank.len() {
        if let Some(variable) = variable_at(bank, id) {
            let number = scrambled(scrambled(id as u64).wrapping_add(round));
            attempt!(scatter_one(variable, number, round, assignment));
        }
    }
    Ok(())
}

// The word at an index, with its width.
fn word_at(values: &[Value], id: TermId) -> Option<(Width, u64)> {
    match values.get(id) {
        Some(Value::Number(width, word)) => Some((*width, *word)),
        _ => None,
    }
}

// Whether a variable gets the value of a term that it is compared with. A register at the entry is
// compared with a constant, and an address with those that are stored to; a parameter is often
// compared with 0, so it gets such a value in the last rounds alone.
fn is_met(variable: Variable, number: u64, round: u64) -> bool {
    match (variable.family, round / 4 % 3) {
        (Family::Entry | Family::Address, _) => true,
        (_, 2) => number % 2 == 0,
        (_, _) => false,
    }
}

// Gives a variable the value of a term that it is compared with, or leaves it.
fn meet(
    bank: &Bank,
    values: &[Value],
    id: TermId,
    other: TermId,
    round: u64,
    assignment: &mut Assignment,
) -> Result<(), AllocError>
    requires { id < length bank.now }
{
    let number = scrambled(scrambled(id as u64).wrapping_add(round));
    match variable_at(bank, id) {
        Some(variable) if is_met(variable, number, round) => match word_at(values, other) {
            Some((width, word)) => assignment.set(variable, Value::Number(width, word)),
            None => Ok(()),
        },
        _ => Ok(()),
    }
}

// The byte that a memory gets at an address: in the first rounds the same everywhere, so that each
// word that is loaded is an aligned address where the same is loaded.
fn byte_for(address: u32, number: u64, round: u64) -> u8 {
    match (round / 4 % 3, address % 4) {
        (0, _) => 0x40,
        (1, 0) => (number % 64 * 4) as u8,
        (_, _) => (number % 256) as u8,
    }
}

// Gives a memory a byte at an address.
fn fill_at(
    alloc: Global,
    memory: Variable,
    address: u32,
    byte: u8,
    assignment: &mut Assignment,
) -> Result<(), AllocError> {
    match attempt!(assignment.value(alloc, memory)) {
        Value::Bytes(mut bytes) => {
            attempt!(bytes.set(address, byte));
            assignment.set(memory, Value::Bytes(bytes))
        }
        _ => Ok(()),
    }
}

// Gives a memory a byte where it is loaded.
fn fill(
    alloc: Global,
    bank: &Bank,
    values: &[Value],
    id: TermId,
    address: TermId,
    round: u64,
    assignment: &mut Assignment,
) -> Result<(), AllocError>
    requires { id < length bank.now }
{
    match (variable_at(bank, id), word_at(values, address)) {
        (Some(memory), Some((_, word))) => {
            let address = (word % 0x1_0000_0000) as u32;
            let byte = byte_for(address, scrambled(word.wrapping_add(round)), round);
            fill_at(alloc, memory, address, byte, assignment)
        }
        _ => Ok(()),
    }
}

// Changes the values of the variables of a term by what its arguments are.
fn follow_one(
    alloc: Global,
    bank: &Bank,
    values: &[Value],
    id: TermId,
    round: u64,
    assignment: &mut Assignment,
) -> Result<(), AllocError>
    requires { id < length bank.now }
{
    match bank.node(id) {
        TermNode::Binary(BinaryOperator::Equal, x, y) => {
            attempt!(meet(bank, values, x, y, round, assignment));
            meet(bank, values, y, x, round, assignment)
        }
        TermNode::Binary(BinaryOperator::Load, memory, address) => {
            fill(alloc, bank, values, memory, address, round, assignment)
        }
        _ => Ok(()),
    }
}

// Changes the values of the variables by the terms from `low` to below `high`.
fn follow_from(
    alloc: Global,
    bank: &Bank,
    values: &[Value],
    low: TermId,
    high: TermId,
    round: u64,
    assignment: &mut Assignment,
) -> Result<(), AllocError>
    requires { high ≤ length bank.now }
{
    for id in low..high {
        attempt!(follow_one(alloc, bank, values, id, round, assignment));
    }
    Ok(())
}

/// Gives some variables the value of a term that they are compared with, and each memory a byte
/// where it is loaded, by the values of a bank's terms. What is changed last depends on the round.
pub(crate) fn follow(
    alloc: Global,
    bank: &Bank,
    values: &[Value],
    round: u64,
    assignment: &mut Assignment,
) -> Result<(), AllocError> {
    let count = bank.len();
    let first = (scrambled(round) % 0x1_0000_0000) as usize % count.max(1);
    attempt!(follow_from(alloc, bank, values, first, count, round, assignment));
    follow_from(alloc, bank, values, 0, first, round, assignment)
}
