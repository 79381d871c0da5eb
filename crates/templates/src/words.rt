//! Words: of values, and of the stack.

ghost use Rattle.std.specs.Prelude.{◌≡◌, ◌<◌, [], ◌∷◌, OnOk, length, map, flat_map};
ghost use Rattle.term_core_spec.specs.Shapes.{high_half, load_word};
ghost use Rattle.term_core_spec.specs.Term.{low, open_term};
ghost use Rattle.term_bank.specs.Nodes.{tree_at};
ghost use Rattle.c_graph_terms.specs.Tables.{AreWithin};
ghost use Rattle.c_graph_terms.specs.Built.{Builds};
ghost use Rattle.decompile_spec.specs.State as code;
ghost use Rattle.templates_spec.specs.Templates as spec;
ghost use Rattle.templates.specs.Added.{AreAdded};
ghost use Rattle.templates.specs.Viewed.{orders_of, value_of};

use crate::facts::Known;
use attempt::attempt;
use c_graph_terms::{at_width, build, leaf};
use std::alloc::{AllocError, Global};
use term_bank::TermNode::{Binary, Leaf, Quaternary, Unary};
use term_bank::{Bank, TermId};
use term_core_spec::Atom::{Constant, Open};
use term_core_spec::{
    BinaryOperator, Family, QuaternaryOperator, Sort, UnaryOperator, Variable, Width, WordOperator,
};

/// The memory of the code.
const CODE_MEMORY: Variable = Variable {
    family: Family::BinaryMemory,
    index: 0,
    instance: 0,
    sort: Sort::Memory,
};

const ADD: BinaryOperator = BinaryOperator::Word(WordOperator::Add);

// The word of the stack at an address.
fn loaded(alloc: Global, bank: &mut Bank, address: TermId) -> Result<TermId, AllocError>
    requires { address < length bank.old }
    ensures { Builds bank.old bank.new result
        (load_word (open_term code.memory) (tree_at bank.old address)) }
{
    let nodes = [
        Leaf(Open(CODE_MEMORY)),
        Binary(BinaryOperator::Load, 1, 0),
        Leaf(Constant(Width::W32, 1)),
        Binary(ADD, 0, 3),
        Binary(BinaryOperator::Load, 1, 4),
        Leaf(Constant(Width::W32, 2)),
        Binary(ADD, 0, 6),
        Binary(BinaryOperator::Load, 1, 7),
        Leaf(Constant(Width::W32, 3)),
        Binary(ADD, 0, 9),
        Binary(BinaryOperator::Load, 1, 10),
        Quaternary(QuaternaryOperator::Join, 2, 5, 8, 11),
    ];
    build(alloc, bank, &[address], &nodes)
}

/// Adds the words of the stack at addresses.
pub(crate) fn add_loaded(
    alloc: Global,
    bank: &mut Bank,
    ids: &mut Vec<TermId>,
    addresses: &[TermId],
) -> Result<(), AllocError>
    requires addresses { AreWithin (length bank.old) addresses.now }
    requires ids { AreWithin (length bank.old) ids.old.items }
    ensures { OnOk result (AreAdded bank.old bank.new ids.old.items ids.new.items
        (map (load_word (open_term code.memory)) (map (tree_at bank.old) addresses.now))) }
{
    for address in addresses {
        let id = attempt!(loaded(alloc, bank, *address));
        attempt!(ids.push(id), AllocError);
    }
    Ok(())
}

// The high word of a value of 64 bits.
fn high_word(alloc: Global, bank: &mut Bank, x: TermId) -> Result<TermId, AllocError>
    requires { x < length bank.old }
    ensures { Builds bank.old bank.new result (high_half (tree_at bank.old x)) }
{
    let nodes = [
        Unary(UnaryOperator::Byte(4), 0),
        Unary(UnaryOperator::Byte(5), 0),
        Unary(UnaryOperator::Byte(6), 0),
        Unary(UnaryOperator::Byte(7), 0),
        Quaternary(QuaternaryOperator::Join, 1, 2, 3, 4),
    ];
    build(alloc, bank, &[x], &nodes)
}

// The low word of a value of 64 bits.
fn low_word(alloc: Global, bank: &mut Bank, x: TermId) -> Result<TermId, AllocError>
    requires { x < length bank.old }
    ensures { Builds bank.old bank.new result (low Width.W32 (tree_at bank.old x)) }
{
    build(
        alloc,
        bank,
        &[x],
        &[Unary(UnaryOperator::Low(Width::W32), 0)],
    )
}

// Adds both words of a value of 64 bits.
fn add_both_words(
    alloc: Global,
    bank: &mut Bank,
    ids: &mut Vec<TermId>,
    x: TermId,
) -> Result<(), AllocError>
    requires x { x < length bank.old }
    requires ids { AreWithin (length bank.old) ids.old.items }
    ensures { OnOk result (AreAdded bank.old bank.new ids.old.items ids.new.items
        (low Width.W32 (tree_at bank.old x) ∷ high_half (tree_at bank.old x) ∷ [])) }
{
    let low = attempt!(low_word(alloc, bank, x));
    attempt!(ids.push(low), AllocError);
    let high = attempt!(high_word(alloc, bank, x));
    attempt!(ids.push(high), AllocError);
    Ok(())
}

// Adds the words of a value.
fn add_words(
    alloc: Global,
    bank: &mut Bank,
    ids: &mut Vec<TermId>,
    known: Known,
) -> Result<(), AllocError>
    requires { AreWithin (length bank.old) ids.old.items }
    ensures { OnOk result (AreAdded bank.old bank.new ids.old.items ids.new.items
        (spec.words_of (value_of known))) }
{
    let value = attempt!(leaf(bank, Open(known.variable)));
    if known.scalar.width == 64 {
        return add_both_words(alloc, bank, ids, value);
    }
    let word = attempt!(at_width(alloc, bank, known.scalar, Width::W32, value));
    attempt!(ids.push(word), AllocError);
    Ok(())
}

/// Adds the words of values.
pub(crate) fn add_all_words(
    alloc: Global,
    bank: &mut Bank,
    ids: &mut Vec<TermId>,
    values: &[Known],
) -> Result<(), AllocError>
    requires { AreWithin (length bank.old) ids.old.items }
    ensures { OnOk result (AreAdded bank.old bank.new ids.old.items ids.new.items
        (spec.all_words (map value_of values.now))) }
{
    for value in values {
        attempt!(add_words(alloc, bank, ids, *value));
    }
    Ok(())
}

// The width at which two values are compared.
fn width_of_both(i: Known, n: Known) -> Width
    ensures { result ≡ spec.width_of_both (value_of i) (value_of n) }
{
    if i.scalar.width == 64 || n.scalar.width == 64 {
        Width::W64
    } else {
        Width::W32
    }
}

// That the first of two values is at most the second.
fn at_most(alloc: Global, bank: &mut Bank, i: Known, n: Known) -> Result<TermId, AllocError>
    ensures { Builds bank.old bank.new result (spec.at_most (value_of i) (value_of n)) }
{
    let width = width_of_both(i, n);
    let first = attempt!(leaf(bank, Open(i.variable)));
    let first = attempt!(at_width(alloc, bank, i.scalar, width, first));
    let second = attempt!(leaf(bank, Open(n.variable)));
    let second = attempt!(at_width(alloc, bank, n.scalar, width, second));
    let nodes = [
        Binary(BinaryOperator::Less, 1, 0),
        Unary(UnaryOperator::Not, 2),
    ];
    build(alloc, bank, &[first, second], &nodes)
}

// Adds that each of two values is at most the other.
fn add_order(
    alloc: Global,
    bank: &mut Bank,
    ids: &mut Vec<TermId>,
    i: Known,
    n: Known,
) -> Result<(), AllocError>
    requires { AreWithin (length bank.old) ids.old.items }
    ensures { OnOk result (AreAdded bank.old bank.new ids.old.items ids.new.items
        (spec.at_most (value_of i) (value_of n)
        ∷ spec.at_most (value_of n) (value_of i) ∷ [])) }
{
    let one = attempt!(at_most(alloc, bank, i, n));
    attempt!(ids.push(one), AllocError);
    let other = attempt!(at_most(alloc, bank, n, i));
    attempt!(ids.push(other), AllocError);
    Ok(())
}

/// Adds it of each pair.
pub(crate) fn add_orders(
    alloc: Global,
    bank: &mut Bank,
    ids: &mut Vec<TermId>,
    pairs: &[(Known, Known)],
) -> Result<(), AllocError>
    requires { AreWithin (length bank.old) ids.old.items }
    ensures { OnOk result (AreAdded bank.old bank.new ids.old.items ids.new.items
        (flat_map orders_of pairs.now)) }
{
    for (i, n) in pairs {
        attempt!(add_order(alloc, bank, ids, *i, *n));
    }
    Ok(())
}
