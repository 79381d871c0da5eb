//! Pointers that are moved, and indices.

ghost use Rattle.std.specs.Prelude.{◌≡◌, ◌<◌, ◌≤◌, length};
ghost use Rattle.term_core_spec.specs.Term as tree;
ghost use Rattle.term_core_spec.specs.Term.{Term};
ghost use Rattle.term_core_spec.specs.declared.Width.TheVariants.{W32, W64};
ghost use Rattle.term_bank.specs.Nodes.{tree_at};
ghost use Rattle.c_types_spec.specs.Types as types;
ghost use Rattle.c_graph_spec.specs.Values as spec;
ghost use Rattle.c_graph_spec.specs.Guards as guards;
ghost use Rattle.c_graph_terms.specs.Built.{Builds, BuildsTerms};

use crate::numbers::{ADD, MASK, MULTIPLY, SHIFT_LEFT, SUBTRACT};
use crate::table::build;
use crate::values::ValueIds;
use crate::words::{at_width, of_word};
use attempt::attempt;
use c_types_core::constants::WORD;
use c_types_spec::{Direction, Scalar};
use std::alloc::{AllocError, Global};
use term_bank::TermNode::{Binary, Leaf, Unary};
use term_bank::{Bank, TermId};
use term_core_spec::Atom::Constant;
use term_core_spec::{BinaryOperator, UnaryOperator, Width};

/// The exponent, below `most`, of a power of 2.
#[tactic(auto, using(crate::proofs::Powers::exponents))]
fn exponent(most: u32, size: u64) -> Option<u32>
    requires { most ≤ 32 }
    ensures { result ≡ spec.exponent most size }
{
    if most == 0 {
        return None;
    }
    if 2u64.pow(most - 1) == size {
        return Some(most - 1);
    }
    exponent(most - 1, size)
}

/// So many objects of a size in bytes: by a shift where the size is a power of 2.
fn scaled(
    alloc: Global,
    bank: &mut Bank,
    width: Width,
    size: usize,
    x: TermId,
) -> Result<TermId, AllocError>
    requires { x < length bank.old }
    ensures { Builds bank.old bank.new result (spec.scaled width size (tree_at bank.old x)) }
{
    match exponent(32, size as u64) {
        Some(places) => {
            let nodes = [
                Leaf(Constant(width, u64::from(places))),
                Binary(SHIFT_LEFT, 0, 1),
            ];
            build(alloc, bank, &[x], &nodes)
        }
        None => {
            let nodes = [Leaf(Constant(width, size as u64)), Binary(MULTIPLY, 0, 1)];
            build(alloc, bank, &[x], &nodes)
        }
    }
}

/// How many bytes an index is, of objects of a size.
fn distance(
    alloc: Global,
    bank: &mut Bank,
    width: Width,
    size: usize,
    index: Scalar,
    i: TermId,
) -> Result<TermId, AllocError>
    requires { i < length bank.old }
    ensures { Builds bank.old bank.new result
        (spec.scaled width size (spec.at_width index width (tree_at bank.old i))) }
{
    let i = attempt!(at_width(alloc, bank, index, width, i));
    scaled(alloc, bank, width, size, i)
}

/// The operator that moves a pointer.
fn mover(direction: Direction) -> BinaryOperator
    ensures { (p d : Term) → spec.moved direction p d ≡ tree.Binary result p d }
{
    match direction {
        Direction::Up => ADD,
        Direction::Down => SUBTRACT,
    }
}

/// A pointer that is moved by so many objects of a size (6.5.6).
pub(crate) fn moved_pointer(
    alloc: Global,
    bank: &mut Bank,
    direction: Direction,
    size: usize,
    pointer: TermId,
    index: Scalar,
    i: TermId,
) -> Result<ValueIds, AllocError>
    requires pointer_within { pointer < length bank.old }
    requires i_within { i < length bank.old }
    ensures { BuildsTerms bank.old bank.new result (spec.of_word types.word
        (spec.moved direction (tree_at bank.old pointer)
        (spec.scaled W32 size (spec.at_width index W32 (tree_at bank.old i))))) }
{
    let by = attempt!(distance(alloc, bank, Width::W32, size, index, i));
    let nodes = [Binary(mover(direction), 0, 1)];
    let word = attempt!(build(alloc, bank, &[pointer, by], &nodes));
    of_word(alloc, bank, WORD, word)
}

/// Guard 8: the moved pointer, as a whole number, is below 2^32 and not below 0.
pub(crate) fn move_test(
    alloc: Global,
    bank: &mut Bank,
    direction: Direction,
    size: usize,
    pointer: TermId,
    index: Scalar,
    i: TermId,
) -> Result<TermId, AllocError>
    requires pointer_within { pointer < length bank.old }
    requires i_within { i < length bank.old }
    ensures { Builds bank.old bank.new result (guards.is_pointer_moved direction size
        (tree_at bank.old pointer) index (tree_at bank.old i)) }
{
    let by = attempt!(distance(alloc, bank, Width::W64, size, index, i));
    let nodes = [
        Unary(UnaryOperator::ZeroExtend(Width::W64), 0),
        Binary(mover(direction), 2, 1),
        Leaf(Constant(Width::W64, 0x1_0000_0000)),
        Binary(BinaryOperator::Less, 3, 4),
    ];
    build(alloc, bank, &[pointer, by], &nodes)
}

/// Guard 9: an index, not below 0 and below the bound.
pub(crate) fn index_test(
    alloc: Global,
    bank: &mut Bank,
    bound: usize,
    index: Scalar,
    i: TermId,
) -> Result<TermId, AllocError>
    requires { i < length bank.old }
    ensures { Builds bank.old bank.new result
        (guards.is_within bound index (tree_at bank.old i)) }
{
    let word = attempt!(at_width(alloc, bank, index, Width::W32, i));
    let nodes = [
        Leaf(Constant(Width::W32, bound as u64)),
        Binary(BinaryOperator::Less, 0, 1),
    ];
    build(alloc, bank, &[word], &nodes)
}

/// Guard 5 of a pointer: not 0, and a multiple of an alignment.
pub(crate) fn alignment_test(
    alloc: Global,
    bank: &mut Bank,
    alignment: usize,
    pointer: TermId,
) -> Result<TermId, AllocError>
    requires { pointer < length bank.old }
    ensures { Builds bank.old bank.new result
        (guards.is_aligned alignment (tree_at bank.old pointer)) }
{
    let mask = alignment.saturating_sub(1);
    let nodes = [
        Leaf(Constant(Width::W32, 0)),
        Binary(BinaryOperator::Equal, 0, 1),
        Unary(UnaryOperator::Not, 2),
        Leaf(Constant(Width::W32, mask as u64)),
        Binary(MASK, 0, 4),
        Binary(BinaryOperator::Equal, 5, 1),
        Binary(BinaryOperator::And, 3, 6),
    ];
    build(alloc, bank, &[pointer], &nodes)
}
