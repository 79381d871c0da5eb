//! Signed division of words of 32 bits, by their magnitudes.

ghost use Rattle.std.specs.Prelude.{◌<◌, length};
ghost use Rattle.term_core_spec.specs.Shapes as shapes;
ghost use Rattle.term_bank.specs.Nodes.{tree_at};
ghost use Rattle.c_graph_terms.specs.Built.{Builds};

use crate::numbers::{DIVIDE, REMAINDER, SUBTRACT};
use crate::table::build;
use std::alloc::{AllocError, Global};
use term_bank::TermNode::{Binary, Leaf, Ternary, Unary};
use term_bank::{Bank, TermId};
use term_core_spec::Atom::Constant;
use term_core_spec::{BinaryOperator, TernaryOperator, UnaryOperator, Width};

const TOP: u64 = 0x8000_0000;

/// The quotient of the magnitudes, negated where the signs differ and the divisor is not 0.
pub(crate) fn signed_quotient(
    alloc: Global,
    bank: &mut Bank,
    x: TermId,
    y: TermId,
) -> Result<TermId, AllocError>
    requires x_within { x < length bank.old }
    requires y_within { y < length bank.old }
    ensures { Builds bank.old bank.new result
        (shapes.signed_quotient (tree_at bank.old x) (tree_at bank.old y)) }
{
    let nodes = [
        Leaf(Constant(Width::W32, TOP)),
        // the signs
        Binary(BinaryOperator::Less, 0, 2),
        Binary(BinaryOperator::Less, 1, 2),
        // the magnitudes
        Leaf(Constant(Width::W32, 0)),
        Binary(SUBTRACT, 5, 0),
        Binary(SUBTRACT, 5, 1),
        Ternary(TernaryOperator::Choose, 3, 0, 6),
        Ternary(TernaryOperator::Choose, 4, 1, 7),
        // their quotient, and it negated
        Binary(DIVIDE, 8, 9),
        Binary(SUBTRACT, 5, 10),
        // the signs differ, and the divisor is not 0
        Binary(BinaryOperator::Equal, 3, 4),
        Unary(UnaryOperator::Not, 12),
        Binary(BinaryOperator::Equal, 1, 5),
        Unary(UnaryOperator::Not, 14),
        Binary(BinaryOperator::And, 13, 15),
        Ternary(TernaryOperator::Choose, 16, 11, 10),
    ];
    build(alloc, bank, &[x, y], &nodes)
}

/// The remainder of the magnitudes, negated where the dividend is negative.
pub(crate) fn signed_remainder(
    alloc: Global,
    bank: &mut Bank,
    x: TermId,
    y: TermId,
) -> Result<TermId, AllocError>
    requires x_within { x < length bank.old }
    requires y_within { y < length bank.old }
    ensures { Builds bank.old bank.new result
        (shapes.signed_remainder (tree_at bank.old x) (tree_at bank.old y)) }
{
    let nodes = [
        Leaf(Constant(Width::W32, TOP)),
        // the signs
        Binary(BinaryOperator::Less, 0, 2),
        Binary(BinaryOperator::Less, 1, 2),
        // the magnitudes
        Leaf(Constant(Width::W32, 0)),
        Binary(SUBTRACT, 5, 0),
        Binary(SUBTRACT, 5, 1),
        Ternary(TernaryOperator::Choose, 3, 0, 6),
        Ternary(TernaryOperator::Choose, 4, 1, 7),
        // their remainder, and it negated
        Binary(REMAINDER, 8, 9),
        Binary(SUBTRACT, 5, 10),
        Ternary(TernaryOperator::Choose, 3, 10, 11),
    ];
    build(alloc, bank, &[x, y], &nodes)
}
