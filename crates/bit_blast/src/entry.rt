// The entry of a term whose arguments are there.

ghost use Rattle.std.specs.Prelude.{◌≡◌, ◌<◌, ◌+◌, ◌++◌, length, false, IfOk};
ghost use Rattle.term_core_spec.specs.Term.{divide, remainder};
ghost use Rattle.term_bank.specs.Nodes.{IsNode, build, tree_at, Holds};
ghost use Rattle.bit_blast_spec.specs.Goal.{is_there, divided, once};
ghost use Rattle.bit_blast.specs.Steps.{finish, IsClosed};
ghost use Rattle.bit_blast_circuits.specs.Built.{IsBuilt};
ghost use Rattle.bit_blast.specs.Terms.{terms_in};
ghost use Rattle.bit_blast.specs.Entries as spec;

use crate::nodes::own_bits;
use crate::table::TermTable;
use attempt::attempt;
use bit_blast_circuits::Gates;
use std::alloc::{AllocError, Global};
use term_bank::TermNode;
use term_core_spec::{BinaryOperator, WordOperator};

const DIVIDE: BinaryOperator = BinaryOperator::Word(WordOperator::Divide);

const REMAINDER: BinaryOperator = BinaryOperator::Word(WordOperator::Remainder);

/// Which of the two results of a division a term is.
#[derive(Clone, Copy)]
pub(crate) enum Division {
    /// a quotient
    Quotient(usize, usize),
    /// a remainder
    Remainder(usize, usize),
    /// neither
    Neither,
}

fn division_of(node: TermNode) -> Division
    ensures { result ≡ spec.division_of node }
{
    match node {
        TermNode::Binary(BinaryOperator::Word(WordOperator::Divide), x, y) => {
            Division::Quotient(x, y)
        }
        TermNode::Binary(BinaryOperator::Word(WordOperator::Remainder), x, y) => {
            Division::Remainder(x, y)
        }
        _ => Division::Neither,
    }
}

/// Enters the quotient and the remainder of two terms, which share their gates, and gives their
/// indices.
fn enter_division(
    alloc: Global,
    gates: &mut Gates,
    table: &mut TermTable,
    x: usize,
    y: usize,
) -> Result<(usize, usize), AllocError>
    requires dividend { x < length table.old }
    requires divisor { y < length table.old }
    requires no_quotient { is_there
        (divide (tree_at (terms_in table.old) x) (tree_at (terms_in table.old) y)) table.old
        ≡ false }
    requires no_remainder { is_there
        (remainder (tree_at (terms_in table.old) x) (tree_at (terms_in table.old) y)) table.old
        ≡ false }
    ensures index { IfOk result (λ indices. indices.0 ≡ length table.old) }
    ensures rest { IfOk result (λ indices. indices.1 ≡ length table.old + 1) }
    ensures gives { IfOk result (λ indices. IsBuilt
        (divided (tree_at (terms_in table.old) x)
        (tree_at (terms_in table.old) y) table.old) gates.old table.new gates.new) }
{
    let count = table.bits(x).len();
    let q = attempt!(gates.new_bits(alloc, count));
    let r = attempt!(gates.new_bits(alloc, count));
    attempt!(gates.division(alloc, &q, &r, table.bits(x), table.bits(y)));
    let index = attempt!(table.enter(TermNode::Binary(DIVIDE, x, y), q));
    let rest = attempt!(table.enter(TermNode::Binary(REMAINDER, x, y), r));
    Ok((index, rest))
}

/// Enters a node's term, with the remainder beside a quotient and the other way round, and gives
/// its index.
fn enter(
    alloc: Global,
    gates: &mut Gates,
    table: &mut TermTable,
    node: TermNode,
) -> Result<usize, AllocError>
    requires arguments { IsNode (length table.old) node }
    requires absent { is_there (build (terms_in table.old) node) table.old ≡ false }
    requires closed { IsClosed table.old }
    ensures index { IfOk result (λ index. Holds (terms_in table.new) index
        (build (terms_in table.old) node)) }
    ensures gives { IfOk result (λ index. IsBuilt
        (finish (build (terms_in table.old) node) table.old) gates.old table.new gates.new) }
{
    match division_of(node) {
        Division::Quotient(x, y) => {
            let indices = attempt!(enter_division(alloc, gates, table, x, y));
            Ok(indices.0)
        }
        Division::Remainder(x, y) => {
            let indices = attempt!(enter_division(alloc, gates, table, x, y));
            Ok(indices.1)
        }
        Division::Neither => {
            let bits = attempt!(own_bits(alloc, gates, node, table));
            let index = attempt!(table.enter(node, bits));
            Ok(index)
        }
    }
}

/// The index of a node's term, which is entered where it isn't there.
pub(crate) fn index_for(
    alloc: Global,
    gates: &mut Gates,
    table: &mut TermTable,
    node: TermNode,
) -> Result<usize, AllocError>
    requires arguments { IsNode (length table.old) node }
    requires closed { IsClosed table.old }
    ensures index { IfOk result (λ index. Holds (terms_in table.new) index
        (build (terms_in table.old) node)) }
    ensures gives { IfOk result (λ index. IsBuilt
        (once (build (terms_in table.old) node) table.old
        (finish (build (terms_in table.old) node) table.old)) gates.old table.new gates.new) }
{
    if let Some(index) = table.find(node) {
        return Ok(index);
    }
    let index = attempt!(enter(alloc, gates, table, node));
    Ok(index)
}
