// By which plan the bits of a term come from those of its arguments.

ghost use Rattle.std.specs.Prelude.{◌≡◌, ◌<◌, List, length};
ghost use Rattle.term_core_spec.specs.Term.{Term};
ghost use Rattle.term_bank.specs.Nodes.{IsNode, tree_at};
ghost use Rattle.word_steps_spec.specs.Bitwise as spec;
ghost use Rattle.word_steps_rules.specs.Bits.{bit_in, bits_in, index_among, rows_of};
ghost use Rattle.word_steps_rules.specs.Plans as views;

use crate::bit::{Bit, is_fixed};
use crate::plan::{Bytes, Gate, Plan, Shift, row_at, row_bit};
use indexmap::IndexSet;
use term_bank::{Bank, TermId, TermNode};
use term_core_spec::{
    Atom, BinaryOperator, QuaternaryOperator, TernaryOperator, UnaryOperator, WordOperator,
};
use term_norm_rules::{is_constant, number_of};

/// The index of an id.
pub(crate) fn index_of(ids: &IndexSet<TermId>, id: TermId) -> usize
    ensures { result ≡ index_among ids.now.keys id }
{
    match ids.get_index_of(&id) {
        Some(index) => index,
        None => 0,
    }
}

// The plan of a variable or a constant.
fn atom_plan(atom: Atom) -> Plan
    ensures { result ≡ views.atom_plan atom }
{
    match atom {
        Atom::Constant(_, number) => Plan::Number(number),
        Atom::Truth(_) => Plan::Own,
        Atom::Open(_) => Plan::Own,
    }
}

// The plan of an operator on the term whose row has an index.
fn unary_plan(operator: UnaryOperator, index: usize) -> Plan
    ensures { result ≡ views.unary_plan operator index }
{
    match operator {
        UnaryOperator::ZeroExtend(_) => Plan::Shifted(Shift::Down, index, 0),
        UnaryOperator::SignExtend(_) => Plan::Shifted(Shift::DownSigned, index, 0),
        UnaryOperator::Low(_) => Plan::Shifted(Shift::Down, index, 0),
        UnaryOperator::Byte(place) => Plan::Shifted(Shift::Down, index, 8 * (place as usize)),
        UnaryOperator::Not => Plan::Own,
        UnaryOperator::Complement => Plan::Own,
    }
}

// Whether one of two bits is known to be 0.
fn is_apart(first: Bit, second: Bit) -> bool
    ensures { (trees : List Term) → result ≡ views.is_apart (bit_in trees first)
        (bit_in trees second) }
{
    is_fixed(false, first) || is_fixed(false, second)
}

// Whether at each place below a count one of two rows has 0.
#[tactic(auto, unfolding(word_steps_spec::specs::Bitwise::all_below))]
fn are_apart(first: &[Bit], second: &[Bit], count: usize) -> bool
    ensures { (trees : List Term) → result ≡ spec.are_apart count (bits_in trees first.now)
        (bits_in trees second.now) }
{
    if count == 0 {
        return true;
    }
    let place = count - 1;
    if !is_apart(row_bit(first, place), row_bit(second, place)) {
        return false;
    }
    are_apart(first, second, place)
}

// The plan of the sum of two words.
fn sum_plan(rows: &[Vec<Bit>], first: usize, second: usize) -> Plan
    ensures { (trees : List Term) → result ≡ views.sum_plan trees (rows_of rows.now) first second }
{
    let some = row_at(rows, first);
    let others = row_at(rows, second);
    if are_apart(some, others, some.len()) {
        Plan::Both(Gate::Or, first, second)
    } else {
        Plan::Own
    }
}

// The plan of a word that is shifted by another.
fn shift_plan(bank: &Bank, shift: Shift, index: usize, by: TermId) -> Plan
    requires { by < length bank.now }
    ensures { result ≡ views.shift_plan shift index (tree_at bank.now by) }
{
    if is_constant(bank, by) {
        Plan::Shifted(shift, index, number_of(bank, by) as usize)
    } else {
        Plan::Own
    }
}

// The plan of an operation on two words, of which the second is the term `id`.
#[tactic(auto, unfolding(crate::specs::Plans::operation_plan))]
fn operation_plan(
    bank: &Bank,
    rows: &[Vec<Bit>],
    operator: WordOperator,
    first: usize,
    second: usize,
    id: TermId,
) -> Plan
    requires { id < length bank.now }
    ensures { result ≡ views.operation_plan bank.now (rows_of rows.now) operator first second
        (tree_at bank.now id) }
{
    match operator {
        WordOperator::And => Plan::Both(Gate::And, first, second),
        WordOperator::Or => Plan::Both(Gate::Or, first, second),
        WordOperator::Xor => Plan::Both(Gate::Xor, first, second),
        WordOperator::Add => sum_plan(rows, first, second),
        WordOperator::ShiftLeft => shift_plan(bank, Shift::Up, first, id),
        WordOperator::ShiftRight => shift_plan(bank, Shift::Down, first, id),
        WordOperator::ShiftRightSigned => shift_plan(bank, Shift::DownSigned, first, id),
        WordOperator::Multiply => Plan::Own,
        WordOperator::Subtract => Plan::Own,
        WordOperator::Divide => Plan::Own,
        WordOperator::Remainder => Plan::Own,
    }
}

// The plan of an operator on two terms.
fn binary_plan(
    bank: &Bank,
    ids: &IndexSet<TermId>,
    rows: &[Vec<Bit>],
    operator: BinaryOperator,
    x: TermId,
    y: TermId,
) -> Plan
    requires { y < length bank.now }
    ensures { result ≡ views.binary_plan bank.now ids.now.keys (rows_of rows.now) operator x y }
{
    match operator {
        BinaryOperator::Word(operation) => {
            operation_plan(bank, rows, operation, index_of(ids, x), index_of(ids, y), y)
        }
        BinaryOperator::Join => Plan::Joined(Bytes::Two(index_of(ids, x), index_of(ids, y))),
        BinaryOperator::And => Plan::Own,
        BinaryOperator::Or => Plan::Own,
        BinaryOperator::Equal => Plan::Own,
        BinaryOperator::Less => Plan::Own,
        BinaryOperator::Load => Plan::Own,
    }
}

// The plan of an operator on three terms, of which these are the second and the third.
fn ternary_plan(operator: TernaryOperator, second: usize, third: usize) -> Plan
    ensures { result ≡ views.ternary_plan operator second third }
{
    match operator {
        TernaryOperator::Choose => Plan::Both(Gate::Choose, second, third),
        TernaryOperator::Store => Plan::Own,
    }
}

// The plan of an operator on four terms.
fn quaternary_plan(operator: QuaternaryOperator, bytes: Bytes) -> Plan
    ensures { result ≡ views.quaternary_plan operator bytes }
{
    match operator {
        QuaternaryOperator::Join => Plan::Joined(bytes),
        QuaternaryOperator::Over => Plan::Own,
    }
}

// Four bytes by their ids.
fn four(ids: &IndexSet<TermId>, a: TermId, b: TermId, c: TermId, d: TermId) -> Bytes
    ensures { result ≡ views.four ids.now.keys a b c d }
{
    let (x, y) = (index_of(ids, a), index_of(ids, b));
    Bytes::Four(x, y, index_of(ids, c), index_of(ids, d))
}

/// The plan of a node's term.
pub(crate) fn node_plan(
    bank: &Bank,
    ids: &IndexSet<TermId>,
    rows: &[Vec<Bit>],
    node: TermNode,
) -> Plan
    requires { IsNode (length bank.now) node }
    ensures { result ≡ views.node_plan bank.now ids.now.keys (rows_of rows.now) node }
{
    match node {
        TermNode::Leaf(atom) => atom_plan(atom),
        TermNode::Unary(operator, a) => unary_plan(operator, index_of(ids, a)),
        TermNode::Binary(operator, a, b) => binary_plan(bank, ids, rows, operator, a, b),
        TermNode::Ternary(operator, _, b, c) => {
            ternary_plan(operator, index_of(ids, b), index_of(ids, c))
        }
        TermNode::Quaternary(operator, a, b, c, d) => {
            quaternary_plan(operator, four(ids, a, b, c, d))
        }
        TermNode::Octonary(a, b, c, d, e, f, g, h) => {
            let (s, t) = (index_of(ids, a), index_of(ids, b));
            let (u, v) = (index_of(ids, c), index_of(ids, d));
            let (w, x) = (index_of(ids, e), index_of(ids, f));
            let (y, z) = (index_of(ids, g), index_of(ids, h));
            Plan::Joined(Bytes::Eight(s, t, u, v, w, x, y, z))
        }
    }
}
