// The rule `comm`: one operator over the same arguments in another order.

ghost use Rattle.std.specs.Prelude.{◌≡◌, ◌<◌, ℕ, List, [], Some, length, slice_get, IfOk};
ghost use Rattle.std.specs.Prelude.{option_map};
ghost use Rattle.term_core_spec.specs.declared.BinaryOperator.TheVariants as binary;
ghost use Rattle.term_bank.specs.Nodes.{tree_at};
ghost use Rattle.term_sorts.specs.Sorts.{AreSorts};
ghost use Rattle.word_steps_spec.specs.Commuting as spec;
ghost use Rattle.word_steps_rules.specs.Views as views;
ghost use Rattle.word_steps_rules.specs.Arguments.{sides_under, Expands, Expanding};
ghost use Rattle.word_steps_rules.specs.Arguments.{IsExpanded, ArgumentsOf};

use crate::monomial::same_ids;
use crate::words::{Sides, is_bool, node_at};
use attempt::attempt;
use std::alloc::{AllocError, Global};
use term_bank::{Bank, TermId, TermNode};
use term_core_spec::{BinaryOperator, Sort, WordOperator};

/// At most so many arguments are put in another order.
pub const ARGUMENTS: usize = 48;

// Whether the arguments of an operation on words may be put in any order.
#[tactic(auto, unfolding(word_steps_spec::specs::Commuting::is_commutative))]
fn is_commutative_operation(operator: WordOperator) -> bool
    ensures { result ≡ spec.is_commutative (binary.Word operator) }
{
    match operator {
        WordOperator::And => true,
        WordOperator::Or => true,
        WordOperator::Xor => true,
        WordOperator::Multiply => true,
        WordOperator::Add => false,
        WordOperator::Subtract => false,
        WordOperator::Divide => false,
        WordOperator::Remainder => false,
        WordOperator::ShiftLeft => false,
        WordOperator::ShiftRight => false,
        WordOperator::ShiftRightSigned => false,
    }
}

// Whether the arguments of an operator may be put in any order.
#[tactic(auto, unfolding(word_steps_spec::specs::Commuting::is_commutative))]
fn is_commutative(operator: BinaryOperator) -> bool
    ensures { result ≡ spec.is_commutative operator }
{
    match operator {
        BinaryOperator::And => true,
        BinaryOperator::Or => true,
        BinaryOperator::Equal => true,
        BinaryOperator::Word(operation) => is_commutative_operation(operation),
        BinaryOperator::Less => false,
        BinaryOperator::Load => false,
        BinaryOperator::Join => false,
    }
}

// Whether the arguments of an operator over two terms, of which this is the first, may be taken
// apart.
fn is_associative(
    bank: &Bank,
    sorts: &[Option<Sort>],
    operator: BinaryOperator,
    first: TermId,
) -> bool
    requires sorts { AreSorts bank.now sorts.now }
    requires first { first < length sorts.now }
    ensures { result ≡ spec.is_associative operator (tree_at bank.now first) }
{
    match operator {
        BinaryOperator::Equal => is_bool(bank, sorts, first),
        BinaryOperator::And => true,
        BinaryOperator::Or => true,
        BinaryOperator::Word(_) => true,
        BinaryOperator::Less => true,
        BinaryOperator::Load => true,
        BinaryOperator::Join => true,
    }
}

// The sides of a term of this operator that may be taken apart.
#[tactic(auto, unfolding(crate::specs::Arguments::sides_under))]
fn nested_sides(
    bank: &Bank,
    sorts: &[Option<Sort>],
    operator: BinaryOperator,
    id: TermId,
) -> Option<Sides>
    requires sorts { AreSorts bank.now sorts.now }
    requires within { id < length sorts.now }
    ensures sides { option_map (views.sides_in bank.now) result
        ≡ sides_under operator (tree_at bank.now id) }
    ensures below { views.AreBelow id result }
{
    match node_at(bank, id) {
        TermNode::Binary(inner, x, y) => {
            if inner == operator && is_associative(bank, sorts, inner, x) {
                Some(Sides { left: x, right: y })
            } else {
                None
            }
        }
        TermNode::Leaf(_) => None,
        TermNode::Unary(_, _) => None,
        TermNode::Ternary(_, _, _, _) => None,
        TermNode::Quaternary(_, _, _, _, _) => None,
        TermNode::Octonary(_, _, _, _, _, _, _, _) => None,
    }
}

// Puts the sides of the term at a place in its place, where it may be taken apart; which place is
// next.
fn expand_at(
    bank: &Bank,
    sorts: &[Option<Sort>],
    operator: BinaryOperator,
    terms: &mut Vec<TermId>,
    at: usize,
    id: TermId,
) -> Result<usize, AllocError>
    requires sorts { AreSorts bank.now sorts.now }
    requires within { id < length sorts.now }
    requires at { at < length terms.old.items }
    requires id { slice_get terms.old.items at ≡ Some id }
    ensures { IfOk result (λ next. (old : List ℕ)
        → Expanding bank.now operator (length sorts.now) old terms.old.items at
        → IsExpanded bank.now operator (length sorts.now) old terms.old.items terms.new.items at
        next) }
{
    match nested_sides(bank, sorts, operator, id) {
        Some(sides) => {
            terms[at] = sides.left;
            terms.insert(at + 1, sides.right)?;
            Ok(at)
        }
        None => Ok(at + 1),
    }
}

// Puts the arguments of terms of this operator in their place, and whether these are not too many.
fn expand(
    bank: &Bank,
    sorts: &[Option<Sort>],
    operator: BinaryOperator,
    terms: &mut Vec<TermId>,
) -> Result<bool, AllocError>
    requires sorts { AreSorts bank.now sorts.now }
    requires within { views.AreAtoms (length sorts.now) terms.old.items }
    ensures { IfOk result (Expands bank.now operator (length sorts.now) terms.old.items
        terms.new.items) }
{
    let mut at = 0;
    while at < terms.len() {
        if terms.len() > ARGUMENTS {
            return Ok(false);
        }
        let id = terms[at];
        at = attempt!(expand_at(bank, sorts, operator, terms, at, id));
    }
    Ok(terms.len() <= ARGUMENTS)
}

// Adds the arguments under an operator to none, and whether these are not too many.
fn add_arguments(
    bank: &Bank,
    sorts: &[Option<Sort>],
    operator: BinaryOperator,
    id: TermId,
    terms: &mut Vec<TermId>,
) -> Result<bool, AllocError>
    requires sorts { AreSorts bank.now sorts.now }
    requires within { id < length sorts.now }
    requires none { terms.old.items ≡ [] }
    ensures { IfOk result (ArgumentsOf bank.now operator (length sorts.now)
        (tree_at bank.now id) terms.new.items) }
{
    terms.push(id)?;
    expand(bank, sorts, operator, terms)
}

// Whether two terms have the same arguments under an operator, each as often; these are added to
// none.
fn have_same_arguments(
    bank: &Bank,
    sorts: &[Option<Sort>],
    operator: BinaryOperator,
    ids: Sides,
    first: &mut Vec<TermId>,
    second: &mut Vec<TermId>,
) -> Result<bool, AllocError>
    requires sorts { AreSorts bank.now sorts.now }
    requires left { ids.left < length sorts.now }
    requires right { ids.right < length sorts.now }
    requires first { first.old.items ≡ [] }
    requires second { second.old.items ≡ [] }
    ensures { IfOk result (λ same. same ≡ spec.are_arguments_of_both
        (spec.arguments_under operator (tree_at bank.now ids.left))
        (spec.arguments_under operator (tree_at bank.now ids.right))) }
{
    bank.are_distinct();
    if !attempt!(add_arguments(bank, sorts, operator, ids.left, first)) {
        return Ok(false);
    }
    if !attempt!(add_arguments(bank, sorts, operator, ids.right, second)) {
        return Ok(false);
    }
    Ok(same_ids(first.as_slice(), second.as_slice()))
}

// Whether two terms have the same arguments under an operator, each as often.
fn same_arguments(
    alloc: Global,
    bank: &Bank,
    sorts: &[Option<Sort>],
    operator: BinaryOperator,
    ids: Sides,
) -> Result<bool, AllocError>
    requires sorts { AreSorts bank.now sorts.now }
    requires left { ids.left < length sorts.now }
    requires right { ids.right < length sorts.now }
    ensures { IfOk result (λ same. same ≡ spec.are_arguments_of_both
        (spec.arguments_under operator (tree_at bank.now ids.left))
        (spec.arguments_under operator (tree_at bank.now ids.right))) }
{
    let mut some = Vec::new(alloc);
    let mut others = Vec::new(alloc);
    have_same_arguments(bank, sorts, operator, ids, &mut some, &mut others)
}

// An operator over two terms.
#[derive(Clone, Copy)]
struct Operation {
    operator: BinaryOperator,
    sides: Sides,
}

// The operator of a node over two terms.
fn operation_of_node(node: TermNode) -> Option<Operation>
    ensures { result ≡ views.operation_of_node node }
{
    match node {
        TermNode::Binary(operator, left, right) => Some(Operation {
            operator,
            sides: Sides { left, right },
        }),
        TermNode::Leaf(_) => None,
        TermNode::Unary(_, _) => None,
        TermNode::Ternary(_, _, _, _) => None,
        TermNode::Quaternary(_, _, _, _, _) => None,
        TermNode::Octonary(_, _, _, _, _, _, _, _) => None,
    }
}

// The operator of a term over two terms.
fn operation_at(bank: &Bank, id: TermId) -> Option<Operation>
    requires { id < length bank.now }
    ensures { views.IsOperationOf bank.now id result }
{
    operation_of_node(node_at(bank, id))
}

// Whether two operations have one operator, whose arguments may be put in any order.
fn are_alike(first: Operation, second: Operation) -> bool
    ensures { result ≡ views.are_alike first second }
{
    is_commutative(first.operator) && first.operator == second.operator
}

// Whether the sides of one operator are those of another, the other way round.
fn are_turned(bank: &Bank, first: Sides, second: Sides) -> bool
    requires first { views.AreBelow (length bank.now) (Some first) }
    requires second { views.AreBelow (length bank.now) (Some second) }
    ensures { result ≡ views.are_turned (views.sides_in bank.now first)
        (views.sides_in bank.now second) }
{
    bank.are_distinct();
    first.left == second.right && first.right == second.left
}

// Whether two operations are one operator over the same arguments in another order; these are the
// terms `ids`.
fn are_commuted(
    alloc: Global,
    bank: &Bank,
    sorts: &[Option<Sort>],
    ids: Sides,
    first: Operation,
    second: Operation,
) -> Result<bool, AllocError>
    requires sorts { AreSorts bank.now sorts.now }
    requires left { ids.left < length sorts.now }
    requires right { ids.right < length sorts.now }
    requires first { views.IsOperation bank.now ids.left first }
    requires second { views.IsOperation bank.now ids.right second }
    ensures { IfOk result (λ same. same ≡ spec.same_up_to_order (tree_at bank.now ids.left)
        (tree_at bank.now ids.right)) }
{
    if !are_alike(first, second) {
        return Ok(false);
    }
    if are_turned(bank, first.sides, second.sides) {
        return Ok(true);
    }
    same_arguments(alloc, bank, sorts, first.operator, ids)
}

// The same of terms of which the operator of the first is known.
fn is_commuted(
    alloc: Global,
    bank: &Bank,
    sorts: &[Option<Sort>],
    ids: Sides,
    first: Operation,
) -> Result<bool, AllocError>
    requires sorts { AreSorts bank.now sorts.now }
    requires left { ids.left < length sorts.now }
    requires right { ids.right < length sorts.now }
    requires first { views.IsOperation bank.now ids.left first }
    ensures { IfOk result (λ same. same ≡ spec.same_up_to_order (tree_at bank.now ids.left)
        (tree_at bank.now ids.right)) }
{
    match operation_at(bank, ids.right) {
        Some(second) => are_commuted(alloc, bank, sorts, ids, first, second),
        None => Ok(false),
    }
}

/// `comm X Y`: whether two terms are one operator over the same arguments in another order.
pub fn same_up_to_order(
    alloc: Global,
    bank: &Bank,
    sorts: &[Option<Sort>],
    first: TermId,
    second: TermId,
) -> Result<bool, AllocError>
    requires sorts { AreSorts bank.now sorts.now }
    requires first { first < length sorts.now }
    requires second { second < length sorts.now }
    ensures { IfOk result (λ same. same ≡ spec.same_up_to_order (tree_at bank.now first)
        (tree_at bank.now second)) }
{
    let ids = Sides {
        left: first,
        right: second,
    };
    match operation_at(bank, first) {
        Some(some) => is_commuted(alloc, bank, sorts, ids, some),
        None => Ok(false),
    }
}
