// Terms of a bank, and their sorts.

ghost use Rattle.std.specs.Prelude.{◌≡◌, ◌<◌, ◌&&◌, length};
ghost use Rattle.term_core_spec.specs.declared.Sort.TheVariants as kinds;
ghost use Rattle.term_core_spec.specs.Sort as spec;
ghost use Rattle.term_bank.specs.Nodes.{IsNode, build, tree_at};
ghost use Rattle.term_sorts.specs.Sorts as tables;
ghost use Rattle.term_sorts.specs.Sorts.{AreSorts};
ghost use Rattle.word_steps_spec.specs.Numbers as numbers;
ghost use Rattle.word_steps_spec.specs.Sides as sides;
ghost use Rattle.word_steps_rules.specs.Sides as views;

use term_bank::{Bank, TermId, TermNode};
use term_core::sort_of_binary;
use term_core_spec::{BinaryOperator, Sort};

/// The sides of an operator.
#[derive(Clone, Copy)]
pub(crate) struct Sides {
    /// the first term
    pub left: TermId,
    /// the second term
    pub right: TermId,
}

/// The node at an index: its tree is the term.
pub(crate) fn node_at(bank: &Bank, id: TermId) -> TermNode
    requires { id < length bank.now }
    ensures children { IsNode id result }
    ensures tree { tree_at bank.now id ≡ build bank.now result }
{
    bank.node(id)
}

fn sort_at(sorts: &[Option<Sort>], id: TermId) -> Option<Sort>
    requires { id < length sorts.now }
    ensures { result ≡ tables.sort_at sorts.now id }
{
    sorts[id]
}

/// The sort of a term, where it has one.
pub(crate) fn sort_of(bank: &Bank, sorts: &[Option<Sort>], id: TermId) -> Option<Sort>
    requires sorts { AreSorts bank.now sorts.now }
    requires within { id < length sorts.now }
    ensures { result ≡ spec.sort_of (tree_at bank.now id) }
{
    let _ = bank;
    sort_at(sorts, id)
}

fn is_truth_sort(sort: Option<Sort>) -> bool
    ensures { result ≡ numbers.has_sort sort kinds.Truth }
{
    matches!(sort, Some(Sort::Truth))
}

/// Whether a term is a truth value.
pub(crate) fn is_bool(bank: &Bank, sorts: &[Option<Sort>], id: TermId) -> bool
    requires sorts { AreSorts bank.now sorts.now }
    requires within { id < length sorts.now }
    ensures { result ≡ numbers.is_bool (tree_at bank.now id) }
{
    is_truth_sort(sort_of(bank, sorts, id))
}

fn is_word_sort(sort: Option<Sort>) -> bool
    ensures { result ≡ views.is_word_sort sort }
{
    match sort {
        Some(Sort::Word(_)) => true,
        Some(Sort::Truth) => false,
        Some(Sort::Memory) => false,
        None => false,
    }
}

// Whether two sorts are those of sides of an `eq`.
fn are_alike_sorts(first: Option<Sort>, second: Option<Sort>) -> bool
    ensures { result ≡ views.are_alike_sorts first second }
{
    match (first, second) {
        (Some(a), Some(b)) => is_truth_sort(sort_of_binary(BinaryOperator::Equal, a, b)),
        _ => false,
    }
}

// Whether two sorts are of words of one width.
fn are_word_sorts(first: Option<Sort>, second: Option<Sort>) -> bool
    ensures { result ≡ (views.is_word_sort first && views.are_alike_sorts first second) }
{
    is_word_sort(first) && are_alike_sorts(first, second)
}

/// Whether two terms are words of one width.
pub(crate) fn are_words(bank: &Bank, sorts: &[Option<Sort>], x: TermId, y: TermId) -> bool
    requires sorts { AreSorts bank.now sorts.now }
    requires x { x < length sorts.now }
    requires y { y < length sorts.now }
    ensures { result ≡ sides.are_words (tree_at bank.now x) (tree_at bank.now y) }
{
    are_word_sorts(sort_of(bank, sorts, x), sort_of(bank, sorts, y))
}

// The sides of an operator that is `eq`.
fn sides_by(operator: BinaryOperator, left: TermId, right: TermId) -> Option<Sides>
    ensures { result ≡ views.sides_by operator left right }
{
    match operator {
        BinaryOperator::Equal => Some(Sides { left, right }),
        BinaryOperator::And => None,
        BinaryOperator::Or => None,
        BinaryOperator::Less => None,
        BinaryOperator::Load => None,
        BinaryOperator::Join => None,
        BinaryOperator::Word(_) => None,
    }
}

// The sides of a node that is an `eq`.
fn sides_of_node(node: TermNode) -> Option<Sides>
    ensures { result ≡ views.sides_of_node node }
{
    match node {
        TermNode::Binary(operator, left, right) => sides_by(operator, left, right),
        TermNode::Leaf(_) => None,
        TermNode::Unary(_, _) => None,
        TermNode::Ternary(_, _, _, _) => None,
        TermNode::Quaternary(_, _, _, _, _) => None,
        TermNode::Octonary(_, _, _, _, _, _, _, _) => None,
    }
}

// The sides of a term that is an `eq`.
fn equality_at(bank: &Bank, id: TermId) -> Option<Sides>
    requires { id < length bank.now }
    ensures { views.IsEquality bank.now id result }
{
    sides_of_node(node_at(bank, id))
}

/// The sides of a term that is an `eq` of words.
pub(crate) fn sides_at(bank: &Bank, sorts: &[Option<Sort>], id: TermId) -> Option<Sides>
    requires sorts { AreSorts bank.now sorts.now }
    requires within { id < length sorts.now }
    ensures { views.AreSides bank.now id result }
{
    match equality_at(bank, id) {
        Some(equality) => {
            if are_words(bank, sorts, equality.left, equality.right) {
                Some(equality)
            } else {
                None
            }
        }
        None => None,
    }
}
