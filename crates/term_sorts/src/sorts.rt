// The sorts of the terms of a bank, each found once.

ghost use Rattle.std.specs.Prelude.{◌≡◌, length, OnOk};
ghost use Rattle.term_core_spec.specs.Sort as spec;
ghost use Rattle.term_bank.specs.Nodes.{IsNode};
ghost use Rattle.term_sorts.specs.Sorts.{AreSorts, HasMoreSorts, sort_of_node};

use std::alloc::AllocError;
use term_bank::{Bank, TermNode};
use term_core::{
    sort_of_atom, sort_of_binary, sort_of_octonary, sort_of_quaternary, sort_of_ternary,
    sort_of_unary,
};
use term_core_spec::{BinaryOperator, QuaternaryOperator, Sort, TernaryOperator, UnaryOperator};

fn with_one(operator: UnaryOperator, first: Option<Sort>) -> Option<Sort>
    ensures { result ≡ spec.with_one (spec.sort_of_unary operator) first }
{
    sort_of_unary(operator, first?)
}

fn with_two(operator: BinaryOperator, first: Option<Sort>, second: Option<Sort>) -> Option<Sort>
    ensures { result ≡ spec.with_two (spec.sort_of_binary operator) first second }
{
    sort_of_binary(operator, first?, second?)
}

fn with_three(
    operator: TernaryOperator,
    first: Option<Sort>,
    second: Option<Sort>,
    third: Option<Sort>,
) -> Option<Sort>
    ensures { result ≡ spec.with_three (spec.sort_of_ternary operator) first second third }
{
    sort_of_ternary(operator, first?, second?, third?)
}

fn with_four(
    operator: QuaternaryOperator,
    first: Option<Sort>,
    second: Option<Sort>,
    third: Option<Sort>,
    fourth: Option<Sort>,
) -> Option<Sort>
    ensures { result ≡ spec.with_four (spec.sort_of_quaternary operator)
        first second third fourth }
{
    sort_of_quaternary(operator, first?, second?, third?, fourth?)
}

/// The sort of a node's term, by those of its arguments.
pub fn node_sort(node: TermNode, sorts: &[Option<Sort>]) -> Option<Sort>
    requires { IsNode (length sorts.now) node }
    ensures { result ≡ sort_of_node sorts.now node }
{
    match node {
        TermNode::Leaf(atom) => sort_of_atom(atom),
        TermNode::Unary(operator, a) => with_one(operator, sorts[a]),
        TermNode::Binary(operator, a, b) => with_two(operator, sorts[a], sorts[b]),
        TermNode::Ternary(operator, a, b, c) => {
            with_three(operator, sorts[a], sorts[b], sorts[c])
        }
        TermNode::Quaternary(operator, a, b, c, d) => {
            with_four(operator, sorts[a], sorts[b], sorts[c], sorts[d])
        }
        TermNode::Octonary(a, b, c, d, e, f, g, h) => sort_of_octonary([
            sorts[a], sorts[b], sorts[c], sorts[d], sorts[e], sorts[f], sorts[g], sorts[h],
        ]),
    }
}

/// Adds the sorts of the terms that have none yet.
pub fn add_sorts(bank: &Bank, sorts: &mut Vec<Option<Sort>>) -> Result<(), AllocError>
    requires { AreSorts bank.now sorts.old.items }
    ensures sorts { HasMoreSorts bank.now sorts.old.items sorts.new.items }
    ensures all { OnOk result (length sorts.new.items ≡ length bank.now) }
{
    for i in sorts.len()..bank.len() {
        let sort = node_sort(bank.node(i), sorts.as_slice());
        sorts.push(sort)?;
    }
    Ok(())
}
