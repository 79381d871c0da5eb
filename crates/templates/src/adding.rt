//! Terms that are added to a bank, and their ids to a list.

ghost use Rattle.std.specs.Prelude.{◌≡◌, ◌<◌, [], ◌∷◌, OnOk, length, map};
ghost use Rattle.term_core_spec.specs.Term as tree;
ghost use Rattle.term_bank.specs.Nodes.{IsNode, build, tree_at};
ghost use Rattle.c_graph_terms.specs.Tables.{AreWithin};
ghost use Rattle.templates.specs.Added.{AreAdded, on_each, on_all, leaf_of};

use attempt::attempt;
use std::alloc::AllocError;
use term_bank::{Bank, TermId, TermNode};
use term_core_spec::{Atom, BinaryOperator, Family, Sort, Variable, Width};

/// Terms without arguments, by numbers.
#[derive(Clone, Copy)]
pub(crate) enum Leaves {
    /// The words of the numbers.
    Numbers,
    /// Registers.
    Registers,
    /// Their values at entry.
    Entries,
}

/// Adds the term of a node.
pub(crate) fn add(bank: &mut Bank, ids: &mut Vec<TermId>, node: TermNode) -> Result<(), AllocError>
    requires node { IsNode (length bank.old) node }
    requires ids { AreWithin (length bank.old) ids.old.items }
    ensures { OnOk result (AreAdded bank.old bank.new ids.old.items ids.new.items
        (build bank.old node ∷ [])) }
{
    let id = attempt!(bank.add(node));
    attempt!(ids.push(id), AllocError);
    Ok(())
}

/// Adds what an operator makes of a term and each of others.
pub(crate) fn add_on_each(
    bank: &mut Bank,
    ids: &mut Vec<TermId>,
    operator: BinaryOperator,
    x: TermId,
    ys: &[TermId],
) -> Result<(), AllocError>
    requires x { x < length bank.old }
    requires ys { AreWithin (length bank.old) ys.now }
    requires ids { AreWithin (length bank.old) ids.old.items }
    ensures { OnOk result (AreAdded bank.old bank.new ids.old.items ids.new.items
        (on_each operator (tree_at bank.old x) (map (tree_at bank.old) ys.now))) }
{
    for y in ys {
        attempt!(add(bank, ids, TermNode::Binary(operator, x, *y)));
    }
    Ok(())
}

/// Adds what an operator makes of each of some terms with each of others.
pub(crate) fn add_on_all(
    bank: &mut Bank,
    ids: &mut Vec<TermId>,
    operator: BinaryOperator,
    xs: &[TermId],
    ys: &[TermId],
) -> Result<(), AllocError>
    requires xs { AreWithin (length bank.old) xs.now }
    requires ys { AreWithin (length bank.old) ys.now }
    requires ids { AreWithin (length bank.old) ids.old.items }
    ensures { OnOk result (AreAdded bank.old bank.new ids.old.items ids.new.items
        (on_all operator (map (tree_at bank.old) xs.now) (map (tree_at bank.old) ys.now))) }
{
    for x in xs {
        attempt!(add_on_each(bank, ids, operator, *x, ys));
    }
    Ok(())
}

// A word's variable of a family.
fn variable(family: Family, index: usize) -> Variable
    ensures { result ≡ record {
      family = family;
      index = index;
      instance = 0;
      sort = Sort.Word Width.W32;
    } }
{
    Variable {
        family,
        index,
        instance: 0,
        sort: Sort::Word(Width::W32),
    }
}

// The leaf of a number.
fn atom(leaves: Leaves, number: u64) -> Atom
    ensures { tree.Leaf result ≡ leaf_of leaves number }
{
    match leaves {
        Leaves::Numbers => Atom::Constant(Width::W32, number),
        Leaves::Registers => Atom::Open(variable(Family::Register, number as usize)),
        Leaves::Entries => Atom::Open(variable(Family::Entry, number as usize)),
    }
}

/// Adds the leaves of numbers.
pub(crate) fn add_leaves(
    bank: &mut Bank,
    ids: &mut Vec<TermId>,
    leaves: Leaves,
    numbers: &[u64],
) -> Result<(), AllocError>
    requires { AreWithin (length bank.old) ids.old.items }
    ensures { OnOk result (AreAdded bank.old bank.new ids.old.items ids.new.items
        (map (leaf_of leaves) numbers.now)) }
{
    for number in numbers {
        attempt!(add(bank, ids, TermNode::Leaf(atom(leaves, *number))));
    }
    Ok(())
}
