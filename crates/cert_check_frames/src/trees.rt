//! Terms of a bank as trees, and the tests of a frame's premises.

ghost use Rattle.std.specs.Prelude.{◌≡◌, ◌<◌, [], IfOk, OnOk, length, map};
ghost use Rattle.term_core_spec.specs.Term as tree;
ghost use Rattle.term_core.specs.Trees.{term_of};
ghost use Rattle.term_bank.specs.Nodes.{tree_at};
ghost use Rattle.graph_core.specs.Graphs.{boxed_term};
ghost use Rattle.cert_check_frames.specs.Jobs.{AreBelow, tests_at};

use crate::jobs::Branch;
use attempt::attempt;
use std::alloc::{AllocError, Global};
use term_bank::{Bank, TermId, TermNode};
use term_core::Term;

// Two terms, where both were made.
fn two(
    first: Result<Box<Term>, AllocError>,
    second: Result<Box<Term>, AllocError>,
) -> Result<(Box<Term>, Box<Term>), AllocError>
    ensures { (s t : tree.Term) → IfOk first (λ x. term_of x.value ≡ s)
        → IfOk second (λ x. term_of x.value ≡ t)
        → IfOk result (λ p. (term_of p.0.value ≡ s) × (term_of p.1.value ≡ t)) }
{
    let first = attempt!(first);
    let second = attempt!(second);
    Ok((first, second))
}

/// The tree of a term, in memory of its own. It is as large as its text: a subterm is there as
/// often as it occurs. It calls itself once a level: a test is a line of a certificate, which nests
/// at most `NESTING_LIMIT` levels deep (`tv_limits`).
pub fn tree(alloc: Global, bank: &Bank, id: TermId) -> Result<Box<Term>, AllocError>
    requires { id < length bank.now }
    ensures { IfOk result (λ t. term_of t.value ≡ tree_at bank.now id) }
{
    match bank.node(id) {
        TermNode::Leaf(atom) => Term::leaf(alloc, atom),
        TermNode::Unary(operator, a) => {
            let a = attempt!(tree(alloc, bank, a));
            Term::unary(alloc, operator, a)
        }
        TermNode::Binary(operator, a, b) => {
            let (a, b) = attempt!(two(tree(alloc, bank, a), tree(alloc, bank, b)));
            Term::binary(alloc, operator, a, b)
        }
        TermNode::Ternary(operator, a, b, c) => {
            let (a, b) = attempt!(two(tree(alloc, bank, a), tree(alloc, bank, b)));
            let c = attempt!(tree(alloc, bank, c));
            Term::ternary(alloc, operator, a, b, c)
        }
        TermNode::Quaternary(operator, a, b, c, d) => {
            let (a, b) = attempt!(two(tree(alloc, bank, a), tree(alloc, bank, b)));
            let (c, d) = attempt!(two(tree(alloc, bank, c), tree(alloc, bank, d)));
            Term::quaternary(alloc, operator, a, b, c, d)
        }
        TermNode::Octonary(a, b, c, d, e, f, g, h) => {
            let (a, b) = attempt!(two(tree(alloc, bank, a), tree(alloc, bank, b)));
            let (c, d) = attempt!(two(tree(alloc, bank, c), tree(alloc, bank, d)));
            let (e, f) = attempt!(two(tree(alloc, bank, e), tree(alloc, bank, f)));
            let (g, h) = attempt!(two(tree(alloc, bank, g), tree(alloc, bank, h)));
            Term::octonary(alloc, a, b, c, d, e, f, g, h)
        }
    }
}

// Adds the trees of the tests.
fn add_tests(
    alloc: Global,
    bank: &Bank,
    premises: &[Branch],
    tests: &mut Vec<Box<Term>>,
) -> Result<(), AllocError>
    requires empty { tests.old.items ≡ [] }
    requires below { AreBelow (length bank.now) premises.now }
    ensures { OnOk result (map boxed_term tests.new.items ≡ tests_at bank.now premises.now) }
{
    for premise in premises {
        let test = attempt!(tree(alloc, bank, premise.test));
        attempt!(tests.push(test), AllocError);
    }
    Ok(())
}

/// The trees of the tests of premises.
pub fn tests(alloc: Global, bank: &Bank, premises: &[Branch]) -> Result<Vec<Box<Term>>, AllocError>
    requires { AreBelow (length bank.now) premises.now }
    ensures { IfOk result (λ tests. map boxed_term tests.items
        ≡ tests_at bank.now premises.now) }
{
    let mut tests = Vec::new(alloc);
    attempt!(add_tests(alloc, bank, premises, &mut tests));
    Ok(tests)
}
