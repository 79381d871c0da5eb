// Questions on terms, under the values that the variables have so far:
//
// - `value TERM`: its value in a bank; `tree TERM`: the sort and the value of its tree, or `None`
//   if it has no sort
// - `set:VARIABLE TERM`: the same value, which the variable has from here on
// - `normal TERM`: its normal form, where memories of the source hold the bytes of `RUNS`
// - `flat TERM`: its flat term; `indices TERM`: the indices of this and of its loads in the bank
// - `rebuild TERM`: its value after memories are rebuilt from a model of its flat term, which the
//   variables keep

ghost use Rattle.std.specs.Prelude.{◌<◌, length};

use crate::words::{atom, term};
use attempt::attempt;
use mem_terms::{flat, rebuild};
use memory_spec::Run;
use row_io::Out;
use std::alloc::{AllocError, Global};
use std::mem;
use term_bank::{Bank, TermId, TermNode};
use term_core::{Assignment, Term, Value, eval, sort};
use term_core_spec::Atom;
use term_norm::normal;

/// The bytes that the memories of the source hold.
const RUNS: [(u32, &[u8]); 4] = [
    (16, &[80, 117, 154, 191, 228, 9, 46, 83]),
    (100, &[7, 8]),
    (200, &[9]),
    (101, &[1, 2]),
];

fn runs(alloc: Global) -> Result<Vec<Run>, AllocError> {
    let mut runs = Vec::new(alloc);
    for (start, bytes) in &RUNS {
        let bytes = attempt!(bytes.to_vec(alloc));
        runs.push(Run {
            start: *start,
            bytes,
        })?;
    }
    Ok(runs)
}

/// Both, where both were made.
fn both<A: Drop, B: Drop>(
    first: Result<A, AllocError>,
    second: Result<B, AllocError>,
) -> Result<(A, B), AllocError> {
    Ok((first?, second?))
}

fn boxed(alloc: Global, term: Term) -> Result<Box<Term>, AllocError> {
    Ok(Box::new(alloc, term)?)
}

/// The tree of a term.
pub(crate) fn tree(alloc: Global, bank: &Bank, id: TermId) -> Result<Box<Term>, AllocError>
    requires { id < length bank.now }
{
    match bank.node(id) {
        TermNode::Leaf(atom) => boxed(alloc, Term::Leaf(atom)),
        TermNode::Unary(operator, a) => {
            let a = attempt!(tree(alloc, bank, a));
            boxed(alloc, Term::Unary(operator, a))
        }
        TermNode::Binary(operator, a, b) => {
            let (a, b) = attempt!(both(tree(alloc, bank, a), tree(alloc, bank, b)));
            boxed(alloc, Term::Binary(operator, a, b))
        }
        TermNode::Ternary(operator, a, b, c) => {
            let rest = both(tree(alloc, bank, b), tree(alloc, bank, c));
            let (a, (b, c)) = attempt!(both(tree(alloc, bank, a), rest));
            boxed(alloc, Term::Ternary(operator, a, b, c))
        }
        TermNode::Quaternary(operator, a, b, c, d) => {
            let first = both(tree(alloc, bank, a), tree(alloc, bank, b));
            let second = both(tree(alloc, bank, c), tree(alloc, bank, d));
            let ((a, b), (c, d)) = attempt!(both(first, second));
            boxed(alloc, Term::Quaternary(operator, a, b, c, d))
        }
        TermNode::Octonary(a, b, c, d, e, f, g, h) => {
            let first = both(tree(alloc, bank, a), tree(alloc, bank, b));
            let second = both(tree(alloc, bank, c), tree(alloc, bank, d));
            let third = both(tree(alloc, bank, e), tree(alloc, bank, f));
            let fourth = both(tree(alloc, bank, g), tree(alloc, bank, h));
            let (low, high) = attempt!(both(both(first, second), both(third, fourth)));
            let (((a, b), (c, d)), ((e, f), (g, h))) = (low, high);
            boxed(alloc, Term::Octonary(a, b, c, d, e, f, g, h))
        }
    }
}

/// The sort and the value of the tree of a term.
pub(crate) fn put_tree(
    alloc: Global,
    values: &Assignment,
    bank: &Bank,
    id: TermId,
    out: &mut Out,
) -> Result<(), AllocError>
    requires { id < length bank.now }
{
    let tree = attempt!(tree(alloc, bank, id));
    let sort = sort(&tree);
    out.show(&sort);
    if sort.is_some() {
        let value = attempt!(eval(alloc, &tree, values));
        out.put(" ");
        out.show(&value);
    }
    Ok(())
}

/// The value of a term in a bank.
fn value(alloc: Global, values: &Assignment, bank: &Bank, id: TermId) -> Result<Value, AllocError> {
    let mut all = attempt!(bank.eval_all(alloc, values));
    if id < all.len() {
        Ok(all.swap_remove(id))
    } else {
        Ok(Value::Truth(false))
    }
}

/// Writes the value of a term.
pub(crate) fn put_value(
    alloc: Global,
    values: &Assignment,
    bank: &Bank,
    id: TermId,
    out: &mut Out,
) -> Result<(), AllocError> {
    out.show(&attempt!(value(alloc, values, bank, id)));
    Ok(())
}

/// Writes the value of a term, which a variable has from here on.
pub(crate) fn set(
    alloc: Global,
    values: &mut Assignment,
    bank: &Bank,
    id: TermId,
    name: &str,
    out: &mut Out,
) -> Result<(), AllocError> {
    let value = attempt!(value(alloc, values, bank, id));
    out.show(&value);
    match atom(name) {
        Atom::Open(variable) => values.set(variable, value),
        _ => Ok(()),
    }
}

/// Writes the expected answer where the term is the one that it names; else the term's node.
pub(crate) fn compare(
    bank: &mut Bank,
    read: &mut Vec<TermId>,
    id: TermId,
    form: &str,
    out: &mut Out,
) -> Result<(), AllocError> {
    if id == attempt!(term(bank, read, form)) {
        out.put(form);
    } else if id < bank.len() {
        out.show(&bank.node(id));
    }
    Ok(())
}

/// Writes the normal form of a term.
pub(crate) fn put_normal(
    alloc: Global,
    bank: &mut Bank,
    read: &mut Vec<TermId>,
    id: TermId,
    form: &str,
    out: &mut Out,
) -> Result<(), AllocError>
    requires { id < length bank.old }
{
    let made = attempt!(normal(alloc, bank, id, &attempt!(runs(alloc))));
    compare(bank, read, made, form, out)
}

/// Writes the flat term of a term.
pub(crate) fn put_flat(
    alloc: Global,
    bank: &mut Bank,
    read: &mut Vec<TermId>,
    id: TermId,
    form: &str,
    out: &mut Out,
) -> Result<(), AllocError>
    requires { id < length bank.old }
{
    let flat = attempt!(flat(alloc, bank, id));
    compare(bank, read, flat.term, form, out)
}

/// Writes the indices of the flat term and of its loads.
pub(crate) fn put_indices(
    alloc: Global,
    bank: &mut Bank,
    id: TermId,
    out: &mut Out,
) -> Result<(), AllocError>
    requires { id < length bank.old }
{
    out.show(&attempt!(flat(alloc, bank, id)));
    Ok(())
}

/// Writes the value of a term after its memories are rebuilt.
pub(crate) fn put_rebuilt(
    alloc: Global,
    values: &mut Assignment,
    bank: &mut Bank,
    id: TermId,
    out: &mut Out,
) -> Result<(), AllocError>
    requires { id < length bank.old }
{
    let flat = attempt!(flat(alloc, bank, id));
    let old = mem::replace(values, Assignment::new(alloc));
    *values = attempt!(rebuild(alloc, &flat, bank, old));
    put_value(alloc, values, bank, id, out)
}
