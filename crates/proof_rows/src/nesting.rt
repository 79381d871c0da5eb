// The questions `cases N` and `negations N`: whether a proof of so many cases round a leaf, or a
// term of so many negations, nests as deep as it may at most.

use crate::walks::number;
use attempt::attempt;
use proof_tree::{Proof, nests_within, term_nests_within};
use row_io::Out;
use std::alloc::{AllocError, Global};
use term_core::Term;
use term_core_spec::{Atom, UnaryOperator};
use tv_limits::NESTING_LIMIT;

fn leaf(alloc: Global) -> Result<Box<Proof>, AllocError> {
    Ok(attempt!(Box::new(alloc, Proof::Leaf(3)), AllocError))
}

// A case one of whose proofs this is.
fn case(alloc: Global, proof: Box<Proof>) -> Result<Box<Proof>, AllocError> {
    let test = attempt!(Term::leaf(alloc, Atom::Truth(true)));
    let other = attempt!(leaf(alloc));
    Ok(attempt!(Box::new(alloc, Proof::Case(test, proof, other)), AllocError))
}

// So many cases round a leaf.
fn cases(alloc: Global, count: usize) -> Result<Box<Proof>, AllocError> {
    let mut proof = attempt!(leaf(alloc));
    for _ in 0..count {
        proof = attempt!(case(alloc, proof));
    }
    Ok(proof)
}

// So many negations round a truth value.
fn negations(alloc: Global, count: usize) -> Result<Box<Term>, AllocError> {
    let mut term = attempt!(Term::leaf(alloc, Atom::Truth(true)));
    for _ in 0..count {
        term = attempt!(Term::unary(alloc, UnaryOperator::Not, term));
    }
    Ok(term)
}

fn are_nested(alloc: Global, name: &str, count: usize) -> Result<bool, AllocError> {
    if name == "cases" {
        let proof = attempt!(cases(alloc, count));
        return Ok(nests_within(&*proof, NESTING_LIMIT));
    }
    let term = attempt!(negations(alloc, count));
    Ok(term_nests_within(&*term, NESTING_LIMIT))
}

/// Adds the answer.
pub(crate) fn answer(
    alloc: Global,
    out: &mut Out,
    name: &str,
    text: &str,
) -> Result<(), AllocError> {
    let nested = attempt!(are_nested(alloc, name, number(text)));
    out.put(if nested { "nested" } else { "too deep" });
    Ok(())
}
