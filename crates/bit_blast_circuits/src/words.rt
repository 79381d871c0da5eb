ghost use Rattle.std.specs.Prelude.{◌≡◌, ◌++◌, map, replicate, IfOk};
ghost use Rattle.clause_check_spec.specs.Clause as clause;
ghost use Rattle.bit_blast_spec.specs.Circuits as circuits;

use attempt::attempt;
use cnf_core::{Literal, negation};
use std::alloc::{AllocError, Global};

/// Truth: variable 1.
pub fn one() -> Literal
    ensures { result ≡ circuits.one }
{
    Literal::new(1, false)
}

/// Falsehood: the negation of variable 1.
pub fn none() -> Literal
    ensures { result ≡ circuits.none }
{
    negation(one())
}

/// Each bit negated.
pub fn negations(alloc: Global, xs: &[Literal]) -> Result<Vec<Literal>, AllocError>
    ensures { IfOk result (λ out. out.items ≡ map clause.negation xs.now) }
{
    xs.iter().map(|x| negation(*x)).collect(alloc)
}

/// A word with so many copies of a literal after its top bit.
pub fn padded(
    alloc: Global,
    xs: &[Literal],
    fill: Literal,
    count: usize,
) -> Result<Vec<Literal>, AllocError>
    ensures { IfOk result (λ out. out.items ≡ xs.now ++ replicate count fill) }
{
    let mut out = attempt!(Vec::from_slice(alloc, xs));
    for _ in 0..count {
        out.push(fill)?;
    }
    Ok(out)
}

/// The word after so many bits that don't hold.
pub(crate) fn after_zeros(
    alloc: Global,
    count: usize,
    xs: &[Literal],
) -> Result<Vec<Literal>, AllocError>
    ensures { IfOk result (λ out. out.items ≡ circuits.zeros count ++ xs.now) }
{
    let mut out = attempt!(padded(alloc, &[], none(), count));
    attempt!(out.extend_from_slice(xs));
    Ok(out)
}

/// A word of twice the width, of the same number.
pub(crate) fn twice_as_wide(alloc: Global, xs: &[Literal]) -> Result<Vec<Literal>, AllocError>
    ensures { IfOk result (λ out. out.items ≡ circuits.twice_as_wide xs.now) }
{
    padded(alloc, xs, none(), xs.len())
}

/// The top bit; falsehood where there is none.
pub fn sign_of(xs: &[Literal]) -> Literal
    ensures { result ≡ circuits.sign_of xs.now }
{
    match xs.last() {
        Some(top) => *top,
        None => none(),
    }
}
