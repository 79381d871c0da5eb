// Words by parts of others.

ghost use Rattle.std.specs.Prelude.{◌≡◌, ◌++◌, take, drop, IfOk};
ghost use Rattle.bit_blast_spec.specs.Goal as spec;

use attempt::attempt;
use cnf_core::Literal;
use std::alloc::{AllocError, Global};

/// One bit.
pub fn single(alloc: Global, bit: Literal) -> Result<Vec<Literal>, AllocError>
    ensures { IfOk result (λ out. out.items ≡ spec.single bit) }
{
    [bit].to_vec(alloc)
}

/// The lowest bits.
pub fn prefix(alloc: Global, x: &[Literal], count: usize) -> Result<Vec<Literal>, AllocError>
    ensures { IfOk result (λ out. out.items ≡ take count x.now) }
{
    x.iter().take(count).copied().collect(alloc)
}

/// So many bits from an index on.
pub fn part(
    alloc: Global,
    x: &[Literal],
    from: usize,
    count: usize,
) -> Result<Vec<Literal>, AllocError>
    ensures { IfOk result (λ out. out.items ≡ take count (drop from x.now)) }
{
    x.iter().skip(from).take(count).copied().collect(alloc)
}

/// The second after the first.
pub fn joined(alloc: Global, x: &[Literal], y: &[Literal]) -> Result<Vec<Literal>, AllocError>
    ensures { IfOk result (λ out. out.items ≡ x.now ++ y.now) }
{
    let mut out = attempt!(x.to_vec(alloc));
    attempt!(out.extend_from_slice(y));
    Ok(out)
}

/// Four words after another.
pub fn with_four(
    mut low: Vec<Literal>,
    a: &[Literal],
    b: &[Literal],
    c: &[Literal],
    d: &[Literal],
) -> Result<Vec<Literal>, AllocError>
    ensures { IfOk result (λ out. out.items ≡ low.items ++ a.now ++ b.now ++ c.now ++ d.now) }
{
    attempt!(low.extend_from_slice(a));
    attempt!(low.extend_from_slice(b));
    attempt!(low.extend_from_slice(c));
    attempt!(low.extend_from_slice(d));
    Ok(low)
}
