ghost use Rattle.std.specs.Prelude.{◌≡◌, ◌-◌, ◌*◌, ◌^◌, ◌<◌, ◌≤◌, length, replicate, not, true};
ghost use Rattle.std.specs.Prelude.{None, Some, is_some, IfOk, MatchResult, slice_set, All};
ghost use Rattle.clause_check_spec.specs.Clause.{is_of};
ghost use Rattle.clause_check.specs.Signs.{is_sign, sign_of};

use cnf_core::{Literal, negation};
use std::alloc::{AllocError, Global};
use std::marker::Model;

/// Which literals are true: of each variable whether its true literal is the negation, or none.
///
/// A literal is false where its stamp is this round. Stamps of earlier rounds show nothing, so that
/// a new round clears them all.
#[derive(Drop)]
pub struct Stamps {
    round: u32,
    stamps: Vec<u32>,
}

impl Model for Stamps {
    ghost use Rattle.std.specs.Prelude.{List, Option, Bool};
    ghost use Rattle.clause_check.specs.Stamps.{signs_in, AreStamps};

    ghost Value = { List (Option Bool) };

    ghost view = { λ s. signs_in s.round s.stamps.items };

    ghost invariant = { λ s. AreStamps s.round s.stamps.items };
}

/// How many stamps so many variables have; out of memory exactly where no `usize` holds it.
fn count_of(variables: usize) -> Result<usize, AllocError>
    ensures { MatchResult result (λ count. count ≡ variables * 2)
        (λ _. 2 ^ 64 ≤ variables * 2) }
{
    match variables.checked_mul(2) {
        Some(count) => Ok(count),
        None => Err(AllocError),
    }
}

impl Stamps {
    /// For so many variables, without true literals.
    pub fn new(alloc: Global, variables: usize) -> Result<Stamps, AllocError>
        ensures { IfOk result (λ stamps. stamps ≡ replicate variables None) }
    {
        let count = count_of(variables)?;
        let stamps = vec![in alloc; 0u32; count]?;
        Ok(Stamps { round: 1, stamps })
    }

    /// For how many variables.
    pub fn len(&self) -> usize
        ensures { result ≡ length self.now }
    {
        self.stamps.len() / 2
    }

    /// Takes all true literals away.
    pub fn clear(&mut self)
        ensures { self.new ≡ replicate (length self.old) None }
    {
        self.round = next_round(self.round, &mut self.stamps);
    }

    /// Whether the literal is false.
    pub fn is_false(&self, literal: Literal) -> bool
        requires { is_of (length self.now) literal ≡ true }
        ensures { result ≡ is_sign (sign_of self.now literal) (not literal.is_negated) }
    {
        self.stamps[literal.code() - 2] == self.round
    }

    /// Whether the literal is true.
    pub fn is_true(&self, literal: Literal) -> bool
        requires { is_of (length self.now) literal ≡ true }
        ensures { result ≡ is_sign (sign_of self.now literal) literal.is_negated }
    {
        self.is_false(negation(literal))
    }

    /// Whether the literal is false or true.
    pub fn is_set(&self, literal: Literal) -> bool
        requires { is_of (length self.now) literal ≡ true }
        ensures { result ≡ is_some (sign_of self.now literal) }
    {
        self.is_false(literal) || self.is_true(literal)
    }

    /// Makes the literal true.
    pub fn set(&mut self, literal: Literal)
        requires named { is_of (length self.old) literal ≡ true }
        requires unset { sign_of self.old literal ≡ None }
        ensures { self.new ≡ slice_set self.old (literal.variable - 1) (Some literal.is_negated) }
    {
        let index = negation(literal).code() - 2;
        self.stamps[index] = self.round;
    }
}

/// A round that no stamp is of. Where no number is left all stamps are made old ones.
fn next_round(round: u32, stamps: &mut [u32]) -> u32
    requires { All (λ stamp. stamp ≤ round) stamps.old }
    ensures new { All (λ stamp. stamp < result) stamps.new }
    ensures len { length stamps.new ≡ length stamps.old }
{
    if round < u32::MAX {
        return round + 1;
    }
    for stamp in stamps.iter_mut() {
        *stamp = 0;
    }
    1
}
