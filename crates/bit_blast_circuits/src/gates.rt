ghost use Rattle.std.specs.Prelude.{◌≡◌, ◌+◌, ◌++◌, ◌∷◌, [], true, ◌≤◌, IfErr, IfOk, OnOk};
ghost use Rattle.clause_check_spec.specs.Clause.{are_of};
ghost use Rattle.bit_blast_spec.specs.Gates as build;
ghost use Rattle.bit_blast_spec.specs.Circuits as circuits;
ghost use Rattle.bit_blast_circuits.specs.Built.{no_clauses, MakesBit, MakesClauses};

use attempt::attempt;
use cnf_core::{ClauseList, Cnf, Literal, MAX_VARIABLE, negation};
use std::alloc::{AllocError, Global};
use std::marker::Model;

/// Gates over numbered variables, each made after the others (Tseitin's transformation).
///
/// After an `Err` of one of its calls it is fit only to be dropped.
#[derive(Drop)]
pub struct Gates {
    variables: usize,
    clauses: ClauseList,
}

impl Model for Gates {
    ghost use Rattle.clause_check_spec.specs.Clause.{Cnf as cnf};

    ghost Value = { cnf };

    ghost view = { λ g. record { variables = g.variables; clauses = g.clauses.clauses } };
}

impl Gates {
    /// No gates.
    pub fn new(alloc: Global) -> Gates
        ensures { result ≡ no_clauses }
    {
        Gates {
            variables: 0,
            clauses: ClauseList::new(alloc),
        }
    }

    /// The number of the last variable, or 0 where there is none.
    pub fn last(&self) -> usize
        ensures { result ≡ self.now.variables }
    {
        self.variables
    }

    /// The clauses of all gates, moved out. They may name only variables that were made.
    pub fn into_cnf(self) -> Cnf
        requires { are_of self.variables self.clauses ≡ true }
        ensures { result ≡ self }
    {
        Cnf::from_clauses(self.variables, self.clauses)
    }

    /// The literal of a new variable. It is out of memory only where there are no more numbers.
    pub(crate) fn fresh(&mut self) -> Result<Literal, AllocError>
        ensures new { IfOk result (λ o. o ≡ build.literal_of (self.old.variables + 1)) }
        ensures added { OnOk result (self.new
            ≡ record self.old { variables = self.old.variables + 1 }) }
        ensures full { IfErr result (λ _. MAX_VARIABLE ≤ self.old.variables) }
    {
        if self.variables >= MAX_VARIABLE {
            return Err(AllocError);
        }
        self.variables += 1;
        Ok(Literal::new(self.variables, false))
    }

    /// Adds a clause after the others.
    pub(crate) fn push(&mut self, clause: &[Literal]) -> Result<(), AllocError>
        ensures { OnOk result (self.new
            ≡ record self.old { clauses = self.old.clauses ++ clause.now ∷ [] }) }
    {
        self.clauses.push(clause)
    }

    /// A clause that is to be satisfied.
    pub fn claim(&mut self, clause: &[Literal]) -> Result<(), AllocError>
        ensures { MakesClauses result (build.claim (clause.now ∷ [])) self.old self.new }
    {
        self.push(clause)
    }

    /// A literal that holds.
    pub fn truth(&mut self) -> Result<Literal, AllocError>
        ensures { MakesBit result (build.make build.Truth) self.old self.new }
    {
        let o = attempt!(self.fresh());
        attempt!(self.push(&[o]));
        Ok(o)
    }

    /// Both.
    pub fn and_gate(&mut self, a: Literal, b: Literal) -> Result<Literal, AllocError>
        ensures { MakesBit result (circuits.and_gate a b) self.old self.new }
    {
        let o = attempt!(self.fresh());
        attempt!(self.push(&[negation(o), a]));
        attempt!(self.push(&[negation(o), b]));
        attempt!(self.push(&[o, negation(a), negation(b)]));
        Ok(o)
    }

    /// One of them at least.
    pub fn or_gate(&mut self, a: Literal, b: Literal) -> Result<Literal, AllocError>
        ensures { MakesBit result (circuits.or_gate a b) self.old self.new }
    {
        let neither = attempt!(self.and_gate(negation(a), negation(b)));
        Ok(negation(neither))
    }

    /// One of them alone.
    pub fn xor_gate(&mut self, a: Literal, b: Literal) -> Result<Literal, AllocError>
        ensures { MakesBit result (circuits.xor_gate a b) self.old self.new }
    {
        let o = attempt!(self.fresh());
        attempt!(self.push(&[negation(o), a, b]));
        attempt!(self.push(&[negation(o), negation(a), negation(b)]));
        attempt!(self.push(&[o, negation(a), b]));
        attempt!(self.push(&[o, a, negation(b)]));
        Ok(o)
    }

    /// The second where the first holds, else the third.
    pub fn mux_gate(&mut self, c: Literal, a: Literal, b: Literal) -> Result<Literal, AllocError>
        ensures { MakesBit result (circuits.mux_gate c a b) self.old self.new }
    {
        let o = attempt!(self.fresh());
        attempt!(self.push(&[negation(c), negation(a), o]));
        attempt!(self.push(&[negation(c), a, negation(o)]));
        attempt!(self.push(&[c, negation(b), o]));
        attempt!(self.push(&[c, b, negation(o)]));
        Ok(o)
    }

    /// Two of the three at least.
    pub fn majority_gate(
        &mut self,
        a: Literal,
        b: Literal,
        c: Literal,
    ) -> Result<Literal, AllocError>
        ensures { MakesBit result (circuits.majority_gate a b c) self.old self.new }
    {
        let o = attempt!(self.fresh());
        attempt!(self.push(&[negation(a), negation(b), o]));
        attempt!(self.push(&[negation(a), negation(c), o]));
        attempt!(self.push(&[negation(b), negation(c), o]));
        attempt!(self.push(&[a, b, negation(o)]));
        attempt!(self.push(&[a, c, negation(o)]));
        attempt!(self.push(&[b, c, negation(o)]));
        Ok(o)
    }
}
