ghost use Rattle.std.specs.Prelude.{◌≡◌, ◌==◌, ◌+◌, ◌-◌, ◌^◌, ◌<◌, ◌++◌, ◌∷◌, [], length};
ghost use Rattle.std.specs.Prelude.{slice_get, true, IfSome, OnOk, OnErr};
ghost use Rattle.std.specs.List.{list_all};
ghost use Rattle.std.specs.Option.{option_map};
ghost use Rattle.clause_check_spec.specs.Clause as spec;

use crate::{ClauseList, Literal};
use std::alloc::{AllocError, Global};
use std::marker::Model;

/// Clauses over the variables from 1 to [`Cnf::variables`]. Clauses are numbered from 1.
#[derive(Drop)]
pub struct Cnf {
    variables: usize,
    clauses: ClauseList,
}

impl Model for Cnf {
    ghost use Rattle.std.specs.Prelude.{◌≡◌, true};
    ghost use Rattle.clause_check_spec.specs.Clause.{Cnf as cnf, are_of};

    ghost Value = { cnf };

    ghost view = { λ c. record { variables = c.variables; clauses = c.clauses.clauses } };

    ghost invariant = { λ c. are_of c.variables c.clauses.clauses ≡ true };
}

impl Cnf {
    /// No clauses, over so many variables.
    pub fn new(alloc: Global, variables: usize) -> Self
        ensures { result ≡ record { variables = variables; clauses = [] } }
    {
        Cnf {
            variables,
            clauses: ClauseList::new(alloc),
        }
    }

    /// Clauses of a list over so many variables. The list is moved, not copied.
    pub fn from_clauses(variables: usize, clauses: ClauseList) -> Self
        requires { spec.are_of variables clauses.clauses ≡ true }
        ensures { result ≡ record { variables = variables; clauses = clauses.clauses } }
    {
        Cnf { variables, clauses }
    }

    /// The list of the clauses, moved out.
    pub fn into_clauses(self) -> ClauseList
        ensures clauses { result.clauses ≡ self.clauses }
        ensures named { spec.are_of self.variables self.clauses ≡ true }
    {
        self.clauses
    }

    /// How many variables there are.
    pub fn variables(&self) -> usize
        ensures { result ≡ self.now.variables }
    {
        self.variables
    }

    /// How many clauses there are.
    pub fn len(&self) -> usize
        ensures { result ≡ length self.now.clauses }
    {
        self.clauses.len()
    }

    /// Whether there are no clauses.
    pub fn is_empty(&self) -> bool
        ensures { result ≡ (length self.now.clauses == 0) }
    {
        self.clauses.is_empty()
    }

    /// The clause of an index, counted from 0.
    pub fn clause(&self, index: usize) -> Option<&[Literal]>
        ensures found { option_map (λ clause. clause.now) result
            ≡ slice_get self.now.clauses index }
        ensures named { IfSome result (λ clause. list_all (spec.is_of self.now.variables) clause.now
            ≡ true) }
    {
        self.clauses.get(index)
    }

    /// One more variable, which has the number of the answer.
    pub fn add_variable(&mut self) -> usize
        requires { self.old.variables < 2 ^ 64 - 1 }
        ensures number { result ≡ self.old.variables + 1 }
        ensures added { self.new ≡ record self.old { variables = self.old.variables + 1 } }
    {
        self.variables += 1;
        self.variables
    }

    /// Adds a clause after the others. After a refusal the clauses are as before.
    pub fn push(&mut self, clause: &[Literal]) -> Result<(), AllocError>
        requires { list_all (spec.is_of self.old.variables) clause.now ≡ true }
        ensures added { OnOk result (self.new
            ≡ record self.old { clauses = self.old.clauses ++ clause.now ∷ [] }) }
        ensures refused { OnErr result (self.new ≡ self.old) }
    {
        self.clauses.push(clause)
    }
}
