ghost use Rattle.std.specs.Prelude.{◌≡◌};

use cnf_core::Literal;
use std::marker::Model;

/// A clause that is added to others, and the numbers of those that it follows from.
#[derive(Drop)]
pub struct Step {
    literals: Vec<Literal>,
    hints: Vec<usize>,
}

impl Model for Step {
    ghost use Rattle.clause_check_spec.specs.Log.{Step as step};

    ghost Value = { step };

    ghost view = { λ s. record { literals = s.literals.items; hints = s.hints.items } };
}

impl Step {
    /// A step with these literals and hints. Clauses are numbered from 1.
    pub fn new(literals: Vec<Literal>, hints: Vec<usize>) -> Self
        ensures literals { result.literals ≡ literals.items }
        ensures hints { result.hints ≡ hints.items }
    {
        Step { literals, hints }
    }

    /// The literals of the clause.
    pub fn literals(&self) -> &[Literal]
        ensures { result.now ≡ self.now.literals }
    {
        self.literals.as_slice()
    }

    /// The numbers of the clauses that it follows from, in the order in which they are used.
    pub fn hints(&self) -> &[usize]
        ensures { result.now ≡ self.now.hints }
    {
        self.hints.as_slice()
    }
}
