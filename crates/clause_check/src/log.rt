ghost use Rattle.std.specs.Prelude.{◌≡◌, ◌+◌, ◌-◌, ◌≤◌, ◌++◌, ◌∷◌, ◌↔◌, ℕ, [], length, slice_get};
ghost use Rattle.std.specs.Prelude.{false, Some, Err, IfOk, OnOk, OnErr, IsOk, IsTrue};
ghost use Rattle.clause_check_spec.specs.Clause.{Valuation, satisfies};
ghost use Rattle.clause_check_spec.specs.Step.{outcome, Follows, Refused};
ghost use Rattle.clause_check_spec.specs.declared.StepFaultKind.{StepFaultKind};
ghost use Rattle.clause_check.specs.Logged.{clauses_of};
ghost use Rattle.clause_check.specs.declared.hints.StepFault.{StepFault};

use crate::hints::{StepFault, follows};
use crate::stamps::Stamps;
use attempt::Refusal;
use cnf_core::{ClauseList, Cnf, Literal};
use std::alloc::{AllocError, Global};
use std::marker::Model;

impl From<StepFault> for Refusal<StepFault> {
    ghost use Rattle.attempt.specs.declared.refusal.Refusal.TheVariants.{Fault};

    ghost from_gives = { λ fault error. error ≡ Fault fault };

    fn from(fault: StepFault) -> Self {
        Refusal::Fault(fault)
    }
}

/// Clauses, and the steps that were added to them, each of which follows from the clauses and the
/// steps before it.
#[derive(Drop)]
pub struct Log {
    given: usize,
    clauses: ClauseList,
    stamps: Stamps,
}

impl Model for Log {
    ghost use Rattle.std.specs.Prelude.{length, take, drop};
    ghost use Rattle.clause_check.specs.Logged.{Logged};
    ghost use Rattle.clause_check.specs.Kept.{IsKept};

    ghost Value = { Logged };

    ghost view = { λ log. record {
      cnf = record { variables = length log.stamps; clauses = take log.given log.clauses.clauses };
      added = drop log.given log.clauses.clauses;
      spare = log.clauses.spare;
    } };

    ghost invariant = { λ log. IsKept (length log.stamps) log.given log.clauses.clauses };
}

impl Log {
    /// No steps yet. The clauses are moved, not copied; the values of the variables take memory.
    pub fn new(alloc: Global, cnf: Cnf) -> Result<Log, AllocError>
        ensures cnf { IfOk result (λ log. log.cnf ≡ cnf) }
        ensures added { IfOk result (λ log. log.added ≡ []) }
    {
        let stamps = Stamps::new(alloc, cnf.variables())?;
        Ok(Log {
            given: cnf.len(),
            clauses: cnf.into_clauses(),
            stamps,
        })
    }

    /// Makes room: steps that have with one for each so many literals are then added without taking
    /// memory.
    pub fn reserve(&mut self, room: usize) -> Result<(), AllocError>
        ensures room { OnOk result (room ≤ self.new.spare) }
        ensures kept { self.old.spare ≤ self.new.spare }
        ensures cnf { self.new.cnf ≡ self.old.cnf }
        ensures added { self.new.added ≡ self.old.added }
    {
        self.clauses.reserve(room)
    }

    /// Adds a step with these literals, if it follows by these hints (a RUP step, as in LRAT).
    /// Hints are numbers of clauses, counted from 1, the steps after the clauses. Work is linear in
    /// the literals, in the hints, and in the literals of their clauses.
    pub fn step(&mut self, literals: &[Literal], hints: &[usize]) -> Result<(), Refusal<StepFault>>
        ensures follows { OnOk result (outcome self.old.cnf.variables
            (clauses_of self.old) literals.now hints.now ≡ Follows) }
        ensures fault { (hint : ℕ) (kind : StepFaultKind) →
            (result ≡ Err (Refusal.Fault (record { hint = hint; kind = kind })))
            ↔ (outcome self.old.cnf.variables (clauses_of self.old) literals.now hints.now
            ≡ Refused hint kind) }
        ensures cnf { self.new.cnf ≡ self.old.cnf }
        ensures added { OnOk result (self.new.added ≡ self.old.added ++ literals.now ∷ []) }
        ensures refused { OnErr result (self.new.added ≡ self.old.added) }
        ensures as_before { (fault : StepFault) → result ≡ Err (Refusal.Fault fault)
            → self.new ≡ self.old }

        // A step that follows takes no memory where there is room for it.
        ensures fits { length literals.now + 1 ≤ self.old.spare
            → outcome self.old.cnf.variables (clauses_of self.old) literals.now hints.now ≡ Follows
            → IsOk result }
        ensures spare { OnOk result (self.old.spare ≤ self.new.spare + (length literals.now + 1)) }
        ensures kept { OnErr result (self.old.spare ≤ self.new.spare) }
    {
        follows(&self.clauses, &mut self.stamps, literals, hints)?;
        self.clauses.push(literals)?;
        Ok(())
    }

    /// Whether there are steps and the last has no literal.
    pub fn is_closed(&self) -> bool
        ensures last { IsTrue result ↔ (slice_get self.now.added (length self.now.added - 1)
            ≡ Some []) }
        ensures unsatisfied { IsTrue result → (values : Valuation)
            → satisfies values self.now.cnf.clauses ≡ false }
    {
        let Some(last) = self.clauses.len().checked_sub(1) else {
            return false;
        };
        last >= self.given && is_empty(&self.clauses, last)
    }
}

/// Whether the clause of an index has no literal.
fn is_empty(clauses: &ClauseList, index: usize) -> bool
    ensures { IsTrue result ↔ (slice_get clauses.now.clauses index ≡ Some []) }
{
    match clauses.get(index) {
        Some(clause) => clause.is_empty(),
        None => false,
    }
}
