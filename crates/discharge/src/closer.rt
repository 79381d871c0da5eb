//! Logs whose steps are given one after the other.

ghost use Rattle.std.specs.Prelude.{◌≡◌, ◌<◌, length, Some};
ghost use Rattle.memory_spec.specs.Viewed.{runs_of};
ghost use Rattle.term_bank.specs.Nodes.{tree_at, Extends};
ghost use Rattle.discharge.specs.Closers.{OpenLog, Begins, BeginsForm, StartsAt, TakesStep};
ghost use Rattle.discharge.specs.Closers.{is_closed, open_of};

use crate::error::CloseFault;
use crate::limits::is_within;
use crate::truth::is_truth;
use attempt::Refusal;
use bit_blast::{BlastFault, Blasted, blast};
use clause_check::{Literal, Log, StepFault};
use cnf_core::Cnf;
use discharge_spec::GoalQuantity;
use memory_spec::Run;
use std::alloc::Global;
use term_bank::{Bank, TermId};
use term_norm::normal;
use tv_limits::{MAX_TERMS, MAX_VARIABLES};

/// A log for a goal, up to some step.
#[derive(Drop)]
pub struct Closer {
    /// The clauses of the goal's normal form, and the steps so far. There is none where the normal
    /// form is true and no step is to come.
    pub(crate) log: Option<Log>,
}

/// Before the first step over clauses.
fn begin_clauses(alloc: Global, cnf: Cnf) -> Result<Closer, Refusal<CloseFault>>
    ensures { StartsAt cnf result }
{
    match Log::new(alloc, cnf) {
        Ok(log) => Ok(Closer { log: Some(log) }),
        Err(_) => Err(Refusal::NoMemory),
    }
}

/// Before the first of so many steps for a goal in normal form.
fn begin_form(
    alloc: Global,
    bank: &Bank,
    form: TermId,
    count: usize,
) -> Result<Closer, Refusal<CloseFault>>
    requires { form < length bank.now }
    ensures { BeginsForm (tree_at bank.now form) count result }
{
    if is_truth(bank, form) && count == 0 {
        return Ok(Closer { log: None });
    }
    match blast(alloc, bank, form, MAX_VARIABLES) {
        Ok(Blasted { cnf, .. }) => begin_clauses(alloc, cnf),
        Err(Refusal::Fault(BlastFault::Large(least))) => Err(Refusal::Fault(CloseFault::Large(
            GoalQuantity::Variables,
            least,
        ))),
        Err(Refusal::NoMemory) => Err(Refusal::NoMemory),
    }
}

impl Closer {
    /// Before the first of so many steps for a goal whose memories of the source hold the runs. A
    /// goal is too large before its first step, or not at all. The bank grows by the normal form.
    pub fn begin(
        alloc: Global,
        bank: &mut Bank,
        goal: TermId,
        count: usize,
        runs: &[Run],
    ) -> Result<Closer, Refusal<CloseFault>>
        requires { goal < length bank.old }
        ensures begins { Begins (runs_of runs.now) (tree_at bank.old goal) count result }
        ensures extends { Extends bank.old bank.new }
    {
        match is_within(alloc, bank, goal) {
            Ok(true) => {}
            Ok(false) => return Err(Refusal::Fault(CloseFault::Large(
                GoalQuantity::Terms,
                MAX_TERMS + 1,
            ))),
            Err(_) => return Err(Refusal::NoMemory),
        }
        match normal(alloc, bank, goal, runs) {
            Ok(form) => begin_form(alloc, bank, form, count),
            Err(_) => Err(Refusal::NoMemory),
        }
    }

    /// Gives it the next step. Work is linear in the literals, in the hints, and in the literals of
    /// their clauses.
    pub fn step(&mut self, literals: &[Literal], hints: &[usize]) -> Result<(), Refusal<StepFault>>
        requires open { (log : OpenLog) × (open_of self.old ≡ Some log) }
        ensures { (log : OpenLog) → open_of self.old ≡ Some log
            → TakesStep log (open_of self.new) literals.now hints.now result }
    {
        let Some(log) = &mut self.log else {
            unreachable!();
        };
        log.step(literals, hints)
    }

    /// Whether the goal is closed: no step is needed, or the last has no literal.
    pub fn is_closed(&self) -> bool
        ensures { result ≡ is_closed (open_of self.now) }
    {
        match &self.log {
            Some(log) => log.is_closed(),
            None => true,
        }
    }
}
