//! Whether a log closes a goal.

ghost use Rattle.std.specs.Prelude.{◌≡◌, ◌<◌, ◌≤◌, length, Some, OnOk, true};
ghost use Rattle.memory_spec.specs.Viewed.{runs_of};
ghost use Rattle.term_core_spec.specs.declared.Sort.TheVariants as sort;
ghost use Rattle.term_core_spec.specs.Sort.{sort_of};
ghost use Rattle.term_core_spec.specs.Value as term_value;
ghost use Rattle.term_norm_spec.specs.Fixed.{HoldsFixed};
ghost use Rattle.term_bank.specs.Nodes.{tree_at, Extends};
ghost use Rattle.discharge_spec.specs.Closing as spec;
ghost use Rattle.discharge.specs.Answers.{Answers, CountsLarge, refusal};
ghost use Rattle.discharge.specs.Closers.{IsBounded, open_of, opened, outcome_by};

use crate::closer::Closer;
use crate::error::CloseFault;
use crate::steps::Steps;
use attempt::Refusal;
use clause_check::{Log, StepFault};
use cnf_core::MAX_VARIABLE;
use memory_spec::Run;
use std::alloc::Global;
use term_bank::{Bank, TermId};
use term_norm::hold_runs;

/// Why the step of a number doesn't follow.
fn step_error(error: Refusal<StepFault>, number: usize) -> Refusal<CloseFault>
    ensures { result ≡ refusal error number }
{
    match error {
        Refusal::Fault(_) => Refusal::Fault(CloseFault::Step(number)),
        Refusal::NoMemory => Refusal::NoMemory,
    }
}

/// Adds the steps of a log to those of a checker.
fn add_steps<L: Steps>(
    alloc: Global,
    checker: &mut Log,
    log: &mut L,
) -> Result<(), Refusal<CloseFault>>
    requires { checker.old.cnf.variables ≤ MAX_VARIABLE }
    ensures { Answers (outcome_by (Some (opened checker.old)) (L.left log.old)) result }
{
    let count = log.count();
    for index in 0..count {
        match log.add_first(alloc, checker) {
            Ok(()) => {}
            Err(error) => return Err(step_error(error, index + 1)),
        }
    }
    if checker.is_closed() {
        Ok(())
    } else {
        Err(Refusal::Fault(CloseFault::Unclosed))
    }
}

/// Gives the steps of a log.
fn give_steps<L: Steps>(
    alloc: Global,
    closer: &mut Closer,
    log: &mut L,
) -> Result<(), Refusal<CloseFault>>
    requires { IsBounded (open_of closer.old) }
    ensures { Answers (outcome_by (open_of closer.old) (L.left log.old)) result }
{
    match &mut closer.log {
        Some(checker) => add_steps(alloc, checker, log),
        None => Ok(()),
    }
}

/// Whether the steps that are left of a log close the goal, whose memories of the source hold the
/// runs. Work is linear in the log beside what the normal form and its clauses take; the bank grows
/// by the normal form.
pub fn close<L: Steps>(
    alloc: Global,
    bank: &mut Bank,
    goal: TermId,
    log: &mut L,
    runs: &[Run],
) -> Result<(), Refusal<CloseFault>>
    requires { goal < length bank.old }
    ensures answers { Answers (spec.closing (runs_of runs.now) (tree_at bank.old goal)
        (L.left log.old)) result }
    ensures large { CountsLarge (runs_of runs.now) (tree_at bank.old goal) result }

    // A goal that is closed is true wherever the memories of the source hold the runs.
    ensures holds { OnOk result (sort_of (tree_at bank.old goal) ≡ Some sort.Truth
        → (a : term_value.Assignment) → term_value.IsAssignment a
        → HoldsFixed (runs_of runs.now) a
        → term_value.value a (tree_at bank.old goal) ≡ term_value.Truth true) }
    ensures extends { Extends bank.old bank.new }
{
    hold_runs(runs);
    match Closer::begin(alloc, bank, goal, log.count(), runs) {
        Ok(mut closer) => give_steps(alloc, &mut closer, log),
        Err(error) => Err(error),
    }
}
