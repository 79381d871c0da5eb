//! The search for the logs of obligations.

ghost use Rattle.std.specs.Prelude.{◌≡◌, ◌<◌, ℕ, [], All, IfOk, List, Some, length, map};
ghost use Rattle.memory_spec.specs.Runs as fixed;
ghost use Rattle.memory_spec.specs.Viewed.{runs_of};
ghost use Rattle.term_core_spec.specs.declared.Sort.TheVariants as sort;
ghost use Rattle.term_core_spec.specs.Term.{Term};
ghost use Rattle.term_core_spec.specs.Sort.{sort_of};
ghost use Rattle.term_bank.specs.Nodes.{Extends, tree_at};
ghost use Rattle.discharge.specs.Answers.{Seeks};
ghost use Rattle.prove_run.specs.Found.{logs_of};
ghost use Rattle.prove_run.specs.Logs.{AreTruths, HasLog, HaveLogs, IsLeanLog, IsSearched};
ghost use Rattle.prove_run.specs.Logs.{IsTrailIf};

use crate::premises::note_premises;
use crate::trail::{Found, Trail};
use attempt::{Refusal, attempt};
use discharge::{Cost, SeekFault, Sought, refute, seek_counting};
use memory_spec::Run;
use prove_run_spec::Measure;
use sat_search_analysis::Step;
use std::alloc::{AllocError, Global};
use term_bank::{Bank, TermId};
use tv_base::{Note, Notes};
use tv_limits::SEARCH_LIMIT;

// Adds a log; there is no trail.
fn push_log(logs: &mut Vec<Vec<Step>>, log: Vec<Step>) -> Result<Option<Trail>, AllocError>
    ensures { (runs : List fixed.Run) (goal : Term) (number : ℕ)
        → IsLeanLog runs goal log.items
        → IfOk result (HasLog runs goal number logs.old.items logs.new.items) }
{
    attempt!(logs.push(log), AllocError);
    Ok(None)
}

// Searches for the log of the obligation of a number, and notes what that took.
fn seek_noting<N: Notes>(
    alloc: Global,
    bank: &mut Bank,
    goal: TermId,
    number: usize,
    runs: &[Run],
    notes: &mut N,
) -> Result<Sought, Refusal<SeekFault>>
    requires { goal < length bank.old }
    ensures seeks { sort_of (tree_at bank.old goal) ≡ Some sort.Truth
        → Seeks (runs_of runs.now) (tree_at bank.old goal) SEARCH_LIMIT result }
    ensures extends { Extends bank.old bank.new }
{
    let mut cost = Cost::new();
    let sought = seek_counting(alloc, bank, goal, SEARCH_LIMIT, runs, &mut cost);
    notes.note(&Note::Searched {
        obligation: number,
        variables: cost.variables,
        learnt: cost.counts.learnt,
        assignments: cost.counts.assignments,
    });
    sought
}

// Adds the log of the obligation of a number, or gives the trail.
fn add_log<N: Notes>(
    alloc: Global,
    bank: &mut Bank,
    goal: TermId,
    number: usize,
    runs: &[Run],
    logs: &mut Vec<Vec<Step>>,
    notes: &mut N,
) -> Result<Option<Trail>, AllocError>
    requires { goal < length bank.old }
    ensures log { sort_of (tree_at bank.old goal) ≡ Some sort.Truth
        → IfOk result (HasLog (runs_of runs.now) (tree_at bank.old goal) number logs.old.items
        logs.new.items) }
    ensures extends { Extends bank.old bank.new }
{
    match seek_noting(alloc, bank, goal, number, runs, notes) {
        Ok(Sought::Valid(log)) => push_log(logs, log),
        Ok(Sought::Refuted(assignment)) => {
            assignment.is_assignment();
            Ok(Some(Trail::Refuted(number, assignment)))
        }
        Ok(Sought::Limit(log)) => Ok(Some(Trail::Spent(number, log))),
        Err(Refusal::Fault(SeekFault::Large(quantity, count))) => {
            let measure = Measure::Obligation(number, quantity);
            Ok(Some(Trail::Large(measure, count)))
        }
        Err(Refusal::NoMemory) => Err(AllocError),
    }
}

// Adds the log of each obligation, up to the first that has none: its trail.
fn add_logs<N: Notes>(
    alloc: Global,
    bank: &mut Bank,
    goals: &[TermId],
    runs: &[Run],
    logs: &mut Vec<Vec<Step>>,
    notes: &mut N,
) -> Result<Option<Trail>, AllocError>
    requires within { All (λ goal. goal < length bank.old) goals.now }
    requires nothing { logs.old.items ≡ [] }
    ensures { AreTruths (map (tree_at bank.old) goals.now) → IfOk result (HaveLogs
        (runs_of runs.now) (map (tree_at bank.old) goals.now) (logs_of logs.new.items)) }
{
    for index in 0..goals.len() {
        let goal = goals[index];
        match add_log(alloc, bank, goal, index, runs, logs, notes) {
            Ok(None) => {}
            Ok(Some(trail)) => return Ok(Some(trail)),
            Err(error) => return Err(error),
        }
    }
    Ok(None)
}

// The trail of the first obligation that one of a few assignments refutes, if there is one.
fn refuted(
    alloc: Global,
    bank: &mut Bank,
    goals: &[TermId],
    runs: &[Run],
) -> Result<Option<Trail>, AllocError>
    requires { All (λ goal. goal < length bank.old) goals.now }
    ensures trail { IfOk result (IsTrailIf (runs_of runs.now) (map (tree_at bank.old) goals.now)) }
    ensures extends { Extends bank.old bank.new }
{
    for index in 0..goals.len() {
        match refute(alloc, bank, goals[index], runs) {
            Ok(None) => {}
            Ok(Some(assignment)) => {
                assignment.is_assignment();
                return Ok(Some(Trail::Refuted(index, assignment)));
            }
            Err(error) => return Err(error),
        }
    }
    Ok(None)
}

// The logs of obligations, or the trail of the first that has none, by a search for each.
fn search_each<N: Notes>(
    alloc: Global,
    bank: &mut Bank,
    goals: &[TermId],
    runs: &[Run],
    notes: &mut N,
) -> Result<Found, AllocError>
    requires { All (λ goal. goal < length bank.old) goals.now }
    ensures { AreTruths (map (tree_at bank.old) goals.now) → IfOk result (IsSearched
        (runs_of runs.now) (map (tree_at bank.old) goals.now)) }
{
    let mut logs = Vec::new(alloc);
    match add_logs(alloc, bank, goals, runs, &mut logs, notes) {
        Ok(None) => Ok(Found::Proved(logs)),
        Ok(Some(trail)) => Ok(Found::Unproved(trail)),
        Err(error) => Err(error),
    }
}

// The logs of obligations, or the trail of one that has none. An obligation that is easily refuted
// is found before any search.
fn search_easy_first<N: Notes>(
    alloc: Global,
    bank: &mut Bank,
    goals: &[TermId],
    runs: &[Run],
    notes: &mut N,
) -> Result<Found, AllocError>
    requires { All (λ goal. goal < length bank.old) goals.now }
    ensures { AreTruths (map (tree_at bank.old) goals.now) → IfOk result (IsSearched
        (runs_of runs.now) (map (tree_at bank.old) goals.now)) }
{
    match refuted(alloc, bank, goals, runs) {
        Ok(None) => search_each(alloc, bank, goals, runs, notes),
        Ok(Some(refutation)) => Ok(Found::Unproved(refutation)),
        Err(error) => Err(error),
    }
}

/// The logs of obligations, or the trail of one that has none. It is noted where their premises are
/// false.
pub(crate) fn search<N: Notes>(
    alloc: Global,
    bank: &mut Bank,
    goals: &[TermId],
    runs: &[Run],
    notes: &mut N,
) -> Result<Found, AllocError>
    requires { All (λ goal. goal < length bank.old) goals.now }
    ensures { AreTruths (map (tree_at bank.old) goals.now) → IfOk result (IsSearched
        (runs_of runs.now) (map (tree_at bank.old) goals.now)) }
{
    match note_premises(alloc, bank, goals, runs, notes) {
        Ok(()) => search_easy_first(alloc, bank, goals, runs, notes),
        Err(error) => Err(error),
    }
}
