//! The search for a log that closes a goal.

ghost use Rattle.std.specs.Prelude.{◌≡◌, ◌<◌, ◌≤◌, ℕ, [], length, Some, false};
ghost use Rattle.memory_spec.specs.Viewed.{runs_of};
ghost use Rattle.term_core_spec.specs.declared.Sort.TheVariants as sort;
ghost use Rattle.term_core_spec.specs.Term.{Term};
ghost use Rattle.term_core_spec.specs.Sort.{sort_of};
ghost use Rattle.bit_blast_spec.specs.Goal.{cnf_of, visit};
ghost use Rattle.bit_blast_laws.specs.Back.{TableLoadsFromVariables};
ghost use Rattle.term_bank.specs.Nodes.{tree_at, Extends};
ghost use Rattle.sat_search.specs.Found.{IsFound};
ghost use Rattle.discharge_spec.specs.Closing.{is_truth as is_truth_term};
ghost use Rattle.discharge.specs.Answers.{Seeks, SeeksForm};

use crate::error::SeekFault;
use crate::limits::is_within;
use crate::truth::is_truth;
use attempt::Refusal;
use bit_blast::{BlastFault, Blasted, blast, read_back};
use discharge_spec::GoalQuantity;
use memory_spec::Run;
use sat_search::{Counts, Found, solve_counting};
use sat_search_analysis::Step;
use std::alloc::Global;
use term_bank::{Bank, TermId};
use term_core::Assignment;
use term_norm::{hold_runs, normal};
use tv_limits::{MAX_TERMS, MAX_VARIABLES};

/// What a search for a log finds.
#[derive(Drop)]
pub enum Sought {
    /// The goal is true: a log that closes it, each of whose steps is used.
    Valid(Vec<Step>),
    /// An assignment under which the normal form of the goal is false.
    Refuted(Assignment),
    /// The limit was reached: a log of as many learnt clauses, none of which closes the goal.
    Limit(Vec<Step>),
}

/// What a search took.
#[derive(Clone, Copy)]
pub struct Cost {
    /// The variables of the clauses; 0 where there was nothing to search.
    pub variables: usize,
    /// The clauses that were learnt, and the assignments.
    pub counts: Counts,
}

impl Cost {
    /// That of no search.
    pub fn new() -> Cost {
        Cost {
            variables: 0,
            counts: Counts::new(),
        }
    }
}

/// What a search over the clauses of a goal in normal form found.
fn outcome(alloc: Global, blasted: &Blasted, found: Found) -> Result<Sought, Refusal<SeekFault>>
    ensures { (form : Term) (limit : ℕ) → sort_of form ≡ Some sort.Truth
        → TableLoadsFromVariables (visit form [] 1).out
        → blasted.now.table ≡ (visit form [] 1).out → blasted.now.cnf ≡ cnf_of form
        → (cnf_of form).variables ≤ MAX_VARIABLES → is_truth_term form ≡ false
        → IsFound blasted.now.cnf limit found → SeeksForm form limit result }
{
    match found {
        Found::Closed(log) => Ok(Sought::Valid(log)),
        Found::Model(bits) => match read_back(alloc, blasted, bits.as_slice()) {
            Ok(assignment) => Ok(Sought::Refuted(assignment)),
            Err(_) => Err(Refusal::NoMemory),
        },
        Found::Limit(log) => Ok(Sought::Limit(log)),
    }
}

/// Searches for a log that closes a goal in normal form.
fn seek_form(
    alloc: Global,
    bank: &Bank,
    form: TermId,
    limit: usize,
    cost: &mut Cost,
) -> Result<Sought, Refusal<SeekFault>>
    requires { form < length bank.now }
    ensures { sort_of (tree_at bank.now form) ≡ Some sort.Truth
        → TableLoadsFromVariables (visit (tree_at bank.now form) [] 1).out
        → SeeksForm (tree_at bank.now form) limit result }
{
    if is_truth(bank, form) {
        return Ok(Sought::Valid(Vec::new(alloc)));
    }
    match blast(alloc, bank, form, MAX_VARIABLES) {
        Ok(blasted) => {
            cost.variables = blasted.cnf.variables();
            match solve_counting(alloc, &blasted.cnf, limit, &mut cost.counts) {
                Ok(found) => outcome(alloc, &blasted, found),
                Err(_) => Err(Refusal::NoMemory),
            }
        }
        Err(Refusal::Fault(BlastFault::Large(count))) => Err(Refusal::Fault(SeekFault::Large(
            GoalQuantity::Variables,
            count,
        ))),
        Err(Refusal::NoMemory) => Err(Refusal::NoMemory),
    }
}

/// Searches as [`seek`] does, and says what that took.
pub fn seek_counting(
    alloc: Global,
    bank: &mut Bank,
    goal: TermId,
    limit: usize,
    runs: &[Run],
    cost: &mut Cost,
) -> Result<Sought, Refusal<SeekFault>>
    requires { goal < length bank.old }
    ensures seeks { sort_of (tree_at bank.old goal) ≡ Some sort.Truth
        → Seeks (runs_of runs.now) (tree_at bank.old goal) limit result }
    ensures extends { Extends bank.old bank.new }
{
    *cost = Cost::new();
    hold_runs(runs);
    match is_within(alloc, bank, goal) {
        Ok(true) => {}
        Ok(false) => return Err(Refusal::Fault(SeekFault::Large(
            GoalQuantity::Terms,
            MAX_TERMS + 1,
        ))),
        Err(_) => return Err(Refusal::NoMemory),
    }
    match normal(alloc, bank, goal, runs) {
        Ok(form) => seek_form(alloc, bank, form, limit, cost),
        Err(_) => Err(Refusal::NoMemory),
    }
}

/// Searches for a log that closes the goal, a truth value, whose memories of the source hold the
/// runs, learning at most so many clauses.
pub fn seek(
    alloc: Global,
    bank: &mut Bank,
    goal: TermId,
    limit: usize,
    runs: &[Run],
) -> Result<Sought, Refusal<SeekFault>>
    requires { goal < length bank.old }
    ensures seeks { sort_of (tree_at bank.old goal) ≡ Some sort.Truth
        → Seeks (runs_of runs.now) (tree_at bank.old goal) limit result }
    ensures extends { Extends bank.old bank.new }
{
    let mut cost = Cost::new();
    seek_counting(alloc, bank, goal, limit, runs, &mut cost)
}
