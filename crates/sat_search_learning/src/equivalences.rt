ghost use Rattle.std.specs.Prelude.{◌≡◌, ◌≤◌, [], length, IfOk};
ghost use Rattle.sat_search_learning.specs.Search.{IsSearching};
ghost use Rattle.sat_search_learning.specs.Stages.{IsStage};

use crate::search::{Progress, Search, back, restart, run};
use crate::signatures::Candidate;
use crate::simulation::candidates;
use attempt::attempt;
use cnf_core::{Cnf, Literal, MAX_VARIABLE, negation};
use std::alloc::{AllocError, Global};

/// How many clauses are learnt before the first sweep over the candidates.
const EASY: usize = 200;

/// How many clauses are learnt between two sweeps.
const SPELL: usize = 2000;

/// How many clauses are learnt to show that a literal implies another, in the first sweep.
const BUDGET: usize = 30;

/// How many times as many in the next one.
const GROWTH: usize = 4;

/// A sweep ends where pairs that weren't easy have cost more than this part of the search so far.
const SHARE: u64 = 2;

/// What sweeps may cost, and have cost.
#[derive(Drop)]
struct Sweeps {
    /// How many clauses are learnt to show that a literal implies another.
    budget: usize,
    /// How many values were taken back for pairs that weren't easy.
    wasted: u64,
}

impl Sweeps {
    /// Before the first sweep.
    fn new() -> Sweeps {
        Sweeps {
            budget: BUDGET,
            wasted: 0,
        }
    }

    /// Counts a pair that wasn't easy, by the efforts of the search before and after it.
    fn give_up(&mut self, before: u64, after: u64) {
        self.wasted = self.wasted.saturating_add(after.saturating_sub(before));
    }

    /// Whether too much was wasted, by the effort of the search so far.
    fn is_spent(&self, effort: u64) -> bool {
        self.wasted > effort / SHARE
    }

    /// Begins the next sweep.
    fn grow(&mut self) {
        self.budget = self.budget.saturating_mul(GROWTH);
    }
}

/// Learns so many clauses, unless the search ends before or what is assumed is refuted; at most
/// `limit` in all.
fn learn_some(
    alloc: Global,
    cnf: &Cnf,
    limit: usize,
    search: &mut Search,
    assumed: &[Literal],
    budget: usize,
) -> Result<Progress, AllocError>
    requires searching { IsSearching cnf.now search.old.clauses.clauses search.old.trail
        search.old.watches search.old.log.items }
    requires within { length search.old.log.items ≤ limit }
    requires small { cnf.now.variables ≤ MAX_VARIABLE }
    ensures { IfOk result (λ progress. IsStage cnf.now search.new.clauses.clauses search.new.trail
        search.new.watches search.new.log.items limit progress) }
{
    for _count in 0..budget {
        if search.log.len() >= limit {
            return Ok(Progress::Learnt);
        }
        restart(cnf, search);
        match attempt!(run(alloc, cnf, search, assumed)) {
            Progress::Learnt => {}
            Progress::Closed => return Ok(Progress::Closed),
            Progress::Satisfied => return Ok(Progress::Satisfied),
            Progress::Refuted => return Ok(Progress::Refuted),
        }
    }
    Ok(Progress::Learnt)
}

/// Shows that a literal implies another, if that is easy.
fn imply(
    alloc: Global,
    cnf: &Cnf,
    limit: usize,
    search: &mut Search,
    first: Literal,
    second: Literal,
    budget: usize,
) -> Result<Progress, AllocError>
    requires searching { IsSearching cnf.now search.old.clauses.clauses search.old.trail
        search.old.watches search.old.log.items }
    requires within { length search.old.log.items ≤ limit }
    requires small { cnf.now.variables ≤ MAX_VARIABLE }
    ensures { IfOk result (λ progress. IsStage cnf.now search.new.clauses.clauses search.new.trail
        search.new.watches search.new.log.items limit progress) }
{
    back(cnf, search);
    learn_some(
        alloc,
        cnf,
        limit,
        search,
        &[first, negation(second)],
        budget,
    )
}

/// Shows that two literals are equal, if that is easy: then the last one assumed is refuted.
fn equate(
    alloc: Global,
    cnf: &Cnf,
    limit: usize,
    search: &mut Search,
    pair: Candidate,
    budget: usize,
) -> Result<Progress, AllocError>
    requires searching { IsSearching cnf.now search.old.clauses.clauses search.old.trail
        search.old.watches search.old.log.items }
    requires within { length search.old.log.items ≤ limit }
    requires small { cnf.now.variables ≤ MAX_VARIABLE }
    ensures { IfOk result (λ progress. IsStage cnf.now search.new.clauses.clauses search.new.trail
        search.new.watches search.new.log.items limit progress) }
{
    let first = pair.first;
    let second = pair.second;
    match attempt!(imply(alloc, cnf, limit, search, first, second, budget)) {
        Progress::Refuted => {
            let first = negation(first);
            imply(alloc, cnf, limit, search, first, negation(second), budget)
        }
        progress => Ok(progress),
    }
}

/// Shows that candidates are equal which aren't shown to be yet, as far as that is easy.
fn sweep(
    alloc: Global,
    cnf: &Cnf,
    limit: usize,
    search: &mut Search,
    found: &mut [Candidate],
    sweeps: &mut Sweeps,
) -> Result<Progress, AllocError>
    requires searching { IsSearching cnf.now search.old.clauses.clauses search.old.trail
        search.old.watches search.old.log.items }
    requires within { length search.old.log.items ≤ limit }
    requires small { cnf.now.variables ≤ MAX_VARIABLE }
    ensures { IfOk result (λ progress. IsStage cnf.now search.new.clauses.clauses search.new.trail
        search.new.watches search.new.log.items limit progress) }
{
    for place in 0..found.len() {
        let pair = found[place];
        if pair.is_shown {
            continue;
        }
        let before = search.order.effort();
        match attempt!(equate(alloc, cnf, limit, search, pair, sweeps.budget)) {
            Progress::Learnt => sweeps.give_up(before, search.order.effort()),
            Progress::Refuted => found[place].is_shown = true,
            Progress::Closed => return Ok(Progress::Closed),
            Progress::Satisfied => return Ok(Progress::Satisfied),
        }
        if search.log.len() >= limit || sweeps.is_spent(search.order.effort()) {
            return Ok(Progress::Learnt);
        }
    }
    Ok(Progress::Learnt)
}

/// Sweeps over the candidates with ever larger budgets, and searches between, until the search
/// ends.
fn sweep_often(
    alloc: Global,
    cnf: &Cnf,
    limit: usize,
    search: &mut Search,
    found: &mut [Candidate],
) -> Result<Progress, AllocError>
    requires searching { IsSearching cnf.now search.old.clauses.clauses search.old.trail
        search.old.watches search.old.log.items }
    requires within { length search.old.log.items ≤ limit }
    requires small { cnf.now.variables ≤ MAX_VARIABLE }
    ensures { IfOk result (λ progress. IsStage cnf.now search.new.clauses.clauses search.new.trail
        search.new.watches search.new.log.items limit progress) }
{
    let mut sweeps = Sweeps::new();
    for _sweep in 0..limit {
        if search.log.len() >= limit {
            return Ok(Progress::Learnt);
        }
        match attempt!(sweep(alloc, cnf, limit, search, found, &mut sweeps)) {
            Progress::Learnt => {}
            progress => return Ok(progress),
        }
        sweeps.grow();
        back(cnf, search);
        match attempt!(learn_some(alloc, cnf, limit, search, &[], SPELL)) {
            Progress::Learnt => {}
            progress => return Ok(progress),
        }
    }
    Ok(Progress::Learnt)
}

/// Learns clauses until the search ends; where that takes long, those too that show that variables
/// are equal or opposite which seem to be.
pub fn equate_variables(
    alloc: Global,
    cnf: &Cnf,
    limit: usize,
    search: &mut Search,
) -> Result<Progress, AllocError>
    requires searching { IsSearching cnf.now search.old.clauses.clauses search.old.trail
        search.old.watches search.old.log.items }
    requires within { length search.old.log.items ≤ limit }
    requires small { cnf.now.variables ≤ MAX_VARIABLE }
    ensures { IfOk result (λ progress. IsStage cnf.now search.new.clauses.clauses search.new.trail
        search.new.watches search.new.log.items limit progress) }
{
    match attempt!(learn_some(alloc, cnf, limit, search, &[], EASY)) {
        Progress::Learnt => {}
        progress => return Ok(progress),
    }
    if search.log.len() >= limit {
        return Ok(Progress::Learnt);
    }
    back(cnf, search);
    let mut found = attempt!(candidates(alloc, cnf, search));
    sweep_often(alloc, cnf, limit, search, found.as_mut_slice())
}
