ghost use Rattle.std.specs.Prelude.{◌≡◌, ◌≤◌, ◌<◌, length, [], IfOk};
ghost use Rattle.sat_search_spec.specs.Logs.{IsClosing};
ghost use Rattle.sat_search_learning.specs.Search.{IsSearching, AllHaveValue};
ghost use Rattle.sat_search_learning.specs.Stages.{IsFresh};
ghost use Rattle.sat_search.specs.Found.{IsFound, IsRefuted};

use attempt::attempt;
use cnf_core::{Cnf, MAX_VARIABLE};
use sat_search_analysis::{Step, close, trim};
use sat_search_learning::{
    Progress, Search, back, bits_of, equate_variables, load, new_search, restart, run,
};
use std::alloc::{AllocError, Global};
use std::mem;

/// What a search finds.
#[derive(Drop)]
pub enum Found {
    /// No assignment satisfies the clauses: a log that ends with the empty clause, in which every
    /// step is used.
    Closed(Vec<Step>),
    /// An assignment that satisfies them: the values of the variables, that of variable 1 first.
    Model(Vec<bool>),
    /// The limit was reached: a log of as many learnt clauses.
    Limit(Vec<Step>),
}

/// The trimmed log of a search that closed the clauses.
fn closed(alloc: Global, cnf: &Cnf, limit: usize, log: &[Step]) -> Result<Found, AllocError>
    requires closing { IsClosing cnf.now log.now }
    requires count { length log.now ≤ limit }
    ensures { IfOk result (IsFound cnf.now limit) }
{
    let trimmed = trim(alloc, cnf.len(), log)?;
    Ok(Found::Closed(trimmed))
}

/// The model of a search in which every variable has a value.
fn satisfied(alloc: Global, cnf: &Cnf, limit: usize, search: &Search) -> Result<Found, AllocError>
    requires searching { IsSearching cnf.now search.now.clauses.clauses search.now.trail
        search.now.watches search.now.log.items }
    requires propagated { search.now.watches.head ≡ length search.now.trail.entries }
    requires values { AllHaveValue search.now.trail search.now.trail.variables }
    requires small { cnf.now.variables ≤ MAX_VARIABLE }
    ensures { IfOk result (IsFound cnf.now limit) }
{
    let bits = bits_of(alloc, &search.trail)?;
    Ok(Found::Model(bits))
}

/// Refutes clauses of which one is false before every decision.
fn refuted(
    alloc: Global,
    cnf: &Cnf,
    limit: usize,
    search: &mut Search,
    number: usize,
) -> Result<Found, AllocError>
    requires refuted { IsRefuted cnf.now search.old.clauses.clauses search.old.trail number }
    requires none { search.old.log.items ≡ [] }
    requires positive { 0 < limit }
    ensures { IfOk result (IsFound cnf.now limit) }
{
    let step = close(alloc, &search.clauses, &search.trail, number)?;
    search.log.push(step)?;
    closed(alloc, cnf, limit, search.log.as_slice())
}

/// Learns clauses until the search ends, so many in all at most.
fn finish(alloc: Global, cnf: &Cnf, limit: usize, search: &mut Search) -> Result<Found, AllocError>
    requires searching { IsSearching cnf.now search.old.clauses.clauses search.old.trail
        search.old.watches search.old.log.items }
    requires within { length search.old.log.items ≤ limit }
    requires small { cnf.now.variables ≤ MAX_VARIABLE }
    ensures { IfOk result (IsFound cnf.now limit) }
{
    back(cnf, search);
    for _count in search.log.len()..limit {
        restart(cnf, search);
        match run(alloc, cnf, search, &[])? {
            Progress::Learnt => {}
            Progress::Refuted => unreachable!(),
            Progress::Closed => return closed(alloc, cnf, limit, search.log.as_slice()),
            Progress::Satisfied => return satisfied(alloc, cnf, limit, search),
        }
    }
    Ok(Found::Limit(mem::replace(&mut search.log, Vec::new(alloc))))
}

/// Learns clauses until the search ends, at most so many: those first that make variables equal.
fn search_up_to(
    alloc: Global,
    cnf: &Cnf,
    limit: usize,
    search: &mut Search,
) -> Result<Found, AllocError>
    requires searching { IsSearching cnf.now search.old.clauses.clauses search.old.trail
        search.old.watches search.old.log.items }
    requires none { search.old.log.items ≡ [] }
    requires small { cnf.now.variables ≤ MAX_VARIABLE }
    ensures { IfOk result (IsFound cnf.now limit) }
{
    match equate_variables(alloc, cnf, limit, search)? {
        Progress::Learnt => finish(alloc, cnf, limit, search),
        Progress::Refuted => finish(alloc, cnf, limit, search),
        Progress::Closed => closed(alloc, cnf, limit, search.log.as_slice()),
        Progress::Satisfied => satisfied(alloc, cnf, limit, search),
    }
}

/// Adds the clauses, and searches.
fn solve_with(
    alloc: Global,
    cnf: &Cnf,
    limit: usize,
    search: &mut Search,
) -> Result<Found, AllocError>
    requires fresh { IsFresh search.old.clauses.clauses search.old.trail search.old.watches
        search.old.log.items cnf.now.variables }
    requires positive { 0 < limit }
    requires small { cnf.now.variables ≤ MAX_VARIABLE }
    ensures { IfOk result (IsFound cnf.now limit) }
{
    match attempt!(load(
        cnf,
        &mut search.clauses,
        &mut search.trail,
        &mut search.watches,
    )) {
        Some(number) => refuted(alloc, cnf, limit, search, number),
        None => search_up_to(alloc, cnf, limit, search),
    }
}

/// What a search took.
#[derive(Clone, Copy)]
pub struct Counts {
    /// How many clauses were learnt, but for the empty one.
    pub learnt: u64,
    /// How many times a literal became true.
    pub assignments: u64,
}

impl Counts {
    /// Those of no search.
    pub fn new() -> Counts {
        Counts {
            learnt: 0,
            assignments: 0,
        }
    }
}

/// Searches as [`solve`] does, and says what that took.
pub fn solve_counting(
    alloc: Global,
    cnf: &Cnf,
    limit: usize,
    counts: &mut Counts,
) -> Result<Found, AllocError>
    requires { cnf.now.variables ≤ MAX_VARIABLE }
    ensures { IfOk result (IsFound cnf.now limit) }
{
    if limit == 0 {
        return Ok(Found::Limit(Vec::new(alloc)));
    }
    let mut search = attempt!(new_search(alloc, cnf.variables()));
    let found = solve_with(alloc, cnf, limit, &mut search);
    let left = search.trail.len() as u64;
    *counts = Counts {
        learnt: search.order.learnt(),
        assignments: search.order.effort().saturating_add(left),
    };
    found
}

/// Searches for a model of the clauses, learning at most so many clauses.
pub fn solve(alloc: Global, cnf: &Cnf, limit: usize) -> Result<Found, AllocError>
    requires { cnf.now.variables ≤ MAX_VARIABLE }
    ensures { IfOk result (IsFound cnf.now limit) }
{
    let mut counts = Counts::new();
    solve_counting(alloc, cnf, limit, &mut counts)
}
