ghost use Rattle.std.specs.Prelude.{◌≡◌, ◌<◌, ◌≤◌, length, IfOk, OnOk};
ghost use Rattle.sat_search_spec.specs.Trail.{IsConflict};
ghost use Rattle.sat_search_spec.specs.Watches.{IsRunning};
ghost use Rattle.sat_search_learning.specs.Search.{IsSearching, IsUndecided, IsDecidedBy};
ghost use Rattle.sat_search_learning.specs.Stages.{IsFresh, IsProgress};

use crate::choice::{are_refuted, kept_level, pick};
use crate::learning::{learn, rewind};
use crate::order::Order;
use attempt::attempt;
use cnf_core::{ClauseList, Cnf, Literal, MAX_VARIABLE};
use sat_search_analysis::{Step, analyse, close};
use sat_search_state::{Trail, Watches, propagate};
use std::alloc::{AllocError, Global};

/// What a search keeps: the clauses with those that were learnt, the literals that are true, the
/// watched literals, and the steps so far.
#[derive(Drop)]
pub struct Search {
    pub clauses: ClauseList,
    pub trail: Trail,
    pub watches: Watches,
    pub log: Vec<Step>,
    pub order: Order,
}

/// How far the search came.
#[derive(Clone, Copy)]
pub enum Progress {
    /// A clause more was learnt.
    Learnt,
    /// The empty clause was learnt.
    Closed,
    /// All clauses are satisfied.
    Satisfied,
    /// An assumed literal is false where those before it are true.
    Refuted,
}

/// A search that has not begun.
pub fn new_search(alloc: Global, variables: usize) -> Result<Search, AllocError>
    requires { variables ≤ MAX_VARIABLE }
    ensures { IfOk result (λ s. IsFresh s.clauses.clauses s.trail s.watches s.log.items variables) }
{
    Ok(Search {
        clauses: ClauseList::new(alloc),
        trail: attempt!(Trail::new(alloc, variables)),
        watches: attempt!(Watches::new(alloc, variables)),
        log: Vec::new(alloc),
        order: attempt!(Order::new(alloc, variables)),
    })
}

/// Makes a literal without value true, at a level of its own.
pub fn decide(trail: &mut Trail, literal: Literal) -> Result<(), AllocError>
    requires { IsUndecided trail.old literal }
    ensures { OnOk result (IsDecidedBy trail.old trail.new literal) }
{
    attempt!(trail.open_level());
    trail.push(literal, 0)
}

/// Learns from a conflict.
fn settle(
    alloc: Global,
    cnf: &Cnf,
    search: &mut Search,
    conflict: usize,
) -> Result<Progress, AllocError>
    requires searching { IsSearching cnf.now search.old.clauses.clauses search.old.trail
        search.old.watches search.old.log.items }
    requires conflict { IsConflict search.old.clauses.clauses search.old.trail.entries conflict }
    ensures { IfOk result (λ progress. IsProgress cnf.now search.new.clauses.clauses
        search.new.trail
        search.new.watches search.new.log.items (length search.old.log.items) 0 progress) }
{
    if search.trail.level() == 0 {
        let step = close(alloc, &search.clauses, &search.trail, conflict)?;
        search.log.push(step)?;
        return Ok(Progress::Closed);
    }
    let step = analyse(alloc, &search.clauses, &search.trail, conflict)?;
    learn(cnf, search, step)?;
    Ok(Progress::Learnt)
}

/// Decides and propagates until a clause is false, every variable has a value, or an assumed
/// literal is false; what is assumed is decided first.
pub fn run(
    alloc: Global,
    cnf: &Cnf,
    search: &mut Search,
    assumed: &[Literal],
) -> Result<Progress, AllocError>
    requires searching { IsSearching cnf.now search.old.clauses.clauses search.old.trail
        search.old.watches search.old.log.items }
    requires small { cnf.now.variables ≤ MAX_VARIABLE }
    ensures { IfOk result (λ progress. IsProgress cnf.now search.new.clauses.clauses
        search.new.trail
        search.new.watches search.new.log.items (length search.old.log.items)
        (length assumed.now) progress) }
{
    'deciding: loop {
        if let Some(conflict) = propagate(
            &search.clauses,
            &mut search.trail,
            &mut search.watches,
        )? {
            return settle(alloc, cnf, search, conflict);
        }
        if are_refuted(&search.trail, assumed) {
            return Ok(Progress::Refuted);
        }
        match pick(&mut search.order, &search.trail, assumed) {
            Some(literal) => decide(&mut search.trail, literal)?,
            None => return Ok(Progress::Satisfied),
        }
    }
}

/// Goes back to a level, if the search is above it.
fn back_to(cnf: &Cnf, search: &mut Search, level: usize)
    requires searching { IsSearching cnf.now search.old.clauses.clauses search.old.trail
        search.old.watches search.old.log.items }
    ensures searching { IsSearching cnf.now search.new.clauses.clauses search.new.trail
        search.new.watches search.new.log.items }
    ensures log { search.new.log.items ≡ search.old.log.items }
{
    if search.trail.level() > level {
        rewind(
            &mut search.trail,
            &mut search.watches,
            &mut search.order,
            level,
        );
    }
}

/// Goes back before every decision.
pub fn back(cnf: &Cnf, search: &mut Search)
    requires searching { IsSearching cnf.now search.old.clauses.clauses search.old.trail
        search.old.watches search.old.log.items }
    ensures searching { IsSearching cnf.now search.new.clauses.clauses search.new.trail
        search.new.watches search.new.log.items }
    ensures log { search.new.log.items ≡ search.old.log.items }
{
    back_to(cnf, search, 0);
}

/// Restarts now and then: goes back to the last level up to which the same variables would be
/// decided again.
pub fn restart(cnf: &Cnf, search: &mut Search)
    requires searching { IsSearching cnf.now search.old.clauses.clauses search.old.trail
        search.old.watches search.old.log.items }
    requires small { cnf.now.variables ≤ MAX_VARIABLE }
    ensures searching { IsSearching cnf.now search.new.clauses.clauses search.new.trail
        search.new.watches search.new.log.items }
    ensures log { search.new.log.items ≡ search.old.log.items }
{
    if search.order.is_restart() {
        let level = kept_level(&mut search.order, &search.trail);
        back_to(cnf, search, level);
    }
}
