ghost use Rattle.std.specs.Prelude.{◌≡◌, ℕ, ◌+◌, ◌<◌, length, slice_get, Some, IfSome, IfNone};
ghost use Rattle.std.specs.Prelude.{IfOk, OnOk, true};
ghost use Rattle.std.specs.List.{list_all};
ghost use Rattle.clause_check_spec.specs.Clause.{is_of};
ghost use Rattle.sat_search_spec.specs.Trail.{IsAt};
ghost use Rattle.sat_search_spec.specs.Watches.{list_of, IsRunning, IsTurning};
ghost use Rattle.sat_search_state.specs.Visits.{IsSameLevel, IsOpen, AreFalse, IsVisited, IsTurned};
ghost use Rattle.sat_search_state.specs.Visits.{IsPropagated, IsKeptBy, IsLooking, IsBeside};
ghost use Rattle.std.specs.Bool.{MatchBool};
ghost use Rattle.sat_search_state.specs.Visits.{IsApartAndOpen, IsSameOrFalse};
ghost use Rattle.clause_check_spec.specs.Clause.{Clause};

use crate::Trail;
use crate::watched::Watches;
use cnf_core::{ClauseList, Literal, negation};
use sat_search_spec::{Watch, Watcher, is_same};
use std::alloc::AllocError;

/// What becomes of a watcher, after a look at its clause.
#[derive(Clone, Copy)]
pub enum Visit {
    /// It stays in the list.
    Stays,
    /// The clause is watched elsewhere.
    Leaves,
    /// The clause is false.
    Fails,
}

/// The number of the clause of an index.
fn number_of(clauses: &ClauseList, clause: usize) -> usize
    requires { clause < length clauses.now.clauses }
    ensures { result ≡ clause + 1 }
{
    let _count = clauses.len();
    clause + 1
}

/// A literal of the clause that is not this one, and not false.
fn find_open(clause: &[Literal], trail: &Trail, other: Literal) -> Option<Literal>
    requires { list_all (is_of trail.now.variables) clause.now ≡ true }
    ensures found { IfSome result (λ l. IsOpen clause.now trail.now other l) }
    ensures nowhere { IfNone result (AreFalse clause.now trail.now other) }
{
    for literal in clause {
        if is_open(trail, other, *literal) {
            return Some(*literal);
        }
    }
    None
}

/// Whether the literal is another one, and not false.
fn is_open(trail: &Trail, other: Literal, literal: Literal) -> bool
    requires { is_of trail.now.variables literal ≡ true }
    ensures { MatchBool result (IsApartAndOpen trail.now other literal)
        (IsSameOrFalse trail.now other literal) }
{
    if is_same(literal, other) {
        return false;
    }
    match trail.place(negation(literal)) {
        Some(_place) => false,
        None => true,
    }
}

/// Moves the watch of a clause to an open literal; the other watch stays.
fn move_watch(
    clauses: &ClauseList,
    trail: &Trail,
    watches: &mut Watches,
    falsified: Literal,
    next: usize,
    watcher: &Watcher,
    first: Literal,
    second: Literal,
) -> Result<(), AllocError>
    requires looking { IsLooking clauses.now.clauses trail.now watches.old falsified next
        watcher.now
        second }
    requires not_false { (clause : Clause) → slice_get clauses.now.clauses watcher.now.clause
        ≡ Some clause → IsOpen clause trail.now second first }
    ensures visited { OnOk result (IsVisited clauses.now.clauses trail.now watches.new falsified
        next
        watcher.now Visit.Leaves) }
    ensures kept { OnOk result (IsKeptBy trail.now trail.now watches.old watches.new falsified) }
{
    let clause = watcher.clause;
    watches.set_watch(clause as usize, Watch { first, second });
    let moved = Watcher {
        clause,
        blocker: second,
    };
    watches.listen(first, moved)?;
    Ok(())
}

/// The other watch is forced, or false, all other literals being false.
fn force_other(
    clauses: &ClauseList,
    trail: &mut Trail,
    watches: &Watches,
    falsified: Literal,
    next: usize,
    watcher: &Watcher,
    other: Literal,
) -> Result<Visit, AllocError>
    requires looking { IsLooking clauses.now.clauses trail.old watches.now falsified next
        watcher.now
        other }
    requires all_false { (clause : Clause) → slice_get clauses.now.clauses watcher.now.clause
        ≡ Some clause → AreFalse clause trail.old other }
    ensures visited { IfOk result (λ visit. IsVisited clauses.now.clauses trail.new watches.now
        falsified next watcher.now visit) }
    ensures kept { OnOk result (IsKeptBy trail.old trail.new watches.now watches.now falsified) }
{
    match trail.place(negation(other)) {
        Some(_place) => Ok(Visit::Fails),
        None => {
            trail.push(other, number_of(clauses, watcher.clause as usize))?;
            Ok(Visit::Stays)
        }
    }
}

/// Looks at a clause whose watch became false, the other watch not being true: the watch moves to
/// an open literal, or the other one is forced, or the clause is false.
fn visit_clause(
    clauses: &ClauseList,
    trail: &mut Trail,
    watches: &mut Watches,
    falsified: Literal,
    next: usize,
    watcher: &Watcher,
    other: Literal,
) -> Result<Visit, AllocError>
    requires { IsLooking clauses.now.clauses trail.old watches.old falsified next watcher.now
        other }
    ensures visited { IfOk result (λ visit. IsVisited clauses.now.clauses trail.new watches.new
        falsified next watcher.now visit) }
    ensures kept { OnOk result (IsKeptBy trail.old trail.new watches.old watches.new falsified) }
{
    match find_open(clauses.clause(watcher.clause as usize), trail, other) {
        Some(literal) => {
            move_watch(
                clauses, trail, watches, falsified, next, watcher, literal, other,
            )?;
            Ok(Visit::Leaves)
        }
        None => force_other(clauses, trail, watches, falsified, next, watcher, other),
    }
}

/// Makes the other watch, which is true, the blocker of a watcher: the next look may end there.
fn block_by(
    clauses: &ClauseList,
    trail: &Trail,
    watches: &mut Watches,
    falsified: Literal,
    next: usize,
    watcher: &Watcher,
    other: Literal,
)
    requires beside { IsBeside clauses.now.clauses trail.now watches.old falsified next
        watcher.now
        other }
    requires settled { (place : ℕ) × IsAt trail.now.entries place other }
    ensures visited { IsTurning clauses.now.clauses trail.now watches.new falsified (next + 1) }
    ensures kept { IsKeptBy trail.now trail.now watches.old watches.new falsified }
{
    let blocked = Watcher {
        clause: watcher.clause,
        blocker: other,
    };
    watches.replace(falsified, next, blocked);
}

/// Looks at a clause whose watch became false, by its other watch.
fn visit_other(
    clauses: &ClauseList,
    trail: &mut Trail,
    watches: &mut Watches,
    falsified: Literal,
    next: usize,
    watcher: &Watcher,
    other: Literal,
) -> Result<Visit, AllocError>
    requires { IsBeside clauses.now.clauses trail.old watches.old falsified next watcher.now other }
    ensures visited { IfOk result (λ visit. IsVisited clauses.now.clauses trail.new watches.new
        falsified next watcher.now visit) }
    ensures kept { OnOk result (IsKeptBy trail.old trail.new watches.old watches.new falsified) }
{
    if is_same(other, falsified) {
        return Ok(Visit::Stays);
    }
    match trail.place(other) {
        Some(_place) => {
            block_by(clauses, trail, watches, falsified, next, watcher, other);
            Ok(Visit::Stays)
        }
        None => visit_clause(clauses, trail, watches, falsified, next, watcher, other),
    }
}

/// Looks at the watches of a clause whose blocker is not true.
fn visit_watch(
    clauses: &ClauseList,
    trail: &mut Trail,
    watches: &mut Watches,
    falsified: Literal,
    next: usize,
    watcher: &Watcher,
) -> Result<Visit, AllocError>
    requires turning { IsTurning clauses.now.clauses trail.old watches.old falsified next }
    requires there { slice_get (list_of watches.old.lists falsified) next ≡ Some watcher.now }
    ensures visited { IfOk result (λ visit. IsVisited clauses.now.clauses trail.new watches.new
        falsified next watcher.now visit) }
    ensures kept { OnOk result (IsKeptBy trail.old trail.new watches.old watches.new falsified) }
{
    let watch = watches.watch(watcher.clause as usize);
    let first = watch.first;
    let second = watch.second;
    if is_same(first, falsified) {
        return visit_other(clauses, trail, watches, falsified, next, watcher, second);
    }
    if is_same(second, falsified) {
        return visit_other(clauses, trail, watches, falsified, next, watcher, first);
    }
    Ok(Visit::Leaves)
}

/// Looks at the clause of a watcher.
fn visit_watcher(
    clauses: &ClauseList,
    trail: &mut Trail,
    watches: &mut Watches,
    falsified: Literal,
    next: usize,
    watcher: &Watcher,
) -> Result<Visit, AllocError>
    requires turning { IsTurning clauses.now.clauses trail.old watches.old falsified next }
    requires there { slice_get (list_of watches.old.lists falsified) next ≡ Some watcher.now }
    ensures visited { IfOk result (λ visit. IsVisited clauses.now.clauses trail.new watches.new
        falsified next watcher.now visit) }
    ensures kept { OnOk result (IsKeptBy trail.old trail.new watches.old watches.new falsified) }
{
    match trail.place(watcher.blocker) {
        Some(_place) => Ok(Visit::Stays),
        None => visit_watch(clauses, trail, watches, falsified, next, watcher),
    }
}

/// Looks at all clauses of the list of a literal that became false.
fn turn(
    clauses: &ClauseList,
    trail: &mut Trail,
    watches: &mut Watches,
    falsified: Literal,
) -> Result<Option<usize>, AllocError>
    requires { IsTurning clauses.now.clauses trail.old watches.old falsified 0 }
    ensures turned { IfOk result (λ conflict. IsTurned clauses.now.clauses trail.new watches.old
        watches.new conflict) }
    ensures level { OnOk result (IsSameLevel trail.old trail.new) }
{
    let mut next = 0;
    while next < watches.count(falsified) {
        let watcher = watches.watcher(falsified, next);
        let number = number_of(clauses, watcher.clause as usize);
        match visit_watcher(clauses, trail, watches, falsified, next, &watcher)? {
            Visit::Stays => next += 1,
            Visit::Leaves => watches.remove(falsified, next),
            Visit::Fails => return Ok(Some(number)),
        }
    }
    Ok(None)
}

/// Makes true what the clauses force, until nothing is left or a clause is false: its number.
pub fn propagate(
    clauses: &ClauseList,
    trail: &mut Trail,
    watches: &mut Watches,
) -> Result<Option<usize>, AllocError>
    requires { IsRunning clauses.now.clauses trail.old watches.old }
    ensures propagated { IfOk result (λ conflict. IsPropagated clauses.now.clauses trail.new
        watches.new conflict) }
    ensures level { OnOk result (IsSameLevel trail.old trail.new) }
{
    while watches.head() < trail.len() {
        let entry = trail.entry(watches.head());
        if let Some(number) = turn(clauses, trail, watches, negation(entry.literal))? {
            return Ok(Some(number));
        }
        watches.set_head(watches.head() + 1);
    }
    Ok(None)
}
