ghost use Rattle.std.specs.Prelude.{◌≡◌, ℕ, ◌+◌, ◌-◌, ◌<◌, ◌≤◌, ◌∷◌, [], List, length, take};
ghost use Rattle.std.specs.Prelude.{IfOk};
ghost use Rattle.sat_search_spec.specs.Clauses.{AreLive};
ghost use Rattle.sat_search_spec.specs.Trail.{IsSound, IsConflict, IsCut, truths};
ghost use Rattle.sat_search_analysis.specs.Explained.{ExplainsBack, IsAnalysed, IsEmptyLearnt};
ghost use Rattle.sat_search_analysis.specs.Explained.{IsConflictMarked};

use crate::Step;
use crate::marks::{last_marked, mark_clause};
use crate::minimisation::Note;
use crate::resolution::{explain_below, find_uip};
use cnf_core::{ClauseList, Literal, negation};
use sat_search_state::Trail;
use std::alloc::{AllocError, Global};

/// Marks the entries that make the clause of a number false.
fn conflict_marks(
    alloc: Global,
    clauses: &ClauseList,
    trail: &Trail,
    conflict: usize,
) -> Result<Vec<bool>, AllocError>
    requires sound { IsSound clauses.now.clauses trail.now }
    requires conflict { IsConflict clauses.now.clauses trail.now.entries conflict }
    ensures { IfOk result (λ marks. IsConflictMarked clauses.now.clauses trail.now conflict
        marks.items) }
{
    let mut marks = vec![in alloc; false; trail.len()]?;
    let foreign = Literal::new(0, false);
    mark_clause(
        clauses.clause(conflict - 1),
        foreign,
        trail,
        marks.as_mut_slice(),
    );
    Ok(marks)
}

/// Learns a clause from a conflict after a decision, by the first unique implication point. The
/// first literal is the one that it asserts.
pub fn analyse(
    alloc: Global,
    clauses: &ClauseList,
    trail: &Trail,
    conflict: usize,
) -> Result<Step, AllocError>
    requires sound { IsSound clauses.now.clauses trail.now }
    requires conflict { IsConflict clauses.now.clauses trail.now.entries conflict }
    requires decided { 0 < trail.now.level }
    requires live { (start : ℕ) → IsCut trail.now.entries (trail.now.level - 1) start
        → AreLive (truths (take start trail.now.entries)) clauses.now.clauses }
    ensures { IfOk result (λ step. IsAnalysed clauses.now.clauses trail.now step) }
{
    let start = trail.cut(trail.level() - 1);
    let mut marks = conflict_marks(alloc, clauses, trail, conflict)?;
    let mut hints = vec![in alloc; conflict]?;
    let last = match last_marked(marks.as_slice(), start, trail.len()) {
        Some(last) => last,
        None => unreachable!(),
    };
    let uip = find_uip(
        clauses,
        trail,
        start,
        last,
        marks.as_mut_slice(),
        &mut hints,
    )?;
    let mut learnt = vec![in alloc; negation(trail.entry(uip).literal)]?;
    let mut notes = vec![in alloc; Note::Unknown; start]?;
    explain_below(
        clauses,
        trail,
        start,
        &mut learnt,
        marks.as_mut_slice(),
        notes.as_mut_slice(),
        &mut hints,
    )?;
    hints.reverse();
    Ok(Step::new(learnt, hints))
}

/// Learns the empty clause from a conflict before every decision.
pub fn close(
    alloc: Global,
    clauses: &ClauseList,
    trail: &Trail,
    conflict: usize,
) -> Result<Step, AllocError>
    requires sound { IsSound clauses.now.clauses trail.now }
    requires conflict { IsConflict clauses.now.clauses trail.now.entries conflict }
    requires undecided { trail.now.level ≡ 0 }
    ensures { IfOk result (λ step. IsEmptyLearnt clauses.now.clauses step) }
{
    let mut marks = conflict_marks(alloc, clauses, trail, conflict)?;
    let mut hints = vec![in alloc; conflict]?;
    let mut learnt = Vec::new(alloc);
    let mut notes = Vec::new(alloc);
    explain_below(
        clauses,
        trail,
        trail.len(),
        &mut learnt,
        marks.as_mut_slice(),
        notes.as_mut_slice(),
        &mut hints,
    )?;
    hints.reverse();
    Ok(Step::new(learnt, hints))
}
