ghost use Rattle.std.specs.Prelude.{◌≡◌, ◌⊎◌, ℕ, ◌+◌, ◌-◌, ◌<◌, ◌≤◌, ◌++◌, ◌∷◌, [], List, length};
ghost use Rattle.std.specs.Prelude.{slice_get, Some, true, IfOk, OnOk};
ghost use Rattle.clause_check_spec.specs.declared.Literal.{Literal as Lit};
ghost use Rattle.sat_search_spec.specs.declared.Entry.{Entry as Item};
ghost use Rattle.sat_search_spec.specs.Trail.{IsSound};
ghost use Rattle.sat_search_spec.specs.Analysis.{IsMarked};
ghost use Rattle.sat_search_analysis.specs.Marks.{IsLastMarked};
ghost use Rattle.sat_search_analysis.specs.Explained.{ExplainsBack, IsUip, IsDone, AreLearntBelow};

use crate::marks::{last_marked, last_marked_from, mark_clause};
use crate::minimisation::{MAX_DEPTH, Note, is_implied};
use cnf_core::{ClauseList, Literal, negation};
use sat_search_state::Trail;
use std::alloc::AllocError;

/// Resolves a marked entry with its reason.
fn resolve(
    clauses: &ClauseList,
    trail: &Trail,
    place: usize,
    marks: &mut [bool],
    hints: &mut Vec<usize>,
) -> Result<(), AllocError>
    requires sound { IsSound clauses.now.clauses trail.now }
    requires count { length marks.old ≡ length trail.now.entries }
    requires within { place < length trail.now.entries }
    requires forced { (entry : Item) → slice_get trail.now.entries place ≡ Some entry
        → 0 < entry.reason }
    ensures count { length marks.new ≡ length marks.old }
    ensures kept { (i : ℕ) → IsMarked marks.old i → IsMarked marks.new i }
    ensures explains { OnOk result ((learnt : List Lit) → IsMarked marks.old place
        → ExplainsBack clauses.now.clauses trail.now marks.old learnt hints.old.items (place + 1)
        → ExplainsBack clauses.now.clauses trail.now marks.new learnt hints.new.items place) }
{
    let entry = trail.entry(place);
    mark_clause(
        clauses.clause(entry.reason - 1),
        entry.literal,
        trail,
        marks,
    );
    hints.push(entry.reason)?;
    Ok(())
}

/// Resolves the marked entries from the last decision on, until one alone is left; its place.
pub fn find_uip(
    clauses: &ClauseList,
    trail: &Trail,
    start: usize,
    last: usize,
    marks: &mut [bool],
    hints: &mut Vec<usize>,
) -> Result<usize, AllocError>
    requires sound { IsSound clauses.now.clauses trail.now }
    requires count { length marks.old ≡ length trail.now.entries }
    requires last { IsLastMarked marks.old start (length trail.now.entries) last }
    requires forced { (i : ℕ) (entry : Item) → start < i
        → slice_get trail.now.entries i ≡ Some entry
        → 0 < entry.reason }
    requires explains { ExplainsBack clauses.now.clauses trail.now marks.old [] hints.old.items
        (last + 1) }
    ensures count { length marks.new ≡ length marks.old }
    ensures uip { IfOk result (λ place. IsUip clauses.now.clauses trail.now start marks.new
        hints.new.items place) }
{
    let mut place = last;
    while let Some(below) = last_marked(marks, start, place) {
        resolve(clauses, trail, place, marks, hints)?;
        place = last_marked_from(marks, below, place);
    }
    Ok(place)
}

/// Learns the negation of a marked entry, or resolves it.
fn explain_entry(
    clauses: &ClauseList,
    trail: &Trail,
    place: usize,
    learnt: &mut Vec<Literal>,
    marks: &mut [bool],
    notes: &mut [Note],
    hints: &mut Vec<usize>,
) -> Result<(), AllocError>
    requires sound { IsSound clauses.now.clauses trail.now }
    requires count { length marks.old ≡ length trail.now.entries }
    requires within { place < length trail.now.entries }
    ensures count { length marks.new ≡ length marks.old }
    ensures explains { OnOk result (IsMarked marks.old place
        → ExplainsBack clauses.now.clauses trail.now marks.old learnt.old.items hints.old.items
        (place + 1)
        → ExplainsBack clauses.now.clauses trail.now marks.new learnt.new.items hints.new.items
        place) }
    ensures learnt { OnOk result ((end : ℕ) (before : List Lit) → place < end
        → AreLearntBelow trail.now end before learnt.old.items
        → AreLearntBelow trail.now end before learnt.new.items) }
{
    let entry = trail.entry(place);
    if entry.level == 0
        || entry.reason != 0 && is_implied(clauses, trail, place, marks, notes, MAX_DEPTH)
    {
        return resolve(clauses, trail, place, marks, hints);
    }
    learnt.push(negation(entry.literal))?;
    Ok(())
}

/// Goes down the trail from a place on: each marked entry is resolved, or its negation is learnt.
pub fn explain_below(
    clauses: &ClauseList,
    trail: &Trail,
    end: usize,
    learnt: &mut Vec<Literal>,
    marks: &mut [bool],
    notes: &mut [Note],
    hints: &mut Vec<usize>,
) -> Result<(), AllocError>
    requires sound { IsSound clauses.now.clauses trail.now }
    requires count { length marks.old ≡ length trail.now.entries }
    requires within { end ≤ length trail.now.entries }
    requires explains { ExplainsBack clauses.now.clauses trail.now marks.old learnt.old.items
        hints.old.items end }
    ensures { OnOk result (IsDone clauses.now.clauses trail.now end learnt.old.items
        learnt.new.items
        hints.new.items) }
{
    let mut place = end;
    while let Some(marked) = last_marked(marks, 0, place) {
        explain_entry(clauses, trail, marked, learnt, marks, notes, hints)?;
        place = marked;
    }
    Ok(())
}
