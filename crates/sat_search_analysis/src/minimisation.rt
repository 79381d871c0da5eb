ghost use Rattle.std.specs.Prelude.{◌≡◌, ◌<◌, length, true, IfSome};
ghost use Rattle.clause_check_spec.specs.Clause.{is_of};
ghost use Rattle.sat_search_spec.specs.Trail.{IsSound};

use cnf_core::{ClauseList, Literal, negation};
use sat_search_state::Trail;

/// How many reasons are followed one after the other.
pub const MAX_DEPTH: usize = 500;

/// What is known of an entry that isn't marked.
#[derive(Clone, Copy)]
pub enum Note {
    /// Nothing yet.
    Unknown,
    /// It follows from marked entries and those before every decision.
    Implied,
    /// It doesn't, or reasons would have to be followed too far.
    Needed,
}

/// Whether there is a note that the entry of a place is implied.
fn is_noted(notes: &[Note], place: usize) -> bool {
    match notes.get(place) {
        Some(Note::Implied) => true,
        _ => false,
    }
}

/// Whether there is a note that it isn't, or none can be made.
fn is_needed(notes: &[Note], place: usize) -> bool {
    match notes.get(place) {
        Some(Note::Needed) => true,
        Some(_other) => false,
        None => true,
    }
}

/// Notes whether the entry of a place is implied.
fn take_note(notes: &mut [Note], place: usize, is_implied: bool) {
    if place < notes.len() {
        notes[place] = if is_implied {
            Note::Implied
        } else {
            Note::Needed
        };
    }
}

/// The place of the entry that makes a literal false, where that entry isn't marked, before every
/// decision, or known to be implied.
fn doubtful(literal: Literal, trail: &Trail, marks: &[bool], notes: &[Note]) -> Option<usize>
    requires of_variables { is_of trail.now.variables literal ≡ true }
    requires count { length marks.now ≡ length trail.now.entries }
    ensures { IfSome result (λ place. place < length trail.now.entries) }
{
    match trail.place(negation(literal)) {
        Some(place) => {
            if marks[place] || trail.entry(place).level == 0 || is_noted(notes, place) {
                return None;
            }
            Some(place)
        }
        None => None,
    }
}

/// Whether the entry of a place follows from marked entries and those before every decision: then
/// its negation need not be learnt. Reasons are followed to this depth.
pub fn is_implied(
    clauses: &ClauseList,
    trail: &Trail,
    place: usize,
    marks: &[bool],
    notes: &mut [Note],
    depth: usize,
) -> bool
    requires sound { IsSound clauses.now.clauses trail.now }
    requires count { length marks.now ≡ length trail.now.entries }
    requires within { place < length trail.now.entries }
{
    let entry = trail.entry(place);
    if depth == 0 || entry.reason == 0 || is_needed(notes, place) {
        return false;
    }
    for literal in clauses.clause(entry.reason - 1) {
        if let Some(below) = doubtful(*literal, trail, marks, notes) {
            let found = is_implied(clauses, trail, below, marks, notes, depth - 1);
            take_note(notes, below, found);
            if !found {
                return false;
            }
        }
    }
    true
}
