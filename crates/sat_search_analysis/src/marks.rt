ghost use Rattle.std.specs.Prelude.{◌≡◌, ◌⊎◌, ℕ, ◌+◌, ◌-◌, ◌<◌, ◌≤◌, ◌++◌, ◌∷◌, [], List, Bool};
ghost use Rattle.std.specs.Prelude.{length};
ghost use Rattle.std.specs.Prelude.{true, IfSome, IfNone};
ghost use Rattle.std.specs.List.{list_all};
ghost use Rattle.clause_check_spec.specs.Clause.{negation as negated, is_of, Clause};
ghost use Rattle.clause_check_spec.specs.declared.Literal.{Literal as Lit};
ghost use Rattle.sat_search_spec.specs.Clauses.{Has};
ghost use Rattle.sat_search_spec.specs.Trail.{IsTrueBefore};
ghost use Rattle.sat_search_spec.specs.Analysis.{IsMarked, IsMarking};
ghost use Rattle.sat_search_analysis.specs.Marks.{IsLastMarked, AreUnmarked};

use cnf_core::{Literal, negation};
use sat_search_spec::is_same;
use sat_search_state::Trail;

/// Marks the entry that makes the literal false.
fn mark_literal(literal: Literal, trail: &Trail, marks: &mut [bool])
    requires of_variables { is_of trail.now.variables literal ≡ true }
    requires count { length marks.old ≡ length trail.now.entries }
    ensures marking { (clause : Clause) (excepted : Lit) (first : List Bool)
        → IsMarking trail.now.entries clause excepted first marks.old
        → IsTrueBefore trail.now.entries (length trail.now.entries) (negated literal)
        → IsMarking trail.now.entries (clause ++ literal ∷ []) excepted first marks.new }
{
    if let Some(place) = trail.place(negation(literal)) {
        marks[place] = true;
    }
}

/// Marks the entries that make the literals of a clause false, but for one literal.
pub fn mark_clause(clause: &[Literal], excepted: Literal, trail: &Trail, marks: &mut [bool])
    requires of_variables { list_all (is_of trail.now.variables) clause.now ≡ true }
    requires count { length marks.old ≡ length trail.now.entries }
    ensures marking { ((l : Lit) → Has clause.now l → (l ≡ excepted)
        ⊎ IsTrueBefore trail.now.entries (length trail.now.entries) (negated l))
        → IsMarking trail.now.entries clause.now excepted marks.old marks.new }
{
    for literal in clause {
        if !is_same(*literal, excepted) {
            mark_literal(*literal, trail, marks);
        }
    }
}

/// The last marked place from one place up to another.
pub fn last_marked(marks: &[bool], start: usize, end: usize) -> Option<usize>
    requires { end ≤ length marks.now }
    ensures found { IfSome result (λ place. IsLastMarked marks.now start end place) }
    ensures nowhere { IfNone result (AreUnmarked marks.now start end) }
{
    let mut place = end;
    while place > start {
        place -= 1;
        if marks[place] {
            return Some(place);
        }
    }
    None
}

/// The last marked place before another, where a place before it is marked.
pub fn last_marked_from(marks: &[bool], below: usize, end: usize) -> usize
    requires within { end ≤ length marks.now }
    requires earlier { below < end }
    requires marked { IsMarked marks.now below }
    ensures { IsLastMarked marks.now below end result }
{
    let mut place = end - 1;
    while place > below && !marks[place] {
        place -= 1;
    }
    place
}
