ghost use Rattle.std.specs.Prelude.{◌≡◌, ◌++◌, ◌∷◌, [], length, true, IfSome, IfNone, IfOk, OnOk};
ghost use Rattle.std.specs.List.{list_all};
ghost use Rattle.clause_check_spec.specs.Clause.{is_of, negation as negated};
ghost use Rattle.sat_search_spec.specs.Trail.{IsAbsent};
ghost use Rattle.sat_search_spec.specs.Watches.{IsRunning};
ghost use Rattle.sat_search_learning.specs.Search.{IsApart, AreSame, IsAtStart, IsUnit, IsTrueUnit};
ghost use Rattle.sat_search_learning.specs.Stages.{IsLoaded, IsFront};

use cnf_core::{ClauseList, Cnf, Literal, negation};
use sat_search_spec::{Watch, is_same};
use sat_search_state::{Trail, Watches};
use std::alloc::AllocError;

/// A literal of the clause that is another one.
fn other_literal(clause: &[Literal], first: Literal) -> Option<Literal>
    ensures found { IfSome result (λ l. IsApart clause.now first l) }
    ensures nowhere { IfNone result (AreSame clause.now first) }
{
    for literal in clause {
        if !is_same(*literal, first) {
            return Some(*literal);
        }
    }
    None
}

/// Watches a unit clause whose literal is true.
fn attach_unit(
    clauses: &ClauseList,
    trail: &Trail,
    watches: &mut Watches,
    literal: Literal,
) -> Result<Option<usize>, AllocError>
    requires { IsTrueUnit clauses.now.clauses trail.now watches.old literal }
    ensures { IfOk result (λ conflict. IsLoaded clauses.now.clauses trail.now watches.new
        conflict) }
{
    watches.attach(Watch {
        first: literal,
        second: literal,
    })?;
    Ok(None)
}

/// Makes the literal of a unit clause, the last one, true, which is not false.
fn load_open(
    clauses: &ClauseList,
    trail: &mut Trail,
    watches: &mut Watches,
    literal: Literal,
) -> Result<Option<usize>, AllocError>
    requires unit { IsUnit clauses.now.clauses trail.old watches.old literal }
    requires not_false { IsAbsent trail.old.entries (negated literal) }
    ensures loaded { IfOk result (λ conflict. IsLoaded clauses.now.clauses trail.new watches.new
        conflict) }
    ensures start { OnOk result (IsAtStart trail.old trail.new) }
{
    match trail.place(literal) {
        Some(_place) => attach_unit(clauses, trail, watches, literal),
        None => {
            trail.push(literal, clauses.len())?;
            attach_unit(clauses, trail, watches, literal)
        }
    }
}

/// Makes the literal of a unit clause, the last one, true. The clause's number, if it is false
/// already.
fn load_unit(
    clauses: &ClauseList,
    trail: &mut Trail,
    watches: &mut Watches,
    literal: Literal,
) -> Result<Option<usize>, AllocError>
    requires { IsUnit clauses.now.clauses trail.old watches.old literal }
    ensures loaded { IfOk result (λ conflict. IsLoaded clauses.now.clauses trail.new watches.new
        conflict) }
    ensures start { OnOk result (IsAtStart trail.old trail.new) }
{
    match trail.place(negation(literal)) {
        Some(_place) => Ok(Some(clauses.len())),
        None => load_open(clauses, trail, watches, literal),
    }
}

/// Adds a clause: it is watched, or its only literal becomes true. The clause's number, if it is
/// false.
fn load_clause(
    clauses: &mut ClauseList,
    trail: &mut Trail,
    watches: &mut Watches,
    clause: &[Literal],
) -> Result<Option<usize>, AllocError>
    requires running { IsRunning clauses.old.clauses trail.old watches.old }
    requires first { watches.old.head ≡ 0 }
    requires undecided { trail.old.level ≡ 0 }
    requires of_variables { list_all (is_of trail.old.variables) clause.now ≡ true }
    ensures added { OnOk result (clauses.new.clauses ≡ clauses.old.clauses ++ clause.now ∷ []) }
    ensures loaded { IfOk result (λ conflict. IsLoaded clauses.new.clauses trail.new watches.new
        conflict) }
    ensures start { OnOk result (IsAtStart trail.old trail.new) }
{
    clauses.push(clause)?;
    if clause.is_empty() {
        return Ok(Some(clauses.len()));
    }
    let first = clause[0];
    match other_literal(clause, first) {
        Some(second) => {
            watches.attach(Watch { first, second })?;
            Ok(None)
        }
        None => load_unit(clauses, trail, watches, first),
    }
}

/// Adds the clauses in their order. The number of the first one that is false.
pub fn load(
    cnf: &Cnf,
    clauses: &mut ClauseList,
    trail: &mut Trail,
    watches: &mut Watches,
) -> Result<Option<usize>, AllocError>
    requires running { IsRunning clauses.old.clauses trail.old watches.old }
    requires first { watches.old.head ≡ 0 }
    requires undecided { trail.old.level ≡ 0 }
    requires none { clauses.old.clauses ≡ [] }
    requires variables { trail.old.variables ≡ cnf.now.variables }
    ensures loaded { IfOk result (λ conflict. IsLoaded clauses.new.clauses trail.new watches.new
        conflict × IsFront cnf.now clauses.new.clauses conflict) }
    ensures start { OnOk result (IsAtStart trail.old trail.new) }
{
    for index in 0..cnf.len() {
        let clause = cnf.clause(index).unwrap();
        if let Some(number) = load_clause(clauses, trail, watches, clause)? {
            return Ok(Some(number));
        }
    }
    Ok(None)
}
