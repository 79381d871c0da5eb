ghost use Rattle.std.specs.Prelude.{◌≡◌, ◌+◌, ◌-◌, ◌++◌, ◌∷◌, ℕ, [], List, Option, Bool, length};
ghost use Rattle.std.specs.Prelude.{map, replicate, true, None, Some, IsTrue, drop, not};
ghost use Rattle.std.specs.Prelude.{◌≤◌, slice_get, false};
ghost use Rattle.std.specs.List.{list_all};
ghost use Rattle.clause_check_spec.specs.Clause as spec;
ghost use Rattle.clause_check_spec.specs.Step as step;
ghost use Rattle.clause_check_spec.specs.declared.Literal.{Literal as Lit};
ghost use Rattle.clause_check.specs.Signs.{Reports, is_sign, sign_of};
ghost use Rattle.clause_check.specs.Answers.{reported, outcome_of, outcome_after, IsOpen};
ghost use Rattle.clause_check.specs.Answers.{IsOpenAfter};

use crate::stamps::Stamps;
use clause_check_spec::StepFaultKind;
use cnf_core::{ClauseList, Literal, negation};
use thiserror::Error;

/// Why and where a step doesn't follow: its first fault.
#[derive(Clone, Copy, Debug, Error)]
#[error("{kind:?} at hint {hint}")]
pub struct StepFault {
    /// The number of the hint, counted from 1; 0 for the literals, the number of hints for `Open`.
    pub hint: usize,
    /// What is wrong there.
    pub kind: StepFaultKind,
}

/// The status of a hint's clause, some literals being true.
#[derive(Clone, Copy)]
pub enum Finding {
    /// There is no such clause.
    Missing,
    /// A literal is true.
    Holds,
    /// Two literals are not false.
    Several,
    /// This one alone is not false.
    Forces(Literal),
    /// All are false.
    Fails,
}

/// The status of literals that are not false, with one more.
fn with_open(seen: Finding, literal: Literal) -> Finding
    ensures reported { (before : List Lit) → reported seen ≡ step.found_among before
        → reported result ≡ step.found_among (before ++ literal ∷ []) }
    ensures held { reported seen ≡ step.Holds → reported result ≡ step.Holds }
    ensures open { (signs : List (Option Bool)) → IsOpen signs seen
        → IsOpen signs (Finding.Forces literal) → IsOpen signs result }
{
    match seen {
        Finding::Fails => Finding::Forces(literal),
        Finding::Forces(first) if first.code() == literal.code() => seen,
        Finding::Holds => seen,
        _ => Finding::Several,
    }
}

/// The status of a clause, from literal to literal.
fn found_by_each(clause: &[Literal], stamps: &Stamps) -> Finding
    requires { list_all (spec.is_of (length stamps.now)) clause.now ≡ true }
    ensures reported { (truths : List Lit) → Reports stamps.now truths
        → reported result ≡ step.finding truths clause.now }
    ensures open { IsOpen stamps.now result }
{
    let mut seen = Finding::Fails;
    for literal in clause {
        if stamps.is_false(*literal) {
            continue;
        }
        if stamps.is_true(*literal) {
            return Finding::Holds;
        }
        seen = with_open(seen, *literal);
    }
    seen
}

/// The index of the first literal from an index on that isn't false; the length where there is
/// none.
fn next_open(clause: &[Literal], stamps: &Stamps, start: usize) -> usize
    requires named { list_all (spec.is_of (length stamps.now)) clause.now ≡ true }
    requires within { start ≤ length clause.now }
    ensures within { result ≤ length clause.now }
    ensures passed { (truths front : List Lit) → Reports stamps.now truths
        → step.finding truths (front ++ drop start clause.now)
        ≡ step.finding truths (front ++ drop result clause.now) }
    ensures open { (l : Lit) → slice_get clause.now result ≡ Some l
        → is_sign (sign_of stamps.now l) (not l.is_negated) ≡ false }
{
    let mut index = start;
    while index < clause.len() {
        if !stamps.is_false(clause[index]) {
            return index;
        }
        index += 1;
    }
    index
}

/// The index of the first literal that isn't false, mostly one of the first two; the length where
/// there is none.
fn first_open(clause: &[Literal], stamps: &Stamps) -> usize
    requires { list_all (spec.is_of (length stamps.now)) clause.now ≡ true }
    ensures within { result ≤ length clause.now }
    ensures passed { (truths : List Lit) → Reports stamps.now truths
        → step.finding truths clause.now ≡ step.finding truths (drop result clause.now) }
    ensures open { (l : Lit) → slice_get clause.now result ≡ Some l
        → is_sign (sign_of stamps.now l) (not l.is_negated) ≡ false }
{
    if clause.len() < 2 {
        return next_open(clause, stamps, 0);
    }
    if !stamps.is_false(clause[0]) {
        return 0;
    }
    if !stamps.is_false(clause[1]) {
        return 1;
    }
    next_open(clause, stamps, 2)
}

/// The status of a literal that isn't false, alone.
fn found_alone(literal: Literal, stamps: &Stamps) -> Finding
    requires named { spec.is_of (length stamps.now) literal ≡ true }
    requires not_false { is_sign (sign_of stamps.now literal) (not literal.is_negated) ≡ false }
    ensures reported { (truths : List Lit) → Reports stamps.now truths
        → reported result ≡ step.finding truths (literal ∷ []) }
    ensures open { IsOpen stamps.now result }
{
    if stamps.is_true(literal) {
        return Finding::Holds;
    }
    Finding::Forces(literal)
}

/// The status of a clause of two literals.
fn found_in_pair(clause: &[Literal], stamps: &Stamps) -> Finding
    requires named { list_all (spec.is_of (length stamps.now)) clause.now ≡ true }
    requires pair { length clause.now ≡ 2 }
    ensures reported { (truths : List Lit) → Reports stamps.now truths
        → reported result ≡ step.finding truths clause.now }
    ensures open { IsOpen stamps.now result }
{
    let first = clause[0];
    let second = clause[1];
    if stamps.is_false(first) {
        if stamps.is_false(second) {
            return Finding::Fails;
        }
        return found_alone(second, stamps);
    }
    if stamps.is_false(second) {
        return found_alone(first, stamps);
    }
    found_by_each(clause, stamps)
}

/// The status of a clause. That one literal isn't false, or none, is the common case.
fn found_in(clause: &[Literal], stamps: &Stamps) -> Finding
    requires { list_all (spec.is_of (length stamps.now)) clause.now ≡ true }
    ensures reported { (truths : List Lit) → Reports stamps.now truths
        → reported result ≡ step.finding truths clause.now }
    ensures open { IsOpen stamps.now result }
{
    if clause.len() == 2 {
        return found_in_pair(clause, stamps);
    }
    let first = first_open(clause, stamps);
    if first == clause.len() {
        return Finding::Fails;
    }
    if next_open(clause, stamps, first + 1) < clause.len() {
        return found_by_each(clause, stamps);
    }
    found_alone(clause[first], stamps)
}

/// The status of the clause of a number.
fn found_at(clauses: &ClauseList, stamps: &Stamps, number: usize) -> Finding
    requires { spec.are_of (length stamps.now) clauses.now.clauses ≡ true }
    ensures reported { (truths : List Lit) → Reports stamps.now truths
        → reported result ≡ step.finding_at clauses.now.clauses truths number }
    ensures open { IsOpen stamps.now result }
{
    if number == 0 {
        return Finding::Missing;
    }
    match clauses.get(number - 1) {
        Some(clause) => found_in(clause, stamps),
        None => Finding::Missing,
    }
}

/// The literal that a hint makes true, none at the end of the step; or the hint's fault.
fn forced(finding: Finding, is_last: bool) -> Result<Option<Literal>, StepFaultKind>
    ensures after { (hint : ℕ) (on : Lit → step.Outcome)
        → outcome_after hint result on ≡ step.outcome_of hint is_last (reported finding) on }
    ensures open { (signs : List (Option Bool)) → IsOpen signs finding → IsOpenAfter signs result }
{
    match finding {
        Finding::Missing => Err(StepFaultKind::Range),
        Finding::Holds => Err(StepFaultKind::True),
        Finding::Several => Err(StepFaultKind::Two),
        Finding::Forces(literal) => Ok(Some(literal)),
        Finding::Fails if is_last => Ok(None),
        Finding::Fails => Err(StepFaultKind::Early),
    }
}

/// Unit propagation along the hints: whether they lead to a clause whose literals are all false.
fn propagate(clauses: &ClauseList, hints: &[usize], stamps: &mut Stamps) -> Result<(), StepFault>
    requires { spec.are_of (length stamps.old) clauses.now.clauses ≡ true }
    ensures outcome { (truths : List Lit) → Reports stamps.old truths
        → outcome_of result ≡ step.propagate clauses.now.clauses hints.now truths 0 }
    ensures len { length stamps.new ≡ length stamps.old }
{
    for (done, number) in hints.iter().enumerate() {
        match forced(found_at(clauses, stamps, *number), done + 1 == hints.len()) {
            Ok(Some(literal)) => stamps.set(literal),
            Ok(None) => return Ok(()),
            Err(kind) => return Err(StepFault {
                hint: done + 1,
                kind,
            }),
        }
    }
    Err(StepFault {
        hint: hints.len(),
        kind: StepFaultKind::Open,
    })
}

/// Makes one more literal false, if it is of the variables and no other one of its own was.
fn deny_one(literal: Literal, stamps: &mut Stamps) -> bool
    ensures fit { (before : List Lit) → step.are_fit (length stamps.old) before ≡ true
        → Reports stamps.old (map spec.negation before)
        → result ≡ step.are_fit (length stamps.old) (before ++ literal ∷ []) }
    ensures reported { (before : List Lit) → IsTrue result
        → Reports stamps.old (map spec.negation before)
        → Reports stamps.new (map spec.negation (before ++ literal ∷ [])) }
    ensures len { length stamps.new ≡ length stamps.old }
{
    if !literal.is_of(stamps.len()) {
        return false;
    }
    if stamps.is_set(literal) {
        return false;
    }
    stamps.set(negation(literal));
    true
}

/// Makes the literals false, if they are of the variables and no variable occurs twice.
fn deny(literals: &[Literal], stamps: &mut Stamps) -> bool
    requires { stamps.old ≡ replicate (length stamps.old) None }
    ensures fit { result ≡ step.are_fit (length stamps.old) literals.now }
    ensures reported { IsTrue result → Reports stamps.new (map spec.negation literals.now) }
    ensures len { length stamps.new ≡ length stamps.old }
{
    for literal in literals {
        if !deny_one(*literal, stamps) {
            return false;
        }
    }
    true
}

/// Whether a step with these literals and hints follows from the clauses.
pub fn follows(
    clauses: &ClauseList,
    stamps: &mut Stamps,
    literals: &[Literal],
    hints: &[usize],
) -> Result<(), StepFault>
    requires { spec.are_of (length stamps.old) clauses.now.clauses ≡ true }
    ensures outcome { outcome_of result
        ≡ step.outcome (length stamps.old) clauses.now.clauses literals.now hints.now }
    ensures len { length stamps.new ≡ length stamps.old }
{
    stamps.clear();
    if !deny(literals, stamps) {
        return Err(StepFault {
            hint: 0,
            kind: StepFaultKind::Literals,
        });
    }
    propagate(clauses, hints, stamps)
}
