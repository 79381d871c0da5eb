ghost use Rattle.std.specs.Prelude.{◌≡◌, ℕ, ◌+◌, ◌-◌, ◌<◌, ◌≤◌, ◌++◌, ◌∷◌, [], List, Bool, length};
ghost use Rattle.std.specs.Prelude.{if◌then◌else◌, IfOk, OnOk};
ghost use Rattle.clause_check_spec.specs.Clause.{Cnf};
ghost use Rattle.sat_search_spec.specs.Logs.{IsClosing};
ghost use Rattle.sat_search_spec.specs.Trimming.{IsNeeded, IsTrimming, renumbered as number_of};
ghost use Rattle.sat_search_spec.specs.Trimming.{trimmed_step};
ghost use Rattle.sat_search_analysis.specs.Passes.{IsBackward, IsMarkedBy, IsTrimmed, AreLow};

use crate::Step;
use attempt::attempt;
use std::alloc::{AllocError, Global};

/// Marks the step of a hint.
fn mark_hint(hint: usize, given: usize, needed: &mut [bool])
    ensures { (hints : List ℕ) (first : List Bool) → IsMarkedBy given hints first needed.old
        → IsMarkedBy given (hints ++ hint ∷ []) first needed.new }
{
    if hint > given && hint - given - 1 < needed.len() {
        needed[hint - given - 1] = true;
    }
}

/// Marks the steps of the hints.
fn mark_hints(hints: &[usize], given: usize, needed: &mut [bool])
    ensures { IsMarkedBy given hints.now needed.old needed.new }
{
    for hint in hints {
        mark_hint(*hint, given, needed);
    }
}

/// Marks what the marked steps need, from the last one down.
fn mark_needed(given: usize, log: &[Step], needed: &mut [bool])
    requires { length needed.old ≡ length log.now }
    ensures count { length needed.new ≡ length needed.old }
    ensures needed { IsBackward given log.now → IsNeeded given log.now needed.old (length log.now)
        → IsNeeded given log.now needed.new 0 }
{
    let mut index = log.len();
    while index > 0 {
        index -= 1;
        if needed[index] {
            mark_hints(log[index].hints(), given, needed);
        }
    }
}

/// Which steps the last one needs, itself among them.
fn needed_steps(alloc: Global, given: usize, log: &[Step]) -> Result<Vec<bool>, AllocError>
    requires { 0 < length log.now }
    ensures count { IfOk result (λ needed. length needed.items ≡ length log.now) }
    ensures needed { IfOk result (λ needed. IsBackward given log.now
        → IsNeeded given log.now needed.items 0) }
{
    let mut needed = vec![in alloc; false; log.len()]?;
    needed[log.len() - 1] = true;
    mark_needed(given, log, needed.as_mut_slice());
    Ok(needed)
}

/// The number of a clause after trimming.
fn renumbered(given: usize, places: &[usize], number: usize) -> usize
    requires { AreLow places.now }
    ensures { result ≡ number_of given places.now number }
{
    if number <= given {
        return number;
    }
    match places.get(number - given - 1) {
        Some(place) => given + (*place + 1),
        None => given + 1,
    }
}

/// The step with its hints renumbered.
fn renumbered_step(
    alloc: Global,
    given: usize,
    places: &[usize],
    step: &Step,
) -> Result<Step, AllocError>
    requires { AreLow places.now }
    ensures { IfOk result (λ t. t ≡ trimmed_step given places.now step.now) }
{
    let literals = attempt!(Vec::from_slice(alloc, step.literals()));
    let mut hints = Vec::new(alloc);
    for number in step.hints() {
        hints.push(renumbered(given, places, *number))?;
    }
    Ok(Step::new(literals, hints))
}

/// One step more: its place, and the step where it is needed.
fn trim_step(
    alloc: Global,
    given: usize,
    is_needed: bool,
    step: &Step,
    places: &mut Vec<usize>,
    trimmed: &mut Vec<Step>,
) -> Result<(), AllocError>
    requires low { AreLow places.old.items }
    requires short { length trimmed.old.items ≤ length places.old.items }
    ensures places { OnOk result (places.new.items
        ≡ places.old.items ++ length trimmed.old.items ∷ []) }
    ensures trimmed { OnOk result (trimmed.new.items ≡ (if is_needed
        then trimmed.old.items ++ trimmed_step given places.new.items step.now ∷ []
        else trimmed.old.items)) }
{
    places.push(trimmed.len())?;
    if is_needed {
        trimmed.push(renumbered_step(alloc, given, places.as_slice(), step)?)?;
    }
    Ok(())
}

/// The needed steps in their order, renumbered.
fn trim_steps(
    alloc: Global,
    given: usize,
    log: &[Step],
    needed: &[bool],
    places: &mut Vec<usize>,
    trimmed: &mut Vec<Step>,
) -> Result<(), AllocError>
    requires count { length needed.now ≡ length log.now }
    requires no_places { places.old.items ≡ [] }
    requires no_steps { trimmed.old.items ≡ [] }
    ensures { OnOk result (IsBackward given log.now → IsTrimming given log.now needed.now
        (length log.now) places.new.items trimmed.new.items) }
{
    for index in 0..log.len() {
        trim_step(alloc, given, needed[index], &log[index], places, trimmed)?;
    }
    Ok(())
}

/// The steps of a log that the last one needs, in their order: of a log after so many given
/// clauses, whose last step is empty.
pub fn trim(alloc: Global, given: usize, log: &[Step]) -> Result<Vec<Step>, AllocError>
    requires { 0 < length log.now }
    ensures { IfOk result (λ trimmed. (cnf : Cnf) → length cnf.clauses ≡ given
        → IsClosing cnf log.now → IsTrimmed cnf log.now trimmed.items) }
{
    let needed = needed_steps(alloc, given, log)?;
    let mut places = Vec::new(alloc);
    let mut trimmed = Vec::new(alloc);
    trim_steps(
        alloc,
        given,
        log,
        needed.as_slice(),
        &mut places,
        &mut trimmed,
    )?;
    Ok(trimmed)
}
