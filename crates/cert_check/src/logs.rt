//! Logs, a step at a time.

ghost use Rattle.std.specs.Prelude.{◌≡◌, ◌≤◌, IfOk, Some, drop, map, take};
ghost use Rattle.cert_text_parse.specs.Views as views;
ghost use Rattle.cert_text_parse.specs.Views.{hints_in, literals_in};
ghost use Rattle.cert_text_spec.specs.Lines as spec;
ghost use Rattle.cert_check_jobs.specs.Jobs.{IsGoalOnTop};
ghost use Rattle.cnf_core.specs.declared.literals.TheConstants.{MAX_VARIABLE};
ghost use Rattle.discharge.specs.Closers.{OpenLog, TakesStep, open_of};
ghost use Rattle.cert_check.specs.Walks.{IsWalk, Keeps};
ghost use Rattle.cert_check.specs.Logs.{BeginsFirst, CanStep, GoesLog, IsOpened, StepsLog};
ghost use Rattle.cert_check.specs.Logs.{begin_fault, clipped};

use crate::fault::{Named, NamedFault, Placed};
use crate::walk::Walk;
use attempt::{Refusal, attempt};
use cert_check_frames::Listed;
use cert_check_jobs::take_goal;
use cert_check_spec::RuleWord;
use cert_text_parse::Line;
use clause_check::StepFault;
use cnf_core::Literal;
use discharge::{CloseFault, Closer};
use discharge_spec::GoalQuantity;
use std::alloc::{AllocError, Global};
use tv_limits::Quantity;

/// A log that is open.
#[derive(Drop)]
pub(crate) struct OpenLine {
    /// The place of its line, as the caller counts.
    pub place: usize,
    /// How many steps come after the next.
    pub left: u32,
    /// The steps so far.
    pub closer: Closer,
}

// ---- literals and hints

/// The first items, at most so many.
pub(crate) fn front<T>(items: &[T], count: usize) -> &[T]
    ensures { result.now ≡ take count items.now }
{
    if count < items.len() {
        &items[..count]
    } else {
        items
    }
}

/// The items after the first, of which there are so many.
pub(crate) fn rest<T>(items: &[T], count: usize) -> &[T]
    ensures { result.now ≡ drop count items.now }
{
    if count < items.len() {
        &items[count..]
    } else {
        &items[items.len()..]
    }
}

/// How many literals and hints are a line's.
pub(crate) fn counts(line: &Line) -> (usize, usize)
    ensures { result ≡ (literals_in line.now, hints_in line.now) }
{
    match line {
        Line::Step(literals, hints) => (*literals, *hints),
        _ => (0, 0),
    }
}

// A literal; where its variable is above those that can be kept, one of no variable.
fn literal(literal: cert_text_parse::Literal) -> Literal
    ensures { result ≡ clipped (views.literal_of literal) }
{
    match Literal::try_new(literal.variable as usize, literal.is_negated) {
        Some(literal) => literal,
        None => Literal::new(0, literal.is_negated),
    }
}

// Literals as their checker has them.
fn kept_literals(
    alloc: Global,
    literals: &[cert_text_parse::Literal],
) -> Result<Vec<Literal>, AllocError>
    ensures { IfOk result (λ kept. kept.items ≡ map clipped (map views.literal_of literals.now)) }
{
    let mut kept = Vec::new(alloc);
    for index in 0..literals.len() {
        attempt!(kept.push(literal(literals[index])), AllocError);
    }
    Ok(kept)
}

// Hints as their checker has them.
fn kept_hints(alloc: Global, hints: &[u32]) -> Result<Vec<usize>, AllocError>
    ensures { IfOk result (λ kept. kept.items ≡ hints.now) }
{
    let mut kept = Vec::new(alloc);
    for index in 0..hints.len() {
        attempt!(kept.push(hints[index] as usize), AllocError);
    }
    Ok(kept)
}

// ---- the line of a log

// Begins a log of so many steps for the obligation that comes first in the part of a function.
fn begin_first(
    alloc: Global,
    function: &Listed<'_>,
    walk: &mut Walk,
    count: u32,
) -> Result<Closer, Refusal<CloseFault>>
    requires kept { Keeps function.now walk.old }
    requires next { IsGoalOnTop walk.old.jobs.items }
    ensures { BeginsFirst function.now walk.old walk.new count result }
{
    let goal = take_goal(&mut walk.jobs);
    Closer::begin(alloc, &mut walk.bank, goal, count as usize, function.runs)
}

// The log of a closer before its first step, of which so many are to come; there is none where the
// goal needs no step and has none.
fn opened(closer: Closer, count: u32, place: usize) -> Result<Option<OpenLine>, RuleWord>
    ensures { IsOpened closer count place result }
{
    if count > 0 {
        Ok(Some(OpenLine {
            place,
            left: count - 1,
            closer,
        }))
    } else if closer.is_closed() {
        Ok(None)
    } else {
        Err(RuleWord::Unclosed)
    }
}

// Why no log begins in the part of a listed function.
fn refused(part: usize, error: Refusal<CloseFault>) -> Refusal<NamedFault>
    ensures { result ≡ begin_fault part error }
{
    match error {
        Refusal::Fault(CloseFault::Large(GoalQuantity::Terms, _)) => Refusal::Fault(
            NamedFault::Above(Quantity::Terms),
        ),
        Refusal::Fault(CloseFault::Large(GoalQuantity::Variables, _)) => Refusal::Fault(
            NamedFault::Above(Quantity::Variables),
        ),
        Refusal::Fault(CloseFault::Step(_)) => Refusal::Fault(NamedFault::Broken(
            Named::Listed(part),
            RuleWord::Step,
        )),
        Refusal::Fault(CloseFault::Unclosed) => Refusal::Fault(NamedFault::Broken(
            Named::Listed(part),
            RuleWord::Unclosed,
        )),
        Refusal::NoMemory => Refusal::NoMemory,
    }
}

/// `log N`, whose line has a place: the log that is open, if it has a step.
pub(crate) fn log(
    alloc: Global,
    listed: &[Listed<'_>],
    walk: &mut Walk,
    count: u32,
    place: usize,
) -> Result<Option<OpenLine>, Refusal<NamedFault>>
    requires { IsWalk listed.now walk.old (spec.Log count) }
    ensures { GoesLog listed.now walk.old walk.new count place result }
{
    let part = walk.parts[walk.parts.len() - 1];
    match begin_first(alloc, &listed[part], walk, count) {
        Ok(closer) => match opened(closer, count, place) {
            Ok(log) => Ok(log),
            Err(word) => Err(Refusal::Fault(NamedFault::Broken(Named::Listed(part), word))),
        },
        Err(error) => Err(refused(part, error)),
    }
}

// ---- a step

// Gives a closer its next step.
fn add_step(
    alloc: Global,
    closer: &mut Closer,
    literals: &[cert_text_parse::Literal],
    hints: &[u32],
) -> Result<(), Refusal<StepFault>>
    requires { (log : OpenLog) × (open_of closer.old ≡ Some log) × (log.variables ≤ MAX_VARIABLE) }
    ensures { (log : OpenLog) → open_of closer.old ≡ Some log → TakesStep log (open_of closer.new)
        (map views.literal_of literals.now) hints.now result }
{
    let literals = attempt!(kept_literals(alloc, literals), Refusal::NoMemory);
    let hints = attempt!(kept_hints(alloc, hints), Refusal::NoMemory);
    closer.step(literals.as_slice(), hints.as_slice())
}

/// A step, whose line has a place, in the part of a listed function: whether the log goes on, or
/// has closed its goal.
pub(crate) fn step(
    alloc: Global,
    part: usize,
    current: &mut OpenLine,
    literals: &[cert_text_parse::Literal],
    hints: &[u32],
    place: usize,
) -> Result<bool, Refusal<Placed>>
    requires { CanStep current.old }
    ensures { StepsLog part current.old current.new
        (record { literals = map views.literal_of literals.now; hints = hints.now }) place result }
{
    match add_step(alloc, &mut current.closer, literals, hints) {
        Ok(()) => {}
        Err(Refusal::Fault(_)) => return Err(Refusal::Fault(Placed {
            place,
            fault: NamedFault::Broken(Named::Listed(part), RuleWord::Step),
        })),
        Err(Refusal::NoMemory) => return Err(Refusal::NoMemory),
    }
    if current.left > 0 {
        current.left -= 1;
        Ok(true)
    } else if current.closer.is_closed() {
        Ok(false)
    } else {
        Err(Refusal::Fault(Placed {
            place: current.place,
            fault: NamedFault::Broken(Named::Listed(part), RuleWord::Unclosed),
        }))
    }
}
