//! The stacks of the functions that listed ones reach, each added up once, after those that it
//! calls. Nothing rests on that order: a function is left out where it calls one whose stack isn't
//! known.

ghost use Rattle.std.specs.Prelude.{ℕ, ◌≡◌, ◌+◌, nat_eq, None, IfOk, IfSome, OnOk};
ghost use Rattle.indexmap.specs.IndexMap.{get};
ghost use Rattle.code_reach_spec.specs.Code.{IsStack};
ghost use Rattle.pair_setup.specs.Stacks.{AreStacks, IsMore, IsRaised, IsTally, IsTotal};

use crate::calling::{Step, steps_at};
use attempt::attempt;
use elf_read::Image;
use indexmap::{IndexMap, IndexSet};
use std::alloc::{AllocError, Global};

/// What is to be done with a function.
#[derive(Clone, Copy)]
enum Task {
    /// To look at what it calls.
    Enter(u32),
    /// To add up its stack, once those that it calls are done.
    Leave(u32),
}

/// What some instructions of a function take of the stack.
#[derive(Clone, Copy)]
pub(crate) struct Tally {
    /// By how much they lower the stack pointer.
    pub own: u64,
    /// The greatest stack of what they call.
    pub deepest: u64,
}

/// The sum of two stacks, if there is one.
fn sum(own: u64, below: u64) -> Option<u64>
    ensures { IfSome result (λ n. n ≡ own + below) }
{
    match own.checked_add(below) {
        Some(sum) => Some(sum),
        None => None,
    }
}

/// The greater of a stack and that of a function that is called; none where that isn't known.
fn raised(known: &IndexMap<u32, u64>, deepest: u64, called: Option<u32>) -> Option<u64>
    ensures { IfSome result (IsRaised (get nat_eq known.now) deepest called) }
{
    match called {
        None => Some(deepest),
        Some(target) => match known.get(&target).copied() {
            Some(stack) => Some(deepest.max(stack)),
            None => None,
        },
    }
}

/// What some instructions take of the stack and one more; none where the stack of what it calls
/// isn't known.
fn with_step(known: &IndexMap<u32, u64>, tally: Tally, step: Step) -> Option<Tally>
    ensures { IfSome result (IsMore (get nat_eq known.now) tally step) }
{
    let own = sum(tally.own, step.opening)?;
    let deepest = raised(known, tally.deepest, step.callee)?;
    Some(Tally { own, deepest })
}

/// What some instructions take of the stack; none where the stack of what one calls isn't known.
fn tallied(known: &IndexMap<u32, u64>, steps: &[Step]) -> Option<Tally>
    ensures { IfSome result (IsTally (get nat_eq known.now) steps.now) }
{
    let mut tally = Tally { own: 0, deepest: 0 };
    for step in steps {
        let more = with_step(known, tally, *step)?;
        tally = more;
    }
    Some(tally)
}

/// The stack of a function with these instructions; none where the stack of what one calls isn't
/// known.
fn total(known: &IndexMap<u32, u64>, steps: &[Step]) -> Option<u64>
    ensures { IfSome result (IsTotal (get nat_eq known.now) steps.now) }
{
    let tally = tallied(known, steps)?;
    sum(tally.own, tally.deepest)
}

/// The stack of the function at an entry; none where the stack of one that it calls isn't known.
fn stack_at(
    alloc: Global,
    known: &IndexMap<u32, u64>,
    image: &Image<'_>,
    entry: u32,
) -> Result<Option<u64>, AllocError>
    requires { AreStacks image.now (get nat_eq known.now) }
    ensures { IfOk result (λ found. IfSome found (IsStack image.now entry)) }
{
    match attempt!(steps_at(alloc, image, entry)) {
        Some(steps) => Ok(total(known, steps.as_slice())),
        None => Ok(None),
    }
}

/// Notes the stack of a function, where those of all that it calls are known.
fn leave(
    alloc: Global,
    known: &mut IndexMap<u32, u64>,
    image: &Image<'_>,
    entry: u32,
) -> Result<(), AllocError>
    requires { AreStacks image.now (get nat_eq known.old) }
    ensures { OnOk result (AreStacks image.now (get nat_eq known.new)) }
{
    match attempt!(stack_at(alloc, known, image, entry)) {
        Some(stack) => {
            known.insert(entry, stack)?;
            Ok(())
        }
        None => Ok(()),
    }
}

/// Adds to the tasks that those functions be entered that some instructions call.
fn add_tasks(tasks: &mut Vec<Task>, steps: &[Step]) -> Result<(), AllocError> {
    for step in steps {
        if let Some(target) = step.callee {
            attempt!(tasks.push(Task::Enter(target)), AllocError);
        }
    }
    Ok(())
}

/// Adds to the tasks that a function be left, and on top that those be entered that it calls,
/// unless it was entered before.
fn enter(
    alloc: Global,
    tasks: &mut Vec<Task>,
    entered: &mut IndexSet<u32>,
    image: &Image<'_>,
    entry: u32,
) -> Result<(), AllocError> {
    if entered.contains(&entry) {
        return Ok(());
    }
    attempt!(entered.insert(entry), AllocError);
    attempt!(tasks.push(Task::Leave(entry)), AllocError);
    match attempt!(steps_at(alloc, image, entry)) {
        Some(steps) => add_tasks(tasks, steps.as_slice()),
        None => Ok(()),
    }
}

/// Does one task.
fn turn(
    alloc: Global,
    known: &mut IndexMap<u32, u64>,
    tasks: &mut Vec<Task>,
    entered: &mut IndexSet<u32>,
    image: &Image<'_>,
    task: Task,
) -> Result<(), AllocError>
    requires { AreStacks image.now (get nat_eq known.old) }
    ensures { OnOk result (AreStacks image.now (get nat_eq known.new)) }
{
    match task {
        Task::Enter(entry) => enter(alloc, tasks, entered, image, entry),
        Task::Leave(entry) => leave(alloc, known, image, entry),
    }
}

/// Does all tasks.
fn settle(
    alloc: Global,
    known: &mut IndexMap<u32, u64>,
    tasks: &mut Vec<Task>,
    entered: &mut IndexSet<u32>,
    image: &Image<'_>,
) -> Result<(), AllocError>
    requires { AreStacks image.now (get nat_eq known.old) }
    ensures { OnOk result (AreStacks image.now (get nat_eq known.new)) }
{
    for _ in 0..u64::MAX {
        match tasks.pop() {
            Some(task) => attempt!(turn(alloc, known, tasks, entered, image, task)),
            None => return Ok(()),
        }
    }
    Ok(())
}

/// Notes the stacks of what is reached from some entries, one after the other.
fn settle_all(
    alloc: Global,
    known: &mut IndexMap<u32, u64>,
    tasks: &mut Vec<Task>,
    entered: &mut IndexSet<u32>,
    image: &Image<'_>,
    firsts: &[u32],
) -> Result<(), AllocError>
    requires { AreStacks image.now (get nat_eq known.old) }
    ensures { OnOk result (AreStacks image.now (get nat_eq known.new)) }
{
    for first in firsts {
        attempt!(tasks.push(Task::Enter(*first)), AllocError);
        attempt!(settle(alloc, known, tasks, entered, image));
    }
    Ok(())
}

/// Notes the stacks of what is reached from some entries, themselves too; of a function that has a
/// fault or reaches a cycle none. It takes as long as the code is that is reached.
pub(crate) fn add_stacks(
    alloc: Global,
    known: &mut IndexMap<u32, u64>,
    image: &Image<'_>,
    firsts: &[u32],
) -> Result<(), AllocError>
    requires { (entry : ℕ) → get nat_eq known.old entry ≡ None }
    ensures { OnOk result (AreStacks image.now (get nat_eq known.new)) }
{
    let mut tasks = Vec::new(alloc);
    let mut entered = IndexSet::new(alloc);
    settle_all(alloc, known, &mut tasks, &mut entered, image, firsts)
}
