//! Depth-first search in a graph of numbers.

ghost use Rattle.std.specs.Prelude.{◌≡◌, ◌++◌, ◌∷◌, [], map, reverse, nat_eq, IfOk, OnOk};
ghost use Rattle.indexmap.specs.IndexMap.{get};
ghost use Rattle.visit_walk.specs.Search.{target_at, with_targets, IsUntouched, IsSearched};

use indexmap::IndexMap;
use std::alloc::{AllocError, Global};

/// The numbers that follow a number, in order.
#[derive(Clone, Copy)]
pub(crate) enum Targets {
    Zero,
    One(usize),
    Two(usize, usize),
}

/// How far a number is.
#[derive(Clone, Copy)]
pub(crate) enum Status {
    /// It is taken, and not all that follow it have been left.
    Open,
    /// It has been left.
    Left,
}

/// What is to be done with a number.
#[derive(Clone, Copy)]
pub(crate) enum Task {
    /// To take what follows it, unless that has been done.
    Take(usize),
    /// To leave it, after all that follow it.
    Leave(usize),
}

/// What follows a number; nothing, where it isn't there.
pub(crate) fn targets_at(targets: &[Targets], number: usize) -> Targets
    ensures { result ≡ target_at targets.now number }
{
    targets.get(number).copied().unwrap_or(Targets::Zero)
}

/// Adds to the tasks that numbers be taken, the last of them first.
fn add_roots(tasks: &mut Vec<Task>, roots: &[usize]) -> Result<(), AllocError>
    ensures { OnOk result (tasks.new.items ≡ tasks.old.items ++ map Task.Take roots.now) }
{
    for root in roots {
        tasks.push(Task::Take(*root))?;
    }
    Ok(())
}

/// Adds to the tasks that a number be left, and on top that those be taken that follow it.
fn add_tasks(tasks: &mut Vec<Task>, number: usize, targets: Targets) -> Result<(), AllocError>
    ensures { OnOk result (tasks.new.items
        ≡ with_targets (tasks.old.items ++ Task.Leave number ∷ []) targets) }
{
    tasks.push(Task::Leave(number))?;
    match targets {
        Targets::Zero => {}
        Targets::One(target) => tasks.push(Task::Take(target))?,
        Targets::Two(first, second) => {
            tasks.push(Task::Take(second))?;
            tasks.push(Task::Take(first))?;
        }
    }
    Ok(())
}

/// Takes the roots, the last of them first, and all to which they lead. Each number is left after
/// those that follow it, and added to the order then. One that is met while it is open is on a
/// cycle: it is the answer.
fn search(
    targets: &[Targets],
    roots: &[usize],
    statuses: &mut IndexMap<usize, Status>,
    order: &mut Vec<usize>,
    tasks: &mut Vec<Task>,
) -> Result<Option<usize>, AllocError>
    requires { IsUntouched (get nat_eq statuses.old) order.old.items tasks.old.items }
    ensures { IfOk result (IsSearched targets.now roots.now order.new.items) }
{
    add_roots(tasks, roots)?;
    while let Some(task) = tasks.pop() {
        match task {
            Task::Leave(number) => {
                statuses.insert(number, Status::Left)?;
                order.push(number)?;
            }
            Task::Take(number) => match statuses.get(&number).copied() {
                Some(Status::Left) => {}
                Some(Status::Open) => return Ok(Some(number)),
                None => {
                    let _count = statuses.len();
                    statuses.insert(number, Status::Open)?;
                    add_tasks(tasks, number, targets_at(targets, number))?;
                }
            },
        }
    }
    Ok(None)
}

/// The same, with nothing taken at the start.
pub(crate) fn depth_first(
    alloc: Global,
    targets: &[Targets],
    roots: &[usize],
    order: &mut Vec<usize>,
) -> Result<Option<usize>, AllocError>
    requires { order.old.items ≡ [] }
    ensures { IfOk result (IsSearched targets.now roots.now order.new.items) }
{
    let mut statuses = IndexMap::new(alloc);
    let mut tasks = Vec::new(alloc);
    search(targets, roots, &mut statuses, order, &mut tasks)
}
