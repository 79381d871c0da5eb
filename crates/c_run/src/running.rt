//! The tasks of a function, one after the other.

ghost use Rattle.std.specs.Prelude.{◌≡◌, suc};
ghost use Rattle.c_run_value.specs.Settings.{setting_of};
ghost use Rattle.c_run.specs.Tasks.{Goes, Proceeds, after_break, follows_body};
ghost use Rattle.c_run.specs.Weights.{IsBelow, weight_of_all, weight_of_task};

use crate::frame::{Ending, Frame, Next, Pause, Task};
use crate::statement::{act, holds};
use attempt::{Refusal, attempt};
use c_run_value::memory::Memory;
use c_run_value::setting::{Setting, Stop};
use c_types_core::action::Action;
use c_types_core::expression::Core;

/// Statements one after the other.
fn rest<'s, 'a>(
    actions: &'s [Action<'a>],
    setting: &Setting<'s, 'a>,
    frame: &mut Frame<'s, 'a>,
    memory: &mut Memory,
) -> Result<Next, Refusal<Stop>>
    ensures proceeds { Proceeds (setting_of setting.now) (Task.Rest actions.entry) Ending.Went
        frame.old memory.old frame.new memory.new result }
    ensures below { IsBelow (suc (weight_of_all actions.now)) frame.old frame.new result }
{
    let Some((first, others)) = actions.split_first() else {
        return Ok(Next::Goes(Ending::Went));
    };
    attempt!(frame.push(Task::Rest(others)), Refusal::NoMemory);
    act(first, setting, frame, memory)
}

/// The test of a loop.
fn test_round<'s, 'a>(
    test: &'s Core<'a>,
    setting: &Setting<'s, 'a>,
    frame: &mut Frame<'s, 'a>,
    memory: &mut Memory,
) -> Result<Next, Refusal<Stop>>
    ensures proceeds { Proceeds (setting_of setting.now) (Task.Test test.entry) Ending.Went
        frame.old memory.old frame.new memory.new result }
    ensures below { IsBelow 1 frame.old frame.new result }
{
    let goes_on = attempt!(holds(test, setting, frame, memory));
    if goes_on {
        return Ok(Next::Goes(Ending::Went));
    }
    Ok(Next::Goes(Ending::Broke))
}

/// A task where control goes on.
fn start<'s, 'a>(
    task: Task<'s, 'a>,
    setting: &Setting<'s, 'a>,
    frame: &mut Frame<'s, 'a>,
    memory: &mut Memory,
) -> Result<Next, Refusal<Stop>>
    ensures proceeds { Proceeds (setting_of setting.now) task.entry Ending.Went frame.old memory.old
        frame.new memory.new result }
    ensures below { IsBelow (weight_of_task task.entry) frame.old frame.new result }
{
    match task {
        Task::Do(action) => act(action, setting, frame, memory),
        Task::Rest(actions) => rest(actions, setting, frame, memory),
        Task::Step(action) => act(action, setting, frame, memory),
        Task::Test(test) => test_round(test, setting, frame, memory),
        Task::Repeat(action) => act(action, setting, frame, memory),
        Task::Switch => Ok(Next::Goes(Ending::Went)),
    }
}

/// How a task that `break` reaches ends: it leaves a loop or a `switch`, and nothing more.
fn after_break(task: Task<'_, '_>) -> Ending
    ensures { result ≡ after_break task.entry }
{
    match task {
        Task::Repeat(_) | Task::Switch => Ending::Went,
        Task::Do(_) | Task::Rest(_) | Task::Step(_) | Task::Test(_) => Ending::Broke,
    }
}

/// A task follows the body of a loop: `continue` goes no further.
fn follows_body(task: Task<'_, '_>) -> bool
    ensures { result ≡ follows_body task.entry }
{
    match task {
        Task::Step(_) | Task::Test(_) => true,
        Task::Do(_) | Task::Rest(_) | Task::Repeat(_) | Task::Switch => false,
    }
}

/// A task, by how control reaches it.
fn proceed<'s, 'a>(
    task: Task<'s, 'a>,
    ending: Ending,
    setting: &Setting<'s, 'a>,
    frame: &mut Frame<'s, 'a>,
    memory: &mut Memory,
) -> Result<Next, Refusal<Stop>>
    ensures proceeds { Proceeds (setting_of setting.now) task.entry ending frame.old memory.old
        frame.new memory.new result }
    ensures below { IsBelow (weight_of_task task.entry) frame.old frame.new result }
{
    match ending {
        Ending::Went => start(task, setting, frame, memory),
        Ending::Broke => Ok(Next::Goes(after_break(task))),
        Ending::Continued => {
            if follows_body(task) {
                return start(task, setting, frame, memory);
            }
            Ok(Next::Goes(Ending::Continued))
        }
    }
}

/// The tasks of a function, until it doesn't go on by itself.
pub fn go<'s, 'a>(
    setting: &Setting<'s, 'a>,
    frame: &mut Frame<'s, 'a>,
    memory: &mut Memory,
) -> Result<Pause, Refusal<Stop>>
    ensures { Goes (setting_of setting.now) frame.old memory.old frame.new memory.new result }
{
    let mut ending = Ending::Went;
    'tasks: loop {
        let Some(task) = frame.take() else {
            frame.given = None;
            return Ok(Pause::Ended);
        };
        match attempt!(proceed(task, ending, setting, frame, memory)) {
            Next::Goes(next) => ending = next,
            Next::Pauses(pause) => return Ok(pause),
        }
    }
}
