//! A function that runs: its locals, and what it still has to do.

ghost use Rattle.std.specs.Prelude.{OnOk};
ghost use Rattle.c_run.specs.Frames.{IsPushed, IsSet, IsTaken};

use c_types_core::action::Action;
use c_types_core::expression::Core;
use c_types_spec::Scalar;
use std::alloc::AllocError;

/// How control reaches a task.
#[derive(Clone, Copy)]
pub enum Ending {
    /// What was before it is done.
    Went,
    /// By `break`.
    Broke,
    /// By `continue`.
    Continued,
}

/// Why a function doesn't go on by itself.
#[derive(Clone, Copy)]
pub enum Pause {
    /// It has returned, with the value that is given, if one is.
    Ended,
    /// The next task needs a turn.
    Waits,
    /// It calls a function.
    Calls,
}

/// What follows a statement.
#[derive(Clone, Copy)]
pub enum Next {
    /// The next task, by how the statement ended.
    Goes(Ending),
    /// The function doesn't go on by itself.
    Pauses(Pause),
}

/// What a function still has to do.
#[derive(Clone, Copy)]
pub enum Task<'s, 'a> {
    /// A statement.
    Do(&'s Action<'a>),
    /// Statements one after the other.
    Rest(&'s [Action<'a>]),
    /// The step of a loop, after its body, which may have ended by `continue`.
    Step(&'s Action<'a>),
    /// The test of a loop, likewise. Where it is 0 the loop is left, as by `break`.
    Test(&'s Core<'a>),
    /// The loop once more, after a round, unless the round ended by `break`.
    Repeat(&'s Action<'a>),
    /// The end of a `switch`.
    Switch,
}

/// A function that runs.
#[derive(Drop)]
pub struct Frame<'s, 'a> {
    /// The types of its locals.
    pub types: &'s [Scalar],
    /// The values of its locals.
    pub locals: Vec<Option<i128>>,
    /// What it still has to do; the last is next.
    pub tasks: Vec<Task<'s, 'a>>,
    /// The values of the arguments of its call.
    pub arguments: Vec<i128>,
    /// The function that it calls.
    pub callee: &'a [u8],
    /// The local that gets the value of its call.
    pub receiver: Option<usize>,
    /// The value that it returns.
    pub given: Option<i128>,
}

impl<'s, 'a> Frame<'s, 'a> {
    /// One more task, which is next.
    pub fn push(&mut self, task: Task<'s, 'a>) -> Result<(), AllocError>
        ensures { OnOk result (IsPushed self.old self.new task.entry) }
    {
        match self.tasks.push(task) {
            Ok(()) => Ok(()),
            Err(_) => Err(AllocError),
        }
    }

    /// A statement is next.
    pub fn push_do(&mut self, action: &'s Action<'a>) -> Result<(), AllocError>
        ensures { OnOk result (IsPushed self.old self.new (Task.Do action.entry)) }
    {
        self.push(Task::Do(action))
    }

    /// The task that is next, if there is one.
    pub fn take(&mut self) -> Option<Task<'s, 'a>>
        ensures { IsTaken self.old self.new result }
    {
        self.tasks.pop()
    }

    /// A value for a local, or none.
    pub fn set(&mut self, local: usize, value: Option<i128>)
        ensures { IsSet self.old self.new local value }
    {
        if let Some(place) = self.locals.get_mut(local) {
            *place = value;
        }
    }
}
