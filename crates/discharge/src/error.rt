//! Why a goal isn't closed.

ghost use Rattle.std.specs.Prelude.{◌≡◌};

use discharge_spec::GoalQuantity;
use thiserror::Error;

/// Why a log doesn't close a goal.
#[derive(Clone, Copy, Debug, Error)]
pub enum CloseFault {
    /// The quantity is above its maximum: it is at least so many.
    #[error("{0:?}: {1}")]
    Large(GoalQuantity, usize),
    /// The step of this number, counted from 1, doesn't follow.
    #[error("step {0} doesn't follow")]
    Step(usize),
    /// The steps follow, and the last has a literal, or there is none.
    #[error("not closed")]
    Unclosed,
}

/// Why the search for a log has no outcome.
#[derive(Clone, Copy, Debug, Error)]
pub enum SeekFault {
    /// The quantity is above its maximum: it is at least so many.
    #[error("{0:?}: {1}")]
    Large(GoalQuantity, usize),
}
