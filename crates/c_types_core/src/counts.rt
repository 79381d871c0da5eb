//! Sums of counts.

ghost use Rattle.std.specs.Prelude.{◌+◌};
ghost use Rattle.c_types_core.specs.Counted.{IsCounted};

use std::alloc::AllocError;

/// A sum; out of memory exactly where no `usize` holds it: so many things don't fit in memory.
pub fn sum(a: usize, b: usize) -> Result<usize, AllocError>
    ensures { IsCounted (a + b) result }
{
    match a.checked_add(b) {
        Some(n) => Ok(n),
        None => Err(AllocError),
    }
}
