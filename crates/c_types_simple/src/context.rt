//! Where a statement stands, and actions in memory of their own.

ghost use Rattle.std.specs.Prelude.{◌≡◌, Ok, MatchResult};
ghost use Rattle.c_types_simple.specs.Contexts.{action_in, context_of};

use attempt::Refusal;
use c_types_core::action::Action;
use c_types_core::fault::TypeFault;
use c_types_layout::types::CType;
use std::alloc::AllocError;

/// Where a statement stands.
#[derive(Clone, Copy)]
pub struct Context<'b> {
    /// The type that its function returns.
    pub returned: &'b CType,
    /// How many locals are declared in its function.
    pub declared_locals: usize,
    /// It is inside a loop.
    pub in_loop: bool,
    /// It is inside a `switch`.
    pub in_switch: bool,
}

/// Out of memory, where there is no memory for an action.
pub fn action_or_memory<'a>(
    made: Result<Box<Action<'a>>, AllocError>,
) -> Result<Box<Action<'a>>, Refusal<TypeFault>>
    ensures { MatchResult result (λ x. made.entry ≡ Ok x) (λ e. e ≡ Refusal.NoMemory) }
{
    match made {
        Ok(action) => Ok(action),
        Err(_) => Err(Refusal::NoMemory),
    }
}
