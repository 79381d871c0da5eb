ghost use Rattle.std.specs.Prelude.{◌≤◌, IfOk};
ghost use Rattle.sat_search_learning.specs.Search.{IsReadOff};

use cnf_core::{Literal, MAX_VARIABLE};
use sat_search_state::Trail;
use std::alloc::{AllocError, Global};

/// The values of the variables, that of variable 1 first.
pub fn bits_of(alloc: Global, trail: &Trail) -> Result<Vec<bool>, AllocError>
    requires { trail.now.variables ≤ MAX_VARIABLE }
    ensures { IfOk result (λ bits. IsReadOff trail.now trail.now.variables bits.items) }
{
    let mut bits = Vec::new(alloc);
    for index in 0..trail.variables() {
        bits.push(trail.place(Literal::new(index + 1, false)).is_some())?;
    }
    Ok(bits)
}
