//! The state in which a unit is read (ISO C11, 6.2.1 to 6.2.3): what names and tags mean in the
//! scopes that are open, the structs, and the locals, loops and calls of a function. A look-up
//! costs no more than a map's. `state_of` in `specs/` takes the state to that of `c_types_spec`,
//! and `Runs` says that a function gives what a definition gives from the state before it, and
//! leaves the same state.
#![tactic(auto)]

pub mod entries;
pub mod meaning;
pub mod scopes;
pub mod state;
