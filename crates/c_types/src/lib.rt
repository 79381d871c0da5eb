//! Units (ISO C11, 6.9): from the tree of a unit to its typed core, or to its first fault. `check`
//! gives exactly what `typed` of `c_types_spec` gives; `Typed` is seen by `typed_of` in `specs/`.
#![tactic(auto)]

pub mod functions;
pub mod parameters;
pub mod typed;
pub mod unit;
