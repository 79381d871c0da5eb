//! Statements (ISO C11, 6.8), which contain one another: from their trees to actions of the typed
//! core, or to the first fault. `statement::parts` gives exactly what `parts` of `c_types_spec`
//! gives for the parts of a block (`Runs` of `c_types_scope`); `counts::locals_of` how many locals
//! they declare.
#![tactic(auto)]

pub mod counts;
pub mod endings;
pub mod labels;
pub mod statement;

pub use c_types_simple::{calls, context};
