//! The code of the functions of an executable.
//!
//! [`code`] lists the words that a function reaches, [`reach`] the functions that calls reach from
//! it, and [`stack`] gives the stack that it takes with them. Each answers the first fault where
//! there is one: `code` of the function alone, `reach` and `stack` of all that is reached.
//! [`range_fault`] says whether the range of a function is one that has code: not empty, fixed by
//! the file and aligned. The meaning is defined in `code_reach_spec`: what is reached in
//! `specs/Code.antt`, the faults and which of them is the first in `specs/Faults.antt`.
#![tactic(auto)]

mod faults;
mod flows;
mod functions;
mod listing;
mod range;
mod stacks;
mod survey;
mod walk;

pub use code_reach_tables::{TableJump, instruction_at, target};
pub use faults::CodeFault;
pub use flows::{Flow, flow_at};
pub use functions::{callee, callee_at};
pub use listing::code;
pub use range::range_fault;
pub use stacks::{lowering, stack};
pub use survey::reach;
