//! Jumps by tables, as compilers write a `switch`.
//!
//! The straight code before a jump is followed symbolically: each register has a tree in normal
//! form, and equal trees have one index in a set of nodes. The meaning is defined in
//! `code_reach_spec`: what is followed in `specs/RunUp.antt`, which jump it determines in
//! `specs/Code.antt`.
#![tactic(auto)]

mod nodes;
mod straight;
mod tables;
mod words;

pub use tables::{TableJump, table_at, target};
pub use words::{instruction_at, word};
