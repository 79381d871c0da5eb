//! A block of word steps over a goal of a bank, one line at a time (`word_steps_spec`,
//! `specs/Lines.antt`). [`Block::start`] numbers the goal's subterms; each line is a method that
//! takes the line exactly where it is allowed, and else refuses it with [`WordFault`];
//! [`Block::keep`] and [`Block::case`] give the goals that are left.

#![tactic(auto)]

mod block;
mod facts;
mod goals;
mod lines;
mod merging;
mod nodes;
mod number;
mod renewing;
mod reordering;
mod starting;

pub use block::{Block, WordFault};
pub use number::{Fact, Reading};
