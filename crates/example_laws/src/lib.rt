//! Examples worked by hand, as laws about the definitions: that they say what the standards say.
//! Each function's clause is one fact, and its body is empty. The functions here are on the
//! machine; [`code`], [`code_graphs`], [`graphs`], [`source`], [`claim`], [`clauses`] and
//! [`faults`] have those of the other definitions.
#![tactic(auto)]

mod add_two_arguments;
mod arithmetic;
mod decoding;
mod trapping;

pub use add_two_arguments::adds_two_arguments;
pub use arithmetic::{
    divide_by_zero, divide_least_by_minus_one, multiply_high_at_edges, remainder_by_zero,
    remainder_of_least_by_minus_one, shifts_right_both_ways, unsigned_division_by_zero,
};
pub use decoding::{decodes, decodes_nothing};
pub use trapping::{misaligned_jump_traps, misaligned_load_traps, zero_is_not_written};

pub mod claim;
pub mod clauses;
pub mod code;
pub mod code_graphs;
pub mod faults;
pub mod graphs;
pub mod source;
