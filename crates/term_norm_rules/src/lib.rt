//! The rules of the normal form (`term_norm_spec`, `specs/Normal.antt`) but that of loads, in a
//! bank: each function gives the index of the normal form of one operator whose arguments are in
//! normal form, by a table of rules in their order (`src/form.rt`). The work is constant, but for
//! the width of a term: a walk down the first arguments of word operations and of choices.

#![tactic(auto)]

mod bytes;
mod choice;
mod constants;
mod form;
mod numbers;
mod patterns;
mod rules;
mod truths;
mod widths;
mod words;

pub use patterns::{is_constant, is_source_memory, number_of};
pub use rules::{
    constant_byte, normal_and, normal_choose, normal_equal, normal_join_two, normal_less,
    normal_not, normal_octonary, normal_or, normal_quaternary, normal_ternary, normal_unary,
    normal_word,
};
