//! The typed core of a C unit as the program keeps it. Names borrow their bytes from the text.
//! `core_of` in `specs/` takes an expression to that of `c_types_spec`, of which clauses speak;
//! each function that makes a part ensures of which tree it is.
#![tactic(auto)]

pub mod action;
pub mod constants;
pub mod counts;
pub mod expression;
pub mod fault;
pub mod values;
