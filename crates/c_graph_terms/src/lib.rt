//! The terms of C expressions, in a bank, from the typed core: [`evaluate`] gives the ids of the
//! word of an expression's value and of whether it is not 0, and adds the tests of the guards that
//! it may break, in the order in which a run evaluates them; [`store`] does so for an assignment to
//! an object in memory. They are exactly the terms of `c_graph_spec` (`specs/Values.antt` and
//! `specs/Guards.antt` there). Each part of an expression is visited once.
//!
//! A term is written as a table of nodes (`specs/Tables.antt`): the arguments of a node are
//! numbers, first those of the terms that are given, and then those of the nodes before it.

#![tactic(auto)]

mod access;
mod division;
mod expression;
mod guards;
mod moves;
mod numbers;
mod table;
mod values;
mod variables;
mod words;

pub use access::no_object;
pub use expression::{evaluate, store};
pub use table::{build, leaf, placed};
pub use values::{Object, Scene, ValueIds};
pub use variables::{MEMORY, ZONE_HIGH, ZONE_LOW, is_set, local, result_of, width_of};
pub use words::{at_width, value_atom};
