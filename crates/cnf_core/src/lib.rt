//! Clauses over numbered variables.
//!
//! The main type is [`Cnf`], which a contract sees as the clauses of `clause_check_spec`
//! (`specs/Clause.antt`), over a [`ClauseList`]: four bytes a [`Literal`], which a contract sees as
//! a variable and a sign. [`eval`] says whether an assignment satisfies all clauses.
#![tactic(auto)]

mod cnf;
mod evaluation;
mod list;
mod literals;

pub use cnf::Cnf;
pub use evaluation::eval;
pub use list::ClauseList;
pub use literals::{Literal, MAX_VARIABLE, negation};
