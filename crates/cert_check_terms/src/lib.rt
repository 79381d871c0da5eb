//! The terms of a certificate's lines, in a bank.
//!
//! [`read_line`] gives the term that the symbols of a line spell, where that is a truth value over
//! the variables in scope, and else that there is none: when symbols are the spelling of a term is
//! defined in `cert_check_spec` (`specs/Terms.antt`), when a term is a line in `proof_tree_spec`
//! (`specs/Scope.antt`). The symbols are read once, without recursion, however deep they nest.
#![tactic(auto)]

mod closing;
mod fault;
mod lines;
mod operators;
mod reading;
mod variables;

pub use fault::TermFault;
pub use lines::read_line;
