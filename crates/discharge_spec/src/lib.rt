//! When a log closes a goal, and what closing it comes to.
//!
//! `specs/Closing.antt` defines both, over the normal form of a goal (`term_norm_spec`), its
//! clauses (`bit_blast_spec`) and steps of logs (`clause_check_spec`). Of the crate only the type
//! runs.
#![tactic(auto)]

/// What is above its maximum.
#[derive(Clone, Copy, Debug, PartialEq, Eq)]
pub enum GoalQuantity {
    /// The distinct subterms of the goal, before its normal form is made.
    Terms,
    /// The variables of the clauses of its normal form.
    Variables,
}
