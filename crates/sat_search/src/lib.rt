//! A search for a model of clauses, by learning clauses from conflicts (CDCL).
//!
//! [`solve`] answers with a model, with a trimmed log that closes the clauses (`Lean`), or with the
//! log of as many learnt clauses as it was allowed (`Spent`); `sat_search_spec` (`specs/Logs.antt`)
//! defines both. `sat_search_learning` goes from one conflict to the next.
#![tactic(auto)]

mod solution;

pub use sat_search_analysis::Step;
pub use solution::{Counts, Found, solve, solve_counting};
