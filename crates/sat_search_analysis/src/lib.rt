//! Conflict analysis, the steps of a log, and trimming.
//!
//! [`analyse`] goes down the trail from a clause that became false to the first unique implication
//! point, and gives a clause that is learnt, with its hints; [`close`] does the same where nothing
//! was decided, so that the empty clause is learnt. What holds at each entry is `Explains` in
//! `sat_search_spec` (`specs/Analysis.antt`), and what comes out `IsExplained`. A [`Step`] is a
//! learnt clause with its hints; [`trim`] leaves of a log that closes its clauses the steps that
//! the last one needs, so that each is a hint of a later one (`Lean` there, `specs/Logs.antt`).
#![tactic(auto)]

mod analysis;
mod marks;
mod minimisation;
mod resolution;
mod steps;
mod trimming;

pub use analysis::{analyse, close};
pub use steps::Step;
pub use trimming::trim;
