//! The verdicts of a run as the program has them ([`Verdict`]). [`report`] and [`status`] give
//! exactly the bytes and the number that `report_text_spec` defines for each, so that a report
//! never says more than was found.
#![tactic(auto)]

mod lines;
mod reports;
mod showing;
mod verdicts;

pub use reports::report;
pub use showing::Shown;
pub use verdicts::{Judgement, Verdict, status};
