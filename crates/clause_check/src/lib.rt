//! Logs of steps, each checked as it is added.
//!
//! The main type is [`Log`]: clauses, and the steps that were added so far. [`Log::step`] accepts
//! exactly the RUP steps whose hints lead to a conflict (as in LRAT), and else reports the first
//! fault; `clause_check_spec` (`specs/Step.antt`) defines both. Where a log is closed, no
//! assignment satisfies all clauses that it began with.
#![tactic(auto)]

mod hints;
mod log;
mod stamps;

pub use clause_check_spec::StepFaultKind;
pub use cnf_core::Literal;
pub use hints::StepFault;
pub use log::Log;
