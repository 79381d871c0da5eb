//! The whole of a run: words, two files, a verdict, a certificate, a report and trails. [`run`] is
//! the one entry. Its contract (`specs/Ends.antt`) says what a run claims, what it leaves and what
//! it hands out, over any objects of input and output: at status 0 the validity theorem
//! (`validity_spec`), at every other end the cause (`tv_core_spec`, `prove_run_spec`).
#![tactic(auto)]

mod decision;
mod files;
mod functions;
mod judge;
mod listing;
mod publish;
mod running;
mod source;

pub use prove_run::{Measure, Side, Trail, Trails};
pub use running::run;
