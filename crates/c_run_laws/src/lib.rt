//! Laws about what a C run does (`c_run_spec`): what more turns change, what a run leaves as it
//! was, and examples worked by hand. Each function's clause is one law, and its body is empty.
#![tactic(auto)]

pub mod examples;
pub mod runs;
pub mod types;
