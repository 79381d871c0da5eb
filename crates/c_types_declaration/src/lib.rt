//! Names, tags and declared names (ISO C11, 6.5.1, 6.7): what they give, what is asked of them, and
//! what they mean from then on. Each function gives what the definition of its name in
//! `c_types_spec` gives (`Gives` of `c_types_operator`, `Runs` of `c_types_scope`).
#![tactic(auto)]

pub mod declare;
pub mod faults;
pub mod names;
pub mod sizes;
pub mod tags;
