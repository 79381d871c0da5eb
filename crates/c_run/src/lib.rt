//! The run of a C call, as a program: [`calls::run`] gives the outcome that `c_run` of
//! `c_run_spec` has with a number of turns, exactly. A function runs by what it still has to do
//! ([`frame::Task`]), and functions that wait for their callees are a list, so that calls take no
//! stack. `specs/Tasks.antt` says what tasks mean.
#![tactic(auto)]

pub mod calls;
pub mod frame;
pub mod machine;
pub mod running;
pub mod statement;
