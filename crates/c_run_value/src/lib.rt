//! The values of expressions in a C run, and what is stored in memory: [`evaluation::value`] gives
//! the value of `c_run_spec`, or the guard that is broken and its offset, and
//! [`access::store_object`] the memory after a value is stored. Memory is a [`memory::Memory`], and
//! what a run takes place in a [`setting::Setting`].
#![tactic(auto)]

pub mod access;
pub mod evaluation;
pub mod memory;
pub mod setting;
