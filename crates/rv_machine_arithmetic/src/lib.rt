//! Arithmetic of RV32IM on words, and the tests of branches.
//!
//! [`arithmetic`] and [`holds`] are those of `rv_machine_spec` (`specs/Arithmetic.antt`), exactly.
#![tactic(auto)]

mod operations;

pub use operations::{arithmetic, holds};
