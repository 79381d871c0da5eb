//! The tests before loads and stores: that addresses are aligned, and that no store meets a run of
//! fixed bytes.
//!
//! [`access_tests`] builds the tests that `decompile_spec` (`specs/InstructionTerms.antt`) has for
//! an instruction.
#![tactic(auto)]

mod accesses;

pub use accesses::access_tests;
