//! The lines of which the relation at a cut is made: a finite list for each point, in order.
//!
//! `specs/Templates.antt` has the list, from what is known of a function at a point, and
//! `specs/Facts.antt` what is known: how deep the stack may be, the words that are saved there, and
//! which locals the tests of loops compare. Nothing of the crate runs.
#![tactic(auto)]

pub mod samples;
