//! Which verdict a certificate has for the listed functions of two files, and the certificate of
//! functions that are proved.
//!
//! `specs/Files.antt` has the listed functions of an executable and a unit, with the graphs and the
//! frames that certificates speak of; `specs/Verdict.antt` the verdict on the bytes of a
//! certificate, and what is written of functions that a Leaf proves with its logs;
//! `specs/Written.antt` what is written of what a search found. By the laws below a pair of files
//! has one list of functions and a certificate one verdict at most, and what is proved is valid.
//! Nothing runs.
#![tactic(auto)]

pub mod laws;
