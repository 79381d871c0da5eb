//! Laws of agreement: what the simulation of a function's graphs says of its code and its source.
//! `specs/EntryFrame.antt` has the frame at the entry, `specs/Inner.antt` what a function gives
//! to its callers, and `specs/Callers.antt` what a caller relies on at a call. Nothing of the
//! crate runs: each function's clause is one law, and its body is empty.
#![tactic(auto)]

pub mod laws;
