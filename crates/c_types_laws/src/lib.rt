//! Laws of typed cores: the core that a unit is given by the typing rules (`typed`) is typed, which
//! says where values, calls and jumps may go ([`laws`]); the names of functions with a body are
//! names of certificates, and no two of one unit are alike ([`body_names`]); and examples worked by
//! hand, which hold the rules against ISO C11 ([`examples`]). Typing is that of
//! `specs/HasType.antt` in `c_types_spec`. Nothing of the crate runs: each function's clause is one
//! law.
#![tactic(auto)]

pub mod body_names;
pub mod examples;
pub mod laws;
