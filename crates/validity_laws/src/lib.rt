//! Laws of validity. A proof whose obligations are true gives the simulation of its frame, and
//! functions that are proved in order, each by calls of earlier ones alone, are valid
//! ([`simulations`]; `specs/Derivation.antt` says what it is that a frame, and a list of functions,
//! are proved). A certificate that is a proof gives such derivations ([`certificates`]). A function
//! with a trail has no proof, unless the trail is that of a search that reached its limit
//! ([`trails`]). Nothing of the crate runs: each function's clause is one law.
#![tactic(auto)]

pub mod certificates;
pub mod simulations;
pub mod trails;
