//! The search for proofs of listed functions by a bare Leaf.
//!
//! [`prove`] finds for each function the logs of its obligations, or a [`Trail`], which says why
//! there are none, as `prove_run_spec` defines them (`specs/Proofs.antt`, `specs/Trails.antt`
//! there). [`certificate`] is the certificate of the functions that are proved, and [`Trails`]
//! keeps the names of the others.
#![tactic(auto)]

mod goals;
mod logs;
mod premises;
mod search;
mod trail;
mod trails;
mod writing;

pub use goals::leaf_obligations;
pub use prove_run_spec::Measure;
pub use search::prove;
pub use sim_rules_spec::Side;
pub use trail::{Found, Trail};
pub use trails::{Trails, Unproved};
pub use tv_limits::SEARCH_LIMIT;
pub use writing::certificate;
