//! What certificates say of the functions of a list with pairs, and which certificate can be
//! written of them: [`check`] answers the verdict on the bytes of a certificate (defined in
//! `cert_run_spec`), and [`prove`] what a search finds of each function: the certificate of
//! those that it proves, and trails of the others (`prove_run_spec`).
//!
//! Both work over [`Sides`], which [`Sides::new`] makes of the pairs that `pair_setup` answers: all
//! graphs and the frames at the functions' entries. [`Sides::conventions`] says what holds where
//! the functions return; [`Sides::listed`] lends them as `cert_check` takes them. A certificate
//! that is a proof of what is lent makes each function of the pairs valid
//! ([`checked_pairs_are_valid`]). Of which two sides they are is defined in `specs/Sides.antt`.
#![tactic(auto)]

mod finding;
mod functions;
mod globals;
mod laws;
mod outcome;
mod runs;
mod sides;
mod source;

pub use finding::Search;
pub use laws::{checked_pairs_are_valid, image_is_read};
pub use outcome::Outcome;
pub use runs::{check, prove};
pub use sides::Sides;
