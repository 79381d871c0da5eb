//! The check of a certificate: whether it is a proof of the listed functions, and else the first
//! rule or limit that a line breaks.
//!
//! A [`Checker`] is given the lines one after the other, and takes them as `cert_check_lines_spec`
//! does (`specs/Walk.antt` there). [`check`] gives it the lines of a certificate: it answers Ok
//! exactly where no line breaks a rule or a limit, and else what the first such line breaks, its
//! offset and the function in whose part it is. A [`Listed`] is a function of both sides, with the
//! frame at its entry.
#![tactic(auto)]

mod certificate;
mod checker;
mod cuts;
mod fault;
mod logs;
mod rules;
mod walk;

pub use cert_check_frames::{Fact, Listed};
pub use certificate::check;
pub use checker::{Checker, Given};
pub use fault::{CheckFault, Named, NamedFault, Placed, name};
