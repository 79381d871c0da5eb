//! The lines of which the relation at a cut may be made, in a bank: [`template`] lists them for a
//! point, from what is known of its function there ([`Facts`]). They are exactly the lines of
//! `templates_spec` (`specs/Templates.antt` there), in their order.
#![tactic(auto)]

mod adding;
mod facts;
mod lines;
mod slots;
mod words;

pub use facts::{Facts, Known};
pub use lines::template;
