//! Certificates as the program keeps them ([`Cert`]). [`read`] gives one exactly where the bytes
//! are a certificate by `cert_text_spec` (`specs/Certificates.antt` there), and else the length of
//! the longest prefix that begins one; [`write`] gives its spelling, of which there is one, and
//! [`offset`] where a line begins in it.
#![tactic(auto)]

mod certificates;
mod laws;
mod lines;
mod numbers;
mod offsets;
mod points;
mod reading;
mod sizes;
mod stack;
mod steps;
mod symbols;
mod terms;
mod writing;

pub use certificates::{Cert, ReadFault};
pub use laws::{reads_what_it_writes, writes_what_it_reads};
pub use offsets::offset;
pub use reading::read;
pub use stack::{Group, push_after, push_expected};
pub use writing::write;
