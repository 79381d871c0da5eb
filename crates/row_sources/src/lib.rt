//! The C texts of rows: [`read_tokens`] and [`read_unit`] give the typed unit of a text, or write
//! the first fault of it.
#![tactic(auto)]

mod faults;
mod units;

pub use units::{put_parse_error, read_tokens, read_unit};
