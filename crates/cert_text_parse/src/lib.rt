//! Parsers of a certificate's lines over the bytes that are left of it ([`Cursor`]): words,
//! numbers, addresses, names, points and terms, and whole lines ([`next_line`], [`Line`]).
//!
//! Each gives exactly what the reference parser of `cert_text_laws` gives (`specs/Readers.antt`,
//! `specs/Parts.antt`, `specs/Heads.antt` and `specs/Lines.antt` there): the value and the bytes
//! after it, or the wrong byte. `specs/Views.antt` says which line of `cert_text_spec` a [`Line`]
//! is.
#![tactic(auto)]

mod addresses;
mod cursor;
mod decimals;
mod keywords;
mod lines;
mod names;
mod numbers;
mod others;
mod parsing;
mod part_words;
mod points;
mod rules;
mod steps;
mod stopped;
mod symbols;
mod terms;
mod words;

pub use cursor::Cursor;
pub use keywords::Expected;
pub use lines::{BinaryRestriction, Call, Line, Literal, Logs, Part, SourceRestriction, Split};
pub use numbers::{counts, last_number, number, spaced_number};
pub use parsing::next_line;
pub use points::{Ending, binary_point, both_points, source_point};
pub use stopped::TextFault;
pub use terms::term_symbols;
