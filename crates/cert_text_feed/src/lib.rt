//! Certificates that come in pieces: a [`Feed`] takes their bytes, cut anywhere, and gives one line
//! at a time ([`TextLine`]); it keeps the bytes of one line. `specs/Readings.antt` says what was
//! read of the bytes so far, and `specs/Feeds.antt` what each call gives; in the end this is what
//! `cert_text` says of all the bytes, after the limit.
#![tactic(auto)]

mod faults;
mod feed;
mod laws;
mod line_ends;
mod next;

pub use cert_text_parse::Cursor;
pub use faults::FeedFault;
pub use feed::{Feed, TextLine};
pub use laws::{goes_on_as_read, has_one_reading};
