//! A certificate.

use cert_text_parse::{Line, Logs};

/// A certificate: its lines, and the literals and hints of their logs.
#[derive(Drop)]
pub struct Cert {
    /// The lines, from the version to the end.
    pub lines: Vec<Line>,
    /// The literals and hints of the steps, in the order of their lines.
    pub logs: Logs,
}

/// Why bytes are not read.
#[derive(Clone, Copy)]
pub enum ReadFault {
    /// They are no certificate: the length of their longest prefix that begins one.
    Refused(usize),
}
