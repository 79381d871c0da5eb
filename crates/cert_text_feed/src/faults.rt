//! Why bytes are no certificate.

/// Why bytes are no certificate.
#[derive(Clone, Copy)]
pub enum FeedFault {
    /// They are more than [`MAX_CERTIFICATE_BYTES`](tv_limits::MAX_CERTIFICATE_BYTES).
    TooLong,
    /// The length of their longest prefix that begins a certificate.
    Refused(usize),
}
