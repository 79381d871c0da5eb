//! How a parser stops.

/// What is wrong with bytes.
#[derive(Clone, Copy)]
pub enum TextFault {
    /// The first of the bytes that are left is wrong, or their end.
    Wrong,
}
