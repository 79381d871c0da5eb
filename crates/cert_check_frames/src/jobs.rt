//! Premises that Cases add.

use term_bank::TermId;

/// A premise that a Case adds: that its test holds, or that it doesn't.
#[derive(Clone, Copy)]
pub struct Branch {
    /// The test.
    pub test: TermId,
    /// Whether it holds.
    pub holds: bool,
}
