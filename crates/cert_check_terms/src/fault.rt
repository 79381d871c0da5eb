//! Why symbols give no term.

/// Why symbols give no term.
#[derive(Clone, Copy)]
pub enum TermFault {
    /// They spell none; or it is ill-sorted, no truth value, or speaks of a variable out of scope.
    Sort,
}
