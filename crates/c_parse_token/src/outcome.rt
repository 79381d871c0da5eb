//! How a parser stops.

use c_parse_spec::Role;

/// Why the next token is at fault.
#[derive(Clone, Copy)]
pub enum SyntaxFault {
    /// The nesting limit is exceeded there, or one expression has too many operators.
    LimitExceeded,
    /// No unit continues with it, where this was expected.
    Wrong(Role),
}
