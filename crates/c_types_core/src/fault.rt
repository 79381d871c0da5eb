//! Why there is no typed core.

use c_types_spec::TypeFaultKind;

/// A fault of a unit.
#[derive(Clone, Copy)]
pub enum TypeFault {
    /// A fault of the unit, and its offset.
    At(TypeFaultKind, usize),
}
