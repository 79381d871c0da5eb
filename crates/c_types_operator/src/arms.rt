//! The second and third operand of a conditional expression (6.5.15).

use c_types_core::expression::Core;
use c_types_layout::types::CType;
use c_types_spec::Scalar;

/// The second and third operand, in the type of the whole.
#[derive(Drop)]
pub struct Arms<'a> {
    /// The type.
    pub of: CType,
    /// The type of its values.
    pub scalar: Scalar,
    /// The second operand.
    pub first: Box<Core<'a>>,
    /// The third operand.
    pub second: Box<Core<'a>>,
}
