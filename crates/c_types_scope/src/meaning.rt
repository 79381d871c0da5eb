//! What names and tags mean.

use c_types_layout::types::CType;
use c_types_spec::Scalar;

/// The types of a function's parameters, and of its result.
#[derive(Drop)]
pub struct Signature {
    /// The types of the parameters in order.
    pub parameters: Vec<CType>,
    /// The type of the result.
    pub returned: CType,
}

/// What a name means that is no tag, label or member.
#[derive(Drop)]
pub enum Meaning {
    /// A local or a parameter: its number and its type.
    Local(usize, CType),
    /// An object of the file scope.
    Object(CType),
    /// A function, and whether it has had its body.
    Function(Box<Signature>, bool),
    /// A typedef name.
    Typedef(CType),
    /// An enumeration constant.
    Enumerator(i128),
}

/// What a tag means.
#[derive(Clone, Copy)]
pub enum Tag {
    /// A struct, by its number.
    Struct(usize),
    /// An enumeration, which is an integer type.
    Enum(Scalar),
}
