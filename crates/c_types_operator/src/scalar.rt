//! The types that operators compute in (6.3.1), and which constants they give (6.6).

ghost use Rattle.std.specs.Prelude.{◌≡◌};
ghost use Rattle.c_types_spec.specs.Types as types;
ghost use Rattle.c_types_layout.specs.Types.{type_of as ctype_of};
ghost use Rattle.c_types_spec.specs.Operands as rule;
ghost use Rattle.c_types_operator.specs.Operands.{core_in, operand_of};

use crate::operand::{Category, Operand};
use c_types_core::constants::INT;
use c_types_core::expression::Core;
use c_types_layout::types::{Base, CType};
use c_types_spec::{INT_WIDTH, Scalar, Standing};
use std::alloc::Global;

/// The integer promotions.
pub fn promoted(a: Scalar) -> Scalar
    ensures { result ≡ types.promoted a }
{
    if a.width < INT_WIDTH { INT } else { a }
}

/// The wider type, or of two of one width the unsigned one.
fn wider(a: Scalar, b: Scalar) -> Scalar
    ensures { result ≡ types.wider a b }
{
    if a.width < b.width {
        return b;
    }
    if b.width < a.width {
        return a;
    }
    Scalar {
        width: a.width,
        is_signed: a.is_signed && b.is_signed,
    }
}

/// The usual arithmetic conversions.
pub fn common(a: Scalar, b: Scalar) -> Scalar
    ensures { result ≡ types.common a b }
{
    wider(promoted(a), promoted(b))
}

/// What an operator on integers leaves of a constant.
pub fn kept(a: Standing) -> Standing
    ensures { result ≡ rule.kept a }
{
    match a {
        Standing::ConstantExpression => Standing::ConstantExpression,
        Standing::Computed | Standing::NullPointer => Standing::Computed,
    }
}

/// Constant where both operands are.
pub fn both(a: Standing, b: Standing) -> Standing
    ensures { result ≡ rule.both a b }
{
    match a {
        Standing::ConstantExpression => kept(b),
        Standing::Computed | Standing::NullPointer => Standing::Computed,
    }
}

/// A value of a type as an operand.
#[tactic(auto, unfolding(crate::specs::Operands::operand_of))]
pub fn value_operand<'a>(
    core: Box<Core<'a>>,
    of: CType,
    standing: Standing,
    offset: usize,
) -> Operand<'a>
    ensures { operand_of result ≡ rule.operand (rule.Value (core_in core.entry)) (ctype_of of)
        standing
        offset }
{
    Operand {
        category: Category::Value(core),
        of,
        standing,
        offset,
    }
}

/// A value of an integer type as an operand.
pub fn integer_operand<'a>(
    alloc: Global,
    core: Box<Core<'a>>,
    scalar: Scalar,
    standing: Standing,
    offset: usize,
) -> Operand<'a>
    ensures { operand_of result ≡ rule.operand (rule.Value (core_in core.entry)) (types.Integer
        scalar)
        standing offset }
{
    value_operand(
        core,
        CType::plain(alloc, Base::Integer(scalar)),
        standing,
        offset,
    )
}
