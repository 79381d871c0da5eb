//! Casts (6.5.4) and `sizeof` (6.5.3.4).

ghost use Rattle.std.specs.Prelude.{◌≡◌, Ok};
ghost use Rattle.c_types_spec.specs.Operators as operators;
ghost use Rattle.c_types_layout.specs.Structs.{structs_of};
ghost use Rattle.c_types_layout.specs.Types.{type_of as ctype_of};
ghost use Rattle.c_types_operator.specs.Casts.{standing_by, void_cast};
ghost use Rattle.c_types_operator.specs.Gives.{Gives};
ghost use Rattle.c_types_operator.specs.Operands.{operand_of, valued_of};

use crate::operand::{Operand, Valued, convert};
use crate::scalar::{kept, value_operand};
use crate::value::is_zero;
use attempt::{Refusal, attempt};
use c_types_core::fault::TypeFault;
use c_types_layout::types::{Base, CType, Outer, WORD};
use c_types_spec::{Position, Scalar, Standing, TypeFaultKind};
use std::alloc::Global;

/// A value in another type, which is an integer or a pointer.
#[tactic(auto, unfolding(crate::specs::Operands::valued_of))]
fn cast_to<'a>(
    alloc: Global,
    of: CType,
    scalar: Scalar,
    standing: Standing,
    x: Valued<'a>,
    offset: usize,
) -> Result<Operand<'a>, Refusal<TypeFault>>
    ensures { Gives operand_of result (operators.cast_to (ctype_of of) scalar standing
        (valued_of x.entry) offset) }
{
    let Some(_) = x.of.scalar() else {
        drop(of);
        drop(x);
        return Err(Refusal::Fault(TypeFault::At(TypeFaultKind::Mismatch, offset)));
    };
    drop(x.of);
    let core = attempt_or_drop!(convert(alloc, scalar, x.core); of);
    Ok(value_operand(core, of, standing, offset))
}

/// Which constant a value is as a pointer of a type.
fn pointer_standing(of: &CType, x: &Valued<'_>) -> Result<Standing, Refusal<TypeFault>>
    ensures { Gives (λ s. s) result (Ok (standing_by (ctype_of of.now) (valued_of x.now))) }
{
    if !of.points_to_void() {
        return Ok(Standing::Computed);
    }
    if attempt!(is_zero(x)) {
        Ok(Standing::NullPointer)
    } else {
        Ok(Standing::Computed)
    }
}

/// A cast to `void`, which is a whole statement.
#[tactic(auto, unfolding(crate::specs::Operands::valued_of))]
fn cast_to_void<'a>(
    alloc: Global,
    place: Position,
    x: Valued<'a>,
    offset: usize,
) -> Result<Operand<'a>, Refusal<TypeFault>>
    ensures { Gives operand_of result (void_cast place (valued_of x.entry) offset) }
{
    match place {
        Position::Statement => {
            drop(x.of);
            let of = CType::plain(alloc, Base::Void);
            Ok(value_operand(x.core, of, Standing::Computed, offset))
        }
        Position::Operand | Position::Addressed => {
            drop(x);
            Err(Refusal::Fault(TypeFault::At(TypeFaultKind::Mismatch, offset)))
        }
    }
}

/// A cast: between integers and pointers, and to `void` as a whole statement.
#[tactic(auto, unfolding(crate::specs::Operands::valued_of), using(crate::proofs::Choices::casting),)]
pub fn cast<'a>(
    alloc: Global,
    place: Position,
    of: CType,
    x: Valued<'a>,
    offset: usize,
) -> Result<Operand<'a>, Refusal<TypeFault>>
    ensures { Gives operand_of result (operators.cast place (ctype_of of) (valued_of x.entry)
        offset) }
{
    match of.outer() {
        Outer::Void => {
            drop(of);
            cast_to_void(alloc, place, x, offset)
        }
        Outer::Integer(scalar) => {
            let standing = kept(x.standing);
            cast_to(alloc, of, scalar, standing, x, offset)
        }
        Outer::Pointer => {
            let standing = attempt_or_drop!(pointer_standing(&of, &x); of, x);
            cast_to(alloc, of, WORD, standing, x, offset)
        }
        Outer::Array(_) | Outer::Struct(_) => {
            drop(of);
            drop(x);
            Err(Refusal::Fault(TypeFault::At(TypeFaultKind::Mismatch, offset)))
        }
    }
}
