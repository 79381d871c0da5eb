//! Operators on integers (6.5.5 to 6.5.7, 6.5.10 to 6.5.12), and `!`, `&&` and `||`.

ghost use Rattle.c_types_spec.specs.Operators as operators;
ghost use Rattle.c_types_operator.specs.Gives.{Gives};
ghost use Rattle.c_types_operator.specs.Operands.{operand_of, valued_of};

use crate::operand::{Operand, Valued, convert, core_or_memory};
use crate::scalar::{both, common, integer_operand, promoted};
use attempt::{Refusal, attempt};
use c_types_core::expression::Core;
use c_types_core::fault::TypeFault;
use c_types_spec::{Arithmetic, TypeFaultKind};
use std::alloc::Global;

/// An operator on two integers in their common type.
#[tactic(auto, unfolding(crate::specs::Operands::valued_of, c_types_spec::specs::Operators::arithmetic),)]
pub fn arithmetic<'a>(
    alloc: Global,
    operator: Arithmetic,
    a: Valued<'a>,
    b: Valued<'a>,
    offset: usize,
) -> Result<Operand<'a>, Refusal<TypeFault>>
    ensures { Gives operand_of result (operators.arithmetic operator (valued_of a.entry)
        (valued_of b.entry) offset) }
{
    let (Some(s), Some(t)) = (a.of.integer(), b.of.integer()) else {
        drop(a);
        drop(b);
        return Err(Refusal::Fault(TypeFault::At(TypeFaultKind::Mismatch, offset)));
    };
    drop(a.of);
    drop(b.of);
    let of = common(s, t);
    let left = attempt!(convert(alloc, of, a.core));
    let right = attempt!(convert(alloc, of, b.core));
    let core = attempt!(core_or_memory(Core::operate(alloc, operator, of, left, right, offset)));
    Ok(integer_operand(alloc, core, of, both(a.standing, b.standing), offset))
}

/// A shift, of the type of its left operand.
#[tactic(auto, unfolding(crate::specs::Operands::valued_of, c_types_spec::specs::Operators::shift))]
pub fn shift<'a>(
    alloc: Global,
    operator: Arithmetic,
    a: Valued<'a>,
    b: Valued<'a>,
    offset: usize,
) -> Result<Operand<'a>, Refusal<TypeFault>>
    ensures { Gives operand_of result (operators.shift operator (valued_of a.entry)
        (valued_of b.entry) offset) }
{
    let (Some(s), Some(t)) = (a.of.integer(), b.of.integer()) else {
        drop(a);
        drop(b);
        return Err(Refusal::Fault(TypeFault::At(TypeFaultKind::Mismatch, offset)));
    };
    drop(a.of);
    drop(b.of);
    let of = promoted(s);
    let left = attempt!(convert(alloc, of, a.core));
    let right = attempt!(convert(alloc, promoted(t), b.core));
    let core = attempt!(core_or_memory(Core::operate(alloc, operator, of, left, right, offset)));
    Ok(integer_operand(alloc, core, of, both(a.standing, b.standing), offset))
}
