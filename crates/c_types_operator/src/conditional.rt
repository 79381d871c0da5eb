//! The conditional operator (6.5.15).

ghost use Rattle.std.specs.Prelude.{◌≡◌, Ok};
ghost use Rattle.c_types_spec.specs.Types as types;
ghost use Rattle.c_types_spec.specs.Operands as rule;
ghost use Rattle.c_types_spec.specs.Operators as operators;
ghost use Rattle.c_types_operator.specs.Arms.{arms_of, pointers_by, null_first_by, null_second_by};
ghost use Rattle.c_types_operator.specs.Gives.{Gives};
ghost use Rattle.c_types_operator.specs.Operands.{operand_of, valued_of};

use crate::arms::Arms;
use crate::conversion::pointers_agree;
use crate::operand::{Operand, Valued, convert, core_or_memory, type_or_memory};
use crate::scalar::{both, common, value_operand};
use crate::value::is_null;
use attempt::{Refusal, attempt};
use c_types_core::expression::Core;
use c_types_core::fault::TypeFault;
use c_types_layout::types::{Base, CType, Outer, WORD, same_type};
use c_types_spec::{Scalar, TypeFaultKind};
use std::alloc::Global;

/// Two integers in their common type.
#[tactic(auto, unfolding(crate::specs::Arms::arms_of, crate::specs::Operands::valued_of))]
fn integers<'a>(
    alloc: Global,
    of: Scalar,
    a: Valued<'a>,
    b: Valued<'a>,
) -> Result<Arms<'a>, Refusal<TypeFault>>
    ensures { Gives arms_of result (Ok (operators.arms (types.Integer of) of (rule.convert of
        (valued_of a.entry).core) (rule.convert of (valued_of b.entry).core))) }
{
    drop(a.of);
    drop(b.of);
    let first = attempt!(convert(alloc, of, a.core));
    let second = attempt!(convert(alloc, of, b.core));
    Ok(Arms {
        of: CType::plain(alloc, Base::Integer(of)),
        scalar: of,
        first,
        second,
    })
}

/// Two pointers.
#[tactic(auto, unfolding(crate::specs::Arms::arms_of, crate::specs::Operands::valued_of))]
fn pointers<'a>(
    alloc: Global,
    a: Valued<'a>,
    b: Valued<'a>,
    offset: usize,
) -> Result<Arms<'a>, Refusal<TypeFault>>
    ensures { Gives arms_of result (pointers_by (valued_of a.entry) (valued_of b.entry) offset
        (valued_of a.entry).type (valued_of b.entry).type) }
{
    if attempt_or_drop!(is_null(&a); a, b) {
        drop(a.of);
        return Ok(Arms {
            of: b.of,
            scalar: WORD,
            first: a.core,
            second: b.core,
        });
    }
    if attempt_or_drop!(is_null(&b); a, b) || same_type(&a.of, &b.of) {
        drop(b.of);
        return Ok(Arms {
            of: a.of,
            scalar: WORD,
            first: a.core,
            second: b.core,
        });
    }
    if !pointers_agree(&a.of, &b.of) {
        drop(a);
        drop(b);
        return Err(Refusal::Fault(TypeFault::At(TypeFaultKind::Mismatch, offset)));
    }
    drop(a.of);
    drop(b.of);
    let of = attempt!(type_or_memory(CType::plain(alloc, Base::Void).pointer()));
    Ok(Arms {
        of,
        scalar: WORD,
        first: a.core,
        second: b.core,
    })
}

/// A pointer, and a null pointer constant.
#[tactic(auto, unfolding(crate::specs::Arms::arms_of, crate::specs::Operands::valued_of))]
fn null_second<'a>(
    alloc: Global,
    a: Valued<'a>,
    b: Valued<'a>,
    offset: usize,
) -> Result<Arms<'a>, Refusal<TypeFault>>
    ensures { Gives arms_of result (null_second_by (valued_of a.entry) (valued_of b.entry) offset) }
{
    if !attempt_or_drop!(is_null(&b); a, b) {
        drop(a);
        drop(b);
        return Err(Refusal::Fault(TypeFault::At(TypeFaultKind::Mismatch, offset)));
    }
    drop(b.of);
    let second = attempt_or_drop!(convert(alloc, WORD, b.core); a);
    Ok(Arms {
        of: a.of,
        scalar: WORD,
        first: a.core,
        second,
    })
}

/// A null pointer constant, and a pointer.
#[tactic(auto, unfolding(crate::specs::Arms::arms_of, crate::specs::Operands::valued_of))]
fn null_first<'a>(
    alloc: Global,
    a: Valued<'a>,
    b: Valued<'a>,
    offset: usize,
) -> Result<Arms<'a>, Refusal<TypeFault>>
    ensures { Gives arms_of result (null_first_by (valued_of a.entry) (valued_of b.entry) offset) }
{
    if !attempt_or_drop!(is_null(&a); a, b) {
        drop(a);
        drop(b);
        return Err(Refusal::Fault(TypeFault::At(TypeFaultKind::Mismatch, offset)));
    }
    drop(a.of);
    let first = attempt_or_drop!(convert(alloc, WORD, a.core); b);
    Ok(Arms {
        of: b.of,
        scalar: WORD,
        first,
        second: b.core,
    })
}

/// The second and third operand, in the type of the whole.
#[tactic(auto, unfolding(crate::specs::Operands::valued_of), using(crate::proofs::Choices::choosing),)]
fn arms<'a>(
    alloc: Global,
    a: Valued<'a>,
    b: Valued<'a>,
    offset: usize,
) -> Result<Arms<'a>, Refusal<TypeFault>>
    ensures { Gives arms_of result (operators.arms_of (valued_of a.entry) (valued_of b.entry) offset
        (valued_of a.entry).type (valued_of b.entry).type) }
{
    match (a.of.outer(), b.of.outer()) {
        (Outer::Integer(s), Outer::Integer(t)) => integers(alloc, common(s, t), a, b),
        (Outer::Pointer, Outer::Pointer) => pointers(alloc, a, b, offset),
        (Outer::Pointer, Outer::Integer(_)) => null_second(alloc, a, b, offset),
        (Outer::Integer(_), Outer::Pointer) => null_first(alloc, a, b, offset),
        _ => {
            drop(a);
            drop(b);
            Err(Refusal::Fault(TypeFault::At(TypeFaultKind::Mismatch, offset)))
        }
    }
}

/// `test ? a : b`
#[tactic(auto, unfolding(crate::specs::Arms::arms_of, crate::specs::Operands::valued_of, c_types_spec::specs::Operators::conditional,),)]
pub fn conditional<'a>(
    alloc: Global,
    test: Valued<'a>,
    a: Valued<'a>,
    b: Valued<'a>,
    offset: usize,
) -> Result<Operand<'a>, Refusal<TypeFault>>
    ensures { Gives operand_of result (operators.conditional (valued_of test.entry)
        (valued_of a.entry) (valued_of b.entry) offset) }
{
    let Some(_) = test.of.scalar() else {
        drop(test);
        drop(a);
        drop(b);
        return Err(Refusal::Fault(TypeFault::At(TypeFaultKind::Mismatch, offset)));
    };
    drop(test.of);
    let standing = both(test.standing, both(a.standing, b.standing));
    let made = attempt!(arms(alloc, a, b, offset));
    let chosen = Core::choose(alloc, made.scalar, test.core, made.first, made.second);
    let core = attempt_or_drop!(core_or_memory(chosen); made.of);
    Ok(value_operand(core, made.of, standing, offset))
}
