//! Conversions as if by assignment (6.5.16.1).

ghost use Rattle.std.specs.Prelude.{◌≡◌, ◌||◌, Ok, option_map};
ghost use Rattle.c_types_spec.specs.Types as types;
ghost use Rattle.c_types_spec.specs.Operands as rule;
ghost use Rattle.c_types_layout.specs.Types.{type_of as ctype_of, outer_of};
ghost use Rattle.c_types_operator.specs.Conversions as specs;
ghost use Rattle.c_types_operator.specs.Conversions.{pointer_by};
ghost use Rattle.c_types_operator.specs.Gives.{Gives};
ghost use Rattle.c_types_operator.specs.Operands.{core_in, valued_of};

use crate::operand::{Valued, convert};
use crate::value::is_null;
use attempt::{Refusal, attempt};
use c_types_core::expression::Core;
use c_types_core::fault::TypeFault;
use c_types_layout::types::{CType, Outer, WORD, same_type};
use c_types_spec::Scalar;
use std::alloc::Global;

/// Two pointers, to one type, or of which one is to `void`.
pub fn pointers_agree(target: &CType, source: &CType) -> bool
    ensures { result ≡ specs.pointers_agree (ctype_of target.now) (ctype_of source.now) }
{
    same_type(target, source) || target.points_to_void() || source.points_to_void()
}

/// A value of the second type that is no constant converts to the first.
#[tactic(auto, using(crate::proofs::Conversions::converting))]
pub fn converts(target: &CType, source: &CType) -> bool
    ensures { result ≡ rule.converts (ctype_of target.now) (ctype_of source.now) }
{
    if target.is_integer() {
        return source.is_integer();
    }
    target.is_pointer() && source.is_pointer() && pointers_agree(target, source)
}

/// A value as an integer of a type, or none.
#[tactic(auto, unfolding(crate::specs::Operands::valued_of))]
fn to_integer<'a>(
    alloc: Global,
    scalar: Scalar,
    x: Valued<'a>,
) -> Result<Option<Box<Core<'a>>>, Refusal<TypeFault>>
    ensures { Gives (option_map core_in) result (Ok (rule.to_integer scalar (valued_of x.entry))) }
{
    match x.of.integer() {
        Some(_) => {
            drop(x.of);
            Ok(Some(attempt!(convert(alloc, scalar, x.core))))
        }
        None => {
            drop(x);
            Ok(None)
        }
    }
}

/// A null pointer constant as a pointer, or none.
#[tactic(auto, unfolding(crate::specs::Operands::valued_of))]
fn null_pointer<'a>(
    alloc: Global,
    x: Valued<'a>,
) -> Result<Option<Box<Core<'a>>>, Refusal<TypeFault>>
    ensures { Gives (option_map core_in) result (Ok (rule.if_true (rule.is_null (valued_of x.entry))
        (rule.convert types.word (valued_of x.entry).core))) }
{
    if attempt_or_drop!(is_null(&x); x) {
        drop(x.of);
        Ok(Some(attempt!(convert(alloc, WORD, x.core))))
    } else {
        drop(x);
        Ok(None)
    }
}

/// A pointer as another one, or none.
#[tactic(auto, unfolding(crate::specs::Operands::valued_of))]
fn other_pointer<'a>(
    target: &CType,
    x: Valued<'a>,
) -> Result<Option<Box<Core<'a>>>, Refusal<TypeFault>>
    ensures { Gives (option_map core_in) result (Ok (rule.if_true (specs.pointers_agree (ctype_of
        target.now) (valued_of x.entry).type || rule.is_null (valued_of x.entry))
        (valued_of x.entry).core)) }
{
    if pointers_agree(target, &x.of) {
        drop(x.of);
        return Ok(Some(x.core));
    }
    if attempt_or_drop!(is_null(&x); x) {
        drop(x.of);
        Ok(Some(x.core))
    } else {
        drop(x);
        Ok(None)
    }
}

/// A value as a pointer, or none.
#[tactic(auto, unfolding(crate::specs::Operands::valued_of))]
fn to_pointer<'a>(
    alloc: Global,
    target: &CType,
    x: Valued<'a>,
) -> Result<Option<Box<Core<'a>>>, Refusal<TypeFault>>
    ensures { Gives (option_map core_in) result (Ok (pointer_by (ctype_of target.now)
        (valued_of x.entry) (valued_of x.entry).type (outer_of (valued_of x.entry).type))) }
{
    match x.of.outer() {
        Outer::Integer(_) => null_pointer(alloc, x),
        Outer::Pointer => other_pointer(target, x),
        Outer::Void | Outer::Struct(_) | Outer::Array(_) => {
            drop(x);
            Ok(None)
        }
    }
}

/// A value converted to a type as if by assignment, or none where it has no such conversion.
#[tactic(auto, using(crate::proofs::Conversions::assigning))]
pub fn assigned<'a>(
    alloc: Global,
    target: &CType,
    x: Valued<'a>,
) -> Result<Option<Box<Core<'a>>>, Refusal<TypeFault>>
    ensures { Gives (option_map core_in) result (Ok (rule.assigned (ctype_of target.now)
        (valued_of x.entry))) }
{
    match target.outer() {
        Outer::Integer(scalar) => to_integer(alloc, scalar, x),
        Outer::Pointer => to_pointer(alloc, target, x),
        Outer::Void | Outer::Struct(_) | Outer::Array(_) => {
            drop(x);
            Ok(None)
        }
    }
}
