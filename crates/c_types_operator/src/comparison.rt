//! Comparisons (6.5.8, 6.5.9).

ghost use Rattle.std.specs.Prelude.{◌≡◌, ◌||◌, Ok};
ghost use Rattle.c_types_spec.specs.Types as types;
ghost use Rattle.c_types_spec.specs.Operands as rule;
ghost use Rattle.c_types_spec.specs.Operators as operators;
ghost use Rattle.c_types_operator.specs.ByOuter.{compared_if};
ghost use Rattle.c_types_operator.specs.Conversions as conversions;
ghost use Rattle.c_types_operator.specs.Gives.{Gives};
ghost use Rattle.c_types_operator.specs.Operands.{core_in, operand_of, valued_of};

use crate::conversion::pointers_agree;
use crate::operand::{Operand, Valued, convert, core_or_memory};
use crate::scalar::{both, common, integer_operand};
use crate::value::is_null;
use attempt::{Refusal, attempt};
use c_types_core::constants::INT;
use c_types_core::expression::Core;
use c_types_core::fault::TypeFault;
use c_types_layout::types::{Outer, WORD, same_type};
use c_types_spec::{Comparison, Scalar, Standing, TypeFaultKind};
use std::alloc::Global;

/// A comparison, which is an `int`.
pub fn compared<'a>(
    alloc: Global,
    operator: Comparison,
    standing: Standing,
    offset: usize,
    left: Box<Core<'a>>,
    right: Box<Core<'a>>,
) -> Result<Operand<'a>, Refusal<TypeFault>>
    ensures { Gives operand_of result (Ok (operators.comparison operator standing offset
        (core_in left.entry) (core_in right.entry))) }
{
    let core = attempt!(core_or_memory(Core::compare(alloc, operator, left, right)));
    Ok(integer_operand(alloc, core, INT, standing, offset))
}

/// A comparison of two integers in their common type.
#[tactic(auto, unfolding(crate::specs::Operands::valued_of))]
fn compared_integers<'a>(
    alloc: Global,
    operator: Comparison,
    a: Valued<'a>,
    b: Valued<'a>,
    offset: usize,
    of: Scalar,
) -> Result<Operand<'a>, Refusal<TypeFault>>
    ensures { Gives operand_of result (Ok (operators.comparison operator (rule.both
        (valued_of a.entry).standing (valued_of b.entry).standing) offset (rule.convert of
        (valued_of a.entry).core) (rule.convert of (valued_of b.entry).core))) }
{
    drop(a.of);
    drop(b.of);
    let left = attempt!(convert(alloc, of, a.core));
    let right = attempt!(convert(alloc, of, b.core));
    compared(
        alloc,
        operator,
        both(a.standing, b.standing),
        offset,
        left,
        right,
    )
}

/// An order of two integers, or of two pointers to one type.
#[tactic(auto, unfolding(crate::specs::Operands::valued_of, c_types_spec::specs::Operators::relation), using(crate::proofs::ByOuter::relating),)]
pub fn relation<'a>(
    alloc: Global,
    operator: Comparison,
    a: Valued<'a>,
    b: Valued<'a>,
    offset: usize,
) -> Result<Operand<'a>, Refusal<TypeFault>>
    ensures { Gives operand_of result (operators.relation operator (valued_of a.entry)
        (valued_of b.entry) offset) }
{
    match (a.of.outer(), b.of.outer()) {
        (Outer::Integer(s), Outer::Integer(t)) => {
            compared_integers(alloc, operator, a, b, offset, common(s, t))
        }
        (Outer::Pointer, Outer::Pointer) => {
            if same_type(&a.of, &b.of) {
                drop(a.of);
                drop(b.of);
                compared(alloc, operator, Standing::Computed, offset, a.core, b.core)
            } else {
                drop(a);
                drop(b);
                Err(Refusal::Fault(TypeFault::At(TypeFaultKind::Mismatch, offset)))
            }
        }
        _ => {
            drop(a);
            drop(b);
            Err(Refusal::Fault(TypeFault::At(TypeFaultKind::Mismatch, offset)))
        }
    }
}

/// Two pointers are compared, where the test holds.
fn compared_where<'a>(
    alloc: Global,
    agrees: bool,
    operator: Comparison,
    left: Box<Core<'a>>,
    right: Box<Core<'a>>,
    offset: usize,
) -> Result<Operand<'a>, Refusal<TypeFault>>
    ensures { Gives operand_of result (compared_if agrees operator (core_in left.entry)
        (core_in right.entry) offset) }
{
    if agrees {
        compared(alloc, operator, Standing::Computed, offset, left, right)
    } else {
        Err(Refusal::Fault(TypeFault::At(TypeFaultKind::Mismatch, offset)))
    }
}

/// The pointers agree, or one is a null pointer constant.
#[tactic(auto, unfolding(crate::specs::Operands::valued_of))]
fn can_be_equal(a: &Valued<'_>, b: &Valued<'_>) -> Result<bool, Refusal<TypeFault>>
    ensures { Gives (λ v. v) result (Ok (conversions.pointers_agree (valued_of a.now).type
        (valued_of b.now).type || rule.is_null (valued_of a.now) || rule.is_null (valued_of
        b.now))) }
{
    if pointers_agree(&a.of, &b.of) {
        return Ok(true);
    }
    if attempt!(is_null(a)) {
        return Ok(true);
    }
    is_null(b)
}

/// A pointer and a null pointer constant.
#[tactic(auto, unfolding(crate::specs::Operands::valued_of))]
fn compared_null<'a>(
    alloc: Global,
    operator: Comparison,
    pointer: Box<Core<'a>>,
    x: Valued<'a>,
    offset: usize,
) -> Result<Operand<'a>, Refusal<TypeFault>>
    ensures { Gives operand_of result (compared_if (rule.is_null (valued_of x.entry)) operator
        (core_in pointer.entry) (rule.convert types.word (valued_of x.entry).core) offset) }
{
    let agrees = attempt_or_drop!(is_null(&x); x);
    drop(x.of);
    let right = attempt!(convert(alloc, WORD, x.core));
    compared_where(alloc, agrees, operator, pointer, right, offset)
}

/// A null pointer constant and a pointer.
#[tactic(auto, unfolding(crate::specs::Operands::valued_of))]
fn null_compared<'a>(
    alloc: Global,
    operator: Comparison,
    x: Valued<'a>,
    pointer: Box<Core<'a>>,
    offset: usize,
) -> Result<Operand<'a>, Refusal<TypeFault>>
    ensures { Gives operand_of result (compared_if (rule.is_null (valued_of x.entry)) operator
        (rule.convert types.word (valued_of x.entry).core) (core_in pointer.entry) offset) }
{
    let agrees = attempt_or_drop!(is_null(&x); x);
    drop(x.of);
    let left = attempt!(convert(alloc, WORD, x.core));
    compared_where(alloc, agrees, operator, left, pointer, offset)
}

/// Whether two integers or two pointers are equal.
#[tactic(auto, unfolding(crate::specs::Operands::valued_of, c_types_spec::specs::Operators::equality), using(crate::proofs::ByOuter::equating),)]
pub fn equality<'a>(
    alloc: Global,
    operator: Comparison,
    a: Valued<'a>,
    b: Valued<'a>,
    offset: usize,
) -> Result<Operand<'a>, Refusal<TypeFault>>
    ensures { Gives operand_of result (operators.equality operator (valued_of a.entry)
        (valued_of b.entry) offset) }
{
    match (a.of.outer(), b.of.outer()) {
        (Outer::Integer(s), Outer::Integer(t)) => {
            compared_integers(alloc, operator, a, b, offset, common(s, t))
        }
        (Outer::Pointer, Outer::Pointer) => {
            let agrees = attempt_or_drop!(can_be_equal(&a, &b); a, b);
            drop(a.of);
            drop(b.of);
            compared_where(alloc, agrees, operator, a.core, b.core, offset)
        }
        (Outer::Pointer, Outer::Integer(_)) => {
            drop(a.of);
            compared_null(alloc, operator, a.core, b, offset)
        }
        (Outer::Integer(_), Outer::Pointer) => {
            drop(b.of);
            null_compared(alloc, operator, a, b.core, offset)
        }
        _ => {
            drop(a);
            drop(b);
            Err(Refusal::Fault(TypeFault::At(TypeFaultKind::Mismatch, offset)))
        }
    }
}
