//! Types of declared names (6.7.6).

ghost use Rattle.std.specs.Prelude.{◌≡◌, ◌≤◌, ◌^◌, ◌+ℤ◌, Ok, nat_abs, pos};
ghost use Rattle.c_types_core.specs.Widths.{IsWithin};
ghost use Rattle.c_types_spec.specs.Expressions as rule;
ghost use Rattle.c_types_spec.specs.Operands as operands;
ghost use Rattle.c_types_spec.specs.Types as types;
ghost use Rattle.c_types_layout.specs.Types.{type_of};
ghost use Rattle.c_types_operator.specs.Gives.{Gives, GivesUnless};
ghost use Rattle.c_types_operator.specs.Operands.{core_in, valued_of};

use attempt::{Refusal, attempt};
use c_syntax_spec::IntegerType;
use c_types_core::expression::Core;
use c_types_core::fault::TypeFault;
use c_types_layout::types::CType;
use c_types_operator::operand::{Valued, type_or_memory};
use c_types_operator::value::constant_of;
use c_types_spec::{INT_WIDTH, Scalar, TypeFaultKind, WIDE_WIDTH};
use std::alloc::{AllocError, Global};

/// The scalar of an integer type.
pub fn integer_scalar(of: IntegerType) -> Scalar
    ensures { result ≡ types.integer_scalar of }
{
    let (width, is_signed) = match of {
        IntegerType::Char | IntegerType::UnsignedChar => (8, false),
        IntegerType::SignedChar => (8, true),
        IntegerType::Short => (16, true),
        IntegerType::UnsignedShort => (16, false),
        IntegerType::Int | IntegerType::Long => (INT_WIDTH, true),
        IntegerType::UnsignedInt | IntegerType::UnsignedLong => (INT_WIDTH, false),
        IntegerType::LongLong => (WIDE_WIDTH, true),
        IntegerType::UnsignedLongLong => (WIDE_WIDTH, false),
    };
    Scalar { width, is_signed }
}

/// So many `*` after a type.
#[tactic(auto, unfolding(c_types_spec::specs::Expressions::pointers_to))]
pub fn pointers_to(count: usize, of: CType) -> Result<CType, Refusal<TypeFault>>
    ensures { Gives type_of result (Ok (rule.pointers_to count (type_of of))) }
{
    let mut made = of;
    let mut left = count;
    while left > 0 {
        left -= 1;
        made = attempt!(type_or_memory(made.pointer()));
    }
    Ok(made)
}

/// An array of these lengths, the first the outermost, and without a further one where it is open.
pub fn array_of(is_open: bool, lengths: &[u64], of: CType) -> Result<CType, Refusal<TypeFault>>
    ensures { Gives type_of result (Ok (rule.array_of is_open lengths.now (type_of of))) }
{
    let made = attempt!(arrays_of(lengths, of));
    if is_open {
        type_or_memory(made.array(None))
    } else {
        Ok(made)
    }
}

/// Arrays of these lengths, the first the outermost.
#[tactic(auto, using(crate::proofs::Arrays::one_more))]
fn arrays_of(lengths: &[u64], of: CType) -> Result<CType, Refusal<TypeFault>>
    ensures { Gives type_of result (Ok (rule.arrays_of lengths.now (type_of of))) }
{
    let mut made = of;
    let mut left = lengths.len();
    while left > 0 {
        left -= 1;
        made = attempt!(type_or_memory(made.array(Some(lengths[left]))));
    }
    Ok(made)
}

/// The length of an array, which is above 0; out of memory exactly where no `u64` holds it.
fn length_of(value: i128, offset: usize) -> Result<u64, Refusal<TypeFault>>
    ensures { GivesUnless (2 ^ 64 ≤ nat_abs value) (λ n. n) result (rule.length_of value offset) }
{
    if value <= 0 {
        return Err(Refusal::Fault(TypeFault::At(TypeFaultKind::Mismatch, offset)));
    }
    match u64::try_from(value) {
        Ok(length) => Ok(length),
        Err(_) => Err(Refusal::NoMemory),
    }
}

/// The value of an expression that has to be an integer constant expression (6.6p6).
#[tactic(auto, unfolding(c_types_spec::specs::Operands::integer_constant, c_types_operator::specs::Operands::valued_of))]
pub fn integer_constant(x: &Valued<'_>) -> Result<i128, Refusal<TypeFault>>
    ensures { Gives (λ v. v) result (operands.integer_constant (valued_of x.now)) }
{
    match attempt!(constant_of(x)) {
        Some(value) => Ok(value),
        None => Err(Refusal::Fault(TypeFault::At(TypeFaultKind::Mismatch, x.offset))),
    }
}

/// The length of an array from its expression.
#[tactic(auto, unfolding(c_types_spec::specs::Expressions::array_length, c_types_operator::specs::Operands::valued_of))]
pub fn array_length(x: &Valued<'_>) -> Result<u64, Refusal<TypeFault>>
    ensures { Gives (λ n. n) result (rule.array_length (valued_of x.now)) }
{
    let value = attempt!(integer_constant(x));
    length_of(value, x.offset)
}

/// A value of an integer or a pointer (6.5.13p2, 6.8.4.1p1, 6.8.5p2).
#[tactic(auto, unfolding(c_types_spec::specs::Operands::scalar_value, c_types_operator::specs::Operands::valued_of))]
pub fn scalar_value<'a>(x: Valued<'a>) -> Result<Box<Core<'a>>, Refusal<TypeFault>>
    ensures { Gives core_in result (operands.scalar_value (valued_of x.entry)) }
{
    match x.of.scalar() {
        Some(_) => {
            drop(x.of);
            Ok(x.core)
        }
        None => {
            let offset = x.offset;
            drop(x);
            Err(Refusal::Fault(TypeFault::At(TypeFaultKind::Mismatch, offset)))
        }
    }
}

/// The type of a name that is declared with so many `*` and these lengths.
pub fn declared_type(
    alloc: Global,
    pointers: usize,
    is_open: bool,
    lengths: &[u64],
    of: &CType,
) -> Result<CType, Refusal<TypeFault>>
    ensures { Gives type_of result (Ok (rule.array_of is_open lengths.now (rule.pointers_to pointers
        (type_of of.now)))) }
{
    let copy = attempt!(type_or_memory(of.copy(alloc)));
    let base = attempt!(pointers_to(pointers, copy));
    array_of(is_open, lengths, base)
}

/// The number after this one; out of memory exactly where no `i128` holds it.
pub(crate) fn one_more(value: i128) -> Result<i128, AllocError>
    ensures { IsWithin (value +ℤ pos 1) (value +ℤ pos 1) result }
{
    match value.checked_add(1) {
        Some(sum) => Ok(sum),
        None => Err(AllocError),
    }
}
