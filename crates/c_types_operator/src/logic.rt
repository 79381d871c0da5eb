//! `&&` and `||` (6.5.13, 6.5.14), and the operators before one operand (6.5.3.3).

ghost use Rattle.std.specs.Prelude.{◌≡◌, Ok, pos};
ghost use Rattle.c_types_spec.specs.Types as types;
ghost use Rattle.c_types_spec.specs.Operators as operators;
ghost use Rattle.c_types_operator.specs.Gives.{Gives};
ghost use Rattle.c_types_operator.specs.Operands.{core_in, operand_of, valued_of};

use crate::comparison::compared;
use crate::operand::{Operand, Valued, convert, core_or_memory};
use crate::scalar::{both, integer_operand, kept, promoted};
use attempt::{Refusal, attempt};
use c_types_core::constants::{INT, type_of, value_in};
use c_types_core::expression::Core;
use c_types_core::fault::TypeFault;
use c_types_spec::{Arithmetic, Comparison, Scalar, TypeFaultKind};
use std::alloc::Global;

/// 0 in a type.
fn zero_of<'a>(alloc: Global, of: Scalar) -> Result<Box<Core<'a>>, Refusal<TypeFault>>
    ensures { Gives core_in result (Ok (operators.zero_of of)) }
{
    core_or_memory(Core::constant(alloc, of, 0))
}

/// 1 where the value is not 0, else 0.
fn truth<'a>(alloc: Global, core: Box<Core<'a>>) -> Result<Box<Core<'a>>, Refusal<TypeFault>>
    ensures { Gives core_in result (Ok (operators.truth (core_in core.entry))) }
{
    let zero = attempt!(zero_of(alloc, type_of(&core)));
    core_or_memory(Core::compare(alloc, Comparison::NotEqual, core, zero))
}

/// `&&`
#[tactic(auto, unfolding(crate::specs::Operands::valued_of, c_types_spec::specs::Operators::conjunction),)]
pub fn conjunction<'a>(
    alloc: Global,
    a: Valued<'a>,
    b: Valued<'a>,
    offset: usize,
) -> Result<Operand<'a>, Refusal<TypeFault>>
    ensures { Gives operand_of result (operators.conjunction (valued_of a.entry) (valued_of b.entry)
        offset) }
{
    let (Some(_), Some(_)) = (a.of.scalar(), b.of.scalar()) else {
        drop(a);
        drop(b);
        return Err(Refusal::Fault(TypeFault::At(TypeFaultKind::Mismatch, offset)));
    };
    drop(a.of);
    drop(b.of);
    let second = attempt!(truth(alloc, b.core));
    let zero = attempt!(zero_of(alloc, INT));
    let core = attempt!(core_or_memory(Core::choose(alloc, INT, a.core, second, zero)));
    Ok(integer_operand(alloc, core, INT, both(a.standing, b.standing), offset))
}

/// `||`
#[tactic(auto, unfolding(crate::specs::Operands::valued_of, c_types_spec::specs::Operators::disjunction),)]
pub fn disjunction<'a>(
    alloc: Global,
    a: Valued<'a>,
    b: Valued<'a>,
    offset: usize,
) -> Result<Operand<'a>, Refusal<TypeFault>>
    ensures { Gives operand_of result (operators.disjunction (valued_of a.entry) (valued_of b.entry)
        offset) }
{
    let (Some(_), Some(_)) = (a.of.scalar(), b.of.scalar()) else {
        drop(a);
        drop(b);
        return Err(Refusal::Fault(TypeFault::At(TypeFaultKind::Mismatch, offset)));
    };
    drop(a.of);
    drop(b.of);
    let second = attempt!(truth(alloc, b.core));
    let one = attempt!(core_or_memory(Core::constant(alloc, INT, 1)));
    let core = attempt!(core_or_memory(Core::choose(alloc, INT, a.core, one, second)));
    Ok(integer_operand(alloc, core, INT, both(a.standing, b.standing), offset))
}

/// `+` before an operand
#[tactic(auto, unfolding(crate::specs::Operands::valued_of, c_types_spec::specs::Operators::plus))]
pub fn plus<'a>(
    alloc: Global,
    x: Valued<'a>,
    offset: usize,
) -> Result<Operand<'a>, Refusal<TypeFault>>
    ensures { Gives operand_of result (operators.plus (valued_of x.entry) offset) }
{
    let Some(s) = x.of.integer() else {
        drop(x);
        return Err(Refusal::Fault(TypeFault::At(TypeFaultKind::Mismatch, offset)));
    };
    drop(x.of);
    let of = promoted(s);
    let core = attempt!(convert(alloc, of, x.core));
    Ok(integer_operand(alloc, core, of, kept(x.standing), offset))
}

/// `-` before an operand: the difference of 0 and the operand
#[tactic(auto, unfolding(crate::specs::Operands::valued_of, c_types_spec::specs::Operators::minus))]
pub fn minus<'a>(
    alloc: Global,
    x: Valued<'a>,
    offset: usize,
) -> Result<Operand<'a>, Refusal<TypeFault>>
    ensures { Gives operand_of result (operators.minus (valued_of x.entry) offset) }
{
    let Some(s) = x.of.integer() else {
        drop(x);
        return Err(Refusal::Fault(TypeFault::At(TypeFaultKind::Mismatch, offset)));
    };
    drop(x.of);
    let of = promoted(s);
    let right = attempt!(convert(alloc, of, x.core));
    let left = attempt!(zero_of(alloc, of));
    let core = attempt!(core_or_memory(Core::operate(
        alloc,
        Arithmetic::Subtract,
        of,
        left,
        right,
        offset
    )));
    Ok(integer_operand(alloc, core, of, kept(x.standing), offset))
}

/// All bits set.
fn ones_of<'a>(alloc: Global, of: Scalar) -> Result<Box<Core<'a>>, Refusal<TypeFault>>
    ensures { Gives core_in result (Ok (operators.ones_of of)) }
{
    let ones = attempt!(value_in(of, -1), Refusal::NoMemory);
    core_or_memory(Core::constant(alloc, of, ones))
}

/// `~`: the operand with each bit changed
#[tactic(auto, unfolding(crate::specs::Operands::valued_of, c_types_spec::specs::Operators::complement),)]
pub fn complement<'a>(
    alloc: Global,
    x: Valued<'a>,
    offset: usize,
) -> Result<Operand<'a>, Refusal<TypeFault>>
    ensures { Gives operand_of result (operators.complement (valued_of x.entry) offset) }
{
    let Some(s) = x.of.integer() else {
        drop(x);
        return Err(Refusal::Fault(TypeFault::At(TypeFaultKind::Mismatch, offset)));
    };
    drop(x.of);
    let of = promoted(s);
    let left = attempt!(convert(alloc, of, x.core));
    let right = attempt!(ones_of(alloc, of));
    let core = attempt!(core_or_memory(Core::operate(
        alloc,
        Arithmetic::Xor,
        of,
        left,
        right,
        offset
    )));
    Ok(integer_operand(alloc, core, of, kept(x.standing), offset))
}

/// `!x` is `0 == x`
#[tactic(auto, unfolding(crate::specs::Operands::valued_of, c_types_spec::specs::Operators::negation),)]
pub fn negation<'a>(
    alloc: Global,
    x: Valued<'a>,
    offset: usize,
) -> Result<Operand<'a>, Refusal<TypeFault>>
    ensures { Gives operand_of result (operators.negation (valued_of x.entry) offset) }
{
    let Some(_) = x.of.scalar() else {
        drop(x);
        return Err(Refusal::Fault(TypeFault::At(TypeFaultKind::Mismatch, offset)));
    };
    drop(x.of);
    let zero = attempt!(zero_of(alloc, type_of(&x.core)));
    compared(
        alloc,
        Comparison::Equal,
        kept(x.standing),
        offset,
        x.core,
        zero,
    )
}
