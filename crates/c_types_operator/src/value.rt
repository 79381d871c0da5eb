//! The value of an operand (6.3.2.1), and what is asked of values (6.3.2.3, 6.5.16.1, 6.6).

ghost use Rattle.std.specs.Prelude.{◌≡◌, ◌↔◌, IfOk, IsTrue, Ok, ℤ, option_map};
ghost use Rattle.c_types_spec.specs.Types as types;
ghost use Rattle.c_types_spec.specs.Operands as rule;
ghost use Rattle.c_types_spec.specs.Core as core;
ghost use Rattle.c_types_spec.specs.declared.Standing.TheVariants as standing;
ghost use Rattle.c_types_layout.specs.Types.{type_of as ctype_of, element_of, target_of};
ghost use Rattle.c_types_operator.specs.Gives.{Gives};
ghost use Rattle.c_types_operator.specs.Operands.{core_in, operand_of, valued_of, decayed};

use crate::operand::{
    Category, Operand, Valued, core_or_memory, displaced, part_or_memory, type_or_memory,
};
use attempt::{Refusal, attempt};
use c_types_core::constants::constant_value;
use c_types_core::expression::Core;
use c_types_core::fault::TypeFault;
use c_types_layout::types::{CType, Outer, WORD};
use c_types_spec::{LeftOut, Scalar, Standing, TypeFaultKind};
use std::alloc::Global;

/// What is read from an object of a scalar type.
#[tactic(auto, unfolding(crate::specs::Operands::valued_of))]
fn load<'a>(
    alloc: Global,
    scalar: Scalar,
    of: CType,
    address: Box<Core<'a>>,
    displacement: usize,
    offset: usize,
) -> Result<Valued<'a>, Refusal<TypeFault>>
    ensures { Gives valued_of result (Ok (rule.valued (core.Load scalar (core_in address.entry)
        displacement offset) (ctype_of of) standing.Computed offset)) }
{
    let made = Core::load(alloc, scalar, address, displacement, offset);
    let core = attempt_or_drop!(core_or_memory(made); of);
    Ok(Valued {
        core,
        of,
        standing: Standing::Computed,
        offset,
    })
}

/// A pointer to the first element of an array.
#[tactic(auto, unfolding(crate::specs::Operands::valued_of))]
fn decay<'a>(
    alloc: Global,
    of: CType,
    address: Box<Core<'a>>,
    displacement: usize,
    offset: usize,
) -> Result<Valued<'a>, Refusal<TypeFault>>
    ensures { Gives valued_of result (decayed (element_of (ctype_of of)) (core_in address.entry)
        displacement offset) }
{
    let found = of.element();
    drop(of);
    let Some(element) = attempt!(part_or_memory(found)) else {
        return Err(Refusal::Fault(TypeFault::At(TypeFaultKind::Mismatch, offset)));
    };
    let pointer = attempt!(type_or_memory(element.pointer()));
    let core = attempt_or_drop!(displaced(alloc, address, displacement, offset); pointer);
    Ok(Valued {
        core,
        of: pointer,
        standing: Standing::Computed,
        offset,
    })
}

/// What an object in memory gives as a value.
#[tactic(auto, using(crate::proofs::Outers::by_outer))]
fn loaded<'a>(
    alloc: Global,
    of: CType,
    address: Box<Core<'a>>,
    displacement: usize,
    offset: usize,
) -> Result<Valued<'a>, Refusal<TypeFault>>
    ensures { Gives valued_of result (rule.loaded (ctype_of of) (core_in address.entry)
        displacement offset) }
{
    match of.outer() {
        Outer::Void => {
            drop(of);
            Err(Refusal::Fault(TypeFault::At(TypeFaultKind::Incomplete, offset)))
        }
        Outer::Integer(scalar) => load(alloc, scalar, of, address, displacement, offset),
        Outer::Pointer => load(alloc, WORD, of, address, displacement, offset),
        Outer::Array(_) => decay(alloc, of, address, displacement, offset),
        Outer::Struct(_) => {
            drop(of);
            Err(Refusal::Fault(TypeFault::At(TypeFaultKind::LeftOut(LeftOut::Struct), offset)))
        }
    }
}

/// What a local gives as a value.
#[tactic(auto, unfolding(crate::specs::Operands::valued_of, c_types_spec::specs::Operands::read_local),)]
pub fn read_local<'a>(
    alloc: Global,
    of: CType,
    local: usize,
    offset: usize,
) -> Result<Valued<'a>, Refusal<TypeFault>>
    ensures { Gives valued_of result (rule.read_local (ctype_of of) local offset) }
{
    match of.scalar() {
        Some(scalar) => {
            let made = Core::read_local(alloc, scalar, local, offset);
            let core = attempt_or_drop!(core_or_memory(made); of);
            Ok(Valued {
                core,
                of,
                standing: Standing::Computed,
                offset,
            })
        }
        None => {
            drop(of);
            Err(Refusal::Fault(TypeFault::At(TypeFaultKind::Mismatch, offset)))
        }
    }
}

/// The value of an operand.
#[tactic(auto, unfolding(crate::specs::Operands::valued_of, crate::specs::Operands::operand_of, c_types_spec::specs::Operands::value_of,),)]
pub fn value_of<'a>(alloc: Global, x: Operand<'a>) -> Result<Valued<'a>, Refusal<TypeFault>>
    ensures { Gives valued_of result (rule.value_of (operand_of x.entry)) }
{
    let Operand {
        category,
        of,
        standing,
        offset,
    } = x;
    match category {
        Category::Value(core) => Ok(Valued {
            core,
            of,
            standing,
            offset,
        }),
        Category::InLocal(local) => read_local(alloc, of, local, offset),
        Category::InMemory(address, displacement) => {
            loaded(alloc, of, address, displacement, offset)
        }
    }
}

/// The value of an integer constant expression, or none.
#[tactic(auto, unfolding(crate::specs::Operands::valued_of))]
pub fn constant_of(x: &Valued<'_>) -> Result<Option<i128>, Refusal<TypeFault>>
    ensures { Gives (λ v. v) result (Ok (rule.constant_of (valued_of x.now))) }
{
    match x.standing {
        Standing::ConstantExpression => match constant_value(&x.core) {
            Ok(value) => Ok(value),
            Err(_) => Err(Refusal::NoMemory),
        },
        Standing::Computed | Standing::NullPointer => Ok(None),
    }
}

/// It is an integer constant expression of value 0.
pub(crate) fn is_zero(x: &Valued<'_>) -> Result<bool, Refusal<TypeFault>>
    ensures { Gives (λ v. v) result (Ok (rule.is_zero (rule.constant_of (valued_of x.now)))) }
{
    match attempt!(constant_of(x)) {
        Some(value) => Ok(value == 0),
        None => Ok(false),
    }
}

/// It is a null pointer constant.
#[tactic(auto, unfolding(crate::specs::Operands::valued_of, c_types_spec::specs::Operands::is_null))]
pub fn is_null(x: &Valued<'_>) -> Result<bool, Refusal<TypeFault>>
    ensures { Gives (λ v. v) result (Ok (rule.is_null (valued_of x.now))) }
{
    match x.standing {
        Standing::NullPointer => Ok(true),
        Standing::Computed => Ok(false),
        Standing::ConstantExpression => is_zero(x),
    }
}
