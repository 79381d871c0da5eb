//! Pointers that are moved (6.5.6), and elements of arrays (6.5.2.1).

ghost use Rattle.std.specs.Prelude.{◌≡◌, ◌≤◌, ◌^◌, IsSomeAnd, MatchResult, Ok};
ghost use Rattle.c_types_spec.specs.Operators as operators;
ghost use Rattle.c_types_spec.specs.Types as types;
ghost use Rattle.c_types_layout.specs.Structs.{structs_of};
ghost use Rattle.c_types_layout.specs.Types.{type_of as ctype_of};
ghost use Rattle.c_types_operator.specs.ByOuter.{IsLarge, moved_pointer, size_of_needed};
ghost use Rattle.c_types_operator.specs.Gives.{Gives, GivesUnless};
ghost use Rattle.c_types_operator.specs.Operands.{core_in, operand_of, valued_of};

use crate::arithmetic::arithmetic;
use crate::operand::{
    Category, Operand, Valued, core_or_memory, displaced, part_or_memory, type_or_memory,
};
use crate::scalar::value_operand;
use crate::value::value_of;
use attempt::{Refusal, attempt};
use c_types_core::counts::sum as sum_of_counts;
use c_types_core::expression::Core;
use c_types_core::fault::TypeFault;
use c_types_layout::structs::{Definition, size};
use c_types_layout::types::{CType, Outer, same_type};
use c_types_spec::{
    Arithmetic, Direction, LeftOut, Order, Position, SIZE_LIMIT, Standing, TypeFaultKind,
};
use std::alloc::{AllocError, Global};

/// The size of a type, which is needed. It is out of memory exactly where the size is not below the
/// limit, as no type of a unit is.
#[tactic(auto, using(crate::proofs::ByOuter::sized))]
pub(crate) fn size_needed(
    structs: &[Definition<'_>],
    of: &CType,
    offset: usize,
) -> Result<usize, Refusal<TypeFault>>
    ensures { GivesUnless (IsLarge (types.size_of (structs_of structs.now) (ctype_of of.now)))
        (λ n. n) result (size_of_needed (structs_of structs.now) (ctype_of of.now) offset) }
{
    match size(structs, of) {
        Some(size) => {
            if size < SIZE_LIMIT {
                Ok(size as usize)
            } else {
                Err(Refusal::NoMemory)
            }
        }
        None => Err(Refusal::Fault(TypeFault::At(TypeFaultKind::Incomplete, offset))),
    }
}

/// A pointer of a type, moved by an index.
#[tactic(auto, unfolding(c_types_spec::specs::Operators::moved))]
pub fn moved<'a>(
    alloc: Global,
    structs: &[Definition<'a>],
    direction: Direction,
    order: Order,
    of: CType,
    pointer: Box<Core<'a>>,
    index: Box<Core<'a>>,
    offset: usize,
) -> Result<Operand<'a>, Refusal<TypeFault>>
    ensures { Gives operand_of result (moved_pointer (structs_of structs.now) direction order
        (ctype_of of) (core_in pointer.entry) (core_in index.entry) offset) }
{
    let found = of.target();
    drop(of);
    let Some(target) = attempt!(part_or_memory(found)) else {
        return Err(Refusal::Fault(TypeFault::At(TypeFaultKind::Mismatch, offset)));
    };
    let size = attempt_or_drop!(size_needed(structs, &target, offset); target);
    let of = attempt!(type_or_memory(target.pointer()));
    let made = Core::shift_pointer(alloc, direction, order, size, pointer, index, offset);
    let core = attempt_or_drop!(core_or_memory(made); of);
    Ok(value_operand(core, of, Standing::Computed, offset))
}

/// A sum.
#[tactic(auto, unfolding(crate::specs::Operands::valued_of, c_types_spec::specs::Operators::sum), using(crate::proofs::ByOuter::summing),)]
pub fn sum<'a>(
    alloc: Global,
    structs: &[Definition<'a>],
    a: Valued<'a>,
    b: Valued<'a>,
    offset: usize,
) -> Result<Operand<'a>, Refusal<TypeFault>>
    ensures { Gives operand_of result (operators.sum (structs_of structs.now) (valued_of a.entry)
        (valued_of b.entry) offset) }
{
    match (a.of.outer(), b.of.outer()) {
        (Outer::Integer(_), Outer::Integer(_)) => arithmetic(alloc, Arithmetic::Add, a, b, offset),
        (Outer::Pointer, Outer::Integer(_)) => {
            drop(b.of);
            moved(
                alloc,
                structs,
                Direction::Up,
                Order::PointerFirst,
                a.of,
                a.core,
                b.core,
                offset,
            )
        }
        (Outer::Integer(_), Outer::Pointer) => {
            drop(a.of);
            moved(
                alloc,
                structs,
                Direction::Up,
                Order::IndexFirst,
                b.of,
                b.core,
                a.core,
                offset,
            )
        }
        _ => {
            drop(a);
            drop(b);
            Err(Refusal::Fault(TypeFault::At(TypeFaultKind::Mismatch, offset)))
        }
    }
}

/// A difference; that of two pointers is left out.
#[tactic(auto, unfolding(crate::specs::Operands::valued_of, c_types_spec::specs::Operators::difference), using(crate::proofs::ByOuter::differing),)]
pub fn difference<'a>(
    alloc: Global,
    structs: &[Definition<'a>],
    a: Valued<'a>,
    b: Valued<'a>,
    offset: usize,
) -> Result<Operand<'a>, Refusal<TypeFault>>
    ensures { Gives operand_of result (operators.difference (structs_of structs.now)
        (valued_of a.entry) (valued_of b.entry) offset) }
{
    match (a.of.outer(), b.of.outer()) {
        (Outer::Integer(_), Outer::Integer(_)) => {
            arithmetic(alloc, Arithmetic::Subtract, a, b, offset)
        }
        (Outer::Pointer, Outer::Integer(_)) => {
            drop(b.of);
            moved(
                alloc,
                structs,
                Direction::Down,
                Order::PointerFirst,
                a.of,
                a.core,
                b.core,
                offset,
            )
        }
        (Outer::Pointer, Outer::Pointer) => {
            let is_same = same_type(&a.of, &b.of);
            drop(a);
            drop(b);
            if is_same {
                Err(Refusal::Fault(TypeFault::At(
                    TypeFaultKind::LeftOut(LeftOut::Difference),
                    offset,
                )))
            } else {
                Err(Refusal::Fault(TypeFault::At(TypeFaultKind::Mismatch, offset)))
            }
        }
        _ => {
            drop(a);
            drop(b);
            Err(Refusal::Fault(TypeFault::At(TypeFaultKind::Mismatch, offset)))
        }
    }
}

/// What a pointer points to (6.5.3.2).
#[tactic(auto, unfolding(crate::specs::Operands::valued_of, crate::specs::Operands::operand_of, c_types_spec::specs::Operators::dereferenced,), using(crate::proofs::ByOuter::pointing),)]
pub fn dereferenced<'a>(x: Valued<'a>, offset: usize) -> Result<Operand<'a>, Refusal<TypeFault>>
    ensures { Gives operand_of result (operators.dereferenced (valued_of x.entry) offset) }
{
    let found = x.of.target();
    drop(x.of);
    match attempt!(part_or_memory(found)) {
        Some(target) => Ok(Operand {
            category: Category::InMemory(x.core, 0),
            of: target,
            standing: Standing::Computed,
            offset,
        }),
        None => Err(Refusal::Fault(TypeFault::At(TypeFaultKind::Mismatch, offset))),
    }
}

/// The object that a moved pointer points to.
#[tactic(auto, unfolding(crate::specs::Operands::valued_of))]
fn element_at<'a>(alloc: Global, x: Operand<'a>) -> Result<Operand<'a>, Refusal<TypeFault>>
    ensures { Gives operand_of result (operators.element_at (operand_of x.entry)) }
{
    let v = attempt!(value_of(alloc, x));
    let offset = v.offset;
    dereferenced(v, offset)
}

/// An index with the bound of its array.
fn within<'a>(
    alloc: Global,
    bound: Option<usize>,
    index: Box<Core<'a>>,
    offset: usize,
) -> Result<Box<Core<'a>>, Refusal<TypeFault>>
    ensures { Gives core_in result (Ok (operators.within bound (core_in index.entry) offset)) }
{
    match bound {
        Some(bound) => core_or_memory(Core::within(alloc, bound, index, offset)),
        None => Ok(index),
    }
}

/// An element of an array: `a[i]` is `*(a + i)`.
#[tactic(auto, unfolding(crate::specs::Operands::valued_of, c_types_spec::specs::Operators::subscript), using(crate::proofs::ByOuter::subscripting),)]
pub fn subscript<'a>(
    alloc: Global,
    structs: &[Definition<'a>],
    bounds: (Option<usize>, Option<usize>),
    a: Valued<'a>,
    b: Valued<'a>,
    offset: usize,
) -> Result<Operand<'a>, Refusal<TypeFault>>
    ensures { Gives operand_of result (operators.subscript (structs_of structs.now) bounds.0
        bounds.1
        (valued_of a.entry) (valued_of b.entry) offset) }
{
    match (a.of.outer(), b.of.outer()) {
        (Outer::Pointer, Outer::Integer(_)) => {
            drop(b.of);
            let index = attempt_or_drop!(within(alloc, bounds.0, b.core, offset); a);
            let x = attempt!(moved(
                alloc,
                structs,
                Direction::Up,
                Order::PointerFirst,
                a.of,
                a.core,
                index,
                offset,
            ));
            element_at(alloc, x)
        }
        (Outer::Integer(_), Outer::Pointer) => {
            drop(a.of);
            let index = attempt_or_drop!(within(alloc, bounds.1, a.core, offset); b);
            let x = attempt!(moved(
                alloc,
                structs,
                Direction::Up,
                Order::IndexFirst,
                b.of,
                b.core,
                index,
                offset,
            ));
            element_at(alloc, x)
        }
        _ => {
            drop(a);
            drop(b);
            Err(Refusal::Fault(TypeFault::At(TypeFaultKind::Mismatch, offset)))
        }
    }
}

/// The declared length of an array that an index is below; directly under `&` it may be the length.
/// Out of memory exactly where no `usize` holds the bound.
#[tactic(auto, unfolding(crate::specs::Operands::operand_of), using(crate::proofs::ByOuter::bounding),)]
pub fn bound_of(place: Position, x: &Operand<'_>) -> Result<Option<usize>, AllocError>
    ensures { MatchResult result (λ b. b ≡ operators.bound_of place (operand_of x.now))
        (λ _. IsSomeAnd (operators.bound_of place (operand_of x.now)) (λ bound. 2 ^ 64 ≤ bound)) }
{
    match x.of.outer() {
        Outer::Array(Some(length)) => match place {
            Position::Addressed => match sum_of_counts(length as usize, 1) {
                Ok(bound) => Ok(Some(bound)),
                Err(error) => Err(error),
            },
            Position::Operand | Position::Statement => Ok(Some(length as usize)),
        },
        Outer::Array(None) => Ok(None),
        Outer::Void | Outer::Integer(_) | Outer::Pointer | Outer::Struct(_) => Ok(None),
    }
}

/// The address of an object (6.5.3.2).
#[tactic(auto, unfolding(crate::specs::Operands::operand_of, c_types_spec::specs::Operators::address_of),)]
pub fn address_of<'a>(
    alloc: Global,
    x: Operand<'a>,
    offset: usize,
) -> Result<Operand<'a>, Refusal<TypeFault>>
    ensures { Gives operand_of result (operators.address_of (operand_of x.entry) offset) }
{
    let Operand {
        category,
        of,
        standing: _,
        offset: at,
    } = x;
    match category {
        Category::Value(_) => {
            drop(category);
            drop(of);
            Err(Refusal::Fault(TypeFault::At(TypeFaultKind::NotLvalue, offset)))
        }
        Category::InLocal(_) => {
            drop(category);
            drop(of);
            Err(Refusal::Fault(TypeFault::At(TypeFaultKind::AddressOfLocal, offset)))
        }
        Category::InMemory(address, displacement) => {
            let core = attempt_or_drop!(displaced(alloc, address, displacement, at); of);
            let pointer = attempt!(type_or_memory(of.pointer()));
            Ok(value_operand(core, pointer, Standing::Computed, offset))
        }
    }
}
