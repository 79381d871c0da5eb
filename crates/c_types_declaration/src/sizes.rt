//! Sizes of declared types, and what is refused of them (6.7.6.2, 6.7.2.1).

ghost use Rattle.std.specs.Prelude.{◌≡◌, Ok, Some, false, is_none, is_some};
ghost use Rattle.c_syntax.specs.Names.{name_of};
ghost use Rattle.c_types_spec.specs.Declarations as rule;
ghost use Rattle.c_types_spec.specs.Names as names;
ghost use Rattle.c_types_spec.specs.Types as types;
ghost use Rattle.c_types_layout.specs.Structs.{capped, layout_of, structs_of};
ghost use Rattle.c_types_layout.specs.Types.{type_of};
ghost use Rattle.c_types_scope.specs.States.{nothing};
ghost use Rattle.c_types_operator.specs.Gives.{Gives};
ghost use Rattle.c_types_declaration.specs.Sizes as specs;

use crate::faults::first_fault;
use attempt::{Refusal, attempt};
use c_syntax::expression::Name;
use c_types_core::counts::sum;
use c_types_core::fault::TypeFault;
use c_types_layout::structs::{Definition, Layout, Placed, alignment, member_named, size};
use c_types_layout::types::{CType, Outer};
use c_types_operator::attempt_or_drop;
use c_types_operator::operand::{part_or_memory, type_or_memory};
use c_types_spec::{LeftOut, SIZE_LIMIT, TypeFaultKind};
use indexmap::IndexMap;
use std::alloc::Global;

/// A size is over the limit.
fn is_large(size: Option<u64>) -> bool
    ensures { result ≡ types.is_large size }
{
    match size {
        Some(size) => size >= SIZE_LIMIT,
        None => false,
    }
}

/// The size of the elements of an array, or none.
fn element_size(structs: &[Definition<'_>], of: &CType) -> Result<Option<u64>, Refusal<TypeFault>>
    ensures { Gives (λ n. n) result
        (Ok (capped (specs.element_size (structs_of structs.now) (type_of
        of.now)))) }
{
    match attempt!(part_or_memory(of.element())) {
        Some(element) => {
            let found = size(structs, &element);
            drop(element);
            Ok(found)
        }
        None => Ok(None),
    }
}

/// The size of a type, or that of the elements of an array without length, is over the limit.
#[tactic(auto, using(crate::proofs::Outers::by_outer, crate::proofs::Capped::capping))]
pub fn too_large(structs: &[Definition<'_>], of: &CType) -> Result<bool, Refusal<TypeFault>>
    ensures { Gives (λ b. b) result (Ok (types.too_large (structs_of structs.now) (type_of
        of.now))) }
{
    match of.outer() {
        Outer::Array(None) => {
            let size = attempt!(element_size(structs, of));
            Ok(is_large(size))
        }
        Outer::Array(Some(_))
        | Outer::Void
        | Outer::Integer(_)
        | Outer::Pointer
        | Outer::Struct(_) => Ok(is_large(size(structs, of))),
    }
}

/// It is an array of what has no size.
#[tactic(auto, using(crate::proofs::Outers::by_outer, crate::proofs::Capped::capping))]
pub fn lacks_element(structs: &[Definition<'_>], of: &CType) -> Result<bool, Refusal<TypeFault>>
    ensures { Gives (λ b. b) result (Ok (types.lacks_element (structs_of structs.now) (type_of
        of.now))) }
{
    match of.outer() {
        Outer::Array(_) => {
            let size = attempt!(element_size(structs, of));
            Ok(size.is_none())
        }
        Outer::Void | Outer::Integer(_) | Outer::Pointer | Outer::Struct(_) => Ok(false),
    }
}

/// The type has no size.
#[tactic(auto, using(crate::proofs::Capped::capping))]
pub fn is_incomplete(structs: &[Definition<'_>], of: &CType) -> bool
    ensures { result ≡ is_none (types.size_of (structs_of structs.now) (type_of of.now)) }
{
    match size(structs, of) {
        Some(_) => false,
        None => true,
    }
}

/// It is `void`.
#[tactic(auto, using(crate::proofs::Outers::by_outer, crate::proofs::Capped::capping))]
pub fn is_void(of: &CType) -> bool
    ensures { result ≡ types.is_void (type_of of.now) }
{
    match of.outer() {
        Outer::Void => true,
        Outer::Integer(_) | Outer::Pointer | Outer::Struct(_) | Outer::Array(_) => false,
    }
}

/// It is a struct.
#[tactic(auto, using(crate::proofs::Outers::by_outer, crate::proofs::Capped::capping))]
pub fn is_struct(of: &CType) -> bool
    ensures { result ≡ types.is_struct (type_of of.now) }
{
    match of.outer() {
        Outer::Struct(_) => true,
        Outer::Void | Outer::Integer(_) | Outer::Pointer | Outer::Array(_) => false,
    }
}

/// It is an array.
#[tactic(auto, using(crate::proofs::Outers::by_outer, crate::proofs::Capped::capping))]
pub fn is_array(of: &CType) -> bool
    ensures { result ≡ types.is_array (type_of of.now) }
{
    match of.outer() {
        Outer::Array(_) => true,
        Outer::Void | Outer::Integer(_) | Outer::Pointer | Outer::Struct(_) => false,
    }
}

// ---- members

/// What is refused of a member.
fn member_faults(
    structs: &[Definition<'_>],
    layout: &Layout<'_>,
    name: Name<'_>,
    of: &CType,
) -> Result<(), Refusal<TypeFault>>
    ensures { Gives nothing result (names.faults_at name.entry.offset (rule.member_faults
        (structs_of structs.now) (layout_of layout.now) (name_of name.entry) (type_of of.now))) }
{
    let is_there = has_member(layout, name.spelling);
    let is_large = attempt!(too_large(structs, of));
    first_fault(
        &[
            (is_there, TypeFaultKind::Twice),
            (is_large, TypeFaultKind::Mismatch),
            (is_incomplete(structs, of), TypeFaultKind::Incomplete),
            (of.is_wide(), TypeFaultKind::LeftOut(LeftOut::Word64)),
        ],
        name.offset,
    )
}

/// The struct has a member of the name.
#[tactic(auto, using(crate::proofs::Capped::members))]
fn has_member(layout: &Layout<'_>, name: &[u8]) -> bool
    ensures { result ≡ is_some (types.member_named (layout_of layout.now) name.now) }
{
    match member_named(layout, name) {
        Some(_) => true,
        None => false,
    }
}

/// The least multiple of an alignment from a number on.
fn rounded_up(alignment: u64, n: u64) -> Result<u64, Refusal<TypeFault>>
    ensures { Gives (λ r. r) result (Ok (types.round_up alignment n)) }
{
    if alignment == 0 {
        return Ok(n);
    }
    let missing = (alignment - n % alignment) % alignment;
    let rounded = attempt!(sum(n as usize, missing as usize), Refusal::NoMemory);
    Ok(rounded as u64)
}

/// The size of a type that has one below the limit.
#[tactic(auto, using(crate::proofs::Capped::knowing))]
fn known_size(structs: &[Definition<'_>], of: &CType) -> u64
    requires { specs.IsKnown (types.size_of (structs_of structs.now) (type_of of.now)) }
    ensures { types.size_of (structs_of structs.now) (type_of of.now) ≡ Some result }
{
    match size(structs, of) {
        Some(size) => size,
        None => unreachable!(),
    }
}

/// Puts a member after the others.
#[tactic(auto, unfolding(c_types_layout::specs::Structs::layout_of), using(crate::proofs::Capped::inserted))]
fn push_member<'a>(
    layout: &mut Layout<'a>,
    name: &'a [u8],
    of: CType,
    distance: u64,
) -> Result<(), Refusal<TypeFault>>
    requires { is_some (types.member_named (layout_of layout.old) name.now) ≡ false }
    ensures { Gives (λ _. layout_of layout.new) result (Ok (specs.with_placed (layout_of layout.old)
        name.now (type_of of) distance)) }
{
    match layout.members.insert(name, Placed { of, distance }) {
        Ok(None) => Ok(()),
        Ok(Some(_)) => unreachable!(),
        Err(_) => Err(Refusal::NoMemory),
    }
}

/// The members with one more, of a size and an alignment.
#[tactic(auto, unfolding(c_types_layout::specs::Structs::layout_of))]
fn with_member<'a>(
    layout: &mut Layout<'a>,
    name: &'a [u8],
    of: CType,
    size: u64,
    alignment: u64,
) -> Result<(), Refusal<TypeFault>>
    requires { is_some (types.member_named (layout_of layout.old) name.now) ≡ false }
    ensures { Gives (λ _. layout_of layout.new) result (Ok (types.with_member (layout_of layout.old)
        name.now (type_of of) size alignment)) }
{
    let distance = attempt_or_drop!(rounded_up(alignment, layout.filled); of);
    attempt!(push_member(layout, name, of, distance));
    let filled = attempt!(sum(distance as usize, size as usize), Refusal::NoMemory);
    layout.filled = filled as u64;
    layout.alignment = layout.alignment.max(alignment);
    Ok(())
}

/// The struct is not too large.
#[tactic(auto, unfolding(c_types_layout::specs::Structs::layout_of))]
fn layout_fits(layout: &Layout<'_>, offset: usize) -> Result<(), Refusal<TypeFault>>
    ensures { Gives (λ _. layout_of layout.now) result (rule.layout_fits (layout_of layout.now)
        offset) }
{
    let padded = attempt!(rounded_up(layout.alignment, layout.filled));
    if padded >= SIZE_LIMIT {
        Err(Refusal::Fault(TypeFault::At(TypeFaultKind::Mismatch, offset)))
    } else {
        Ok(())
    }
}

/// One more member of a struct.
#[tactic(auto, unfolding(c_types_spec::specs::Declarations::member), using(crate::proofs::Capped::knowing))]
pub fn member<'a>(
    structs: &[Definition<'a>],
    layout: &mut Layout<'a>,
    name: Name<'a>,
    of: CType,
) -> Result<(), Refusal<TypeFault>>
    ensures { Gives (λ _. layout_of layout.new) result (rule.member (structs_of structs.now)
        (layout_of layout.old) (name_of name.entry) (type_of of)) }
{
    attempt_or_drop!(member_faults(structs, layout, name, &of); of);
    let size = known_size(structs, &of);
    let alignment = alignment(structs, &of);
    attempt!(with_member(layout, name.spelling, of, size, alignment));
    layout_fits(layout, name.offset)
}

/// A struct without members so far.
#[tactic(auto, unfolding(c_types_layout::specs::Structs::layout_of))]
pub fn empty_layout<'a>(alloc: Global) -> Result<Box<Layout<'a>>, Refusal<TypeFault>>
    ensures { Gives (λ l. layout_of l.value) result (Ok types.empty_layout) }
{
    let layout = Layout {
        members: IndexMap::new(alloc),
        filled: 0,
        alignment: 1,
    };
    match Box::new(alloc, layout) {
        Ok(made) => Ok(made),
        Err(_) => Err(Refusal::NoMemory),
    }
}

/// The type of a parameter: an array is a pointer (6.7.6.3p7).
#[tactic(auto, using(crate::proofs::Outers::adjusting))]
pub fn adjusted(of: CType) -> Result<CType, Refusal<TypeFault>>
    ensures { Gives type_of result (Ok (rule.adjusted (type_of of))) }
{
    match attempt_or_drop!(part_or_memory(of.element()); of) {
        Some(element) => {
            drop(of);
            type_or_memory(element.pointer())
        }
        None => Ok(of),
    }
}
