//! Members of structs (6.5.2.3), and operators before one operand by their rules.

ghost use Rattle.std.specs.Prelude.{◌≡◌, Ok};
ghost use Rattle.c_types_spec.specs.Operands as rule;
ghost use Rattle.c_types_spec.specs.Operators as operators;
ghost use Rattle.c_types_layout.specs.Structs.{structs_of, layout_of};
ghost use Rattle.c_types_layout.specs.Types.{type_of as ctype_of, outer_of};
ghost use Rattle.c_types_operator.specs.Gives.{Gives};
ghost use Rattle.c_types_operator.specs.Members.{name_of, arrow_in_by};
ghost use Rattle.c_types_operator.specs.Operands.{core_in, operand_of, valued_of};

use crate::logic::{complement, minus, negation, plus};
use crate::operand::{Category, Operand, Valued, core_or_memory, part_or_memory, type_or_memory};
use crate::pointer::{address_of, dereferenced, size_needed};
use crate::scalar::integer_operand;
use crate::value::value_of;
use attempt::{Refusal, attempt};
use c_syntax_spec::UnaryOperator;
use c_types_core::constants::value_in;
use c_types_core::counts::sum;
use c_types_core::expression::Core;
use c_types_core::fault::TypeFault;
use c_types_layout::structs::{Definition, Layout, member_named, struct_layout};
use c_types_layout::types::{CType, Outer, WORD};
use c_types_spec::{Scalar, Standing, TypeFaultKind};
use std::alloc::Global;

/// The object of a member, in the struct at an address.
#[tactic(auto, unfolding(crate::specs::Operands::operand_of))]
fn member_at<'a>(
    alloc: Global,
    address: Box<Core<'a>>,
    displacement: usize,
    layout: &Layout<'_>,
    name: &[u8],
    name_offset: usize,
    offset: usize,
) -> Result<Operand<'a>, Refusal<TypeFault>>
    ensures { Gives operand_of result (operators.member_at (core_in address.entry) displacement
        (layout_of layout.now) (name_of name.now name_offset) offset) }
{
    match member_named(layout, name) {
        Some(placed) => {
            let distance = placed.distance as usize;
            let displacement = attempt!(sum(displacement, distance), Refusal::NoMemory);
            let of = attempt!(type_or_memory(placed.of.copy(alloc)));
            Ok(Operand {
                category: Category::InMemory(address, displacement),
                of,
                standing: Standing::Computed,
                offset,
            })
        }
        None => Err(Refusal::Fault(TypeFault::At(TypeFaultKind::Unknown, name_offset))),
    }
}

/// A member of an object of a type.
#[tactic(auto, using(crate::proofs::Members::dotted))]
fn dot_in<'a>(
    alloc: Global,
    structs: &[Definition<'a>],
    address: Box<Core<'a>>,
    displacement: usize,
    of: CType,
    name: &[u8],
    name_offset: usize,
    offset: usize,
) -> Result<Operand<'a>, Refusal<TypeFault>>
    ensures { Gives operand_of result (operators.dot_in (structs_of structs.now)
        (core_in address.entry) displacement (ctype_of of) (name_of name.now name_offset) offset) }
{
    let outer = of.outer();
    drop(of);
    match outer {
        Outer::Struct(number) => match struct_layout(structs, number) {
            Some(layout) => {
                member_at(
                    alloc,
                    address,
                    displacement,
                    layout,
                    name,
                    name_offset,
                    offset,
                )
            }
            None => Err(Refusal::Fault(TypeFault::At(TypeFaultKind::Incomplete, offset))),
        },
        Outer::Void | Outer::Integer(_) | Outer::Pointer | Outer::Array(_) => {
            Err(Refusal::Fault(TypeFault::At(TypeFaultKind::Mismatch, offset)))
        }
    }
}

/// `x.name`
#[tactic(auto, unfolding(crate::specs::Operands::operand_of, c_types_spec::specs::Operators::dot))]
pub fn dot<'a>(
    alloc: Global,
    structs: &[Definition<'a>],
    x: Operand<'a>,
    name: &[u8],
    name_offset: usize,
    offset: usize,
) -> Result<Operand<'a>, Refusal<TypeFault>>
    ensures { Gives operand_of result (operators.dot (structs_of structs.now) (operand_of x.entry)
        (name_of name.now name_offset) offset) }
{
    let Operand {
        category,
        of,
        standing: _,
        offset: _,
    } = x;
    match category {
        Category::Value(_) | Category::InLocal(_) => {
            drop(category);
            drop(of);
            Err(Refusal::Fault(TypeFault::At(TypeFaultKind::Mismatch, offset)))
        }
        Category::InMemory(address, displacement) => {
            dot_in(
                alloc,
                structs,
                address,
                displacement,
                of,
                name,
                name_offset,
                offset,
            )
        }
    }
}

/// A member of what a pointer points to, which is of a type.
#[tactic(auto, unfolding(c_types_layout::specs::Structs::layout_of))]
fn arrow_in<'a>(
    alloc: Global,
    structs: &[Definition<'a>],
    target: &CType,
    pointer: Box<Core<'a>>,
    name: &[u8],
    name_offset: usize,
    offset: usize,
) -> Result<Operand<'a>, Refusal<TypeFault>>
    ensures { Gives operand_of result (arrow_in_by (structs_of structs.now) (outer_of (ctype_of
        target.now)) (core_in pointer.entry) (name_of name.now name_offset) offset) }
{
    match target.outer() {
        Outer::Struct(number) => match struct_layout(structs, number) {
            Some(layout) => {
                let alignment = layout.alignment as usize;
                let address = attempt!(core_or_memory(Core::aligned(
                    alloc, alignment, pointer, offset
                )));
                member_at(alloc, address, 0, layout, name, name_offset, offset)
            }
            None => Err(Refusal::Fault(TypeFault::At(TypeFaultKind::Incomplete, offset))),
        },
        Outer::Void | Outer::Integer(_) | Outer::Pointer | Outer::Array(_) => {
            Err(Refusal::Fault(TypeFault::At(TypeFaultKind::Mismatch, offset)))
        }
    }
}

/// `x->name`
#[tactic(auto, unfolding(crate::specs::Operands::valued_of, c_types_spec::specs::Operators::arrow), using(crate::proofs::Members::pointed),)]
pub fn arrow<'a>(
    alloc: Global,
    structs: &[Definition<'a>],
    x: Valued<'a>,
    name: &[u8],
    name_offset: usize,
    offset: usize,
) -> Result<Operand<'a>, Refusal<TypeFault>>
    ensures { Gives operand_of result (operators.arrow (structs_of structs.now) (valued_of x.entry)
        (name_of name.now name_offset) offset) }
{
    let found = x.of.target();
    drop(x.of);
    match attempt!(part_or_memory(found)) {
        Some(target) => {
            let made = arrow_in(alloc, structs, &target, x.core, name, name_offset, offset);
            drop(target);
            made
        }
        None => Err(Refusal::Fault(TypeFault::At(TypeFaultKind::Mismatch, offset))),
    }
}

/// An integer constant, as a value of its type.
pub fn constant_operand<'a>(
    alloc: Global,
    of: Scalar,
    value: i128,
    offset: usize,
) -> Result<Operand<'a>, Refusal<TypeFault>>
    ensures { Gives operand_of result (Ok (rule.constant_operand of value offset)) }
{
    let constant = attempt!(value_in(of, value), Refusal::NoMemory);
    let core = attempt!(core_or_memory(Core::constant(alloc, of, constant)));
    Ok(integer_operand(alloc, core, of, Standing::ConstantExpression, offset))
}

/// `sizeof`
#[tactic(auto, unfolding(c_types_spec::specs::Operators::size_operand))]
pub fn size_operand<'a>(
    alloc: Global,
    structs: &[Definition<'a>],
    of: &CType,
    offset: usize,
) -> Result<Operand<'a>, Refusal<TypeFault>>
    ensures { Gives operand_of result (operators.size_operand (structs_of structs.now) (ctype_of
        of.now) offset) }
{
    let size = attempt!(size_needed(structs, of, offset));
    constant_operand(alloc, WORD, size as i128, offset)
}

/// An operator before one operand.
#[tactic(auto, unfolding(c_types_spec::specs::Operators::unary_rule))]
pub fn unary_rule<'a>(
    alloc: Global,
    operator: UnaryOperator,
    x: Operand<'a>,
    offset: usize,
) -> Result<Operand<'a>, Refusal<TypeFault>>
    ensures { Gives operand_of result (operators.unary_rule operator (operand_of x.entry) offset) }
{
    match operator {
        UnaryOperator::AddressOf => address_of(alloc, x, offset),
        UnaryOperator::Dereference => {
            let v = attempt!(value_of(alloc, x));
            dereferenced(v, offset)
        }
        UnaryOperator::Plus => {
            let v = attempt!(value_of(alloc, x));
            plus(alloc, v, offset)
        }
        UnaryOperator::Minus => {
            let v = attempt!(value_of(alloc, x));
            minus(alloc, v, offset)
        }
        UnaryOperator::Complement => {
            let v = attempt!(value_of(alloc, x));
            complement(alloc, v, offset)
        }
        UnaryOperator::Not => {
            let v = attempt!(value_of(alloc, x));
            negation(alloc, v, offset)
        }
    }
}
