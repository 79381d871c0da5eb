//! What names and constants give (6.5.1, 6.4.4.1, 6.7.8).

ghost use Rattle.std.specs.Prelude.{◌≡◌, Ok, Some};
ghost use Rattle.c_syntax.specs.Names.{name_of};
ghost use Rattle.c_types_spec.specs.Declarations as rule;
ghost use Rattle.c_types_layout.specs.Types.{type_of};
ghost use Rattle.c_types_operator.specs.Gives.{Gives};
ghost use Rattle.c_types_operator.specs.Operands.{category_of, operand_of};
ghost use Rattle.c_types_scope.specs.Meanings.{meaning_of};
ghost use Rattle.c_types_scope.specs.States.{nothing, state_of, Runs};
ghost use Rattle.c_types_spec.specs.Core as core;
ghost use Rattle.c_types_spec.specs.Names as names;
ghost use Rattle.c_types_spec.specs.Operands as operands;
ghost use Rattle.c_types_spec.specs.Types as types;
ghost use Rattle.c_types_spec.specs.declared.Standing.TheVariants as standing;

use attempt::{Refusal, attempt};
use c_syntax::expression::Name;
use c_token_spec::token::NumberType;
use c_types_core::constants::INT;
use c_types_core::expression::Core;
use c_types_core::fault::TypeFault;
use c_types_layout::types::CType;
use c_types_operator::attempt_or_drop;
use c_types_operator::member::constant_operand;
use c_types_operator::operand::{Category, Operand, core_or_memory, type_or_memory};
use c_types_scope::meaning::Meaning;
use c_types_scope::state::State;
use c_types_spec::{INT_WIDTH, LeftOut, Scalar, Standing, TypeFaultKind, WIDE_WIDTH};
use std::alloc::Global;

/// `unsigned int`
const UNSIGNED_INT: Scalar = Scalar {
    width: INT_WIDTH,
    is_signed: false,
};

/// A local as an operand.
#[tactic(auto, unfolding(c_types_operator::specs::Operands::operand_of))]
fn local_operand<'a>(
    alloc: Global,
    number: usize,
    of: &CType,
    offset: usize,
) -> Result<Operand<'a>, Refusal<TypeFault>>
    ensures { Gives operand_of result (Ok (operands.operand (operands.InLocal number) (type_of
        of.now) standing.Computed offset)) }
{
    let of = attempt!(type_or_memory(of.copy(alloc)));
    Ok(Operand {
        category: Category::InLocal(number),
        of,
        standing: Standing::Computed,
        offset,
    })
}

/// An object of the file scope as an operand.
#[tactic(auto, unfolding(c_types_operator::specs::Operands::operand_of))]
fn object_operand<'a>(
    alloc: Global,
    name: Name<'a>,
    of: &CType,
) -> Result<Operand<'a>, Refusal<TypeFault>>
    ensures { Gives operand_of result (Ok (operands.operand (operands.InMemory (core.GlobalAddress
        name.entry.spelling.now) 0) (type_of of.now) standing.Computed name.entry.offset)) }
{
    let of = attempt!(type_or_memory(of.copy(alloc)));
    let made = Core::global_address(alloc, name.spelling);
    let address = attempt_or_drop!(core_or_memory(made); of);
    Ok(Operand {
        category: Category::InMemory(address, 0),
        of,
        standing: Standing::Computed,
        offset: name.offset,
    })
}

/// What a name of a meaning gives as an expression.
fn named_by<'a>(
    alloc: Global,
    meaning: &Meaning,
    name: Name<'a>,
) -> Result<Operand<'a>, Refusal<TypeFault>>
    ensures { Gives operand_of result (rule.named_by (Some (meaning_of meaning.now)) (name_of
        name.entry)) }
{
    match meaning {
        Meaning::Local(number, of) => local_operand(alloc, *number, of, name.offset),
        Meaning::Object(of) => object_operand(alloc, name, of),
        Meaning::Function(_, _) => Err(Refusal::Fault(TypeFault::At(
            TypeFaultKind::LeftOut(LeftOut::FunctionName),
            name.offset,
        ))),
        Meaning::Typedef(_) => Err(Refusal::Fault(TypeFault::At(
            TypeFaultKind::Unknown,
            name.offset,
        ))),
        Meaning::Enumerator(value) => constant_operand(alloc, INT, *value, name.offset),
    }
}

/// What a name gives as an expression.
fn found<'a>(
    alloc: Global,
    name: Name<'a>,
    state: &State<'a>,
) -> Result<Operand<'a>, Refusal<TypeFault>>
    ensures { Gives operand_of result (rule.named_by (names.in_scope (state_of state.now).names
        name.entry.spelling.now) (name_of name.entry)) }
{
    match state.meaning(name.spelling) {
        Some(Some(meaning)) => named_by(alloc, meaning, name),
        Some(None) | None => Err(Refusal::Fault(TypeFault::At(
            TypeFaultKind::Unknown,
            name.offset,
        ))),
    }
}

/// One more global that is named, where a name designates one.
fn mentioned<'a>(
    category: &Category<'a>,
    name: &'a [u8],
    state: &mut State<'a>,
) -> Result<(), Refusal<TypeFault>>
    ensures { Runs nothing result state.new (rule.mentioned (category_of category.now) name.now
        (state_of state.old)) }
{
    match category {
        Category::InMemory(_, _) => state.mention(name),
        Category::Value(_) | Category::InLocal(_) => Ok(()),
    }
}

/// A name as an expression. A global is kept among those that the body names.
#[tactic(auto, unfolding(c_types_spec::specs::Declarations::named, c_types_operator::specs::Operands::operand_of))]
pub fn named<'a>(
    alloc: Global,
    name: Name<'a>,
    state: &mut State<'a>,
) -> Result<Operand<'a>, Refusal<TypeFault>>
    ensures { Runs operand_of result state.new (rule.named (name_of name.entry) (state_of
        state.old)) }
{
    let x = attempt!(found(alloc, name, state));
    attempt!(mentioned(&x.category, name.spelling, state));
    Ok(x)
}

/// The type, which has no integer of 64 bits.
pub fn not_wide(of: CType, offset: usize) -> Result<CType, Refusal<TypeFault>>
    ensures { Gives type_of result (rule.not_wide (type_of of) offset) }
{
    if of.is_wide() {
        drop(of);
        Err(Refusal::Fault(TypeFault::At(TypeFaultKind::LeftOut(LeftOut::Word64), offset)))
    } else {
        Ok(of)
    }
}

/// The type of a number.
fn number_scalar(of: NumberType) -> Scalar
    ensures { result ≡ types.number_scalar of }
{
    match of {
        NumberType::SignedInt => INT,
        NumberType::UnsignedInt => UNSIGNED_INT,
        NumberType::SignedLongLong => Scalar {
            width: WIDE_WIDTH,
            is_signed: true,
        },
        NumberType::UnsignedLongLong => Scalar {
            width: WIDE_WIDTH,
            is_signed: false,
        },
    }
}

/// A number as an expression.
#[tactic(auto, unfolding(c_types_spec::specs::Declarations::number_operand, c_types_spec::specs::Types::is_wide),)]
pub fn number_operand<'a>(
    alloc: Global,
    value: u64,
    of: NumberType,
    offset: usize,
) -> Result<Operand<'a>, Refusal<TypeFault>>
    ensures { Gives operand_of result (rule.number_operand value of offset) }
{
    let scalar = number_scalar(of);
    if scalar.width == WIDE_WIDTH {
        return Err(Refusal::Fault(TypeFault::At(TypeFaultKind::LeftOut(LeftOut::Word64), offset)));
    }
    constant_operand(alloc, scalar, value as i128, offset)
}

/// The type of a typedef name.
pub fn typedef_named(
    alloc: Global,
    name: Name<'_>,
    state: &State<'_>,
) -> Result<CType, Refusal<TypeFault>>
    ensures { Gives type_of result (rule.typedef_by (names.in_scope (state_of state.now).names
        name.entry.spelling.now) (name_of name.entry)) }
{
    match state.meaning(name.spelling) {
        Some(Some(Meaning::Typedef(of))) => type_or_memory(of.copy(alloc)),
        _ => Err(Refusal::Fault(TypeFault::At(TypeFaultKind::Unknown, name.offset))),
    }
}
