//! Tags (6.7.2.1 to 6.7.2.3), and the constants of enumerations.

ghost use Rattle.std.specs.Prelude.{◌≡◌, Ok, option_map, slice_get};
ghost use Rattle.c_syntax.specs.Names.{name_of};
ghost use Rattle.c_types_spec.specs.Declarations as rule;
ghost use Rattle.c_types_spec.specs.Expressions as expressions;
ghost use Rattle.c_types_spec.specs.Names as names;
ghost use Rattle.c_types_spec.specs.Types as types;
ghost use Rattle.c_types_spec.specs.Values as values;
ghost use Rattle.c_types_layout.specs.Structs.{definition_of, layout_of};
ghost use Rattle.c_types_layout.specs.Types.{type_of};
ghost use Rattle.c_types_operator.specs.Gives.{Gives};
ghost use Rattle.c_types_scope.specs.Meanings.{tag_of};
ghost use Rattle.c_types_scope.specs.States.{state_of, nothing, Runs};
ghost use Rattle.c_types_declaration.specs.Tags.{new_tagged};

use attempt::{Refusal, attempt};
use c_syntax::expression::Name;
use c_types_core::constants::INT;
use c_types_core::fault::TypeFault;
use c_types_core::values::convert;
use c_types_layout::structs::{Definition, Layout, definition_at};
use c_types_layout::types::{Base, CType};
use c_types_scope::meaning::{Meaning, Tag};
use c_types_scope::state::State;
use c_types_spec::{INT_WIDTH, Scalar, TypeFaultKind};
use std::alloc::Global;

/// A new struct of a tag, of which nothing is known but a definition.
fn tagged_struct<'a>(
    tag: Name<'a>,
    definition: Definition<'a>,
    state: &mut State<'a>,
) -> Result<usize, Refusal<TypeFault>>
    ensures { Runs (λ n. n) result state.new (new_tagged (definition_of definition.entry) (name_of
        tag.entry) (state_of state.old)) }
{
    let number = attempt!(state.new_struct(definition));
    attempt!(state.declare_tag(tag.spelling, Tag::Struct(number)));
    Ok(number)
}

/// `struct tag`
#[tactic(auto, unfolding(c_types_spec::specs::Declarations::struct_named, c_types_layout::specs::Types::type_of))]
pub fn struct_named<'a>(
    alloc: Global,
    tag: Name<'a>,
    state: &mut State<'a>,
) -> Result<CType, Refusal<TypeFault>>
    ensures { Runs type_of result state.new (rule.struct_named (name_of tag.entry) (state_of
        state.old)) }
{
    match state.tag(tag.spelling) {
        Some(Some(Tag::Struct(number))) => Ok(CType::plain(alloc, Base::Struct(number))),
        Some(Some(Tag::Enum(_))) => Err(Refusal::Fault(TypeFault::At(
            TypeFaultKind::Mismatch,
            tag.offset,
        ))),
        Some(None) => Err(Refusal::Fault(TypeFault::At(TypeFaultKind::Unknown, tag.offset))),
        None => {
            let number = attempt!(tagged_struct(tag, Definition::Undefined, state));
            Ok(CType::plain(alloc, Base::Struct(number)))
        }
    }
}

/// `enum tag`
pub fn enum_named(
    alloc: Global,
    tag: Name<'_>,
    state: &State<'_>,
) -> Result<CType, Refusal<TypeFault>>
    ensures { Gives type_of result (rule.enum_by (names.in_scope (state_of state.now).tags
        tag.entry.spelling.now) (name_of tag.entry)) }
{
    match state.tag(tag.spelling) {
        Some(Some(Tag::Enum(scalar))) => Ok(CType::plain(alloc, Base::Integer(scalar))),
        Some(Some(Tag::Struct(_))) => Err(Refusal::Fault(TypeFault::At(
            TypeFaultKind::Mismatch,
            tag.offset,
        ))),
        Some(None) | None => Err(Refusal::Fault(TypeFault::At(TypeFaultKind::Unknown, tag.offset))),
    }
}

/// The struct of a number is named alone so far.
fn is_undefined(state: &State<'_>, number: usize) -> bool
    ensures { result ≡ rule.is_undefined (slice_get (state_of state.now).structs number) }
{
    match definition_at(state.structs(), number) {
        Some(Definition::Undefined) => true,
        _ => false,
    }
}

/// The number of a struct of a tag whose members follow.
fn tagged_begun<'a>(tag: Name<'a>, state: &mut State<'a>) -> Result<usize, Refusal<TypeFault>>
    ensures { Runs (λ n. n) result state.new (rule.begun_by (names.in_innermost (state_of
        state.old).tags tag.entry.spelling.now) (name_of tag.entry) (state_of state.old)) }
{
    match state.innermost_tag(tag.spelling) {
        Some(Some(Tag::Struct(number))) => {
            if !is_undefined(state, number) {
                return Err(Refusal::Fault(TypeFault::At(TypeFaultKind::Twice, tag.offset)));
            }
            state.define_struct(number, Definition::Unfinished);
            Ok(number)
        }
        Some(_) => Err(Refusal::Fault(TypeFault::At(TypeFaultKind::Twice, tag.offset))),
        None => tagged_struct(tag, Definition::Unfinished, state),
    }
}

/// The number of a struct whose members follow.
#[tactic(auto, unfolding(c_types_spec::specs::Declarations::struct_begun))]
pub fn struct_begun<'a>(
    tag: Option<Name<'a>>,
    state: &mut State<'a>,
) -> Result<usize, Refusal<TypeFault>>
    ensures { Runs (λ n. n) result state.new (rule.struct_begun (option_map name_of tag.entry)
        (state_of state.old)) }
{
    match tag {
        Some(tag) => tagged_begun(tag, state),
        None => state.new_struct(Definition::Unfinished),
    }
}

/// The tag of an enumeration is new in its scope.
#[tactic(auto, unfolding(c_types_spec::specs::Declarations::new_tag))]
pub fn new_tag(tag: Option<Name<'_>>, state: &State<'_>) -> Result<(), Refusal<TypeFault>>
    ensures { Runs nothing result state.now (rule.new_tag (option_map name_of tag.entry) (state_of
        state.now)) }
{
    match tag {
        Some(tag) => match state.innermost_tag(tag.spelling) {
            Some(_) => Err(Refusal::Fault(TypeFault::At(TypeFaultKind::Twice, tag.offset))),
            None => Ok(()),
        },
        None => Ok(()),
    }
}

/// The type of an enumeration, with a negative constant or without.
fn enum_scalar(is_negative: bool) -> Scalar
    ensures { result ≡ rule.enum_scalar is_negative }
{
    Scalar {
        width: INT_WIDTH,
        is_signed: is_negative,
    }
}

/// An enumeration whose constants are all declared.
#[tactic(auto, unfolding(c_types_spec::specs::Declarations::enum_finished))]
pub fn enum_finished<'a>(
    alloc: Global,
    tag: Option<Name<'a>>,
    is_negative: bool,
    state: &mut State<'a>,
) -> Result<CType, Refusal<TypeFault>>
    ensures { Runs type_of result state.new (rule.enum_finished (option_map name_of tag.entry)
        is_negative (state_of state.old)) }
{
    attempt!(new_tag(tag, state));
    let scalar = enum_scalar(is_negative);
    if let Some(tag) = tag {
        attempt!(state.declare_tag(tag.spelling, Tag::Enum(scalar)));
    }
    Ok(CType::plain(alloc, Base::Integer(scalar)))
}

/// The name is declared already in the innermost scope.
pub fn is_declared(state: &State<'_>, name: Name<'_>) -> bool
    ensures { result ≡ rule.is_declared (state_of state.now) (name_of name.entry) }
{
    match state.innermost_meaning(name.spelling) {
        Some(_) => true,
        None => false,
    }
}

/// The value is one of `int`.
fn is_int(value: i128) -> bool
    ensures { result ≡ values.is_of types.int value }
{
    convert(value, INT) == value
}

/// A constant of an enumeration.
#[tactic(auto, unfolding(c_types_spec::specs::Declarations::enumerator))]
pub fn enumerator<'a>(
    name: Name<'a>,
    value: i128,
    state: &mut State<'a>,
) -> Result<(), Refusal<TypeFault>>
    ensures { Runs nothing result state.new (rule.enumerator (name_of name.entry) value (state_of
        state.old)) }
{
    if is_declared(state, name) {
        return Err(Refusal::Fault(TypeFault::At(TypeFaultKind::Twice, name.offset)));
    }
    if !is_int(value) {
        return Err(Refusal::Fault(TypeFault::At(TypeFaultKind::Mismatch, name.offset)));
    }
    state.declare(name.spelling, Meaning::Enumerator(value))
}

/// A struct whose members are all declared.
#[tactic(auto, unfolding(c_types_spec::specs::Expressions::struct_finished))]
pub fn struct_finished<'a>(
    alloc: Global,
    number: usize,
    layout: Box<Layout<'a>>,
    state: &mut State<'a>,
) -> CType
    ensures { expressions.struct_finished number (layout_of layout.entry.value) (state_of state.old)
        ≡ Ok (type_of result, state_of state.new) }
{
    state.define_struct(number, Definition::Defined(layout));
    CType::plain(alloc, Base::Struct(number))
}
