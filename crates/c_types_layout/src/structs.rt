//! Structs, and the sizes and alignments of types (6.2.8, 6.5.3.4, 6.7.2.1).

ghost use Rattle.std.specs.Prelude.{◌≡◌, min, option_map, slice_get};
ghost use Rattle.c_types_spec.specs.Types as tree;
ghost use Rattle.c_types_layout.specs.Types.{type_of, base_of};
ghost use Rattle.c_types_layout.specs.Structs.{layout_of, definition_of, structs_of, capped};
ghost use Rattle.c_types_layout.specs.Structs.{placed_of, part_of};
ghost use Rattle.c_types_layout.specs.Structs.{innermost_size, innermost_alignment};

use crate::extents::{limited, times};
use crate::types::{Base, CType};
use c_types_spec::{POINTER_WIDTH, SIZE_LIMIT};
use indexmap::IndexMap;

/// A member of a struct.
#[derive(Drop)]
pub struct Placed {
    /// Its type.
    pub of: CType,
    /// Its distance from the start of the struct, in bytes.
    pub distance: u64,
}

/// The members of a struct so far.
#[derive(Drop)]
pub struct Layout<'a> {
    /// The members by name, in order.
    pub members: IndexMap<&'a [u8], Placed>,
    /// The size of what they fill, in bytes.
    pub filled: u64,
    /// The greatest of their alignments, in bytes.
    pub alignment: u64,
}

/// What is known of a struct.
#[derive(Drop)]
pub enum Definition<'a> {
    /// It was named alone.
    Undefined,
    /// Its members are being declared.
    Unfinished,
    /// It has these members.
    Defined(Box<Layout<'a>>),
}

/// The least multiple of an alignment from a number on, or the limit where it is above that.
fn rounded_up(alignment: u64, n: u64) -> u64
    ensures { result ≡ min (tree.round_up alignment n) SIZE_LIMIT }
{
    if alignment == 0 {
        return limited(n);
    }
    let missing = (alignment - n % alignment) % alignment;
    limited(n.saturating_add(missing))
}

/// The size of a struct with its end padded.
#[tactic(auto, unfolding(crate::specs::Structs::layout_of))]
fn padded(layout: &Layout<'_>) -> u64
    ensures { result ≡ min (tree.padded (layout_of layout.now)) SIZE_LIMIT }
{
    rounded_up(layout.alignment, layout.filled)
}

/// What is known of the struct of a number.
#[tactic(auto, using(crate::proofs::Sizes::looked_up))]
pub fn definition_at<'b, 'a>(
    structs: &'b [Definition<'a>],
    number: usize,
) -> Option<&'b Definition<'a>>
    ensures { option_map (λ d. definition_of d.now) result ≡ slice_get (structs_of structs.now)
        number }
{
    structs.get(number)
}

/// The layout of a struct that is defined and has members.
#[tactic(auto, unfolding(crate::specs::Structs::layout_of))]
fn layout_in<'b, 'a>(definition: &'b Definition<'a>) -> Option<&'b Layout<'a>>
    ensures { option_map (λ l. layout_of l.now) result ≡ tree.layout_of_definition (definition_of
        definition.now) }
{
    match definition {
        Definition::Undefined | Definition::Unfinished => None,
        Definition::Defined(layout) => {
            if layout.members.is_empty() {
                None
            } else {
                Some(layout)
            }
        }
    }
}

/// The layout of the struct of a number, where it is defined and has members.
pub fn struct_layout<'b, 'a>(structs: &'b [Definition<'a>], number: usize) -> Option<&'b Layout<'a>>
    ensures { option_map (λ l. layout_of l.now) result ≡ tree.struct_layout (structs_of
        structs.now) number }
{
    match definition_at(structs, number) {
        Some(definition) => layout_in(definition),
        None => None,
    }
}

/// The size of what a type has innermost, in bytes.
#[tactic(auto, unfolding(c_types_spec::specs::Types::size_of))]
fn base_size(structs: &[Definition<'_>], base: Base) -> Option<u64>
    ensures { result ≡ capped (tree.size_of (structs_of structs.now) (base_of base)) }
{
    match base {
        Base::Void => None,
        Base::Integer(scalar) => Some(limited(scalar.width as u64 / 8)),
        Base::Struct(number) => match struct_layout(structs, number) {
            Some(layout) => Some(padded(layout)),
            None => None,
        },
    }
}

/// The size of what is inside arrays, a pointer or what a type has innermost, in bytes.
fn size_inside(structs: &[Definition<'_>], base: Base, is_pointer: bool) -> Option<u64>
    ensures { result ≡ capped (innermost_size (structs_of structs.now) base is_pointer) }
{
    if is_pointer {
        Some(POINTER_WIDTH as u64 / 8)
    } else {
        base_size(structs, base)
    }
}

/// The size of a type in bytes, or [`SIZE_LIMIT`] where it is from there on; none where the type
/// is incomplete.
#[tactic(auto, unfolding(crate::specs::Types::type_of))]
pub fn size(structs: &[Definition<'_>], of: &CType) -> Option<u64>
    ensures { result ≡ capped (tree.size_of (structs_of structs.now) (type_of of.now)) }
{
    let extent = of.extent();
    let element = size_inside(structs, of.base, extent.of_pointers);
    times(extent.count, element)
}

/// The alignment of what a type has innermost, in bytes.
#[tactic(auto, unfolding(c_types_spec::specs::Types::alignment_of, crate::specs::Structs::layout_of),)]
fn base_alignment(structs: &[Definition<'_>], base: Base) -> u64
    ensures { result ≡ tree.alignment_of (structs_of structs.now) (base_of base) }
{
    match base {
        Base::Void => 1,
        Base::Integer(scalar) => scalar.width as u64 / 8,
        Base::Struct(number) => match struct_layout(structs, number) {
            Some(layout) => layout.alignment,
            None => 1,
        },
    }
}

/// The alignment of what is inside arrays, a pointer or what a type has innermost, in bytes.
fn alignment_inside(structs: &[Definition<'_>], base: Base, is_pointer: bool) -> u64
    ensures { result ≡ innermost_alignment (structs_of structs.now) base is_pointer }
{
    if is_pointer {
        POINTER_WIDTH as u64 / 8
    } else {
        base_alignment(structs, base)
    }
}

/// The alignment of a type, in bytes.
#[tactic(auto, unfolding(crate::specs::Types::type_of))]
pub fn alignment(structs: &[Definition<'_>], of: &CType) -> u64
    ensures { result ≡ tree.alignment_of (structs_of structs.now) (type_of of.now) }
{
    let extent = of.extent();
    alignment_inside(structs, of.base, extent.of_pointers)
}

/// The member of a name.
#[tactic(auto, unfolding(crate::specs::Structs::layout_of))]
pub fn member_named<'b>(layout: &'b Layout<'_>, name: &[u8]) -> Option<&'b Placed>
    ensures { option_map (λ p. placed_of p.now) result ≡ option_map part_of (tree.member_named
        (layout_of layout.now) name.now) }
{
    layout.members.get(name)
}
