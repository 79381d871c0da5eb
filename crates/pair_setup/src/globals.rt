//! Globals that have no place in the executable.

ghost use Rattle.std.specs.Prelude.{◌≡◌, ◌↔◌, ◌≤◌, ℕ, [], Option, Some, IfOk, IsSomeAnd, IsTrue};
ghost use Rattle.std.specs.Prelude.{MatchResult, OnOk, option_map};
ghost use Rattle.c_types_layout.specs.Structs.{capped, structs_of};
ghost use Rattle.c_types_layout.specs.Types.{type_of};
ghost use Rattle.c_types_spec.specs.Types as types;
ghost use Rattle.c_types_spec.specs.Units.{global_size, known_size};
ghost use Rattle.c_types.specs.Typed.{global_of, typed_of};
ghost use Rattle.pair_setup_calls.specs.Names.{AreApart, names_of};
ghost use Rattle.pair_setup_spec.specs.Faults as spec;
ghost use Rattle.pair_setup_spec.specs.Faults.{IsPlaced};
ghost use Rattle.pair_setup.specs.Globals.{AreMisplaced, IsMisplacedAt, IsUnplaced, object_type};

use attempt::attempt;
use c_types::typed::Typed;
use c_types_layout::structs::size;
use c_types_layout::types::{CType, Outer};
use c_types_scope::meaning::Meaning;
use c_types_spec::SIZE_LIMIT;
use elf_read::{Image, SymbolValues};
use std::alloc::{AllocError, Global};

/// Whether the first OBJECT symbol of a name has a size in bytes.
fn has_size(image: &Image<'_>, name: &[u8], size: u64) -> bool
    ensures { IsTrue result ↔ (spec.object_size image.now name.now ≡ Some size) }
{
    match image.object_size(name) {
        Some(found) => u64::from(found) == size,
        None => false,
    }
}

/// Whether the first OBJECT symbol of a name has the size of a type; it hasn't where that has none.
/// It is out of memory exactly where the size is from the limit of sizes on, as no object of a unit
/// has.
fn is_sized(image: &Image<'_>, name: &[u8], size: Option<u64>) -> Result<bool, AllocError>
    ensures { MatchResult result (λ sized. (full : Option ℕ) → size ≡ capped full → (IsTrue sized
        ↔ spec.HasSize image.now name.now (known_size full)))
        (λ _. IsSomeAnd size (λ n. SIZE_LIMIT ≤ n)) }
{
    match size {
        None => Ok(false),
        Some(size) => {
            if size >= SIZE_LIMIT {
                return Err(AllocError);
            }
            Ok(has_size(image, name, size))
        }
    }
}

/// Whether a type is an array without length.
#[tactic(auto, using(crate::proofs::Symbols::open_types))]
fn is_open_array(of: &CType) -> bool
    ensures { result ≡ types.is_open_array (type_of of.now) }
{
    match of.outer() {
        Outer::Array(None) => true,
        Outer::Array(Some(_)) => false,
        Outer::Void | Outer::Integer(_) | Outer::Pointer | Outer::Struct(_) => false,
    }
}

/// Whether the first OBJECT symbol of a name has a size that a type gives a global.
fn fits(image: &Image<'_>, unit: &Typed<'_>, name: &[u8], of: &CType) -> Result<bool, AllocError>
    ensures { IfOk result (λ fits. IsTrue fits ↔ spec.HasSize image.now name.now (global_size
        (structs_of unit.now.structs.items) (type_of of.now))) }
{
    if is_open_array(of) {
        return Ok(true);
    }
    let size = size(unit.structs.as_slice(), of);
    is_sized(image, name, size)
}

/// Whether the executable has a global of a name and a type: OBJECT symbols of one value, the first
/// of them of a size that the type gives it.
fn is_placed(
    image: &Image<'_>,
    unit: &Typed<'_>,
    name: &[u8],
    of: &CType,
) -> Result<bool, AllocError>
    ensures { IfOk result (λ placed. IsTrue placed ↔ IsPlaced image.now (global_of name.now
        (global_size (structs_of unit.now.structs.items) (type_of of.now)))) }
{
    match image.object(name) {
        SymbolValues::One(_) => fits(image, unit, name, of),
        SymbolValues::Absent => Ok(false),
        SymbolValues::Two(_, _) => Ok(false),
    }
}

/// Whether a global of a name and a type isn't placed.
fn lacks_place(
    image: &Image<'_>,
    unit: &Typed<'_>,
    name: &[u8],
    of: &CType,
) -> Result<bool, AllocError>
    ensures { IfOk result (λ found. IsTrue found ↔ (IsPlaced image.now (global_of name.now
        (global_size (structs_of unit.now.structs.items) (type_of of.now))) → ⊥)) }
{
    let placed = attempt!(is_placed(image, unit, name, of));
    Ok(!placed)
}

/// The type of a global, where a name means one.
fn object_in(meaning: &Meaning) -> Option<&CType>
    ensures { option_map (λ t. t.now) result ≡ object_type meaning.now }
{
    match meaning {
        Meaning::Object(of) => Some(of),
        Meaning::Local(_, _) | Meaning::Function(_, _) => None,
        Meaning::Typedef(_) | Meaning::Enumerator(_) => None,
    }
}

/// Whether a name that means this is a global that isn't placed.
fn is_unplaced(
    image: &Image<'_>,
    unit: &Typed<'_>,
    name: &[u8],
    meaning: &Meaning,
) -> Result<bool, AllocError>
    ensures { IfOk result (λ found. IsTrue found ↔ IsUnplaced image.now (structs_of
        unit.now.structs.items) name.now (object_type meaning.now)) }
{
    match object_in(meaning) {
        Some(of) => lacks_place(image, unit, name, of),
        None => Ok(false),
    }
}

/// Whether the name of a number is that of a global that isn't placed.
fn is_misplaced(image: &Image<'_>, unit: &Typed<'_>, number: usize) -> Result<bool, AllocError>
    requires { AreApart (names_of unit.now) }
    ensures { IfOk result (λ found. IsTrue found
        ↔ IsMisplacedAt image.now (typed_of unit.now) (names_of unit.now) number) }
{
    match unit.names.get_index(number) {
        Some((name, meaning)) => is_unplaced(image, unit, name, meaning),
        None => Ok(false),
    }
}

/// Adds for each name of the file scope whether it is that of a global that isn't placed.
fn add_misplaced(
    found: &mut Vec<bool>,
    image: &Image<'_>,
    unit: &Typed<'_>,
) -> Result<(), AllocError>
    requires apart { AreApart (names_of unit.now) }
    requires none { found.old.items ≡ [] }
    ensures { OnOk result (AreMisplaced image.now (typed_of unit.now) (names_of unit.now)
        found.new.items) }
{
    for number in 0..unit.names.len() {
        let misplaced = attempt!(is_misplaced(image, unit, number));
        found.push(misplaced)?;
    }
    Ok(())
}

/// For each name of the file scope whether it is that of a global that isn't placed.
pub(crate) fn misplaced_globals(
    alloc: Global,
    image: &Image<'_>,
    unit: &Typed<'_>,
) -> Result<Vec<bool>, AllocError>
    requires { AreApart (names_of unit.now) }
    ensures { IfOk result (λ found. AreMisplaced image.now (typed_of unit.now) (names_of unit.now)
        found.items) }
{
    let mut found = Vec::new(alloc);
    attempt!(add_misplaced(&mut found, image, unit));
    Ok(found)
}
