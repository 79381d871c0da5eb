//! The numbers of names.

ghost use Rattle.std.specs.Prelude.{ℕ, List, ◌≡◌, Some, IfSome, IsSome, option_map, slice_get};
ghost use Rattle.c_types.specs.Typed.{body_of_name, typed_of};
ghost use Rattle.pair_setup_spec.specs.SourceReach.{body_of};
ghost use Rattle.pair_setup_calls.specs.Names.{IsNumber, names_of};

use c_types::typed::{Body, Typed};

/// The number of a name of the file scope: its index in the order of the first declarations. Each
/// name is there once.
pub fn number(unit: &Typed<'_>, name: &[u8]) -> Option<usize>
    ensures found { IfSome result (λ i. IsNumber (names_of unit.now) i name.now) }
    ensures only { (i : ℕ) → IsNumber (names_of unit.now) i name.now → result ≡ Some i }
{
    unit.names.get_index_of(name)
}

/// The name of a number.
pub fn name_at<'a>(unit: &Typed<'a>, number: usize) -> Option<&'a [u8]>
    ensures { option_map (λ name. name.now) result ≡ slice_get (names_of unit.now) number }
{
    match unit.names.get_index(number) {
        Some((name, _)) => Some(*name),
        None => None,
    }
}

/// The body of the function of a number; none where it has none.
pub fn body_at<'b, 'a>(unit: &'b Typed<'a>, number: usize) -> Option<&'b Body<'a>>
    ensures found { (name : List ℕ) → IsNumber (names_of unit.now) number name
        → option_map (λ b. body_of_name name b.now) result ≡ body_of (typed_of unit.now) name }
    ensures named { IfSome result (λ _. IsSome (slice_get (names_of unit.now) number)) }
{
    match name_at(unit, number) {
        Some(name) => unit.body(name),
        None => None,
    }
}
