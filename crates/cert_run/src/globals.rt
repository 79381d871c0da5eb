//! Where the globals of an executable are.

ghost use Rattle.std.specs.Prelude.{◌≡◌, ◌==◌, ℕ, List, ◌+◌, [], IfOk, OnOk, Some, slice_get};
ghost use Rattle.elf_read_spec.specs.Image.{object_named};
ghost use Rattle.elf_read.specs.Values.{symbol_of};
ghost use Rattle.c_run_value.specs.Settings.{address_in};
ghost use Rattle.validity_spec.specs.Claim.{globals_of};
ghost use Rattle.cert_run.specs.Placed.{ArePlaced};

use attempt::attempt;
use c_run_value::setting::Global as Placed;
use elf_read::{Image, Symbol, SymbolValues};
use elf_read_spec::fields::STT_OBJECT;
use std::alloc::{AllocError, Global};

/// Whether a symbol is an OBJECT symbol.
fn is_object(symbol: &Symbol<'_>) -> bool
    ensures { result ≡ (symbol.now.kind == STT_OBJECT) }
{
    symbol.kind == STT_OBJECT
}

/// The values of the globals of the name of a symbol, which is at this index.
fn values_at(image: &Image<'_>, index: usize, symbol: &Symbol<'_>) -> SymbolValues
    requires { slice_get image.now.symbols index ≡ Some (symbol_of symbol.now) }
    ensures { result ≡ object_named image.now symbol.now.name.now }
{
    image.object_at(index).unwrap_or(SymbolValues::Absent)
}

/// Adds the global of the name of an OBJECT symbol, which is at this index, where all of that name
/// have one value.
fn add_object<'a>(
    globals: &mut Vec<Placed<'a>>,
    image: &Image<'a>,
    index: usize,
    symbol: &Symbol<'a>,
) -> Result<(), AllocError>
    requires kind { symbol.now.kind ≡ STT_OBJECT }
    requires place { slice_get image.now.symbols index ≡ Some (symbol_of symbol.now) }
    ensures { ArePlaced image.now index globals.old.items
        → OnOk result (ArePlaced image.now (index + 1) globals.new.items) }
{
    match values_at(image, index, symbol) {
        SymbolValues::One(address) => {
            let name = symbol.name;
            attempt!(globals.push(Placed { name, address }), AllocError);
            Ok(())
        }
        SymbolValues::Absent => Ok(()),
        SymbolValues::Two(_, _) => Ok(()),
    }
}

/// Adds the global of the name of a symbol, which is at this index, where it is an OBJECT symbol
/// and all of that name have one value.
fn add_global<'a>(
    globals: &mut Vec<Placed<'a>>,
    image: &Image<'a>,
    index: usize,
    symbol: &Symbol<'a>,
) -> Result<(), AllocError>
    requires { slice_get image.now.symbols index ≡ Some (symbol_of symbol.now) }
    ensures { ArePlaced image.now index globals.old.items
        → OnOk result (ArePlaced image.now (index + 1) globals.new.items) }
{
    if is_object(symbol) {
        add_object(globals, image, index, symbol)
    } else {
        Ok(())
    }
}

/// Adds all globals of an executable.
fn add_globals<'a>(globals: &mut Vec<Placed<'a>>, image: &Image<'a>) -> Result<(), AllocError>
    requires { globals.old.items ≡ [] }
    ensures { OnOk result ((name : List ℕ) → address_in globals.new.items name
        ≡ globals_of image.now name) }
{
    for index in 0..image.symbol_count() {
        match image.symbol(index) {
            Some(symbol) => attempt!(add_global(globals, image, index, symbol)),
            None => return Ok(()),
        }
    }
    Ok(())
}

/// The globals of an executable: of each name whose OBJECT symbols have one value, that.
pub(crate) fn placed_globals<'a>(
    alloc: Global,
    image: &Image<'a>,
) -> Result<Vec<Placed<'a>>, AllocError>
    ensures { IfOk result (λ found. (name : List ℕ) → address_in found.items name
        ≡ globals_of image.now name) }
{
    let mut globals = Vec::new(alloc);
    attempt!(add_globals(&mut globals, image));
    Ok(globals)
}
