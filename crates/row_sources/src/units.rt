//! The unit of a text: its tokens, their tree and its typed core. In the place of one that isn't
//! there, the kind of the first fault and its offset are written.

ghost use Rattle.std.specs.Prelude.{IfSome};
ghost use Rattle.c_graph_spec.specs.Sizes.{UnitSizes};
ghost use Rattle.c_types_spec.specs.HasType.{IsTypedUnit};
ghost use Rattle.c_types.specs.Typed.{typed_of};

use crate::faults::named;
use attempt::Refusal;
use c_parse::{ParseFault, discard, parse};
use c_syntax::unit::TranslationUnit;
use c_token::{Token, TokenFault, tokens};
use c_types::typed::{TypeFault, Typed};
use c_types::unit::check;
use c_types_laws::laws::{cores_have_small_sizes, cores_of_units_are_typed};
use row_io::Out;
use std::alloc::Global;
use std::fmt::Debug;

fn put_fault<K: Debug>(kind: &K, offset: usize, out: &mut Out) {
    out.show(kind);
    out.put(" at ");
    out.show(&offset);
}

fn put_token_error(error: Refusal<TokenFault>, out: &mut Out) {
    match error {
        Refusal::Fault(fault) => put_fault(&fault.kind, fault.offset, out),
        Refusal::NoMemory => out.fail(),
    }
}

/// The first fault of tokens; the text has so many bytes.
pub fn put_parse_error(
    error: Refusal<ParseFault>,
    tokens: &[Token<'_>],
    end: usize,
    out: &mut Out,
) {
    match error {
        Refusal::Fault(fault) => put_fault(&fault.kind, fault.offset(tokens, end), out),
        Refusal::NoMemory => out.fail(),
    }
}

fn put_type_error(error: Refusal<TypeFault>, out: &mut Out) {
    match error {
        Refusal::Fault(TypeFault::At(kind, offset)) => {
            out.put(named(kind));
            out.put(" at ");
            out.show(&offset);
        }
        Refusal::NoMemory => out.fail(),
    }
}

/// The tokens of a text.
pub fn read_tokens<'a>(alloc: Global, text: &'a [u8], out: &mut Out) -> Option<Vec<Token<'a>>> {
    match tokens(alloc, text) {
        Ok(all) => Some(all),
        Err(error) => {
            put_token_error(error, out);
            None
        }
    }
}

/// The typed core of a tree.
fn read_core<'a>(alloc: Global, tree: &TranslationUnit<'a>, out: &mut Out) -> Option<Typed<'a>>
    ensures typed { IfSome result (λ unit. IsTypedUnit (typed_of unit)) }
    ensures sizes { IfSome result (λ unit. UnitSizes (typed_of unit)) }
{
    // laws, of which nothing runs
    cores_of_units_are_typed();
    cores_have_small_sizes();
    match check(alloc, tree) {
        Ok(unit) => Some(unit),
        Err(error) => {
            put_type_error(error, out);
            None
        }
    }
}

/// The typed unit of all tokens of a text, which has so many bytes.
pub fn read_unit<'t>(
    alloc: Global,
    tokens: &'t [Token<'t>],
    end: usize,
    out: &mut Out,
) -> Option<Typed<'t>>
    ensures typed { IfSome result (λ unit. IsTypedUnit (typed_of unit)) }
    ensures sizes { IfSome result (λ unit. UnitSizes (typed_of unit)) }
{
    match parse(alloc, tokens) {
        Ok(tree) => {
            let unit = read_core(alloc, &tree, out);
            discard(tree);
            unit
        }
        Err(error) => {
            put_parse_error(error, tokens, end, out);
            None
        }
    }
}
