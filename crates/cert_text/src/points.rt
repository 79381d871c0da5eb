//! Points as text.

ghost use Rattle.std.specs.Prelude.{◌≡◌, ◌++◌, OnOk, decimal, flat_map};
ghost use Rattle.cert_text_spec.specs.Points.{binary_text, place_text, source_text};
ghost use Rattle.cert_text_spec.specs.Lines.{points_text};
ghost use Rattle.proof_tree.specs.Proofs.{binary_point_of, points_of, source_point_of};
ghost use Rattle.cert_text.specs.Texts.{inlined_address, inlined_call};

use crate::numbers::{push_address, push_number};
use attempt::attempt;
use proof_tree::{BinaryPoint, Points, SourcePoint};
use proof_tree_spec::Place;
use std::alloc::{AllocError, Global};

// Adds the addresses of the calls of a path.
fn push_addresses(alloc: Global, out: &mut Vec<u8>, path: &[u32]) -> Result<(), AllocError>
    ensures { OnOk result (out.new.items ≡ out.old.items ++ flat_map inlined_address path.now) }
{
    for address in path {
        attempt!(push_address(alloc, out, *address, b"/"));
    }
    Ok(())
}

/// Adds a point of the binary, and what ends it.
pub(crate) fn push_binary(
    alloc: Global,
    out: &mut Vec<u8>,
    point: &BinaryPoint,
    end: &[u8],
) -> Result<(), AllocError>
    ensures { OnOk result (out.new.items
        ≡ out.old.items ++ (binary_text (binary_point_of point.now) ++ end.now)) }
{
    attempt!(push_addresses(alloc, out, point.path.as_slice()));
    push_address(alloc, out, point.address, end)
}

// Adds the number of a call of a path.
fn push_call(out: &mut Vec<u8>, call: u32) -> Result<(), AllocError>
    ensures { OnOk result (out.new.items ≡ out.old.items ++ inlined_call call) }
{
    attempt!(out.extend_from_slice(b"k"));
    push_number(out, u64::from(call), b"/")
}

// Adds the numbers of the calls of a path.
fn push_calls(out: &mut Vec<u8>, path: &[u32]) -> Result<(), AllocError>
    ensures { OnOk result (out.new.items ≡ out.old.items ++ flat_map inlined_call path.now) }
{
    for call in path {
        attempt!(push_call(out, *call));
    }
    Ok(())
}

// Adds a letter, a number, and what ends them.
fn push_lettered(
    out: &mut Vec<u8>,
    letter: &[u8],
    number: u32,
    end: &[u8],
) -> Result<(), AllocError>
    ensures { OnOk result (out.new.items
        ≡ out.old.items ++ ((letter.now ++ decimal number) ++ end.now)) }
{
    attempt!(out.extend_from_slice(letter));
    push_number(out, u64::from(number), end)
}

// Adds a place, and what ends it.
fn push_place(out: &mut Vec<u8>, place: Place, end: &[u8]) -> Result<(), AllocError>
    ensures { OnOk result (out.new.items ≡ out.old.items ++ (place_text place ++ end.now)) }
{
    match place {
        Place::Test(number) => push_lettered(out, b"t", number, end),
        Place::Body(number) => push_lettered(out, b"b", number, end),
        Place::Call(number) => push_lettered(out, b"k", number, end),
    }
}

/// Adds a point of the source, and what ends it.
pub(crate) fn push_source(
    out: &mut Vec<u8>,
    point: &SourcePoint,
    end: &[u8],
) -> Result<(), AllocError>
    ensures { OnOk result (out.new.items
        ≡ out.old.items ++ (source_text (source_point_of point.now) ++ end.now)) }
{
    attempt!(push_calls(out, point.path.as_slice()));
    push_place(out, point.place, end)
}

/// Adds a point of each side, with a space after each.
pub(crate) fn push_points(
    alloc: Global,
    out: &mut Vec<u8>,
    points: &Points,
) -> Result<(), AllocError>
    ensures { OnOk result (out.new.items ≡ out.old.items ++ points_text (points_of points.now)) }
{
    attempt!(push_binary(alloc, out, &points.binary, b" "));
    push_source(out, &points.source, b" ")
}
