//! Points.

ghost use Rattle.std.specs.Prelude.{◌≡◌, []};
ghost use Rattle.proof_tree.specs.Proofs as view;
ghost use Rattle.proof_tree_spec.specs.declared.Place.TheVariants as place;
ghost use Rattle.cert_text_laws.specs.Readers as readers;
ghost use Rattle.cert_text_laws.specs.Parts as parts;
ghost use Rattle.cert_text_parse.specs.Outcomes.{Parses};
ghost use Rattle.cert_text_parse.specs.PartOutcomes.{ParsesAs, ending_text, read_address_at};
ghost use Rattle.cert_text_parse.specs.PartOutcomes.{read_place_at};
ghost use Rattle.cert_text_parse.specs.PartOutcomes.{ParsesBinary, ParsesSource};

use crate::numbers::number;
use crate::{Cursor, TextFault};
use attempt::Refusal;
use proof_tree::{BinaryPoint, Points, SourcePoint};
use proof_tree_spec::Place;
use std::alloc::Global;

/// What ends a point.
#[derive(Clone, Copy)]
pub enum Ending {
    /// a space
    Space,
    /// a line feed
    LineFeed,
}

// Whether a point ends: `/` goes on.
fn ends_after_call(cursor: &mut Cursor<'_>, end: Ending) -> Result<bool, Refusal<TextFault>>
    ensures { Parses (parts.read_slash (ending_text end)) cursor.old cursor.new result }
{
    match end {
        Ending::Space => cursor.one_of(&[(b"/".as_slice(), false), (b" ", true)]),
        Ending::LineFeed => cursor.one_of(&[(b"/".as_slice(), false), (b"\n", true)]),
    }
}

// Whether a point ends after a place of a loop: it does.
fn ends_after_loop(cursor: &mut Cursor<'_>, end: Ending) -> Result<bool, Refusal<TextFault>>
    ensures { Parses (parts.read_place_end (ending_text end) (place.Test 0)) cursor.old cursor.new
        result }
{
    match end {
        Ending::Space => cursor.one_of(&[(b" ".as_slice(), true)]),
        Ending::LineFeed => cursor.one_of(&[(b"\n".as_slice(), true)]),
    }
}

// An address, and whether it is the last.
fn address_step(cursor: &mut Cursor<'_>, end: Ending) -> Result<(u32, bool), Refusal<TextFault>>
    ensures { Parses (read_address_at end) cursor.old cursor.new result }
{
    let address = match cursor.address() {
        Ok(address) => address,
        Err(stopped) => return Err(stopped),
    };
    match ends_after_call(cursor, end) {
        Ok(last) => Ok((address, last)),
        Err(stopped) => Err(stopped),
    }
}

// The letter of a place, which has no number yet.
fn letter(cursor: &mut Cursor<'_>) -> Result<Place, Refusal<TextFault>>
    ensures { Parses (readers.read_word parts.place_words) cursor.old cursor.new result }
{
    cursor.one_of(&[
        (b"t".as_slice(), Place::Test(0)),
        (b"b", Place::Body(0)),
        (b"k", Place::Call(0)),
    ])
}

// The place with a number.
fn numbered(place: Place, number: u32) -> Place
    ensures { result ≡ parts.with_number place number }
{
    match place {
        Place::Test(_) => Place::Test(number),
        Place::Body(_) => Place::Body(number),
        Place::Call(_) => Place::Call(number),
    }
}

// A place.
fn place(cursor: &mut Cursor<'_>) -> Result<Place, Refusal<TextFault>>
    ensures { Parses parts.read_place cursor.old cursor.new result }
{
    let letter = match letter(cursor) {
        Ok(letter) => letter,
        Err(stopped) => return Err(stopped),
    };
    match number(cursor) {
        Ok(number) => Ok(numbered(letter, number)),
        Err(stopped) => Err(stopped),
    }
}

// Whether a point ends after a place: only after a call it can go on.
fn ends_after(
    cursor: &mut Cursor<'_>,
    place: Place,
    end: Ending,
) -> Result<bool, Refusal<TextFault>>
    ensures { Parses (parts.read_place_end (ending_text end) place) cursor.old cursor.new result }
{
    match place {
        Place::Call(_) => ends_after_call(cursor, end),
        Place::Test(_) | Place::Body(_) => ends_after_loop(cursor, end),
    }
}

// A place, and whether it is the last.
fn place_step(cursor: &mut Cursor<'_>, end: Ending) -> Result<(Place, bool), Refusal<TextFault>>
    ensures { Parses (read_place_at end) cursor.old cursor.new result }
{
    let place = match place(cursor) {
        Ok(place) => place,
        Err(stopped) => return Err(stopped),
    };
    match ends_after(cursor, place, end) {
        Ok(last) => Ok((place, last)),
        Err(stopped) => Err(stopped),
    }
}

// A point of the binary, and what ends it: the addresses of the calls are added to a path, and that
// of the instruction is given.
fn binary_path(
    cursor: &mut Cursor<'_>,
    path: &mut Vec<u32>,
    end: Ending,
) -> Result<u32, Refusal<TextFault>>
    requires { path.old.items ≡ [] }
    ensures { ParsesBinary end path.new.items cursor.old cursor.new result }
{
    loop {
        let (address, is_last) = match address_step(cursor, end) {
            Ok(step) => step,
            Err(stopped) => return Err(stopped),
        };
        if is_last {
            return Ok(address);
        }
        path.push(address)?;
    }
}

/// A point of the binary, and what ends it.
pub fn binary_point(
    alloc: Global,
    cursor: &mut Cursor<'_>,
    end: Ending,
) -> Result<BinaryPoint, Refusal<TextFault>>
    ensures { ParsesAs view.binary_point_of (parts.read_binary (ending_text end)) cursor.old
        cursor.new result }
{
    let mut path = Vec::new(alloc);
    match binary_path(cursor, &mut path, end) {
        Ok(address) => Ok(BinaryPoint { path, address }),
        Err(stopped) => Err(stopped),
    }
}

// The number of a place.
fn number_of(place: Place) -> u32
    ensures { result ≡ parts.place_number place }
{
    match place {
        Place::Test(number) | Place::Body(number) | Place::Call(number) => number,
    }
}

// A point of the source, and what ends it: the numbers of the calls are added to a path, and the
// place is given.
fn source_path(
    cursor: &mut Cursor<'_>,
    path: &mut Vec<u32>,
    end: Ending,
) -> Result<Place, Refusal<TextFault>>
    requires { path.old.items ≡ [] }
    ensures { ParsesSource end path.new.items cursor.old cursor.new result }
{
    loop {
        let (place, is_last) = match place_step(cursor, end) {
            Ok(step) => step,
            Err(stopped) => return Err(stopped),
        };
        if is_last {
            return Ok(place);
        }
        path.push(number_of(place))?;
    }
}

/// A point of the source, and what ends it.
pub fn source_point(
    alloc: Global,
    cursor: &mut Cursor<'_>,
    end: Ending,
) -> Result<SourcePoint, Refusal<TextFault>>
    ensures { ParsesAs view.source_point_of (parts.read_source (ending_text end)) cursor.old
        cursor.new result }
{
    let mut path = Vec::new(alloc);
    match source_path(cursor, &mut path, end) {
        Ok(place) => Ok(SourcePoint { path, place }),
        Err(stopped) => Err(stopped),
    }
}

/// A point of each side, each with a space after it.
pub fn both_points(alloc: Global, cursor: &mut Cursor<'_>) -> Result<Points, Refusal<TextFault>>
    ensures { ParsesAs view.points_of parts.read_points cursor.old cursor.new result }
{
    let binary = match binary_point(alloc, cursor, Ending::Space) {
        Ok(binary) => binary,
        Err(stopped) => return Err(stopped),
    };
    match source_point(alloc, cursor, Ending::Space) {
        Ok(source) => Ok(Points { binary, source }),
        Err(stopped) => Err(stopped),
    }
}
