//! Numbers below 2^32, with what ends them.

ghost use Rattle.std.specs.Prelude.{codes};
ghost use Rattle.cert_text_laws.specs.Lines as lines;
ghost use Rattle.cert_text_laws.specs.Parts as parts;
ghost use Rattle.cert_text_parse.specs.Outcomes.{Parses};

use crate::{Cursor, TextFault};
use attempt::Refusal;
use proof_tree_spec::Counts;

// The largest number.
const LARGEST: u64 = 0xffff_ffff;

/// A number.
pub fn number(cursor: &mut Cursor<'_>) -> Result<u32, Refusal<TextFault>>
    ensures { Parses parts.read_number cursor.old cursor.new result }
{
    match cursor.decimal(0, LARGEST) {
        Ok(number) => Ok(number as u32),
        Err(stopped) => Err(stopped),
    }
}

/// A number, and a space.
pub fn spaced_number(cursor: &mut Cursor<'_>) -> Result<u32, Refusal<TextFault>>
    ensures { Parses (parts.read_ended parts.read_number (codes " ")) cursor.old cursor.new result }
{
    let number = match number(cursor) {
        Ok(number) => number,
        Err(stopped) => return Err(stopped),
    };
    match cursor.one_of(&[(b" ".as_slice(), ())]) {
        Ok(()) => Ok(number),
        Err(stopped) => Err(stopped),
    }
}

/// A number, and a line feed.
pub fn last_number(cursor: &mut Cursor<'_>) -> Result<u32, Refusal<TextFault>>
    ensures { Parses lines.read_last_number cursor.old cursor.new result }
{
    let number = match number(cursor) {
        Ok(number) => number,
        Err(stopped) => return Err(stopped),
    };
    match cursor.one_of(&[(b"\n".as_slice(), ())]) {
        Ok(()) => Ok(number),
        Err(stopped) => Err(stopped),
    }
}

/// A count of each side, each with a space after it.
pub fn counts(cursor: &mut Cursor<'_>) -> Result<Counts, Refusal<TextFault>>
    ensures { Parses parts.read_counts cursor.old cursor.new result }
{
    let binary = match spaced_number(cursor) {
        Ok(binary) => binary as usize,
        Err(stopped) => return Err(stopped),
    };
    match spaced_number(cursor) {
        Ok(source) => Ok(Counts {
            binary,
            source: source as usize,
        }),
        Err(stopped) => Err(stopped),
    }
}
