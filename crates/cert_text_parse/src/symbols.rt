//! Symbols of a term.

ghost use Rattle.std.specs.Prelude.{◌≡◌, suc, true, is_some};
ghost use Rattle.cert_text_spec.specs.Terms as terms;
ghost use Rattle.cert_text_laws.specs.Heads as heads;
ghost use Rattle.cert_text_parse.specs.Outcomes.{Parses};
ghost use Rattle.cert_text_laws.specs.Readers as readers;
ghost use Rattle.cert_text_parse.specs.Terms.{expected_of, is_plain, read_after};

use crate::numbers::number;
use crate::part_words::{argument_word, first_word, variable_word};
use crate::{Cursor, TextFault};
use attempt::Refusal;
use cert_text_spec::{Operator, Symbol};
use term_core_spec::Width;

/// What is expected in a term.
#[derive(Clone, Copy)]
pub(crate) enum Expected {
    /// the term, with at most `NESTING_LIMIT` operators on a path
    Term,
    /// the variable after a call's number
    Variable,
    /// arguments with at most so many operators on a path, and the closing bracket
    Arguments(usize),
}

// No digit comes next.
fn no_digit(cursor: &mut Cursor<'_>) -> Result<(), Refusal<TextFault>>
    ensures { Parses heads.read_no_digit cursor.old cursor.new result }
{
    match cursor.rest {
        [first, ..] if first.is_ascii_digit() => Err(Refusal::Fault(TextFault::Wrong)),
        _ => Ok(()),
    }
}

// The number of a call, `/`, and no digit.
fn call(cursor: &mut Cursor<'_>) -> Result<u32, Refusal<TextFault>>
    ensures { Parses heads.read_call cursor.old cursor.new result }
{
    let number = match number(cursor) {
        Ok(number) => number,
        Err(stopped) => return Err(stopped),
    };
    match cursor.one_of(&[(b"/".as_slice(), ())]) {
        Ok(()) => {}
        Err(stopped) => return Err(stopped),
    }
    match no_digit(cursor) {
        Ok(()) => Ok(number),
        Err(stopped) => Err(stopped),
    }
}

// Whether a number follows a symbol's word.
fn has_number(word: Symbol) -> bool
    ensures { result ≡ is_some (terms.number word) }
{
    match word {
        Symbol::Truth(_)
        | Symbol::SourceMemory
        | Symbol::ZoneMemory
        | Symbol::BinaryMemory
        | Symbol::Close => false,
        Symbol::Open(operator) => operator_has_number(operator),
        _ => true,
    }
}

// Whether a number follows an operator's word.
fn operator_has_number(operator: Operator) -> bool
    ensures { result ≡ is_some (terms.operator_number operator) }
{
    match operator {
        Operator::ZeroExtend(_) | Operator::SignExtend(_) | Operator::Low(_) | Operator::Byte(_) =>
            { true }
        _ => false,
    }
}

// The largest number of a width.
fn largest(width: Width) -> u64
    ensures { suc result ≡ terms.width_bound width }
{
    match width {
        Width::W8 => 0xff,
        Width::W16 => 0xffff,
        Width::W32 => 0xffff_ffff,
        Width::W64 => 0xffff_ffff_ffff_ffff,
    }
}

// A symbol that is no constant and no call, of which the word was read.
fn plain_after_word(cursor: &mut Cursor<'_>, word: Symbol) -> Result<Symbol, Refusal<TextFault>>
    requires { is_plain word ≡ true }
    ensures { Parses (read_after word) cursor.old cursor.new result }
{
    if has_number(word) {
        match number(cursor) {
            Ok(number) => Ok(numbered(word, number)),
            Err(stopped) => Err(stopped),
        }
    } else {
        match no_digit(cursor) {
            Ok(()) => Ok(word),
            Err(stopped) => Err(stopped),
        }
    }
}

// A symbol, of which the word was read.
fn after_word(cursor: &mut Cursor<'_>, word: Symbol) -> Result<Symbol, Refusal<TextFault>>
    ensures { Parses (read_after word) cursor.old cursor.new result }
{
    match word {
        Symbol::Constant(width, _) => match cursor.decimal(0, largest(width)) {
            Ok(number) => Ok(Symbol::Constant(width, number)),
            Err(stopped) => Err(stopped),
        },
        Symbol::Inlined(_) => match call(cursor) {
            Ok(number) => Ok(Symbol::Inlined(number)),
            Err(stopped) => Err(stopped),
        },
        _ => plain_after_word(cursor, word),
    }
}

// The word of a symbol where this is expected.
fn word(cursor: &mut Cursor<'_>, expected: Expected) -> Result<Symbol, Refusal<TextFault>>
    ensures { Parses (readers.read_word (heads.words_at (expected_of expected))) cursor.old
        cursor.new result }
{
    match expected {
        Expected::Term => first_word(cursor),
        Expected::Variable => variable_word(cursor),
        Expected::Arguments(room) => argument_word(cursor, room),
    }
}

// The symbol of a word, with its number.
fn numbered(word: Symbol, number: u32) -> Symbol
    ensures { result ≡ heads.numbered word number }
{
    match word {
        Symbol::Constant(width, _) => Symbol::Constant(width, u64::from(number)),
        Symbol::Register(_) => Symbol::Register(number),
        Symbol::Entry(_) => Symbol::Entry(number),
        Symbol::Inlined(_) => Symbol::Inlined(number),
        Symbol::Local(_) => Symbol::Local(number),
        Symbol::IsSet(_) => Symbol::IsSet(number),
        Symbol::Parameter(_) => Symbol::Parameter(number),
        Symbol::Open(operator) => Symbol::Open(numbered_operator(operator, number)),
        other => other,
    }
}

// The operator with its number.
fn numbered_operator(operator: Operator, number: u32) -> Operator
    ensures { result ≡ heads.numbered_operator operator number }
{
    match operator {
        Operator::ZeroExtend(_) => Operator::ZeroExtend(number),
        Operator::SignExtend(_) => Operator::SignExtend(number),
        Operator::Low(_) => Operator::Low(number),
        Operator::Byte(_) => Operator::Byte(number),
        other => other,
    }
}

/// A symbol where this is expected.
pub(crate) fn symbol(
    cursor: &mut Cursor<'_>,
    expected: Expected,
) -> Result<Symbol, Refusal<TextFault>>
    ensures { Parses (heads.read_symbol (expected_of expected)) cursor.old cursor.new result }
{
    let word = match word(cursor, expected) {
        Ok(word) => word,
        Err(stopped) => return Err(stopped),
    };
    after_word(cursor, word)
}
