//! The words with which the symbols of a term begin; a number that follows is 0 here.

ghost use Rattle.std.specs.Prelude.{suc};
ghost use Rattle.cert_text_spec.specs.Terms.{ATerm, AVariable, Arguments};
ghost use Rattle.cert_text_laws.specs.Readers as readers;
ghost use Rattle.cert_text_laws.specs.Heads.{words_at};
ghost use Rattle.cert_text_parse.specs.Outcomes.{Parses};

use crate::{Cursor, TextFault};
use attempt::Refusal;
use cert_text_spec::{Operator, Symbol};
use term_core_spec::Width;

/// Those of a term.
static FIRSTS: [(&[u8], Symbol); 39] = [
    (b"true", Symbol::Truth(true)),
    (b"false", Symbol::Truth(false)),
    (b"8:", Symbol::Constant(Width::W8, 0)),
    (b"16:", Symbol::Constant(Width::W16, 0)),
    (b"32:", Symbol::Constant(Width::W32, 0)),
    (b"64:", Symbol::Constant(Width::W64, 0)),
    (b"x", Symbol::Register(0)),
    (b"e", Symbol::Entry(0)),
    (b"k", Symbol::Inlined(0)),
    (b"v", Symbol::Local(0)),
    (b"s", Symbol::IsSet(0)),
    (b"p", Symbol::Parameter(0)),
    (b"m", Symbol::SourceMemory),
    (b"z", Symbol::ZoneMemory),
    (b"am", Symbol::BinaryMemory),
    (b"(eq", Symbol::Open(Operator::Equal)),
    (b"(ult", Symbol::Open(Operator::Less)),
    (b"(ite", Symbol::Open(Operator::Choose)),
    (b"(not", Symbol::Open(Operator::Not)),
    (b"(and", Symbol::Open(Operator::And)),
    (b"(or", Symbol::Open(Operator::Or)),
    (b"(add", Symbol::Open(Operator::Add)),
    (b"(sub", Symbol::Open(Operator::Subtract)),
    (b"(mul", Symbol::Open(Operator::Multiply)),
    (b"(band", Symbol::Open(Operator::BitAnd)),
    (b"(bor", Symbol::Open(Operator::BitOr)),
    (b"(bxor", Symbol::Open(Operator::BitXor)),
    (b"(bnot", Symbol::Open(Operator::Complement)),
    (b"(shl", Symbol::Open(Operator::ShiftLeft)),
    (b"(shr", Symbol::Open(Operator::ShiftRight)),
    (b"(sar", Symbol::Open(Operator::ShiftRightSigned)),
    (b"(udiv", Symbol::Open(Operator::Divide)),
    (b"(urem", Symbol::Open(Operator::Remainder)),
    (b"(join", Symbol::Open(Operator::Join)),
    (b"(load8", Symbol::Open(Operator::Load)),
    (b"(zext ", Symbol::Open(Operator::ZeroExtend(0))),
    (b"(sext ", Symbol::Open(Operator::SignExtend(0))),
    (b"(low ", Symbol::Open(Operator::Low(0))),
    (b"(byte ", Symbol::Open(Operator::Byte(0))),
];

/// Those of a call's variable.
static VARIABLES: [(&[u8], Symbol); 4] = [
    (b"k", Symbol::Inlined(0)),
    (b"v", Symbol::Local(0)),
    (b"s", Symbol::IsSet(0)),
    (b"p", Symbol::Parameter(0)),
];

/// Those of an argument, and the bracket after the last.
static ARGUMENTS: [(&[u8], Symbol); 40] = [
    (b")", Symbol::Close),
    (b" true", Symbol::Truth(true)),
    (b" false", Symbol::Truth(false)),
    (b" 8:", Symbol::Constant(Width::W8, 0)),
    (b" 16:", Symbol::Constant(Width::W16, 0)),
    (b" 32:", Symbol::Constant(Width::W32, 0)),
    (b" 64:", Symbol::Constant(Width::W64, 0)),
    (b" x", Symbol::Register(0)),
    (b" e", Symbol::Entry(0)),
    (b" k", Symbol::Inlined(0)),
    (b" v", Symbol::Local(0)),
    (b" s", Symbol::IsSet(0)),
    (b" p", Symbol::Parameter(0)),
    (b" m", Symbol::SourceMemory),
    (b" z", Symbol::ZoneMemory),
    (b" am", Symbol::BinaryMemory),
    (b" (eq", Symbol::Open(Operator::Equal)),
    (b" (ult", Symbol::Open(Operator::Less)),
    (b" (ite", Symbol::Open(Operator::Choose)),
    (b" (not", Symbol::Open(Operator::Not)),
    (b" (and", Symbol::Open(Operator::And)),
    (b" (or", Symbol::Open(Operator::Or)),
    (b" (add", Symbol::Open(Operator::Add)),
    (b" (sub", Symbol::Open(Operator::Subtract)),
    (b" (mul", Symbol::Open(Operator::Multiply)),
    (b" (band", Symbol::Open(Operator::BitAnd)),
    (b" (bor", Symbol::Open(Operator::BitOr)),
    (b" (bxor", Symbol::Open(Operator::BitXor)),
    (b" (bnot", Symbol::Open(Operator::Complement)),
    (b" (shl", Symbol::Open(Operator::ShiftLeft)),
    (b" (shr", Symbol::Open(Operator::ShiftRight)),
    (b" (sar", Symbol::Open(Operator::ShiftRightSigned)),
    (b" (udiv", Symbol::Open(Operator::Divide)),
    (b" (urem", Symbol::Open(Operator::Remainder)),
    (b" (join", Symbol::Open(Operator::Join)),
    (b" (load8", Symbol::Open(Operator::Load)),
    (b" (zext ", Symbol::Open(Operator::ZeroExtend(0))),
    (b" (sext ", Symbol::Open(Operator::SignExtend(0))),
    (b" (low ", Symbol::Open(Operator::Low(0))),
    (b" (byte ", Symbol::Open(Operator::Byte(0))),
];

/// Those of an argument that can't be an operator.
static ATOMS: [(&[u8], Symbol); 16] = [
    (b")", Symbol::Close),
    (b" true", Symbol::Truth(true)),
    (b" false", Symbol::Truth(false)),
    (b" 8:", Symbol::Constant(Width::W8, 0)),
    (b" 16:", Symbol::Constant(Width::W16, 0)),
    (b" 32:", Symbol::Constant(Width::W32, 0)),
    (b" 64:", Symbol::Constant(Width::W64, 0)),
    (b" x", Symbol::Register(0)),
    (b" e", Symbol::Entry(0)),
    (b" k", Symbol::Inlined(0)),
    (b" v", Symbol::Local(0)),
    (b" s", Symbol::IsSet(0)),
    (b" p", Symbol::Parameter(0)),
    (b" m", Symbol::SourceMemory),
    (b" z", Symbol::ZoneMemory),
    (b" am", Symbol::BinaryMemory),
];

/// The word of a symbol where a term begins.
pub(crate) fn first_word(cursor: &mut Cursor<'_>) -> Result<Symbol, Refusal<TextFault>>
    ensures { Parses (readers.read_word (words_at (ATerm 128))) cursor.old cursor.new result }
{
    cursor.one_of(&FIRSTS)
}

/// The word of a symbol where a call's variable is expected.
pub(crate) fn variable_word(cursor: &mut Cursor<'_>) -> Result<Symbol, Refusal<TextFault>>
    ensures { Parses (readers.read_word (words_at AVariable)) cursor.old cursor.new result }
{
    cursor.one_of(&VARIABLES)
}

/// The word of a symbol where an argument can be a term with so many operators on a path.
pub(crate) fn argument_word(
    cursor: &mut Cursor<'_>,
    room: usize,
) -> Result<Symbol, Refusal<TextFault>>
    ensures { Parses (readers.read_word (words_at (Arguments room))) cursor.old cursor.new result }
{
    if room == 0 {
        cursor.one_of(&ATOMS)
    } else {
        cursor.one_of(&ARGUMENTS)
    }
}
