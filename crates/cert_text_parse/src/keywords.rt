//! What is expected, and the words with which lines begin.

ghost use Rattle.cert_text_laws.specs.Readers as readers;
ghost use Rattle.cert_text_parse.specs.Outcomes.{Parses};
ghost use Rattle.cert_text_spec.specs.Certificates.{AProof};
ghost use Rattle.cert_text_parse.specs.Keywords.{expected_of, words};

use crate::{Cursor, TextFault};
use attempt::Refusal;

/// What is expected in a certificate.
#[derive(Clone, Copy)]
pub enum Expected {
    /// the version
    Header,
    /// the parts of functions, and the end
    Parts,
    /// calls that are inlined in the binary, those of the source, and a proof
    BinaryInlines,
    /// calls that are inlined in the source, and a proof
    SourceInlines,
    /// a proof, with at most so many nodes on a path below its root
    Proof(usize),
    /// a line of a relation
    Relation,
    /// a log
    Log,
    /// a step of a log
    Step,
}

/// The line of a rule.
#[derive(Clone, Copy)]
pub(crate) enum Rule {
    /// `leaf`
    Leaf,
    /// `case`
    Case,
    /// `restrict a`
    RestrictBinary,
    /// `restrict c`
    RestrictSource,
    /// `split`
    Split,
    /// `call`
    Call,
}

/// A line that is neither a rule nor a step of a log.
#[derive(Clone, Copy)]
pub(crate) enum Other {
    /// the version
    Header,
    /// `function`
    Function,
    /// `inline a`
    InlineBinary,
    /// `inline c`
    InlineSource,
    /// `rel`
    Relation,
    /// `log`
    Log,
    /// `end`
    End,
}

/// With what a line begins.
#[derive(Clone, Copy)]
pub(crate) enum Keyword {
    /// a rule
    Rule(Rule),
    /// a line that is neither a rule nor a step
    Other(Other),
    /// `s`: a step of a log
    Step,
}

/// Those of the first line.
static HEADER: [(&[u8], Keyword); 1] = [(b"tv-cert 1\n", Keyword::Other(Other::Header))];

/// Those of parts.
static PARTS: [(&[u8], Keyword); 2] = [
    (b"function ", Keyword::Other(Other::Function)),
    (b"end\n", Keyword::Other(Other::End)),
];

/// Those of calls that are inlined in the binary, and of what follows them.
static BINARY_INLINES: [(&[u8], Keyword); 8] = [
    (b"inline a ", Keyword::Other(Other::InlineBinary)),
    (b"inline c ", Keyword::Other(Other::InlineSource)),
    (b"leaf ", Keyword::Rule(Rule::Leaf)),
    (b"case ", Keyword::Rule(Rule::Case)),
    (b"restrict a ", Keyword::Rule(Rule::RestrictBinary)),
    (b"restrict c ", Keyword::Rule(Rule::RestrictSource)),
    (b"split ", Keyword::Rule(Rule::Split)),
    (b"call ", Keyword::Rule(Rule::Call)),
];

/// Those of calls that are inlined in the source, and of what follows them.
static SOURCE_INLINES: [(&[u8], Keyword); 7] = [
    (b"inline c ", Keyword::Other(Other::InlineSource)),
    (b"leaf ", Keyword::Rule(Rule::Leaf)),
    (b"case ", Keyword::Rule(Rule::Case)),
    (b"restrict a ", Keyword::Rule(Rule::RestrictBinary)),
    (b"restrict c ", Keyword::Rule(Rule::RestrictSource)),
    (b"split ", Keyword::Rule(Rule::Split)),
    (b"call ", Keyword::Rule(Rule::Call)),
];

/// Those of rules.
static RULES: [(&[u8], Keyword); 6] = [
    (b"leaf ", Keyword::Rule(Rule::Leaf)),
    (b"case ", Keyword::Rule(Rule::Case)),
    (b"restrict a ", Keyword::Rule(Rule::RestrictBinary)),
    (b"restrict c ", Keyword::Rule(Rule::RestrictSource)),
    (b"split ", Keyword::Rule(Rule::Split)),
    (b"call ", Keyword::Rule(Rule::Call)),
];

/// That of the rule with no proof after it.
static LEAF: [(&[u8], Keyword); 1] = [(b"leaf ", Keyword::Rule(Rule::Leaf))];

/// That of a line of a relation.
static RELATION: [(&[u8], Keyword); 1] = [(b"rel ", Keyword::Other(Other::Relation))];

/// That of a log.
static LOG: [(&[u8], Keyword); 1] = [(b"log ", Keyword::Other(Other::Log))];

/// That of a step.
static STEP: [(&[u8], Keyword); 1] = [(b"s ", Keyword::Step)];

// The keyword of a rule.
fn rule_keyword(cursor: &mut Cursor<'_>, room: usize) -> Result<Keyword, Refusal<TextFault>>
    ensures { Parses (readers.read_word (words (AProof room))) cursor.old cursor.new result }
{
    if room == 0 {
        cursor.one_of(&LEAF)
    } else {
        cursor.one_of(&RULES)
    }
}

/// The keyword of a line where this is expected.
pub(crate) fn read_keyword(
    cursor: &mut Cursor<'_>,
    expected: Expected,
) -> Result<Keyword, Refusal<TextFault>>
    ensures { Parses (readers.read_word (words (expected_of expected))) cursor.old cursor.new
        result }
{
    match expected {
        Expected::Header => cursor.one_of(&HEADER),
        Expected::Parts => cursor.one_of(&PARTS),
        Expected::BinaryInlines => cursor.one_of(&BINARY_INLINES),
        Expected::SourceInlines => cursor.one_of(&SOURCE_INLINES),
        Expected::Proof(room) => rule_keyword(cursor, room),
        Expected::Relation => cursor.one_of(&RELATION),
        Expected::Log => cursor.one_of(&LOG),
        Expected::Step => cursor.one_of(&STEP),
    }
}
