//! Lines, and the lists in which the literals and hints of logs are.

ghost use Rattle.std.specs.Prelude.{◌≡◌, IfOk};

use cert_text_spec::Symbol;
use proof_tree::{BinaryPoint, Points, SourcePoint};
use proof_tree_spec::Counts;
use std::alloc::{AllocError, Global};

/// A literal of a step of a log, in eight bytes.
#[derive(Clone, Copy)]
pub struct Literal {
    /// The number of the variable, from 1.
    pub variable: u32,
    /// Whether it is negated.
    pub is_negated: bool,
}

/// The literals and hints of all steps of logs, one step after the other.
#[derive(Drop)]
pub struct Logs {
    /// The literals.
    pub literals: Vec<Literal>,
    /// The hints, each from 1.
    pub hints: Vec<u32>,
}

/// The line of a function's part.
#[derive(Drop)]
pub struct Part {
    /// The name of the function.
    pub name: Vec<u8>,
    /// Its stack, in bytes.
    pub stack: u32,
}

/// A restriction of the arrivals at a point of the binary.
#[derive(Drop)]
pub struct BinaryRestriction {
    /// The point.
    pub point: BinaryPoint,
    /// So many arrivals don't come.
    pub count: u32,
}

/// A restriction of the arrivals at a point of the source.
#[derive(Drop)]
pub struct SourceRestriction {
    /// The point.
    pub point: SourcePoint,
    /// So many arrivals don't come.
    pub count: u32,
}

/// A cut at a point of each side.
#[derive(Drop)]
pub struct Split {
    /// The points.
    pub points: Points,
    /// How many arrivals there are from the start to the cut.
    pub enter: Counts,
    /// How many arrivals there are from the cut on.
    pub step: Counts,
    /// How many lines of the relation follow.
    pub relations: u32,
}

/// A cut at a call of each side.
#[derive(Drop)]
pub struct Call {
    /// The calls.
    pub points: Points,
    /// How many arrivals there are.
    pub counts: Counts,
    /// How many lines of the relation before the calls follow.
    pub before: u32,
    /// How many lines of the relation after them follow.
    pub after: u32,
}

/// A line of a certificate: 24 bytes, and what it owns.
#[derive(Drop)]
pub enum Line {
    /// `tv-cert 1`
    Header,
    /// `function NAME stack N`
    Function(Box<Part>),
    /// `inline a POINT`
    InlineBinary(Box<BinaryPoint>),
    /// `inline c POINT`
    InlineSource(Box<SourcePoint>),
    /// `leaf N`: so many logs follow
    Leaf(u32),
    /// `case TERM`: its symbols
    Case(Box<Vec<Symbol>>),
    /// `restrict a POINT N`
    RestrictBinary(Box<BinaryRestriction>),
    /// `restrict c POINT N`
    RestrictSource(Box<SourceRestriction>),
    /// `split POINT POINT N N N N N`
    Split(Box<Split>),
    /// `call POINT POINT N N N N`
    Call(Box<Call>),
    /// `rel TERM`: its symbols
    Relation(Box<Vec<Symbol>>),
    /// `log N`: so many steps follow
    Log(u32),
    /// `s LITERALS 0 HINTS 0`: how many literals, and how many hints, are next in the lists
    Step(usize, usize),
    /// `end`
    End,
}

/// A value in memory of its own.
pub(crate) fn boxed<T: Drop>(alloc: Global, value: T) -> Result<Box<T>, AllocError>
    ensures { IfOk result (λ x. x.value ≡ value) }
{
    Ok(Box::new(alloc, value)?)
}
