// The numbers of a block, and what facts and merges say of them.

use term_bank::{TermId, TermNode};
use term_core_spec::Atom;

/// A number that is true, or one that is false.
#[derive(Clone, Copy)]
pub struct Fact {
    /// the number, from 1
    pub number: usize,
    /// whether it is true
    pub holds: bool,
}

/// A fact as a line names it.
#[derive(Clone, Copy)]
pub struct Reading {
    /// the fact
    pub fact: Fact,
    /// whether it is read as it was made; else it is rebuilt
    pub as_made: bool,
}

/// What a number is merged with.
#[derive(Clone, Copy)]
pub(crate) enum Other {
    /// the number at an index
    Index(usize),
    /// a constant
    Constant(Atom),
}

/// What facts and merges say of a number.
#[derive(Clone, Copy)]
pub(crate) struct Marks {
    /// the later of the facts that it is true, or false
    pub known: Option<bool>,
    /// whether there is a fact that it is true
    pub is_true: bool,
    /// whether there is a fact that it is false
    pub is_false: bool,
    /// what it was last merged with
    pub merged: Option<Other>,
}

/// A number: an operator over the indices of its arguments, its term, and what that is now.
#[derive(Clone, Copy)]
pub(crate) struct Number {
    /// the index of a number is one less
    pub operation: TermNode,
    /// as it was made
    pub term: TermId,
    /// as it is now
    pub now: TermId,
    /// what is known of it
    pub marks: Marks,
}
