// Flat terms and their loads by their indices in a bank.

use term_bank::TermId;
use term_core_spec::Variable;

/// A load by terms without loads. The byte is a variable of the family `LoadedByte`, whose index is
/// the load's number among the loads of its term.
#[derive(Clone, Copy, Debug)]
pub struct LoadIds {
    /// the memory that is loaded from
    pub memory: Variable,
    /// the index of the address
    pub address: TermId,
    /// the index of the byte
    pub byte: TermId,
}

/// The flat term of a term.
#[derive(Debug, Drop)]
pub struct Flat {
    /// the index of the flat term
    pub term: TermId,
    /// each load of the term once, arguments before their term and from left to right
    pub loads: Vec<LoadIds>,
}
