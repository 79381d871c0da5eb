// A visit of terms that has begun.

use crate::table::TermTable;
use bit_blast_circuits::Gates;
use std::collections::HashMap;
use term_bank::{TermId, TermNode};

/// What is left to do.
#[derive(Clone, Copy)]
pub(crate) enum Task {
    /// the visit of a term
    Visit(TermId),
    /// the entry of a term whose arguments have their indices
    Finish(TermId, TermNode),
}

/// The gates and the terms so far, and the tasks that are left, of which the last is the next.
#[derive(Drop)]
pub(crate) struct Traversal {
    pub(crate) gates: Gates,
    pub(crate) table: TermTable,
    pub(crate) indices: HashMap<TermId, usize>,
    pub(crate) tasks: Vec<Task>,
}
