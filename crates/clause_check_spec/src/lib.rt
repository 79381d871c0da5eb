//! Clauses of literals, which assignments satisfy them (`specs/Clause.antt`), and which steps of a
//! log follow from them by reverse unit propagation along hints, as in LRAT (`specs/Step.antt`). Of
//! the crate only [`Literal`] and the names of faults, [`StepFaultKind`], run.
#![tactic(auto)]

/// A variable or its negation. Variables are numbered from 1.
#[derive(Clone, Copy)]
pub struct Literal {
    /// The number of the variable.
    pub variable: usize,
    /// Whether it is the negation.
    pub is_negated: bool,
}

/// Why a step does not follow.
#[derive(Clone, Copy, Debug)]
pub enum StepFaultKind {
    /// Its literals name a variable twice, or one that the clauses lack.
    Literals,
    /// The hint is no number of an earlier clause.
    Range,
    /// The hint's clause has a true literal.
    True,
    /// The hint's clause has two literals that are not false.
    Two,
    /// The hint's clause has only false literals, and is not the last one.
    Early,
    /// After the last hint no clause has only false literals.
    Open,
}
