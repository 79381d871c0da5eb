//! What a search for a model of clauses keeps, and what it answers with. Of the crate only
//! [`Entry`], [`Watch`], [`Watcher`] and [`is_same`] run. The trail of true literals is defined in
//! `specs/Trail.antt`, two watched literals for each clause in `specs/Watches.antt`, conflict
//! analysis in `specs/Analysis.antt`, and the logs that are handed out (`Spent`, `Lean`) in
//! `specs/Logs.antt`.
#![tactic(auto)]

ghost use Rattle.std.specs.Prelude.{◌≡◌};
ghost use Rattle.std.specs.Bool.{MatchBool};

use cnf_core::Literal;

/// Whether two literals are the same.
pub fn is_same(first: Literal, second: Literal) -> bool
    ensures { MatchBool result (first ≡ second) (first ≡ second → ⊥) }
{
    first.code() == second.code()
}

/// A true literal of the trail, and why it is true.
#[derive(Clone, Copy)]
pub struct Entry {
    /// The literal.
    pub literal: Literal,
    /// The number of the clause that forced it, counted from 1; 0 where it was decided.
    pub reason: usize,
    /// How many decisions there are up to it.
    pub level: usize,
}

/// The two watched literals of a clause.
#[derive(Clone, Copy)]
pub struct Watch {
    /// One of them.
    pub first: Literal,
    /// The other one.
    pub second: Literal,
}

/// An element of the list of a literal: a clause that may watch it.
#[derive(Clone, Copy)]
pub struct Watcher {
    /// The index of the clause, counted from 0.
    pub clause: u32,
    /// A literal of the clause: where it is true, the clause needs no look.
    pub blocker: Literal,
}
