//! The functions that a certificate is a proof of, and what a line of it can break.
//!
//! `specs/Terms.antt` has the terms of certificates as terms over the variables of a proof,
//! `specs/Verdict.antt` the listed functions, and which of them lacks a part first. Of the crate
//! only the types below run.
#![tactic(auto)]

/// What a line of a certificate breaks, as the word of `not a proof`, in the order in which they
/// are tried at one line.
#[derive(Clone, Copy)]
pub enum RuleWord {
    /// The line needs a rule that is not checked yet.
    Later,
    /// The function of a part isn't listed, or has a part already.
    Stranger,
    /// Its stack isn't this.
    Stack,
    /// No call is there, or its path isn't inlined.
    Inline,
    /// A point is none of the function, or not a call's where one is expected, or a call's where
    /// none is; or two calls are of functions of different names.
    Point,
    /// A count is 0, or in a call above 1.
    Count,
    /// No earlier part is of the function that is called.
    Callee,
    /// A term is none over the variables in scope, or no truth value.
    Sort,
    /// A walk that has to end goes round.
    Cyclic,
    /// A goal of the frame doesn't let the cut pass.
    Passed,
    /// There are not so many obligations.
    Logs,
    /// A log that is said to be an earlier one's is of other clauses.
    Same,
    /// A step of a log doesn't follow by its hints.
    Step,
    /// A line of word steps doesn't follow.
    Word,
    /// Every step of a log follows, and the goal isn't closed.
    Unclosed,
    /// A listed function has no part.
    Missing,
}
