//! Nodes whose terms are in a bank.

use graph_core_spec::Next;
use term_bank::TermId;
use term_core_spec::Variable;

/// A variable, and the index of the term whose value it gets.
#[derive(Clone, Copy)]
pub struct SharedBinding {
    /// What is bound.
    pub variable: Variable,
    /// Its value, in terms of the values before.
    pub term: TermId,
}

/// A node whose terms are in its graph's bank: the same as [`Node`](crate::Node) with an index in
/// place of each term.
#[derive(Drop)]
pub enum SharedNode {
    /// It binds variables, all at once, and continues.
    Basic {
        /// What it binds.
        bindings: Vec<SharedBinding>,
        /// Where it continues.
        next: Next,
    },
    /// It continues by a test.
    Cond {
        /// The test, a truth value.
        test: TermId,
        /// Where it continues if the test holds.
        on_true: Next,
        /// Where it continues if it doesn't.
        on_false: Next,
    },
    /// It runs another graph, and continues at its landing node where that returns.
    Call {
        /// The index of that graph in the set.
        callee: usize,
        /// The callee's variables, in terms of the caller's.
        inputs: Vec<SharedBinding>,
        /// Variables of the caller, in terms of the callee's.
        outputs: Vec<SharedBinding>,
        /// The landing node.
        landing: usize,
    },
}
