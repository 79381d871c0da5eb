// Nodes of terms.

use term_core_spec::{Atom, BinaryOperator, QuaternaryOperator, TernaryOperator, UnaryOperator};

/// A term by its operator and the indices of its arguments in a bank.
#[derive(Clone, Copy, PartialEq, Eq, Hash, Debug)]
pub enum TermNode {
    /// a term without arguments
    Leaf(Atom),
    /// an operator with one argument
    Unary(UnaryOperator, usize),
    /// an operator with two arguments
    Binary(BinaryOperator, usize, usize),
    /// an operator with three arguments
    Ternary(TernaryOperator, usize, usize, usize),
    /// an operator with four arguments
    Quaternary(QuaternaryOperator, usize, usize, usize, usize),
    /// the word of eight bytes, the lowest first
    Octonary(usize, usize, usize, usize, usize, usize, usize, usize),
}
