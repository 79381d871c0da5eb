//! Calls, and the expression statements (6.5.2.2, 6.5.16, 6.8.3).

use crate::expression::{Expression, Name};
use c_syntax_spec::{BinaryOperator, StepOperator};

/// `callee(arguments)`
#[derive(Drop)]
pub struct Call<'a> {
    /// The function's name.
    pub callee: Name<'a>,
    /// The arguments in order.
    pub arguments: Vec<Box<Expression<'a>>>,
}

/// What is assigned or returned.
#[derive(Drop)]
pub enum Value<'a> {
    /// The result of a call.
    Called(Box<Call<'a>>),
    /// An expression.
    Computed(Box<Expression<'a>>),
}

/// An expression statement without its semicolon, or a piece of a `for`.
#[derive(Drop)]
pub enum Simple<'a> {
    /// `target = value`, and the offset of the operator.
    Assign(Box<Expression<'a>>, Box<Value<'a>>, usize),
    /// `target op= value`, and the offset of the operator.
    AssignBy(BinaryOperator, Box<Expression<'a>>, Box<Expression<'a>>, usize),
    /// `target++`, `target--`, and the offset of the operator.
    StepAfter(StepOperator, Box<Expression<'a>>, usize),
    /// `++target`, `--target`, and the offset of the operator.
    StepBefore(StepOperator, Box<Expression<'a>>, usize),
    /// A value that is dropped.
    Evaluate(Box<Value<'a>>),
}
