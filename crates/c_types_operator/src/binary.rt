//! The rule of each operator between two operands, and of each before one.

ghost use Rattle.std.specs.Prelude.{◌≡◌};
ghost use Rattle.c_types_spec.specs.Operators as operators;
ghost use Rattle.c_types_layout.specs.Structs.{structs_of};
ghost use Rattle.c_types_operator.specs.Classes as classes;
ghost use Rattle.c_types_operator.specs.Gives.{Gives};
ghost use Rattle.c_types_operator.specs.Operands.{operand_of, valued_of};

use crate::arithmetic::{arithmetic, shift};
use crate::comparison::{equality, relation};
use crate::logic::{conjunction, disjunction};
use crate::operand::{Operand, Valued};
use crate::pointer::{difference, sum};
use attempt::Refusal;
use c_syntax_spec::BinaryOperator;
use c_types_core::fault::TypeFault;
use c_types_layout::structs::Definition;
use c_types_spec::{Arithmetic, Comparison};
use std::alloc::Global;

/// Operators between two operands, by their rules.
#[derive(Clone, Copy)]
pub enum Class {
    /// `||`
    Disjunction,
    /// `&&`
    Conjunction,
    /// An operator on integers alone.
    OnIntegers(Arithmetic),
    /// A shift.
    Shift(Arithmetic),
    /// An order.
    Relation(Comparison),
    /// `==` and `!=`
    Equality(Comparison),
    /// `+`
    Sum,
    /// `-`
    Difference,
}

/// The class of an operator.
fn class_of(operator: BinaryOperator) -> Class
    ensures { result ≡ classes.class_of operator }
{
    match operator {
        BinaryOperator::LogicalOr => Class::Disjunction,
        BinaryOperator::LogicalAnd => Class::Conjunction,
        BinaryOperator::BitOr => Class::OnIntegers(Arithmetic::Or),
        BinaryOperator::BitXor => Class::OnIntegers(Arithmetic::Xor),
        BinaryOperator::BitAnd => Class::OnIntegers(Arithmetic::And),
        BinaryOperator::Equal => Class::Equality(Comparison::Equal),
        BinaryOperator::NotEqual => Class::Equality(Comparison::NotEqual),
        BinaryOperator::Less => Class::Relation(Comparison::Less),
        BinaryOperator::Greater => Class::Relation(Comparison::Greater),
        BinaryOperator::LessOrEqual => Class::Relation(Comparison::LessOrEqual),
        BinaryOperator::GreaterOrEqual => Class::Relation(Comparison::GreaterOrEqual),
        BinaryOperator::ShiftLeft => Class::Shift(Arithmetic::ShiftLeft),
        BinaryOperator::ShiftRight => Class::Shift(Arithmetic::ShiftRight),
        BinaryOperator::Add => Class::Sum,
        BinaryOperator::Subtract => Class::Difference,
        BinaryOperator::Multiply => Class::OnIntegers(Arithmetic::Multiply),
        BinaryOperator::Divide => Class::OnIntegers(Arithmetic::Divide),
        BinaryOperator::Remainder => Class::OnIntegers(Arithmetic::Remainder),
    }
}

/// An operator between two operands.
#[tactic(auto, using(crate::proofs::Classes::classed))]
pub fn binary_rule<'a>(
    alloc: Global,
    operator: BinaryOperator,
    structs: &[Definition<'a>],
    a: Valued<'a>,
    b: Valued<'a>,
    offset: usize,
) -> Result<Operand<'a>, Refusal<TypeFault>>
    ensures { Gives operand_of result (operators.binary_rule operator (structs_of structs.now)
        (valued_of a.entry) (valued_of b.entry) offset) }
{
    match class_of(operator) {
        Class::Disjunction => disjunction(alloc, a, b, offset),
        Class::Conjunction => conjunction(alloc, a, b, offset),
        Class::OnIntegers(operator) => arithmetic(alloc, operator, a, b, offset),
        Class::Shift(operator) => shift(alloc, operator, a, b, offset),
        Class::Relation(operator) => relation(alloc, operator, a, b, offset),
        Class::Equality(operator) => equality(alloc, operator, a, b, offset),
        Class::Sum => sum(alloc, structs, a, b, offset),
        Class::Difference => difference(alloc, structs, a, b, offset),
    }
}
