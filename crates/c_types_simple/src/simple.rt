//! Expression statements (6.8.3), and what a function returns (6.8.6.4).

ghost use Rattle.std.specs.Prelude.{◌≡◌, Some, Ok};
ghost use Rattle.std.specs.Option.{option_map};
ghost use Rattle.c_syntax.specs.Expressions.{expression_of};
ghost use Rattle.c_syntax.specs.Simples.{value_of as tree_value_of, simple_of};
ghost use Rattle.c_types_spec.specs.Statements as rule;
ghost use Rattle.c_types_operator.specs.Operands.{operand_of};
ghost use Rattle.c_types_scope.specs.States.{state_of, Runs};
ghost use Rattle.c_types_simple.specs.Contexts.{action_in, context_of};

use crate::assignment::{assignment, compound, one, step_operator};
use crate::calls::{call, call_assignment, call_into, return_value, through_return};
use crate::context::{Context, action_or_memory};
use attempt::{Refusal, attempt};
use c_syntax::expression::Expression;
use c_syntax::simple::{Simple, Value};
use c_syntax_spec::StepOperator;
use c_types_core::action::Action;
use c_types_core::fault::TypeFault;
use c_types_declaration::sizes::is_void;
use c_types_expression::expression::{expression, value};
use c_types_operator::attempt_or_drop;
use c_types_operator::operand::Operand;
use c_types_operator::value::value_of;
use c_types_scope::state::State;
use c_types_spec::{Position, TypeFaultKind};
use std::alloc::Global;

/// The expression is a name without brackets.
#[tactic(auto, using(c_syntax::proofs::Views::views))]
fn is_plain_name(x: &Expression<'_>) -> bool
    ensures { result ≡ rule.is_plain_name (expression_of x.now) }
{
    match x {
        Expression::Named(_) => true,
        Expression::Number(_, _, _) | Expression::Character(_, _) => false,
        Expression::Bracketed(_, _) | Expression::Index(_, _, _) => false,
        Expression::Member(_, _, _, _) | Expression::Unary(_, _, _) => false,
        Expression::Sizeof(_, _) | Expression::SizeofType(_, _) => false,
        Expression::Cast(_, _, _) | Expression::Binary(_, _, _, _) => false,
        Expression::Conditional(_, _, _, _) => false,
    }
}

/// A value is assigned to what a target gives.
#[tactic(auto, unfolding(c_types_spec::specs::Statements::assigned_from))]
fn assigned_from<'a>(
    alloc: Global,
    context: Context<'_>,
    target: &Expression<'a>,
    x: Operand<'a>,
    given: &Value<'a>,
    offset: usize,
    state: &mut State<'a>,
) -> Result<Box<Action<'a>>, Refusal<TypeFault>>
    ensures { Runs action_in result state.new (rule.assigned_from (context_of context.entry)
        (expression_of target.now) (operand_of x.entry) (tree_value_of given.now) offset (state_of
        state.old)) }
{
    match given {
        Value::Computed(source) => {
            let v = attempt_or_drop!(value(alloc, source, state); x);
            assignment(alloc, x, v, offset)
        }
        Value::Called(source) => {
            let made = attempt_or_drop!(call(alloc, source, state); x);
            call_assignment(
                alloc,
                context,
                x,
                is_plain_name(target),
                made,
                offset,
                state,
            )
        }
    }
}

/// An expression or a call whose value is dropped.
#[tactic(auto, unfolding(c_types_spec::specs::Statements::evaluated, c_types_operator::specs::Operands::valued_of))]
fn evaluated<'a>(
    alloc: Global,
    given: &Value<'a>,
    state: &mut State<'a>,
) -> Result<Box<Action<'a>>, Refusal<TypeFault>>
    ensures { Runs action_in result state.new (rule.evaluated (tree_value_of given.now) (state_of
        state.old)) }
{
    match given {
        Value::Computed(x) => {
            let made = attempt!(expression(alloc, x, Position::Statement, state));
            let v = attempt!(value_of(alloc, made));
            drop(v.of);
            action_or_memory(Action::evaluate(alloc, v.core))
        }
        Value::Called(x) => {
            let made = attempt!(call(alloc, x, state));
            call_into(alloc, made, None)
        }
    }
}

/// `++` or `--`
fn stepped<'a>(
    alloc: Global,
    operator: StepOperator,
    target: &Expression<'a>,
    offset: usize,
    state: &mut State<'a>,
) -> Result<Box<Action<'a>>, Refusal<TypeFault>>
    ensures { Runs action_in result state.new (rule.stepped operator (expression_of target.now)
        offset (state_of state.old)) }
{
    let x = attempt!(expression(alloc, target, Position::Operand, state));
    let one = attempt_or_drop!(one(alloc, offset); x);
    compound(alloc, step_operator(operator), x, one, offset, state)
}

/// An expression statement, or a piece of a `for`.
#[tactic(auto, unfolding(c_types_spec::specs::Statements::simple))]
pub fn simple<'a>(
    alloc: Global,
    given: &Simple<'a>,
    context: Context<'_>,
    state: &mut State<'a>,
) -> Result<Box<Action<'a>>, Refusal<TypeFault>>
    ensures { Runs action_in result state.new (rule.simple (simple_of given.now) (context_of
        context.entry) (state_of state.old)) }
{
    match given {
        Simple::Assign(target, source, offset) => {
            let x = attempt!(expression(alloc, target, Position::Operand, state));
            assigned_from(alloc, context, target, x, source, *offset, state)
        }
        Simple::AssignBy(operator, target, source, offset) => {
            let x = attempt!(expression(alloc, target, Position::Operand, state));
            let v = attempt_or_drop!(value(alloc, source, state); x);
            compound(alloc, *operator, x, v, *offset, state)
        }
        Simple::StepAfter(operator, target, offset)
        | Simple::StepBefore(operator, target, offset) => {
            stepped(alloc, *operator, target, *offset, state)
        }
        Simple::Evaluate(given) => evaluated(alloc, given, state),
    }
}

/// `return value`
#[tactic(auto, unfolding(c_types_spec::specs::Statements::returned_from))]
fn returned_value<'a>(
    alloc: Global,
    given: &Value<'a>,
    context: Context<'_>,
    offset: usize,
    state: &mut State<'a>,
) -> Result<Box<Action<'a>>, Refusal<TypeFault>>
    ensures { Runs action_in result state.new (rule.returned_from (Some (tree_value_of given.now))
        (context_of context.entry) offset (state_of state.old)) }
{
    match given {
        Value::Computed(source) => {
            let v = attempt!(value(alloc, source, state));
            return_value(alloc, context, v)
        }
        Value::Called(source) => {
            let made = attempt!(call(alloc, source, state));
            through_return(alloc, context, made, state)
        }
    }
}

/// `return`
#[tactic(auto, unfolding(c_types_spec::specs::Statements::returned_from))]
pub fn returned_from<'a>(
    alloc: Global,
    given: &Option<Box<Value<'a>>>,
    context: Context<'_>,
    offset: usize,
    state: &mut State<'a>,
) -> Result<Box<Action<'a>>, Refusal<TypeFault>>
    ensures { Runs action_in result state.new (rule.returned_from (option_map (λ v. tree_value_of
        v.value) given.now) (context_of context.entry) offset (state_of state.old)) }
{
    match given {
        None => {
            if !is_void(context.returned) {
                return Err(Refusal::Fault(TypeFault::At(TypeFaultKind::Mismatch, offset)));
            }
            action_or_memory(Action::give_back(alloc, None))
        }
        Some(given) => returned_value(alloc, given, context, offset, state),
    }
}
