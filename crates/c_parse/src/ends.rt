//! What is expected after values and expression statements, and what an `else` belongs to.

ghost use Rattle.std.specs.Prelude.{◌≡◌};
ghost use Rattle.c_parse_spec.specs.Statements as grammar;
ghost use Rattle.c_syntax_spec.specs.Unit as tree;
ghost use Rattle.c_syntax.specs.Expressions.{expression_of};
ghost use Rattle.c_syntax.specs.Simples.{value_of, simple_of};
ghost use Rattle.c_syntax.specs.Statements.{statement_of};

use c_parse_declaration::value_end;
use c_parse_spec::Role;
use c_syntax::expression::Expression;
use c_syntax::simple::{Simple, Value};
use c_syntax::statement::Statement;

/// What is expected after a part of a `for`.
pub fn simple_end(simple: &Simple<'_>) -> Role
    ensures { result ≡ grammar.simple_end (simple_of simple.now) }
{
    match simple {
        Simple::Assign(_, value, _) => value_end(value),
        Simple::Evaluate(value) => value_end(value),
        _ => Role::OperandEnd,
    }
}

// What is expected after an assignment that is a whole statement.
fn assigned_end(value: &Value<'_>) -> Role
    ensures { result ≡ grammar.assigned_end (value_of value.now) }
{
    match value {
        Value::Called(_) => Role::CallStatementEnd,
        Value::Computed(_) => Role::StatementEnd,
    }
}

// What is expected after an expression that is a whole statement.
#[tactic(auto, using(c_syntax::proofs::Views::views))]
fn computed_statement_end(x: &Expression<'_>) -> Role
    ensures { result ≡ grammar.value_statement_end (tree.Computed (expression_of x.now)) }
{
    match x {
        Expression::Named(_) => Role::NameStatementEnd,
        Expression::Number(_, _, _)
        | Expression::Character(_, _)
        | Expression::Bracketed(_, _)
        | Expression::Index(_, _, _)
        | Expression::Member(_, _, _, _)
        | Expression::Unary(_, _, _)
        | Expression::Sizeof(_, _)
        | Expression::SizeofType(_, _)
        | Expression::Cast(_, _, _)
        | Expression::Binary(_, _, _, _)
        | Expression::Conditional(_, _, _, _) => Role::StatementEnd,
    }
}

// What is expected after a value that is a whole statement.
fn value_statement_end(value: &Value<'_>) -> Role
    ensures { result ≡ grammar.value_statement_end (value_of value.now) }
{
    match value {
        Value::Called(_) => Role::CallStatementEnd,
        Value::Computed(x) => computed_statement_end(x),
    }
}

/// What is expected after a whole expression statement.
pub fn statement_end(simple: &Simple<'_>) -> Role
    ensures { result ≡ grammar.statement_end (simple_of simple.now) }
{
    match simple {
        Simple::Assign(_, value, _) => assigned_end(value),
        Simple::Evaluate(value) => value_statement_end(value),
        _ => Role::StatementEnd,
    }
}

/// An `else` after the statement would belong to an `if` inside it.
#[tactic(auto, using(c_syntax::proofs::StatementViews::statement_views))]
pub fn takes_else(statement: &Statement<'_>) -> bool
    ensures { result ≡ grammar.takes_else (statement_of statement.now) }
{
    match statement {
        Statement::If(_, _, _) => true,
        Statement::IfElse(_, _, otherwise, _) => takes_else(otherwise),
        Statement::While(_, body, _) => takes_else(body),
        Statement::For(_, _, _, body, _) => takes_else(body),
        Statement::Block(_, _)
        | Statement::Empty(_)
        | Statement::Perform(_)
        | Statement::Break(_)
        | Statement::Continue(_)
        | Statement::Return(_, _)
        | Statement::Do(_, _, _)
        | Statement::Switch(_, _, _) => false,
    }
}
