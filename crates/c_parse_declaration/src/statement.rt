//! Calls, what is assigned or returned, and expression statements (6.5.2.2, 6.5.16, 6.8.3).

ghost use Rattle.std.specs.Prelude.{◌≡◌, ◌≤◌, IfOk, suc, [], option_map};
ghost use Rattle.std.specs.Option.{is_some};
ghost use Rattle.c_parse_spec.specs.declared.Role.TheVariants.{Nothing};
ghost use Rattle.c_parse_spec.specs.Expressions.{operators};
ghost use Rattle.c_parse_spec.specs.Leaves.{operates};
ghost use Rattle.c_parse_laws.specs.Classes.{with_offset};
ghost use Rattle.c_parse_laws.specs.Parsers.{token, next_is};
ghost use Rattle.c_parse_laws.specs.Values as values;
ghost use Rattle.c_syntax.specs.Names.{name_of};
ghost use Rattle.c_syntax.specs.Expressions.{expression_of, expressions_in};
ghost use Rattle.c_syntax.specs.Simples.{call_of, value_of, simple_of};
ghost use Rattle.c_token.specs.Pieces.{token_of};
ghost use Rattle.c_parse_token.specs.Lists.{list_of, Parses, TakesOne, IsNoLonger};
ghost use Rattle.c_parse_declaration.specs.Parts.{parsers_in, read_arguments_from};
ghost use Rattle.c_parse_spec.specs.Limits.{nesting_limit, operator_limit};

use crate::{Parsed, Scope};
use attempt::Refusal;
use c_parse_expression::{any_unary, conditional, whole};
use c_parse_spec::{OPERATOR_LIMIT, Role};
use c_parse_token::{SyntaxFault, Tokens, allocated, attempt};
use c_syntax::expression::{Expression, Name, boxed};
use c_syntax::simple::{Call, Simple, Value};
use c_syntax_spec::{BinaryOperator, StepOperator};
use c_token::Kind;
use c_token_spec::token::Punctuator;
use std::alloc::Global;

// The operator of an assignment with an operator.
fn assign_operator(kind: Kind<'_>) -> Option<BinaryOperator>
    ensures { result ≡ values.assign_operator (token_of kind.entry) }
{
    match kind {
        Kind::Mark(Punctuator::StarAssign) => Some(BinaryOperator::Multiply),
        Kind::Mark(Punctuator::SlashAssign) => Some(BinaryOperator::Divide),
        Kind::Mark(Punctuator::PercentAssign) => Some(BinaryOperator::Remainder),
        Kind::Mark(Punctuator::PlusAssign) => Some(BinaryOperator::Add),
        Kind::Mark(Punctuator::MinusAssign) => Some(BinaryOperator::Subtract),
        Kind::Mark(Punctuator::ShiftLeftAssign) => Some(BinaryOperator::ShiftLeft),
        Kind::Mark(Punctuator::ShiftRightAssign) => Some(BinaryOperator::ShiftRight),
        Kind::Mark(Punctuator::AmpersandAssign) => Some(BinaryOperator::BitAnd),
        Kind::Mark(Punctuator::CaretAssign) => Some(BinaryOperator::BitXor),
        Kind::Mark(Punctuator::BarAssign) => Some(BinaryOperator::BitOr),
        _ => None,
    }
}

// `++` or `--`.
fn step_operator(kind: Kind<'_>) -> Option<StepOperator>
    ensures { result ≡ values.step_operator (token_of kind.entry) }
{
    match kind {
        Kind::Mark(Punctuator::Increment) => Some(StepOperator::Increment),
        Kind::Mark(Punctuator::Decrement) => Some(StepOperator::Decrement),
        _ => None,
    }
}

// The next token is an operator with `=`.
fn starts_assignment(tokens: &Tokens<'_>) -> bool
    ensures { result ≡ next_is (λ next. is_some (values.assign_operator next))
        (list_of tokens.now.rest.now) }
{
    matches!(tokens.rest, [first, ..] if assign_operator(first.kind).is_some())
}

// The next token is `++` or `--`.
fn starts_step(tokens: &Tokens<'_>) -> bool
    ensures { result ≡ next_is (λ next. is_some (values.step_operator next))
        (list_of tokens.now.rest.now) }
{
    matches!(tokens.rest, [first, ..] if step_operator(first.kind).is_some())
}

// An operator with `=`, and its offset.
fn assignment(tokens: &mut Tokens<'_>) -> Result<(BinaryOperator, usize), Refusal<SyntaxFault>>
    ensures gives { Parses (token Nothing (operates (suc tokens.old.count))
        (with_offset values.assign_operator)) (λ x. x) tokens.old tokens.new result }
    ensures shorter { IfOk result (λ _. TakesOne tokens.old tokens.new) }
    ensures counted { IfOk result (λ _. (tokens.new.count ≡ suc tokens.old.count) ×
        (tokens.new.count ≤ operator_limit)) }
{
    let [first, rest @ ..] = tokens.rest else {
        return Err(Refusal::Fault(SyntaxFault::Wrong(Role::Nothing)));
    };
    let Some(operator) = assign_operator(first.kind) else {
        return Err(Refusal::Fault(SyntaxFault::Wrong(Role::Nothing)));
    };
    if tokens.count >= OPERATOR_LIMIT {
        return Err(Refusal::Fault(SyntaxFault::LimitExceeded));
    }
    tokens.rest = rest;
    tokens.count += 1;
    Ok((operator, first.offset))
}

// `++` or `--`, and its offset.
fn step(tokens: &mut Tokens<'_>) -> Result<(StepOperator, usize), Refusal<SyntaxFault>>
    ensures gives { Parses (token Nothing (operates (suc tokens.old.count))
        (with_offset values.step_operator)) (λ x. x) tokens.old tokens.new result }
    ensures shorter { IfOk result (λ _. TakesOne tokens.old tokens.new) }
    ensures counted { IfOk result (λ _. (tokens.new.count ≡ suc tokens.old.count) ×
        (tokens.new.count ≤ operator_limit)) }
{
    let [first, rest @ ..] = tokens.rest else {
        return Err(Refusal::Fault(SyntaxFault::Wrong(Role::Nothing)));
    };
    let Some(operator) = step_operator(first.kind) else {
        return Err(Refusal::Fault(SyntaxFault::Wrong(Role::Nothing)));
    };
    if tokens.count >= OPERATOR_LIMIT {
        return Err(Refusal::Fault(SyntaxFault::LimitExceeded));
    }
    tokens.rest = rest;
    tokens.count += 1;
    Ok((operator, first.offset))
}

// The expression is a postfix expression (6.5.2).
#[tactic(auto, using(c_syntax::proofs::Views::views))]
fn is_postfix(x: &Expression<'_>) -> bool
    ensures { result ≡ values.is_postfix (expression_of x.now) }
{
    match x {
        Expression::Named(_)
        | Expression::Number(_, _, _)
        | Expression::Character(_, _)
        | Expression::Bracketed(_, _)
        | Expression::Index(_, _, _)
        | Expression::Member(_, _, _, _) => true,
        Expression::Unary(_, _, _)
        | Expression::Sizeof(_, _)
        | Expression::SizeofType(_, _)
        | Expression::Cast(_, _, _)
        | Expression::Binary(_, _, _, _)
        | Expression::Conditional(_, _, _, _) => false,
    }
}

// The expression is a unary expression (6.5.3).
#[tactic(auto, using(c_syntax::proofs::Views::views))]
fn is_unary(x: &Expression<'_>) -> bool
    ensures { result ≡ values.is_unary (expression_of x.now) }
{
    match x {
        Expression::Conditional(..) | Expression::Binary(..) | Expression::Cast(..) => false,
        Expression::Unary(..) | Expression::Sizeof(..) | Expression::SizeofType(..) => true,
        Expression::Named(_)
        | Expression::Number(_, _, _)
        | Expression::Character(_, _)
        | Expression::Bracketed(_, _)
        | Expression::Index(_, _, _)
        | Expression::Member(_, _, _, _) => true,
    }
}

// The name that the expression is.
#[tactic(auto, using(c_syntax::proofs::Views::views))]
fn name_alone<'t>(x: &Expression<'t>) -> Option<Name<'t>>
    ensures { option_map name_of result ≡ values.name_of_tree (expression_of x.now) }
{
    match x {
        Expression::Named(name) => Some(*name),
        Expression::Number(_, _, _)
        | Expression::Character(_, _)
        | Expression::Bracketed(_, _)
        | Expression::Index(_, _, _)
        | Expression::Member(_, _, _, _)
        | Expression::Unary(_, _, _)
        | Expression::Sizeof(_, _)
        | Expression::SizeofType(_, _)
        | Expression::Cast(_, _, _)
        | Expression::Binary(_, _, _, _)
        | Expression::Conditional(_, _, _, _) => None,
    }
}

// The arguments after the first, with it, and the `)`.
fn more_arguments<'t>(
    scope: Scope<'_, 't>,
    tokens: &mut Tokens<'t>,
    first: Box<Expression<'t>>,
    arguments: &mut Vec<Box<Expression<'t>>>,
) -> Result<(), Refusal<SyntaxFault>>
    requires depth { scope.depth ≤ nesting_limit }
    requires count { tokens.old.count ≤ operator_limit }
    requires empty { arguments.old.items ≡ [] }
    ensures gives { Parses (read_arguments_from (parsers_in scope.entry) scope.entry.depth
        tokens.old.count (expression_of first.entry.value)) (λ _. expressions_in arguments.new)
        tokens.old tokens.new result }
    ensures shorter { IfOk result (λ _. IsNoLonger tokens.new tokens.old) }
{
    allocated!(arguments.push(first));
    'items: while tokens.next_is(Punctuator::Comma) {
        attempt!(tokens.mark(Punctuator::Comma, Role::OperandEnd));
        let next = attempt!(conditional(scope.alloc, tokens, scope.names, scope.depth));
        allocated!(arguments.push(next));
    }
    attempt!(tokens.mark(Punctuator::RightParenthesis, Role::OperandEnd));
    Ok(())
}

// A call after its name (6.5.2.2).
fn call<'t>(scope: Scope<'_, 't>, tokens: &mut Tokens<'t>, callee: Name<'t>) -> Parsed<Call<'t>>
    requires depth { scope.depth ≤ nesting_limit }
    requires count { tokens.old.count ≤ operator_limit }
    ensures gives { Parses (values.read_call (parsers_in scope.entry) scope.entry.depth
        tokens.old.count (name_of callee.entry)) (λ x. call_of x.value) tokens.old tokens.new
        result }
    ensures shorter { IfOk result (λ _. IsNoLonger tokens.new tokens.old) }
{
    attempt!(tokens.bracket(Punctuator::LeftParenthesis, scope.depth));
    let mut arguments = Vec::new(scope.alloc);
    if tokens.next_is(Punctuator::RightParenthesis) {
        attempt!(tokens.mark(Punctuator::RightParenthesis, Role::Nothing));
        return Ok(allocated!(boxed(scope.alloc, Call { callee, arguments })));
    }
    let first = attempt!(conditional(scope.alloc, tokens, scope.names, scope.depth + 1));
    let deeper = Scope {
        depth: scope.depth + 1,
        ..scope
    };
    attempt!(more_arguments(deeper, tokens, first, &mut arguments));
    Ok(allocated!(boxed(scope.alloc, Call { callee, arguments })))
}

// A value whose first part was read: a call, where that is a name with `(` after it.
fn called<'t>(
    scope: Scope<'_, 't>,
    tokens: &mut Tokens<'t>,
    first: Box<Expression<'t>>,
) -> Parsed<Value<'t>>
    requires depth { scope.depth ≤ nesting_limit }
    requires count { tokens.old.count ≤ operator_limit }
    ensures gives { Parses (values.read_called (parsers_in scope.entry) scope.entry.depth
        tokens.old.count (expression_of first.entry.value)) (λ x. value_of x.value) tokens.old
        tokens.new result }
    ensures shorter { IfOk result (λ _. IsNoLonger tokens.new tokens.old) }
{
    let Some(callee) = name_alone(&first) else {
        return Ok(allocated!(boxed(scope.alloc, Value::Computed(first))));
    };
    if !tokens.next_is(Punctuator::LeftParenthesis) {
        return Ok(allocated!(boxed(scope.alloc, Value::Computed(first))));
    }
    let call = attempt!(call(scope, tokens, callee));
    Ok(allocated!(boxed(scope.alloc, Value::Called(call))))
}

/// A call, or a conditional expression: what is assigned, given to a local or returned.
pub fn value<'t>(scope: Scope<'_, 't>, tokens: &mut Tokens<'t>) -> Parsed<Value<'t>>
    requires depth { scope.depth ≤ nesting_limit }
    requires count { tokens.old.count ≤ operator_limit }
    ensures gives { Parses (values.read_value (parsers_in scope.entry) scope.entry.depth
        tokens.old.count) (λ x. value_of x.value) tokens.old tokens.new result }
    ensures shorter { IfOk result (λ _. IsNoLonger tokens.new tokens.old) }
{
    let first = attempt!(conditional(scope.alloc, tokens, scope.names, scope.depth));
    called(scope, tokens, first)
}

// `++target`, `--target`.
fn step_before<'t>(scope: Scope<'_, 't>, tokens: &mut Tokens<'t>) -> Parsed<Simple<'t>>
    requires depth { scope.depth ≤ nesting_limit }
    ensures gives { Parses (values.read_step_before (parsers_in scope.entry) scope.entry.depth)
        (λ x. simple_of x.value) tokens.old tokens.new result }
    ensures shorter { IfOk result (λ _. IsNoLonger tokens.new tokens.old) }
{
    tokens.count = 0;
    let (operator, offset) = attempt!(step(tokens));
    let target = attempt!(any_unary(scope.alloc, tokens, scope.names, scope.depth));
    Ok(allocated!(boxed(scope.alloc, Simple::StepBefore(operator, target, offset))))
}

// `=` and a value after a target.
fn assign<'t>(
    scope: Scope<'_, 't>,
    tokens: &mut Tokens<'t>,
    target: Box<Expression<'t>>,
) -> Parsed<Simple<'t>>
    requires depth { scope.depth ≤ nesting_limit }
    requires counted { tokens.old.count ≡ operators (expression_of target.value) }
    ensures gives { Parses (values.read_assign (parsers_in scope.entry) scope.entry.depth
        (expression_of target.entry.value)) (λ x. simple_of x.value) tokens.old tokens.new result }
    ensures shorter { IfOk result (λ _. IsNoLonger tokens.new tokens.old) }
{
    let offset = attempt!(tokens.operator(Punctuator::Assign));
    let value = attempt!(value(scope, tokens));
    Ok(allocated!(boxed(scope.alloc, Simple::Assign(target, value, offset))))
}

// An operator with `=`, and its operand, after a target.
fn assign_by<'t>(
    scope: Scope<'_, 't>,
    tokens: &mut Tokens<'t>,
    target: Box<Expression<'t>>,
) -> Parsed<Simple<'t>>
    requires depth { scope.depth ≤ nesting_limit }
    requires counted { tokens.old.count ≡ operators (expression_of target.value) }
    ensures gives { Parses (values.read_assign_by (parsers_in scope.entry) scope.entry.depth
        (expression_of target.entry.value)) (λ x. simple_of x.value) tokens.old tokens.new result }
    ensures shorter { IfOk result (λ _. IsNoLonger tokens.new tokens.old) }
{
    let (operator, offset) = attempt!(assignment(tokens));
    let operand = attempt!(conditional(scope.alloc, tokens, scope.names, scope.depth));
    let made = Simple::AssignBy(operator, target, operand, offset);
    Ok(allocated!(boxed(scope.alloc, made)))
}

// `++` or `--` after a target.
fn step_after<'t>(
    alloc: Global,
    tokens: &mut Tokens<'t>,
    target: Box<Expression<'t>>,
) -> Result<Box<Simple<'t>>, Refusal<SyntaxFault>>
    requires counted { tokens.old.count ≡ operators (expression_of target.value) }
    ensures gives { Parses (values.read_step_after (expression_of target.entry.value))
        (λ x. simple_of x.value) tokens.old tokens.new result }
    ensures shorter { IfOk result (λ _. IsNoLonger tokens.new tokens.old) }
{
    let (operator, offset) = attempt!(step(tokens));
    Ok(allocated!(boxed(alloc, Simple::StepAfter(operator, target, offset))))
}

// What follows an expression that begins an expression statement, with it.
fn simple_after<'t>(
    scope: Scope<'_, 't>,
    tokens: &mut Tokens<'t>,
    first: Box<Expression<'t>>,
) -> Parsed<Simple<'t>>
    requires depth { scope.depth ≤ nesting_limit }
    requires counted { tokens.old.count ≡ operators (expression_of first.value) }
    requires count { tokens.old.count ≤ operator_limit }
    ensures gives { Parses (values.read_simple_after (parsers_in scope.entry) scope.entry.depth
        (expression_of first.entry.value)) (λ x. simple_of x.value) tokens.old tokens.new result }
    ensures shorter { IfOk result (λ _. IsNoLonger tokens.new tokens.old) }
{
    if is_unary(&first) && tokens.next_is(Punctuator::Assign) {
        return assign(scope, tokens, first);
    }
    if is_unary(&first) && starts_assignment(tokens) {
        return assign_by(scope, tokens, first);
    }
    if is_postfix(&first) && starts_step(tokens) {
        return step_after(scope.alloc, tokens, first);
    }
    let value = attempt!(called(scope, tokens, first));
    Ok(allocated!(boxed(scope.alloc, Simple::Evaluate(value))))
}

/// An expression statement without `;`, or a piece of a `for` (6.8.3, 6.8.5.3), as a whole.
pub fn simple<'t>(scope: Scope<'_, 't>, tokens: &mut Tokens<'t>) -> Parsed<Simple<'t>>
    requires depth { scope.depth ≤ nesting_limit }
    ensures gives { Parses (values.read_simple (parsers_in scope.entry) scope.entry.depth)
        (λ x. simple_of x.value) tokens.old tokens.new result }
    ensures shorter { IfOk result (λ _. IsNoLonger tokens.new tokens.old) }
{
    if starts_step(tokens) {
        return step_before(scope, tokens);
    }
    let first = attempt!(whole(scope.alloc, tokens, scope.names, scope.depth));
    simple_after(scope, tokens, first)
}
