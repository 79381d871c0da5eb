//! Expressions (6.5).

ghost use Rattle.std.specs.Prelude.{◌≡◌, ◌≤◌, ◌<◌, ◌+◌, suc};
ghost use Rattle.c_parse_spec.specs.Expressions.{operators, operators_of_type};
ghost use Rattle.c_parse_laws.specs.Parsers as parsers;
ghost use Rattle.c_parse_token.specs.Lists.{IsShorter, IsNoLonger};
ghost use Rattle.c_parse_expression.specs.Steps.{tree_of, type_of, read_ended};
ghost use Rattle.c_parse_expression.specs.Steps.{read_operation_after, read_suffix_after};
ghost use Rattle.c_parse_expression.specs.Steps.{read_index_after, read_sized_in_brackets};
ghost use Rattle.c_parse_expression.specs.Steps.{around, names_in, expression_in, Fits, Counts};
ghost use Rattle.c_parse_expression.specs.Steps.{Reads, ReadsExpression, ReadsAfter};
ghost use Rattle.c_parse_spec.specs.Limits.{nesting_limit, operator_limit};

use crate::operand::{atom, member as member_access};
use crate::specifier::type_name;
use attempt::Refusal;
use c_parse_spec::Role;
use c_parse_token::{SyntaxFault, Tokens, TypedefNames, allocated, attempt};
use c_syntax::expression::{Expression, TypeName};
use c_token_spec::token::Punctuator;
use std::alloc::Global;

/// Where a part is parsed.
#[derive(Clone, Copy)]
pub struct Scope<'n, 't> {
    /// Where memory comes from.
    pub alloc: Global,
    /// The typedef names in scope.
    pub names: &'n TypedefNames<'t>,
    /// How many constructs are open around.
    pub depth: usize,
    /// How many further functions of the cycle may be called, one by the other.
    pub fuel: usize,
    /// A type in no expression: each of its lengths and enumeration values is a whole expression.
    pub is_alone: bool,
}

/// What a parser of a part gives.
pub type Parsed<T> = Result<Box<T>, Refusal<SyntaxFault>>;

// A conditional expression (6.5.15).
#[cycle(parser)]
pub fn conditional<'t>(scope: Scope<'_, 't>, tokens: &mut Tokens<'t>) -> Parsed<Expression<'t>>
    requires fits { Fits scope tokens.old }
    ensures { ReadsExpression ((around scope.entry).conditional scope.entry.depth tokens.old.count)
        tokens.old.count tokens.old tokens.new result }
{
    if scope.fuel == 0 {
        return Err(Refusal::Fault(SyntaxFault::LimitExceeded));
    }
    let left = Scope {
        fuel: scope.fuel - 1,
        ..scope
    };
    choice(left, tokens)
}

// A condition, and the values that it chooses from, if there are some.
#[cycle(parser)]
fn choice<'t>(scope: Scope<'_, 't>, tokens: &mut Tokens<'t>) -> Parsed<Expression<'t>>
    requires fits { Fits scope tokens.old }
    ensures { ReadsExpression (expression_in parsers.read_conditional scope.entry tokens.old)
        tokens.old.count tokens.old tokens.new result }
{
    let test = attempt!(binary(scope, tokens, 10));
    if !tokens.next_is(Punctuator::Question) {
        return Ok(test);
    }
    Ok(attempt!(chosen(scope, tokens, test)))
}

// After a condition `?` and two values.
#[cycle(parser)]
fn chosen<'t>(
    scope: Scope<'_, 't>,
    tokens: &mut Tokens<'t>,
    test: Box<Expression<'t>>,
) -> Parsed<Expression<'t>>
    requires fits { Fits scope tokens.old }
    ensures { ReadsAfter (parsers.read_choice (around scope.entry) scope.entry.depth
        tokens.old.count (tree_of test.entry)) (tree_of test.entry) IsNoLonger tokens.old tokens.new
        result }
{
    let offset = attempt!(tokens.operator(Punctuator::Question));
    let first = attempt!(ended(scope, tokens, Punctuator::Colon));
    let second = attempt!(conditional(scope, tokens));
    Ok(allocated!(Expression::conditional(scope.alloc, test, first, second, offset)))
}

// An expression and the punctuator that ends it.
#[cycle(parser)]
pub fn ended<'t>(
    scope: Scope<'_, 't>,
    tokens: &mut Tokens<'t>,
    end: Punctuator,
) -> Parsed<Expression<'t>>
    requires fits { Fits scope tokens.old }
    ensures { ReadsExpression (read_ended (around scope.entry) scope.entry.depth tokens.old.count
        end) tokens.old.count tokens.old tokens.new result }
{
    let x = attempt!(conditional(scope, tokens));
    attempt!(tokens.mark(end, Role::OperandEnd));
    Ok(x)
}

// The operators of the levels up to this one, and their operands (6.5.5 to 6.5.14).
#[cycle(parser)]
fn binary<'t>(scope: Scope<'_, 't>, tokens: &mut Tokens<'t>, level: u8) -> Parsed<Expression<'t>>
    requires fits { Fits scope tokens.old }
    requires level { level ≤ 10 }
    ensures { ReadsExpression (parsers.read_binary (around scope.entry) scope.entry.depth level
        tokens.old.count) tokens.old.count tokens.old tokens.new result }
{
    let before = tokens.count;
    let mut x = attempt!(cast(scope, tokens));
    let mut done = 0u8;
    'levels: while done < level {
        x = attempt!(operations(scope, tokens, done, before, x));
        done += 1;
    }
    Ok(x)
}

// The operations of the level above this one after a first operand, from the left.
#[cycle(parser)]
fn operations<'t>(
    scope: Scope<'_, 't>,
    tokens: &mut Tokens<'t>,
    level: u8,
    before: usize,
    first: Box<Expression<'t>>,
) -> Parsed<Expression<'t>>
    requires fits { Fits scope tokens.old }
    requires level { level < 10 }
    requires before { tokens.old.count ≡ before + operators (tree_of first) }
    ensures { ReadsExpression (parsers.read_operations (around scope.entry) scope.entry.depth level
        before (tree_of first.entry)) before tokens.old tokens.new result }
{
    let mut left = first;
    'items: while tokens.starts_level(level + 1) {
        left = attempt!(operation(scope, tokens, level, left));
    }
    Ok(left)
}

// One operation of the level above this one after its left operand.
#[cycle(parser)]
fn operation<'t>(
    scope: Scope<'_, 't>,
    tokens: &mut Tokens<'t>,
    level: u8,
    left: Box<Expression<'t>>,
) -> Parsed<Expression<'t>>
    requires fits { Fits scope tokens.old }
    requires level { level < 10 }
    ensures { ReadsAfter (read_operation_after (around scope.entry) scope.entry.depth level
        tokens.old.count (tree_of left.entry)) (tree_of left.entry) IsShorter tokens.old tokens.new
        result }
{
    let (operator, offset) = attempt!(tokens.infix(level + 1));
    let right = attempt!(binary(scope, tokens, level));
    Ok(allocated!(Expression::binary(scope.alloc, operator, left, right, offset)))
}

// A cast (6.5.4).
#[cycle(parser)]
fn cast<'t>(scope: Scope<'_, 't>, tokens: &mut Tokens<'t>) -> Parsed<Expression<'t>>
    requires fits { Fits scope tokens.old }
    ensures { ReadsExpression ((around scope.entry).cast scope.entry.depth tokens.old.count)
        tokens.old.count tokens.old tokens.new result }
{
    if scope.fuel == 0 {
        return Err(Refusal::Fault(SyntaxFault::LimitExceeded));
    }
    let left = Scope {
        fuel: scope.fuel - 1,
        ..scope
    };
    operand(left, tokens)
}

// A type in brackets and its operand, or a unary expression.
#[cycle(parser)]
fn operand<'t>(scope: Scope<'_, 't>, tokens: &mut Tokens<'t>) -> Parsed<Expression<'t>>
    requires fits { Fits scope tokens.old }
    ensures { ReadsExpression (expression_in (parsers.read_cast (names_in scope.entry)) scope.entry
        tokens.old) tokens.old.count tokens.old tokens.new result }
{
    if !tokens.next_is(Punctuator::LeftParenthesis) {
        return unary(scope, tokens);
    }
    let before = tokens.count;
    let offset = attempt!(tokens.bracket(Punctuator::LeftParenthesis, scope.depth));
    if tokens.starts_type(scope.names) {
        return Ok(attempt!(converted(scope, tokens, before, offset)));
    }
    Ok(attempt!(bracketed(scope, tokens, before, offset)))
}

// After `(` a type, its bracket and an operand.
#[cycle(parser)]
fn converted<'t>(
    scope: Scope<'_, 't>,
    tokens: &mut Tokens<'t>,
    before: usize,
    offset: usize,
) -> Parsed<Expression<'t>>
    requires depth { scope.depth < nesting_limit }
    requires count { tokens.old.count ≤ operator_limit }
    requires before { tokens.old.count ≡ suc before }
    ensures { ReadsExpression (parsers.read_converted (around scope.entry) scope.entry.depth before
        offset) before tokens.old tokens.new result }
{
    let to = attempt!(bracketed_type(scope, tokens));
    let operand = attempt!(cast(scope, tokens));
    Ok(allocated!(Expression::cast(scope.alloc, to, operand, offset)))
}

// A type after `(`, and its bracket.
#[cycle(parser)]
fn bracketed_type<'t>(scope: Scope<'_, 't>, tokens: &mut Tokens<'t>) -> Parsed<TypeName<'t>>
    requires depth { scope.depth < nesting_limit }
    requires count { tokens.old.count ≤ operator_limit }
    ensures { Reads (expression_in parsers.read_type scope.entry tokens.old) type_of (Counts
        operators_of_type tokens.old.count) IsNoLonger tokens.old tokens.new result }
{
    let deeper = Scope {
        depth: scope.depth + 1,
        is_alone: false,
        ..scope
    };
    let of = attempt!(type_name(deeper, tokens));
    attempt!(tokens.mark(Punctuator::RightParenthesis, Role::Nothing));
    Ok(of)
}

// After `(` an expression, its bracket, and what is after it (6.5.1, 6.5.2).
#[cycle(parser)]
pub fn bracketed<'t>(
    scope: Scope<'_, 't>,
    tokens: &mut Tokens<'t>,
    before: usize,
    offset: usize,
) -> Parsed<Expression<'t>>
    requires depth { scope.depth < nesting_limit }
    requires count { tokens.old.count ≤ operator_limit }
    requires before { tokens.old.count ≡ suc before }
    ensures { ReadsExpression (parsers.read_bracketed (around scope.entry) scope.entry.depth before
        offset) before tokens.old tokens.new result }
{
    let deeper = Scope {
        depth: scope.depth + 1,
        ..scope
    };
    let inner = attempt!(ended(deeper, tokens, Punctuator::RightParenthesis));
    let first = allocated!(Expression::bracketed(scope.alloc, inner, offset));
    Ok(attempt!(suffixes(scope, tokens, before, first)))
}

// `[`, `.` and `->` after a first part (6.5.2).
#[cycle(parser)]
fn suffixes<'t>(
    scope: Scope<'_, 't>,
    tokens: &mut Tokens<'t>,
    before: usize,
    first: Box<Expression<'t>>,
) -> Parsed<Expression<'t>>
    requires fits { Fits scope tokens.old }
    requires before { tokens.old.count ≡ before + operators (tree_of first) }
    ensures { ReadsExpression (parsers.read_suffixes_after (around scope.entry) scope.entry.depth
        before (tree_of first.entry)) before tokens.old tokens.new result }
{
    let mut base = first;
    'items: while tokens.starts_suffix() {
        base = attempt!(suffix(scope, tokens, base));
    }
    Ok(base)
}

// One of them.
#[cycle(parser)]
fn suffix<'t>(
    scope: Scope<'_, 't>,
    tokens: &mut Tokens<'t>,
    base: Box<Expression<'t>>,
) -> Parsed<Expression<'t>>
    requires fits { Fits scope tokens.old }
    ensures { ReadsAfter (read_suffix_after (around scope.entry) scope.entry.depth tokens.old.count
        (tree_of base.entry)) (tree_of base.entry) IsShorter tokens.old tokens.new result }
{
    if tokens.next_is(Punctuator::LeftBracket) {
        index(scope, tokens, base)
    } else {
        member_access(scope.alloc, tokens, base)
    }
}

// An index after its base.
#[cycle(parser)]
fn index<'t>(
    scope: Scope<'_, 't>,
    tokens: &mut Tokens<'t>,
    base: Box<Expression<'t>>,
) -> Parsed<Expression<'t>>
    requires fits { Fits scope tokens.old }
    ensures { ReadsAfter (read_index_after (around scope.entry) scope.entry.depth tokens.old.count
        (tree_of base.entry)) (tree_of base.entry) IsShorter tokens.old tokens.new result }
{
    let offset = attempt!(tokens.bracket(Punctuator::LeftBracket, scope.depth));
    let deeper = Scope {
        depth: scope.depth + 1,
        ..scope
    };
    let index = attempt!(ended(deeper, tokens, Punctuator::RightBracket));
    Ok(allocated!(Expression::index(scope.alloc, base, index, offset)))
}

// A unary expression (6.5.3) that begins with no bracket.
#[cycle(parser)]
pub fn unary<'t>(scope: Scope<'_, 't>, tokens: &mut Tokens<'t>) -> Parsed<Expression<'t>>
    requires fits { Fits scope tokens.old }
    ensures { ReadsExpression ((around scope.entry).unary scope.entry.depth tokens.old.count)
        tokens.old.count tokens.old tokens.new result }
{
    if scope.fuel == 0 {
        return Err(Refusal::Fault(SyntaxFault::LimitExceeded));
    }
    let left = Scope {
        fuel: scope.fuel - 1,
        ..scope
    };
    prefix_or_postfix(left, tokens)
}

// An operator and its operand, `sizeof` and its operand, or a postfix expression.
#[cycle(parser)]
fn prefix_or_postfix<'t>(scope: Scope<'_, 't>, tokens: &mut Tokens<'t>) -> Parsed<Expression<'t>>
    requires fits { Fits scope tokens.old }
    ensures { ReadsExpression (expression_in (parsers.read_unary (names_in scope.entry)) scope.entry
        tokens.old) tokens.old.count tokens.old tokens.new result }
{
    if tokens.starts_prefix() {
        return prefixed(scope, tokens);
    }
    if tokens.starts_sizeof() {
        return size(scope, tokens);
    }
    let before = tokens.count;
    let first = attempt!(atom(scope.alloc, tokens, scope.names));
    Ok(attempt!(suffixes(scope, tokens, before, first)))
}

// An operator before its operand.
#[cycle(parser)]
fn prefixed<'t>(scope: Scope<'_, 't>, tokens: &mut Tokens<'t>) -> Parsed<Expression<'t>>
    requires fits { Fits scope tokens.old }
    ensures { ReadsExpression (expression_in parsers.read_prefixed scope.entry tokens.old)
        tokens.old.count tokens.old tokens.new result }
{
    let (operator, offset) = attempt!(tokens.prefix());
    let operand = attempt!(cast(scope, tokens));
    Ok(allocated!(Expression::unary(scope.alloc, operator, operand, offset)))
}

// `sizeof` and its operand.
#[cycle(parser)]
fn size<'t>(scope: Scope<'_, 't>, tokens: &mut Tokens<'t>) -> Parsed<Expression<'t>>
    requires fits { Fits scope tokens.old }
    ensures { ReadsExpression (expression_in (parsers.read_sizeof (names_in scope.entry))
        scope.entry tokens.old) tokens.old.count tokens.old tokens.new result }
{
    let offset = attempt!(tokens.sizeof_word());
    if !tokens.next_is(Punctuator::LeftParenthesis) {
        let operand = attempt!(unary(scope, tokens));
        return Ok(allocated!(Expression::sizeof(scope.alloc, operand, offset)));
    }
    Ok(attempt!(size_in_brackets(scope, tokens, offset)))
}

// What is after `sizeof` where it begins with `(`: nothing is after a type in brackets.
#[cycle(parser)]
fn size_in_brackets<'t>(
    scope: Scope<'_, 't>,
    tokens: &mut Tokens<'t>,
    offset: usize,
) -> Parsed<Expression<'t>>
    requires fits { Fits scope tokens.old }
    ensures { Reads (read_sized_in_brackets (names_in scope.entry) (around scope.entry)
        scope.entry.depth tokens.old.count offset) tree_of (λ x after. (suc after ≡ tokens.old.count
        + operators x) × (after ≤ operator_limit)) IsNoLonger tokens.old tokens.new result }
{
    let before = tokens.count;
    let opened = attempt!(tokens.bracket(Punctuator::LeftParenthesis, scope.depth));
    if tokens.starts_type(scope.names) {
        let of = attempt!(bracketed_type(scope, tokens));
        return Ok(allocated!(Expression::sizeof_type(scope.alloc, of, offset)));
    }
    let operand = attempt!(bracketed(scope, tokens, before, opened));
    Ok(allocated!(Expression::sizeof(scope.alloc, operand, offset)))
}
