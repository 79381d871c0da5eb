//! Parsers of C expressions (ISO C11, 6.5), and of the types in them.
//!
//! The main calls are [`conditional`] and [`specifiers`]. Each parser takes its tokens off
//! [`Tokens`](c_parse_token::Tokens), and gives exactly what the reference parser gives that its
//! contract names, of `specs/Parsers.antt` and `specs/Types.antt` of `c_parse_laws`.
#![tactic(auto)]

mod ends;
mod expression;
mod operand;
mod specifier;

ghost use Rattle.std.specs.Prelude.{◌≡◌, ◌≤◌, IfOk};
ghost use Rattle.c_parse_spec.specs.Expressions.{operators, Alone};
ghost use Rattle.c_parse_laws.specs.Types as types;
ghost use Rattle.c_syntax.specs.Expressions.{expression_of, specifiers_of, type_specifier_of};
ghost use Rattle.c_syntax.specs.Expressions.{dimensions_of};
ghost use Rattle.c_parse_token.specs.Lists.{names_of, IsCounted, Parses, IsNoLonger};
ghost use Rattle.c_parse_token.specs.Words.{head_of};
ghost use Rattle.c_parse_expression.specs.Whole.{expressions, read_any_unary};
ghost use Rattle.c_parse_spec.specs.Limits.{nesting_limit, operator_limit, expression_fuel};

use crate::expression::Scope;
use attempt::Refusal;
use c_parse_spec::EXPRESSION_FUEL;
use c_parse_token::{Head, SyntaxFault, Tokens, TypedefNames, attempt};
use c_syntax::expression::{Dimensions, Expression, Specifiers, TypeSpecifier};
use c_token_spec::token::Punctuator;
use std::alloc::Global;

// Where an expression is parsed.
fn scope<'n, 't>(alloc: Global, names: &'n TypedefNames<'t>, depth: usize) -> Scope<'n, 't>
    ensures names { result.names ≡ names.entry }
    ensures depth { result.depth ≡ depth }
    ensures fuel { result.fuel ≡ expression_fuel }
{
    Scope {
        alloc,
        names,
        depth,
        fuel: EXPRESSION_FUEL,
        is_alone: false,
    }
}

/// A conditional expression (6.5.15).
pub fn conditional<'t>(
    alloc: Global,
    tokens: &mut Tokens<'t>,
    names: &TypedefNames<'t>,
    depth: usize,
) -> Result<Box<Expression<'t>>, Refusal<SyntaxFault>>
    requires depth { depth ≤ nesting_limit }
    requires count { tokens.old.count ≤ operator_limit }
    ensures gives { Parses ((expressions names.now).conditional depth tokens.old.count)
        (λ x. expression_of x.value) tokens.old tokens.new result }
    ensures counted { IfOk result (λ x. IsCounted tokens.old.count
        (operators (expression_of x.value)) tokens.new.count) }
    ensures shorter { IfOk result (λ _. IsNoLonger tokens.new tokens.old) }
{
    Ok(attempt!(expression::conditional(scope(alloc, names, depth), tokens)))
}

/// A whole expression: a conditional expression with no operator before it.
pub fn whole<'t>(
    alloc: Global,
    tokens: &mut Tokens<'t>,
    names: &TypedefNames<'t>,
    depth: usize,
) -> Result<Box<Expression<'t>>, Refusal<SyntaxFault>>
    requires depth { depth ≤ nesting_limit }
    ensures gives { Parses ((expressions names.now).conditional depth 0)
        (λ x. expression_of x.value) tokens.old tokens.new result }
    ensures counted { IfOk result (λ x. IsCounted 0 (operators (expression_of x.value))
        tokens.new.count) }
    ensures shorter { IfOk result (λ _. IsNoLonger tokens.new tokens.old) }
{
    tokens.count = 0;
    Ok(attempt!(expression::conditional(scope(alloc, names, depth), tokens)))
}

/// A unary expression (6.5.3).
pub fn any_unary<'t>(
    alloc: Global,
    tokens: &mut Tokens<'t>,
    names: &TypedefNames<'t>,
    depth: usize,
) -> Result<Box<Expression<'t>>, Refusal<SyntaxFault>>
    requires depth { depth ≤ nesting_limit }
    requires count { tokens.old.count ≤ operator_limit }
    ensures gives { Parses (read_any_unary (expressions names.now) depth tokens.old.count)
        (λ x. expression_of x.value) tokens.old tokens.new result }
    ensures counted { IfOk result (λ x. IsCounted tokens.old.count
        (operators (expression_of x.value)) tokens.new.count) }
    ensures shorter { IfOk result (λ _. IsNoLonger tokens.new tokens.old) }
{
    if !tokens.next_is(Punctuator::LeftParenthesis) {
        return Ok(attempt!(expression::unary(scope(alloc, names, depth), tokens)));
    }
    let before = tokens.count;
    let offset = attempt!(tokens.bracket(Punctuator::LeftParenthesis, depth));
    Ok(attempt!(expression::bracketed(scope(alloc, names, depth), tokens, before, offset)))
}

/// Specifiers (6.7) without storage-class words, as in a type name, a member or a parameter.
pub fn specifiers<'t>(
    alloc: Global,
    tokens: &mut Tokens<'t>,
    names: &TypedefNames<'t>,
    depth: usize,
) -> Result<Box<Specifiers<'t>>, Refusal<SyntaxFault>>
    requires depth { depth ≤ nesting_limit }
    ensures gives { Parses ((expressions names.now).specifiers depth Alone)
        (λ x. specifiers_of x.value) tokens.old tokens.new result }
    ensures shorter { IfOk result (λ _. IsNoLonger tokens.new tokens.old) }
{
    tokens.count = 0;
    let alone = Scope {
        is_alone: true,
        ..scope(alloc, names, depth)
    };
    Ok(attempt!(specifier::specifiers(alone, tokens)))
}

/// What follows the first token of a type specifier (6.7.2).
pub fn base<'t>(
    alloc: Global,
    tokens: &mut Tokens<'t>,
    names: &TypedefNames<'t>,
    depth: usize,
    head: Head<'t>,
) -> Result<Box<TypeSpecifier<'t>>, Refusal<SyntaxFault>>
    requires depth { depth ≤ nesting_limit }
    ensures gives { Parses (types.read_type_specifier_rest (names_of names.now) (expressions
        names.now) depth Alone (head_of head.entry)) (λ x. type_specifier_of x.value) tokens.old
        tokens.new result }
    ensures shorter { IfOk result (λ _. IsNoLonger tokens.new tokens.old) }
{
    tokens.count = 0;
    let alone = Scope {
        is_alone: true,
        ..scope(alloc, names, depth)
    };
    Ok(attempt!(specifier::base(alone, tokens, head)))
}

/// The lengths of an array, and whether the first is left out (6.7.6.2).
pub fn dimensions<'t>(
    alloc: Global,
    tokens: &mut Tokens<'t>,
    names: &TypedefNames<'t>,
    depth: usize,
) -> Result<Box<Dimensions<'t>>, Refusal<SyntaxFault>>
    requires depth { depth ≤ nesting_limit }
    ensures gives { Parses (types.read_dimensions (expressions names.now) depth Alone)
        (λ x. dimensions_of x.value) tokens.old tokens.new result }
    ensures shorter { IfOk result (λ _. IsNoLonger tokens.new tokens.old) }
{
    tokens.count = 0;
    let alone = Scope {
        is_alone: true,
        ..scope(alloc, names, depth)
    };
    Ok(attempt!(specifier::dimensions(alone, tokens)))
}
