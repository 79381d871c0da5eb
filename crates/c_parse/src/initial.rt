//! The initial value of a global, of which no tree is kept (6.7.9).

ghost use Rattle.std.specs.Prelude.{◌≤◌, IfOk};
ghost use Rattle.exact_read.specs.Grammar.{read_map};
ghost use Rattle.c_parse_laws.specs.Initializers as initializers;
ghost use Rattle.c_parse_token.specs.Lists.{Parses, IsShorter};
ghost use Rattle.c_parse_declaration.specs.Parts.{names_in, parsers_in};
ghost use Rattle.c_parse.specs.Following.{read_designation};
ghost use Rattle.c_parse_spec.specs.Limits.{nesting_limit};

use crate::class::{starts_designator, starts_initial};
use attempt::Refusal;
use c_parse_declaration::Scope;
use c_parse_expression::whole;
use c_parse_spec::Role;
use c_parse_token::{SyntaxFault, Tokens, attempt};
use c_token_spec::token::Punctuator;

// `.` and a member, or an index in brackets.
fn designator<'t>(scope: Scope<'_, 't>, tokens: &mut Tokens<'t>) -> Result<(), Refusal<SyntaxFault>>
    requires depth { scope.depth ≤ nesting_limit }
    ensures gives { Parses (initializers.read_designator (parsers_in scope.entry) scope.entry.depth)
        (λ _. tt {0}) tokens.old tokens.new result }
    ensures shorter { IfOk result (λ _. IsShorter tokens.new tokens.old) }
{
    if tokens.next_is(Punctuator::Dot) {
        attempt!(tokens.mark(Punctuator::Dot, Role::Nothing));
        attempt!(tokens.name(Role::Nothing));
        return Ok(());
    }
    attempt!(tokens.opening(Punctuator::LeftBracket, scope.depth));
    let index = attempt!(whole(scope.alloc, tokens, scope.names, scope.depth + 1));
    drop(index);
    attempt!(tokens.mark(Punctuator::RightBracket, Role::OperandEnd));
    Ok(())
}

// One designator or more.
fn designators<'t>(
    scope: Scope<'_, 't>,
    tokens: &mut Tokens<'t>,
) -> Result<(), Refusal<SyntaxFault>>
    requires depth { scope.depth ≤ nesting_limit }
    ensures gives { Parses (initializers.read_designators (parsers_in scope.entry)
        scope.entry.depth) (λ _. tt {0}) tokens.old tokens.new result }
    ensures shorter { IfOk result (λ _. IsShorter tokens.new tokens.old) }
{
    attempt!(designator(scope, tokens));
    'items: while starts_designator(tokens) {
        attempt!(designator(scope, tokens));
    }
    Ok(())
}

// The designators of a value, and `=`.
fn designation<'t>(
    scope: Scope<'_, 't>,
    tokens: &mut Tokens<'t>,
) -> Result<(), Refusal<SyntaxFault>>
    requires depth { scope.depth ≤ nesting_limit }
    ensures gives { Parses (read_designation (parsers_in scope.entry) scope.entry.depth) (λ _. tt
        {0}) tokens.old tokens.new result }
    ensures shorter { IfOk result (λ _. IsShorter tokens.new tokens.old) }
{
    attempt!(designators(scope, tokens));
    attempt!(tokens.mark(Punctuator::Assign, Role::Nothing));
    Ok(())
}

// An initial value, and before it which member or element it is for, or nothing.
#[cycle(initials)]
fn designated<'t>(
    scope: Scope<'_, 't>,
    tokens: &mut Tokens<'t>,
    fuel: usize,
) -> Result<Role, Refusal<SyntaxFault>>
    requires depth { scope.depth ≤ nesting_limit }
    ensures gives { Parses (read_map initializers.end_of_initial (initializers.read_designated
        (parsers_in scope.entry) scope.entry.depth (initializers.read_initial (names_in scope.entry)
        (parsers_in scope.entry) fuel scope.entry.depth))) (λ x. x) tokens.old tokens.new result }
    ensures shorter { IfOk result (λ _. IsShorter tokens.new tokens.old) }
{
    if starts_designator(tokens) {
        attempt!(designation(scope, tokens));
    }
    Ok(attempt!(initial(scope, tokens, fuel)))
}

// The initial values after a `{`, with its `}`.
#[cycle(initials)]
fn initials<'t>(
    scope: Scope<'_, 't>,
    tokens: &mut Tokens<'t>,
    fuel: usize,
) -> Result<(), Refusal<SyntaxFault>>
    requires depth { scope.depth ≤ nesting_limit }
    ensures gives { Parses (initializers.read_initials (names_in scope.entry) (parsers_in
        scope.entry) scope.entry.depth (initializers.read_initial (names_in scope.entry) (parsers_in
        scope.entry) fuel scope.entry.depth)) (λ _. tt {0}) tokens.old tokens.new result }
    ensures shorter { IfOk result (λ _. IsShorter tokens.new tokens.old) }
{
    let mut end = attempt!(designated(scope, tokens, fuel));
    'items: while tokens.next_is(Punctuator::Comma) {
        attempt!(tokens.mark(Punctuator::Comma, end));
        if !starts_initial(tokens, scope.names) {
            attempt!(tokens.mark(Punctuator::RightBrace, Role::Nothing));
            return Ok(());
        }
        end = attempt!(designated(scope, tokens, fuel));
    }
    attempt!(tokens.mark(Punctuator::RightBrace, end));
    Ok(())
}

/// An initial value, in which so many braces may be open: what is expected after it.
#[tactic(auto, using(crate::proofs::BraceFuel::fuel_cases))]
#[cycle(initials)]
pub fn initial<'t>(
    scope: Scope<'_, 't>,
    tokens: &mut Tokens<'t>,
    fuel: usize,
) -> Result<Role, Refusal<SyntaxFault>>
    requires { scope.depth ≤ nesting_limit }
    ensures gives { Parses (read_map initializers.end_of_initial (initializers.read_initial
        (names_in scope.entry) (parsers_in scope.entry) fuel scope.entry.depth)) (λ x. x) tokens.old
        tokens.new result }
    ensures shorter { IfOk result (λ _. IsShorter tokens.new tokens.old) }
{
    if fuel == 0 {
        return Err(Refusal::Fault(SyntaxFault::LimitExceeded));
    }
    if !tokens.next_is(Punctuator::LeftBrace) {
        let value = attempt!(whole(scope.alloc, tokens, scope.names, scope.depth));
        drop(value);
        return Ok(Role::OperandEnd);
    }
    attempt!(tokens.opening(Punctuator::LeftBrace, scope.depth));
    if tokens.next_is(Punctuator::RightBrace) {
        attempt!(tokens.mark(Punctuator::RightBrace, Role::Nothing));
        return Ok(Role::Nothing);
    }
    let deeper = Scope {
        depth: scope.depth + 1,
        ..scope
    };
    attempt!(initials(deeper, tokens, fuel - 1));
    Ok(Role::Nothing)
}
