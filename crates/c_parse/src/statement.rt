//! Statements (6.8) and blocks.

ghost use Rattle.std.specs.Prelude.{◌≤◌, IfOk};
ghost use Rattle.c_parse_laws.specs.Statements as statements;
ghost use Rattle.c_syntax.specs.Expressions.{expression_of};
ghost use Rattle.c_syntax.specs.Statements.{statement_of, part_of, parts_in, groups_in};
ghost use Rattle.c_parse_token.specs.Lists.{Parses, IsShorter, IsNoLonger};
ghost use Rattle.c_parse_declaration.specs.Parts.{names_in, parsers_in};
ghost use Rattle.c_parse.specs.Pieces.{statements_in, read_of, read_else, starts_part};
ghost use Rattle.c_parse.specs.Pieces.{taken_parts};
ghost use Rattle.c_parse.specs.Runs.{Runs};
ghost use Rattle.c_parse_spec.specs.Limits.{nesting_limit, statement_fuel};

use crate::ends::takes_else;
use crate::keywords::{keyword, next_keyword, opening, starts_label, starts_part};
use crate::pieces::{for_start, for_step, for_test, labels, or_no_memory, plain_statement, test};
use attempt::Refusal;
use c_parse_declaration::{Parsed, Scope, locals, starts_locals};
use c_parse_spec::{Role, STATEMENT_FUEL};
use c_parse_token::{SyntaxFault, Tokens, allocated, attempt};
use c_syntax::expression::Expression;
use c_syntax::statement::{Group, Part, Statement};
use c_token_spec::token::{Keyword, Punctuator};

// A declaration or a statement.
#[cycle(statements)]
fn part<'t>(
    scope: Scope<'_, 't>,
    tokens: &mut Tokens<'t>,
    fuel: usize,
) -> Result<Part<'t>, Refusal<SyntaxFault>>
    requires depth { scope.depth ≤ nesting_limit }
    ensures gives { Parses (statements.read_part (names_in scope.entry) (parsers_in scope.entry)
        (statements_in scope.entry fuel) scope.entry.depth) (λ x. read_of (part_of x)) tokens.old
        tokens.new result }
    ensures shorter { IfOk result (λ _. IsShorter tokens.new tokens.old) }
{
    if starts_locals(tokens, scope.names) {
        let locals = attempt!(locals(scope, tokens));
        return Ok(Part::declared(locals));
    }
    let statement = attempt!(statement(scope, tokens, fuel));
    Ok(Part::stated(statement))
}

// The parts of a block, as long as one can begin with the next token.
#[cycle(statements)]
fn all_parts<'t>(
    scope: Scope<'_, 't>,
    tokens: &mut Tokens<'t>,
    fuel: usize,
) -> Result<Vec<Part<'t>>, Refusal<SyntaxFault>>
    requires depth { scope.depth ≤ nesting_limit }
    ensures gives { Parses (statements.read_parts (names_in scope.entry) (parsers_in scope.entry)
        (statements_in scope.entry fuel) scope.entry.depth) parts_in tokens.old tokens.new result }
    ensures shorter { IfOk result (λ _. IsNoLonger tokens.new tokens.old) }
    ensures runs { Runs starts_part (statements.read_part (names_in scope.entry) (parsers_in
        scope.entry) (statements_in scope.entry fuel) scope.entry.depth) taken_parts
        tokens.old.rest.now tokens.new.rest.now result }
{
    let mut all: Vec<Part<'t>> = Vec::new(scope.alloc);
    'items: while starts_part(tokens) {
        let next = attempt!(part(scope, tokens, fuel));
        allocated!(all.push(next));
    }
    Ok(all)
}

// `{ .. }`
#[cycle(statements)]
fn block<'t>(scope: Scope<'_, 't>, tokens: &mut Tokens<'t>, fuel: usize) -> Parsed<Statement<'t>>
    requires depth { scope.depth ≤ nesting_limit }
    ensures gives { Parses (statements.read_block (names_in scope.entry) (parsers_in scope.entry)
        (statements_in scope.entry fuel) scope.entry.depth) (λ x. statement_of x.value) tokens.old
        tokens.new result }
    ensures shorter { IfOk result (λ _. IsShorter tokens.new tokens.old) }
{
    let offset = attempt!(tokens.opening(Punctuator::LeftBrace, scope.depth));
    let deeper = Scope {
        depth: scope.depth + 1,
        ..scope
    };
    let parts = attempt!(all_parts(deeper, tokens, fuel));
    attempt!(tokens.mark(Punctuator::RightBrace, Role::Nothing));
    or_no_memory(Statement::block(scope.alloc, parts, offset))
}

// The end of an `if` after its body: an `else` belongs to the last `if` that can take it.
#[cycle(statements)]
fn else_part<'t>(
    scope: Scope<'_, 't>,
    tokens: &mut Tokens<'t>,
    fuel: usize,
    test: Box<Expression<'t>>,
    body: Box<Statement<'t>>,
    offset: usize,
) -> Parsed<Statement<'t>>
    requires depth { scope.depth ≤ nesting_limit }
    ensures gives { Parses (read_else (statements_in scope.entry fuel) scope.entry.depth
        (expression_of test.entry.value) (statement_of body.entry.value) offset) (λ x. statement_of
        x.value) tokens.old tokens.new result }
    ensures shorter { IfOk result (λ _. IsNoLonger tokens.new tokens.old) }
{
    if takes_else(&body) || !next_keyword(tokens, Keyword::Else) {
        return Ok(allocated!(Statement::if_only(scope.alloc, test, body, offset)));
    }
    attempt!(opening(tokens, Keyword::Else, scope.depth + 1));
    let deeper = Scope {
        depth: scope.depth + 2,
        ..scope
    };
    let otherwise = attempt!(statement(deeper, tokens, fuel));
    Ok(allocated!(Statement::if_else(scope.alloc, test, body, otherwise, offset)))
}

// `if`
#[cycle(statements)]
fn if_statement<'t>(
    scope: Scope<'_, 't>,
    tokens: &mut Tokens<'t>,
    fuel: usize,
) -> Parsed<Statement<'t>>
    requires depth { scope.depth ≤ nesting_limit }
    ensures gives { Parses (statements.read_if (parsers_in scope.entry) (statements_in scope.entry
        fuel) scope.entry.depth) (λ x. statement_of x.value) tokens.old tokens.new result }
    ensures shorter { IfOk result (λ _. IsShorter tokens.new tokens.old) }
{
    let offset = attempt!(opening(tokens, Keyword::If, scope.depth));
    let deeper = Scope {
        depth: scope.depth + 1,
        ..scope
    };
    let test = attempt!(test(deeper, tokens));
    let body = attempt!(statement(deeper, tokens, fuel));
    else_part(scope, tokens, fuel, test, body, offset)
}

// `while`
#[cycle(statements)]
fn while_statement<'t>(
    scope: Scope<'_, 't>,
    tokens: &mut Tokens<'t>,
    fuel: usize,
) -> Parsed<Statement<'t>>
    requires depth { scope.depth ≤ nesting_limit }
    ensures gives { Parses (statements.read_while (parsers_in scope.entry) (statements_in
        scope.entry fuel) scope.entry.depth) (λ x. statement_of x.value) tokens.old tokens.new
        result }
    ensures shorter { IfOk result (λ _. IsShorter tokens.new tokens.old) }
{
    let offset = attempt!(opening(tokens, Keyword::While, scope.depth));
    let deeper = Scope {
        depth: scope.depth + 1,
        ..scope
    };
    let test = attempt!(test(deeper, tokens));
    let body = attempt!(statement(deeper, tokens, fuel));
    or_no_memory(Statement::while_loop(scope.alloc, test, body, offset))
}

// `do`
#[cycle(statements)]
fn do_statement<'t>(
    scope: Scope<'_, 't>,
    tokens: &mut Tokens<'t>,
    fuel: usize,
) -> Parsed<Statement<'t>>
    requires depth { scope.depth ≤ nesting_limit }
    ensures gives { Parses (statements.read_do (parsers_in scope.entry) (statements_in scope.entry
        fuel) scope.entry.depth) (λ x. statement_of x.value) tokens.old tokens.new result }
    ensures shorter { IfOk result (λ _. IsShorter tokens.new tokens.old) }
{
    let offset = attempt!(opening(tokens, Keyword::Do, scope.depth));
    let deeper = Scope {
        depth: scope.depth + 1,
        ..scope
    };
    let body = attempt!(statement(deeper, tokens, fuel));
    attempt!(keyword(tokens, Keyword::While));
    let test = attempt!(test(deeper, tokens));
    attempt!(tokens.mark(Punctuator::Semicolon, Role::Nothing));
    or_no_memory(Statement::do_loop(scope.alloc, body, test, offset))
}

// `for`
#[cycle(statements)]
fn for_statement<'t>(
    scope: Scope<'_, 't>,
    tokens: &mut Tokens<'t>,
    fuel: usize,
) -> Parsed<Statement<'t>>
    requires depth { scope.depth ≤ nesting_limit }
    ensures gives { Parses (statements.read_for (names_in scope.entry) (parsers_in scope.entry)
        (statements_in scope.entry fuel) scope.entry.depth) (λ x. statement_of x.value) tokens.old
        tokens.new result }
    ensures shorter { IfOk result (λ _. IsShorter tokens.new tokens.old) }
{
    let offset = attempt!(opening(tokens, Keyword::For, scope.depth));
    attempt!(tokens.opening(Punctuator::LeftParenthesis, scope.depth + 1));
    let head = Scope {
        depth: scope.depth + 2,
        ..scope
    };
    let start = attempt!(for_start(head, tokens));
    let test = attempt!(for_test(head, tokens));
    let step = attempt!(for_step(head, tokens));
    let deeper = Scope {
        depth: scope.depth + 1,
        ..scope
    };
    let body = attempt!(statement(deeper, tokens, fuel));
    or_no_memory(Statement::for_loop(scope.alloc, start, test, step, body, offset))
}

// The groups of a `switch`.
#[cycle(statements)]
fn groups<'t>(
    scope: Scope<'_, 't>,
    tokens: &mut Tokens<'t>,
    fuel: usize,
) -> Result<Vec<Box<Group<'t>>>, Refusal<SyntaxFault>>
    requires depth { scope.depth ≤ nesting_limit }
    ensures gives { Parses (statements.read_groups (names_in scope.entry) (parsers_in scope.entry)
        (statements_in scope.entry fuel) scope.entry.depth) groups_in tokens.old tokens.new result }
    ensures shorter { IfOk result (λ _. IsNoLonger tokens.new tokens.old) }
{
    let mut all: Vec<Box<Group<'t>>> = Vec::new(scope.alloc);
    'items: while starts_label(tokens) {
        let labels = attempt!(labels(scope, tokens));
        let parts = attempt!(all_parts(scope, tokens, fuel));
        let group = allocated!(Group::new(scope.alloc, labels, parts));
        allocated!(all.push(group));
    }
    Ok(all)
}

// `switch`
#[cycle(statements)]
fn switch_statement<'t>(
    scope: Scope<'_, 't>,
    tokens: &mut Tokens<'t>,
    fuel: usize,
) -> Parsed<Statement<'t>>
    requires depth { scope.depth ≤ nesting_limit }
    ensures gives { Parses (statements.read_switch (names_in scope.entry) (parsers_in scope.entry)
        (statements_in scope.entry fuel) scope.entry.depth) (λ x. statement_of x.value) tokens.old
        tokens.new result }
    ensures shorter { IfOk result (λ _. IsShorter tokens.new tokens.old) }
{
    let offset = attempt!(opening(tokens, Keyword::Switch, scope.depth));
    let deeper = Scope {
        depth: scope.depth + 1,
        ..scope
    };
    let test = attempt!(test(deeper, tokens));
    attempt!(tokens.opening(Punctuator::LeftBrace, deeper.depth));
    let inside = Scope {
        depth: scope.depth + 2,
        ..scope
    };
    let groups = attempt!(groups(inside, tokens, fuel));
    attempt!(tokens.mark(Punctuator::RightBrace, Role::Nothing));
    or_no_memory(Statement::switch(scope.alloc, test, groups, offset))
}

// A statement in which so many constructs may open, by its first token.
#[tactic(auto, using(crate::proofs::StatementFuel::fuel_cases))]
#[cycle(statements)]
fn statement<'t>(
    scope: Scope<'_, 't>,
    tokens: &mut Tokens<'t>,
    fuel: usize,
) -> Parsed<Statement<'t>>
    requires depth { scope.depth ≤ nesting_limit }
    ensures gives { Parses (statements_in scope.entry fuel scope.entry.depth) (λ x. statement_of
        x.value) tokens.old tokens.new result }
    ensures shorter { IfOk result (λ _. IsShorter tokens.new tokens.old) }
{
    if fuel == 0 {
        return Err(Refusal::Fault(SyntaxFault::LimitExceeded));
    }
    let inner = fuel - 1;
    if tokens.next_is(Punctuator::LeftBrace) {
        return block(scope, tokens, inner);
    }
    if tokens.next_is(Punctuator::Semicolon) {
        let offset = attempt!(tokens.mark(Punctuator::Semicolon, Role::Nothing));
        return or_no_memory(Statement::empty(scope.alloc, offset));
    }
    if next_keyword(tokens, Keyword::If) {
        return if_statement(scope, tokens, inner);
    }
    if next_keyword(tokens, Keyword::Switch) {
        return switch_statement(scope, tokens, inner);
    }
    if next_keyword(tokens, Keyword::While) {
        return while_statement(scope, tokens, inner);
    }
    if next_keyword(tokens, Keyword::Do) {
        return do_statement(scope, tokens, inner);
    }
    if next_keyword(tokens, Keyword::For) {
        return for_statement(scope, tokens, inner);
    }
    plain_statement(scope, tokens)
}

/// The parts of a block, as long as one can begin with the next token.
pub fn parts<'t>(
    scope: Scope<'_, 't>,
    tokens: &mut Tokens<'t>,
) -> Result<Vec<Part<'t>>, Refusal<SyntaxFault>>
    requires depth { scope.depth ≤ nesting_limit }
    ensures gives { Parses (statements.read_parts (names_in scope.entry) (parsers_in scope.entry)
        (statements.read_statement (names_in scope.entry) (parsers_in scope.entry) statement_fuel)
        scope.entry.depth) parts_in tokens.old tokens.new result }
    ensures shorter { IfOk result (λ _. IsNoLonger tokens.new tokens.old) }
{
    all_parts(scope, tokens, STATEMENT_FUEL)
}
