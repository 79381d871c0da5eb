//! Tests, parts of a `for`, labels, and statements that contain no other (6.8.1, 6.8.3 to 6.8.6).

ghost use Rattle.std.specs.Prelude.{◌≡◌, ◌≤◌, IfOk};
ghost use Rattle.std.specs.Option.{option_map};
ghost use Rattle.c_token_spec.specs.declared.token.Punctuator.TheVariants as punctuator;
ghost use Rattle.c_parse_spec.specs.declared.Role.TheVariants.{Nothing};
ghost use Rattle.c_parse_spec.specs.Leaves.{plain};
ghost use Rattle.c_parse_laws.specs.Classes.{mark_offset};
ghost use Rattle.c_parse_laws.specs.Parsers.{token, before};
ghost use Rattle.c_parse_laws.specs.Statements as statements;
ghost use Rattle.c_syntax.specs.Expressions.{expression_of};
ghost use Rattle.c_syntax.specs.Simples.{simple_of};
ghost use Rattle.c_syntax.specs.Locals.{start_of, label_of};
ghost use Rattle.c_syntax.specs.Statements.{statement_of};
ghost use Rattle.c_parse_token.specs.Lists.{Parses, IsShorter};
ghost use Rattle.c_parse_declaration.specs.Parts.{names_in, parsers_in};
ghost use Rattle.c_parse.specs.Pieces.{read_plain, read_start_simple, taken_labels, kept};
ghost use Rattle.c_parse.specs.Runs.{Runs};
ghost use Rattle.c_parse_spec.specs.Limits.{nesting_limit};

use crate::ends::{simple_end, statement_end};
use crate::keywords::{keyword, next_keyword, starts_label};
use attempt::Refusal;
use c_parse_declaration::{Parsed, Scope, locals, simple, starts_locals, value, value_end};
use c_parse_expression::whole;
use c_parse_spec::Role;
use c_parse_token::{SyntaxFault, Tokens, allocated, attempt};
use c_syntax::expression::{Expression, boxed};
use c_syntax::simple::Simple;
use c_syntax::statement::{ForStart, Label, Statement};
use c_token_spec::token::{Keyword, Punctuator};
use std::alloc::AllocError;

/// A test in brackets.
pub fn test<'t>(scope: Scope<'_, 't>, tokens: &mut Tokens<'t>) -> Parsed<Expression<'t>>
    requires depth { scope.depth ≤ nesting_limit }
    ensures gives { Parses (statements.read_test (parsers_in scope.entry) scope.entry.depth)
        (λ x. expression_of x.value) tokens.old tokens.new result }
    ensures shorter { IfOk result (λ _. IsShorter tokens.new tokens.old) }
{
    attempt!(tokens.opening(Punctuator::LeftParenthesis, scope.depth));
    let test = attempt!(whole(scope.alloc, tokens, scope.names, scope.depth + 1));
    attempt!(tokens.mark(Punctuator::RightParenthesis, Role::OperandEnd));
    Ok(test)
}

// An expression statement that begins a `for`.
fn simple_start<'t>(scope: Scope<'_, 't>, tokens: &mut Tokens<'t>) -> Parsed<ForStart<'t>>
    requires depth { scope.depth ≤ nesting_limit }
    ensures gives { Parses (read_start_simple (parsers_in scope.entry) scope.entry.depth) (λ x.
        start_of x.value) tokens.old tokens.new result }
    ensures shorter { IfOk result (λ _. IsShorter tokens.new tokens.old) }
{
    let start = attempt!(simple(scope, tokens));
    let end = simple_end(&start);
    attempt!(tokens.mark(Punctuator::Semicolon, end));
    Ok(allocated!(boxed(scope.alloc, ForStart::Simple(start))))
}

/// How a `for` begins, with its first `;`.
pub fn for_start<'t>(scope: Scope<'_, 't>, tokens: &mut Tokens<'t>) -> Parsed<ForStart<'t>>
    requires depth { scope.depth ≤ nesting_limit }
    ensures gives { Parses (statements.read_for_start (names_in scope.entry) (parsers_in
        scope.entry) scope.entry.depth) (λ x. start_of x.value) tokens.old tokens.new result }
    ensures shorter { IfOk result (λ _. IsShorter tokens.new tokens.old) }
{
    if tokens.next_is(Punctuator::Semicolon) {
        attempt!(tokens.mark(Punctuator::Semicolon, Role::Nothing));
        return Ok(allocated!(boxed(scope.alloc, ForStart::Empty)));
    }
    if starts_locals(tokens, scope.names) {
        let locals = attempt!(locals(scope, tokens));
        return Ok(allocated!(boxed(scope.alloc, ForStart::Locals(locals))));
    }
    simple_start(scope, tokens)
}

/// The test of a `for`, with its `;`.
pub fn for_test<'t>(
    scope: Scope<'_, 't>,
    tokens: &mut Tokens<'t>,
) -> Result<Option<Box<Expression<'t>>>, Refusal<SyntaxFault>>
    requires depth { scope.depth ≤ nesting_limit }
    ensures gives { Parses (statements.read_for_test (parsers_in scope.entry) scope.entry.depth)
        (λ x. option_map (λ test. expression_of test.value) x) tokens.old tokens.new result }
    ensures shorter { IfOk result (λ _. IsShorter tokens.new tokens.old) }
{
    if tokens.next_is(Punctuator::Semicolon) {
        attempt!(tokens.mark(Punctuator::Semicolon, Role::Nothing));
        return Ok(None);
    }
    let test = attempt!(whole(scope.alloc, tokens, scope.names, scope.depth));
    attempt!(tokens.mark(Punctuator::Semicolon, Role::OperandEnd));
    Ok(Some(test))
}

/// The step of a `for`, with its `)`.
pub fn for_step<'t>(
    scope: Scope<'_, 't>,
    tokens: &mut Tokens<'t>,
) -> Result<Option<Box<Simple<'t>>>, Refusal<SyntaxFault>>
    requires depth { scope.depth ≤ nesting_limit }
    ensures gives { Parses (statements.read_for_step (parsers_in scope.entry) scope.entry.depth)
        (λ x. option_map (λ step. simple_of step.value) x) tokens.old tokens.new result }
    ensures shorter { IfOk result (λ _. IsShorter tokens.new tokens.old) }
{
    if tokens.next_is(Punctuator::RightParenthesis) {
        attempt!(tokens.mark(Punctuator::RightParenthesis, Role::Nothing));
        return Ok(None);
    }
    let simple = attempt!(simple(scope, tokens));
    let end = simple_end(&simple);
    attempt!(tokens.mark(Punctuator::RightParenthesis, end));
    Ok(Some(simple))
}

// A label of a `switch`.
fn label<'t>(
    scope: Scope<'_, 't>,
    tokens: &mut Tokens<'t>,
) -> Result<Label<'t>, Refusal<SyntaxFault>>
    requires depth { scope.depth ≤ nesting_limit }
    ensures gives { Parses (statements.read_label (parsers_in scope.entry) scope.entry.depth)
        label_of tokens.old tokens.new result }
    ensures shorter { IfOk result (λ _. IsShorter tokens.new tokens.old) }
{
    if !next_keyword(tokens, Keyword::Case) {
        let offset = attempt!(keyword(tokens, Keyword::Default));
        attempt!(tokens.mark(Punctuator::Colon, Role::Nothing));
        return Ok(Label::Default(offset));
    }
    let offset = attempt!(keyword(tokens, Keyword::Case));
    let value = attempt!(whole(scope.alloc, tokens, scope.names, scope.depth));
    attempt!(tokens.mark(Punctuator::Colon, Role::OperandEnd));
    Ok(Label::Case(value, offset))
}

/// Labels, as long as one is next.
pub fn labels<'t>(
    scope: Scope<'_, 't>,
    tokens: &mut Tokens<'t>,
) -> Result<Vec<Label<'t>>, Refusal<SyntaxFault>>
    requires depth { scope.depth ≤ nesting_limit }
    ensures runs { Runs statements.begins_label (statements.read_label (parsers_in scope.entry)
        scope.entry.depth) taken_labels tokens.old.rest.now tokens.new.rest.now result }
{
    let mut all: Vec<Label<'t>> = Vec::new(scope.alloc);
    'items: while starts_label(tokens) {
        let next = attempt!(label(scope, tokens));
        allocated!(all.push(next));
    }
    Ok(all)
}

/// A statement that was made, or out of memory.
pub fn or_no_memory<'t>(made: Result<Box<Statement<'t>>, AllocError>) -> Parsed<Statement<'t>>
    ensures { result ≡ kept made.entry }
{
    match made {
        Ok(statement) => Ok(statement),
        Err(_) => Err(Refusal::NoMemory),
    }
}

// A keyword and its `;`: the keyword's offset.
fn jump(tokens: &mut Tokens<'_>, word: Keyword) -> Result<usize, Refusal<SyntaxFault>>
    ensures gives { Parses (before (token Nothing plain (statements.keyword_offset word)) (token
        Nothing plain (mark_offset punctuator.Semicolon))) (λ x. x) tokens.old tokens.new result }
    ensures shorter { IfOk result (λ _. IsShorter tokens.new tokens.old) }
{
    let offset = attempt!(keyword(tokens, word));
    attempt!(tokens.mark(Punctuator::Semicolon, Role::Nothing));
    Ok(offset)
}

// `return`, with a value or without.
fn return_statement<'t>(scope: Scope<'_, 't>, tokens: &mut Tokens<'t>) -> Parsed<Statement<'t>>
    requires depth { scope.depth ≤ nesting_limit }
    ensures gives { Parses (statements.read_return (parsers_in scope.entry) scope.entry.depth)
        (λ x. statement_of x.value) tokens.old tokens.new result }
    ensures shorter { IfOk result (λ _. IsShorter tokens.new tokens.old) }
{
    let offset = attempt!(keyword(tokens, Keyword::Return));
    if tokens.next_is(Punctuator::Semicolon) {
        attempt!(tokens.mark(Punctuator::Semicolon, Role::Nothing));
        return or_no_memory(Statement::return_at(scope.alloc, None, offset));
    }
    tokens.count = 0;
    let value = attempt!(value(scope, tokens));
    let end = value_end(&value);
    attempt!(tokens.mark(Punctuator::Semicolon, end));
    or_no_memory(Statement::return_at(scope.alloc, Some(value), offset))
}

// An expression statement.
fn perform<'t>(scope: Scope<'_, 't>, tokens: &mut Tokens<'t>) -> Parsed<Statement<'t>>
    requires depth { scope.depth ≤ nesting_limit }
    ensures gives { Parses (statements.read_perform (parsers_in scope.entry) scope.entry.depth)
        (λ x. statement_of x.value) tokens.old tokens.new result }
    ensures shorter { IfOk result (λ _. IsShorter tokens.new tokens.old) }
{
    let simple = attempt!(simple(scope, tokens));
    let end = statement_end(&simple);
    attempt!(tokens.mark(Punctuator::Semicolon, end));
    or_no_memory(Statement::perform(scope.alloc, simple))
}

/// `continue`, `break`, `return` or an expression statement.
pub fn plain_statement<'t>(scope: Scope<'_, 't>, tokens: &mut Tokens<'t>) -> Parsed<Statement<'t>>
    requires depth { scope.depth ≤ nesting_limit }
    ensures gives { Parses (read_plain (parsers_in scope.entry) scope.entry.depth) (λ x.
        statement_of x.value) tokens.old tokens.new result }
    ensures shorter { IfOk result (λ _. IsShorter tokens.new tokens.old) }
{
    if next_keyword(tokens, Keyword::Continue) {
        let offset = attempt!(jump(tokens, Keyword::Continue));
        return or_no_memory(Statement::continue_at(scope.alloc, offset));
    }
    if next_keyword(tokens, Keyword::Break) {
        let offset = attempt!(jump(tokens, Keyword::Break));
        return or_no_memory(Statement::break_at(scope.alloc, offset));
    }
    if next_keyword(tokens, Keyword::Return) {
        return return_statement(scope, tokens);
    }
    perform(scope, tokens)
}
