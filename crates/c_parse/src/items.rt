//! External declarations, and the unit (6.9).

ghost use Rattle.std.specs.Prelude.{◌≡◌, IfOk, [], false, map};
ghost use Rattle.c_parse_spec.specs.Expressions.{is_typedef_name};
ghost use Rattle.c_parse_spec.specs.Units.{name_of_global};
ghost use Rattle.c_parse_laws.specs.Units as units;
ghost use Rattle.c_syntax.specs.Expressions.{specifiers_of, unboxed};
ghost use Rattle.c_syntax.specs.Statements.{parts_in};
ghost use Rattle.c_syntax.specs.Units.{function_of, global_of, external_declaration_of, unit_of};
ghost use Rattle.c_parse_token.specs.Lists.{names_of, Parses, IsShorter};
ghost use Rattle.c_parse.specs.Following.{read_block, read_after_specifiers};

use crate::class::is_typedef;
use crate::globals::globals;
use crate::statement::parts;
use attempt::Refusal;
use c_parse_declaration::{Scope, external_specifiers, global};
use c_parse_spec::Role;
use c_parse_token::{SyntaxFault, Tokens, TypedefNames, allocated, attempt};
use c_syntax::expression::{Specifiers, boxed};
use c_syntax::statement::Part;
use c_syntax::unit::{
    ExternalDeclaration, FunctionDeclarator, Global as GlobalDeclarator, TranslationUnit,
};
use c_token_spec::token::Punctuator;
use std::alloc::Global;

// The body of a function in braces, and the offset of its `}`.
fn body<'t>(
    alloc: Global,
    tokens: &mut Tokens<'t>,
    names: &TypedefNames<'t>,
) -> Result<(Vec<Part<'t>>, usize), Refusal<SyntaxFault>>
    ensures gives { Parses (read_block (names_of names.now)) (λ x. (parts_in x.0, x.1)) tokens.old
        tokens.new result }
    ensures shorter { IfOk result (λ _. IsShorter tokens.new tokens.old) }
{
    attempt!(tokens.opening(Punctuator::LeftBrace, 0));
    let scope = Scope {
        alloc,
        names,
        depth: 1,
    };
    let parts = attempt!(parts(scope, tokens));
    let close = attempt!(tokens.mark(Punctuator::RightBrace, Role::Nothing));
    Ok((parts, close))
}

// The body of a function, with its specifiers and its declarator.
fn definition<'t>(
    alloc: Global,
    tokens: &mut Tokens<'t>,
    names: &TypedefNames<'t>,
    specifiers: Box<Specifiers<'t>>,
    declarator: Box<FunctionDeclarator<'t>>,
) -> Result<Box<ExternalDeclaration<'t>>, Refusal<SyntaxFault>>
    ensures gives { Parses (units.read_body (names_of names.now) (specifiers_of
        specifiers.entry.value) (function_of declarator.entry.value))
        (λ x. (external_declaration_of x.value, names_of names.now)) tokens.old tokens.new result }
    ensures shorter { IfOk result (λ _. IsShorter tokens.new tokens.old) }
{
    let (parts, close) = attempt!(body(alloc, tokens, names));
    let made = ExternalDeclaration::Definition(specifiers, declarator, parts, close);
    Ok(allocated!(boxed(alloc, made)))
}

// The rest of an external declaration after its specifiers and its first declarator, with them.
fn after_global<'t>(
    alloc: Global,
    tokens: &mut Tokens<'t>,
    names: &mut TypedefNames<'t>,
    specifiers: Box<Specifiers<'t>>,
    first: Box<GlobalDeclarator<'t>>,
) -> Result<Box<ExternalDeclaration<'t>>, Refusal<SyntaxFault>>
    requires fresh { is_typedef_name (names_of names.old) (name_of_global (global_of first.value))
        ≡ false }
    ensures gives { Parses (units.read_after_global (names_of names.old) (specifiers_of
        specifiers.entry.value) (global_of first.entry.value))
        (λ x. (external_declaration_of x.value, names_of names.new)) tokens.old tokens.new result }
    ensures shorter { IfOk result (λ _. IsShorter tokens.new tokens.old) }
{
    if !tokens.next_is(Punctuator::LeftBrace) {
        return globals(alloc, tokens, names, specifiers, first);
    }
    match Box::into_inner(first) {
        GlobalDeclarator::Function(declarator) => {
            definition(alloc, tokens, names, specifiers, declarator)
        }
        GlobalDeclarator::Object(declarator) => {
            let first = allocated!(boxed(alloc, GlobalDeclarator::Object(declarator)));
            globals(alloc, tokens, names, specifiers, first)
        }
    }
}

// The rest of an external declaration after its specifiers, with them.
fn after_specifiers<'t>(
    alloc: Global,
    tokens: &mut Tokens<'t>,
    names: &mut TypedefNames<'t>,
    specifiers: Box<Specifiers<'t>>,
) -> Result<Box<ExternalDeclaration<'t>>, Refusal<SyntaxFault>>
    ensures gives { Parses (read_after_specifiers (names_of names.old) (specifiers_of
        specifiers.entry.value)) (λ x. (external_declaration_of x.value, names_of names.new))
        tokens.old tokens.new result }
    ensures shorter { IfOk result (λ _. IsShorter tokens.new tokens.old) }
{
    if tokens.next_is(Punctuator::Semicolon) {
        attempt!(tokens.mark(Punctuator::Semicolon, Role::Nothing));
        let made = ExternalDeclaration::Declaration(specifiers, Vec::new(alloc));
        return Ok(allocated!(boxed(alloc, made)));
    }
    let first = attempt!(global(alloc, tokens, names, is_typedef(&specifiers)));
    after_global(alloc, tokens, names, specifiers, first)
}

// An external declaration. The typedef names that it declares are in scope after it.
fn item<'t>(
    alloc: Global,
    tokens: &mut Tokens<'t>,
    names: &mut TypedefNames<'t>,
) -> Result<Box<ExternalDeclaration<'t>>, Refusal<SyntaxFault>>
    ensures gives { Parses (units.read_external_declaration (names_of names.old))
        (λ x. (external_declaration_of x.value, names_of names.new)) tokens.old tokens.new result }
    ensures shorter { IfOk result (λ _. IsShorter tokens.new tokens.old) }
{
    if tokens.next_is(Punctuator::Semicolon) {
        attempt!(tokens.mark(Punctuator::Semicolon, Role::Nothing));
        return Ok(allocated!(boxed(alloc, ExternalDeclaration::Empty)));
    }
    let specifiers = attempt!(external_specifiers(alloc, tokens, names));
    after_specifiers(alloc, tokens, names, specifiers)
}

// The external declarations up to the end of the tokens.
fn items<'t>(
    alloc: Global,
    tokens: &mut Tokens<'t>,
    names: &mut TypedefNames<'t>,
    all: &mut Vec<Box<ExternalDeclaration<'t>>>,
) -> Result<(), Refusal<SyntaxFault>>
    requires none { all.old.items ≡ [] }
    requires unnamed { names_of names.old ≡ [] }
    ensures gives { Parses units.read_external_declarations (λ _. map external_declaration_of
        (unboxed all.new)) tokens.old tokens.new result }
    ensures whole { IfOk result (λ _. tokens.new.rest.now ≡ []) }
{
    'items: while !tokens.rest.is_empty() {
        let next = attempt!(item(alloc, tokens, names));
        allocated!(all.push(next));
    }
    Ok(())
}

/// The unit that the tokens are, up to their end.
pub fn unit<'t>(
    alloc: Global,
    tokens: &mut Tokens<'t>,
) -> Result<TranslationUnit<'t>, Refusal<SyntaxFault>>
    ensures gives { Parses units.read_external_declarations unit_of tokens.old tokens.new result }
    ensures whole { IfOk result (λ _. tokens.new.rest.now ≡ []) }
{
    let mut names = TypedefNames::new(alloc);
    let mut all = Vec::new(alloc);
    attempt!(items(alloc, tokens, &mut names, &mut all));
    Ok(TranslationUnit { items: all })
}
