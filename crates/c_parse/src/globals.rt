//! The globals of an external declaration, and the typedef names in scope after them (6.7, 6.7.9).

ghost use Rattle.std.specs.Prelude.{◌≡◌, ◌++◌, ◌∷◌, [], IfOk, false, map};
ghost use Rattle.c_parse_spec.specs.Expressions.{is_typedef_name};
ghost use Rattle.c_parse_spec.specs.Units.{name_of_global, names_after};
ghost use Rattle.exact_read.specs.Grammar.{read_map};
ghost use Rattle.c_parse_laws.specs.Units as units;
ghost use Rattle.c_syntax.specs.Expressions.{specifiers_of, unboxed};
ghost use Rattle.c_syntax.specs.Units.{global_of, external_declaration_of};
ghost use Rattle.c_parse_token.specs.Lists.{names_of, Parses, IsShorter, IsNoLonger};
ghost use Rattle.c_parse.specs.Following.{read_value, read_globals_after, declared_as};

use crate::class::{declare, is_typedef};
use crate::initial::initial;
use attempt::Refusal;
use c_parse_declaration::{Scope, global};
use c_parse_spec::{Role, STATEMENT_FUEL};
use c_parse_token::{SyntaxFault, Tokens, TypedefNames, allocated, attempt};
use c_syntax::expression::{Specifiers, boxed};
use c_syntax::unit::{ExternalDeclaration, Global as GlobalDeclarator};
use c_token_spec::token::Punctuator;
use std::alloc::Global;

// `=` and the initial value of a global, or nothing: what is expected after it.
fn value<'t>(
    alloc: Global,
    tokens: &mut Tokens<'t>,
    names: &TypedefNames<'t>,
) -> Result<Role, Refusal<SyntaxFault>>
    ensures gives { Parses (read_map units.end_of_global (read_value (names_of names.now))) (λ x. x)
        tokens.old tokens.new result }
    ensures shorter { IfOk result (λ _. IsNoLonger tokens.new tokens.old) }
{
    if !tokens.next_is(Punctuator::Assign) {
        return Ok(Role::Nothing);
    }
    attempt!(tokens.mark(Punctuator::Assign, Role::Nothing));
    let scope = Scope {
        alloc,
        names,
        depth: 0,
    };
    Ok(attempt!(initial(scope, tokens, STATEMENT_FUEL)))
}

// A global, pushed after those before it, and what is expected after it. Its name is in scope after
// its declarator, where it has `typedef`.
fn declared<'t>(
    alloc: Global,
    tokens: &mut Tokens<'t>,
    names: &mut TypedefNames<'t>,
    is_typedef: bool,
    first: Box<GlobalDeclarator<'t>>,
    all: &mut Vec<Box<GlobalDeclarator<'t>>>,
) -> Result<Role, Refusal<SyntaxFault>>
    requires fresh { is_typedef_name (names_of names.old) (name_of_global (global_of first.value))
        ≡ false }
    ensures gives { Parses (read_map units.end_of_global (read_value (names_after is_typedef
        (global_of first.entry.value) (names_of names.old)))) (λ x. x) tokens.old tokens.new
        result }
    ensures now { IfOk result (λ _. (names_of names.new ≡ names_after is_typedef (global_of
        first.entry.value) (names_of names.old)) × (all.new.items ≡ all.old.items ++ first.entry ∷
        [])) }
    ensures shorter { IfOk result (λ _. IsNoLonger tokens.new tokens.old) }
{
    allocated!(declare(names, is_typedef, &first));
    let end = attempt!(value(alloc, tokens, names));
    allocated!(all.push(first));
    Ok(end)
}

// Further globals after those in `all`, where this is expected next, and the `;`.
fn more_globals<'t>(
    alloc: Global,
    tokens: &mut Tokens<'t>,
    names: &mut TypedefNames<'t>,
    specifiers: &Specifiers<'t>,
    all: &mut Vec<Box<GlobalDeclarator<'t>>>,
    end: Role,
) -> Result<(), Refusal<SyntaxFault>>
    ensures gives { Parses (read_globals_after (specifiers_of specifiers.now) (map global_of
        (unboxed all.old)) (names_of names.old, end)) (λ _. declared_as (specifiers_of
        specifiers.now) (map global_of (unboxed all.new)) (names_of names.new)) tokens.old
        tokens.new result }
    ensures shorter { IfOk result (λ _. IsShorter tokens.new tokens.old) }
{
    let typedef = is_typedef(specifiers);
    let mut end = end;
    'items: while tokens.next_is(Punctuator::Comma) {
        attempt!(tokens.mark(Punctuator::Comma, end));
        let next = attempt!(global(alloc, tokens, names, typedef));
        end = attempt!(declared(alloc, tokens, names, typedef, next, all));
    }
    attempt!(tokens.mark(Punctuator::Semicolon, end));
    Ok(())
}

/// The globals of an external declaration after its first declarator, with the `;`.
pub fn globals<'t>(
    alloc: Global,
    tokens: &mut Tokens<'t>,
    names: &mut TypedefNames<'t>,
    specifiers: Box<Specifiers<'t>>,
    first: Box<GlobalDeclarator<'t>>,
) -> Result<Box<ExternalDeclaration<'t>>, Refusal<SyntaxFault>>
    requires fresh { is_typedef_name (names_of names.old) (name_of_global (global_of first.value))
        ≡ false }
    ensures gives { Parses (units.read_globals (names_of names.old) (specifiers_of
        specifiers.entry.value) (global_of first.entry.value))
        (λ x. (external_declaration_of x.value, names_of names.new)) tokens.old tokens.new result }
    ensures shorter { IfOk result (λ _. IsShorter tokens.new tokens.old) }
{
    let mut all: Vec<Box<GlobalDeclarator<'t>>> = Vec::new(alloc);
    let shared: &Specifiers<'t> = &specifiers;
    let end = attempt!(declared(alloc, tokens, names, is_typedef(shared), first, &mut all));
    attempt!(more_globals(alloc, tokens, names, shared, &mut all, end));
    Ok(allocated!(boxed(alloc, ExternalDeclaration::Declaration(specifiers, all))))
}
