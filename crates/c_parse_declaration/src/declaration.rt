//! Specifiers with words around their type specifier, and declarations of locals (6.7).

ghost use Rattle.std.specs.Prelude.{◌≡◌, ◌≤◌, IfOk, IfSome, IfNone, Ok, Some, None};
ghost use Rattle.std.specs.Prelude.{drop, map, [], option_map, false};
ghost use Rattle.c_token_spec.specs.declared.token.Punctuator.TheVariants.{Semicolon};
ghost use Rattle.c_parse_spec.specs.declared.Role.TheVariants.{DeclaredName};
ghost use Rattle.c_parse_spec.specs.Expressions.{Alone, both, is_typedef_name};
ghost use Rattle.c_parse_spec.specs.Leaves.{expected};
ghost use Rattle.c_parse_spec.specs.Statements as grammar;
ghost use Rattle.exact_read.specs.Grammar.{read_nothing};
ghost use Rattle.c_parse_laws.specs.Parsers.{token, next_is};
ghost use Rattle.c_parse_laws.specs.Types.{plain_name_at, read_declarator};
ghost use Rattle.c_parse_laws.specs.Around.{read_external_specifiers};
ghost use Rattle.c_parse_laws.specs.Declarations as declarations;
ghost use Rattle.c_syntax.specs.Names.{name_of, storage_of};
ghost use Rattle.c_syntax.specs.Expressions.{specifiers_of, declarator_of, unboxed};
ghost use Rattle.c_syntax.specs.Simples.{value_of};
ghost use Rattle.c_syntax.specs.Locals.{local_of, locals_of};
ghost use Rattle.c_token.specs.Pieces.{token_of};
ghost use Rattle.c_parse_token.specs.Lists.{list_of, names_of};
ghost use Rattle.c_parse_token.specs.Lists.{Parses, TakesOne, IsShorter, IsNoLonger};
ghost use Rattle.c_parse_expression.specs.Whole.{expressions};
ghost use Rattle.c_parse_declaration.specs.Words.{says, next_says, read_words, read_specifiers};
ghost use Rattle.c_parse_declaration.specs.Parts.{names_in, parsers_in};
ghost use Rattle.c_parse_spec.specs.Limits.{nesting_limit};

use crate::statement::value;
use crate::{Parsed, Scope};
use attempt::Refusal;
use c_parse_expression::{base, dimensions};
use c_parse_spec::Role;
use c_parse_token::class::begins_type;
use c_parse_token::{
    SyntaxFault, Tokens, TypedefNames, allocated, attempt, pointer, type_specifier_head,
};
use c_syntax::expression::{Declarator, Name, Specifiers, Storage, boxed};
use c_syntax::simple::Value;
use c_syntax::statement::{Local, Locals};
use c_token::Kind;
use c_token_spec::token::{Keyword, Punctuator};
use std::alloc::Global;

/// Which of `typedef` and `static` are among some words.
pub fn stored(is_typedef: bool, is_static: bool) -> Storage
    ensures { storage_of result ≡ record { is_typedef = is_typedef; is_static = is_static } }
{
    Storage {
        is_typedef,
        is_static,
    }
}

// The words of two places.
fn both(one: Storage, two: Storage) -> Storage
    ensures { storage_of result ≡ both (storage_of one) (storage_of two) }
{
    stored(
        one.is_typedef || two.is_typedef,
        one.is_static || two.is_static,
    )
}

// What a token says that can be around the type specifier of locals, or of an external declaration.
fn around(kind: Kind<'_>, of_item: bool) -> Option<Storage>
    ensures { option_map storage_of result ≡ says of_item (token_of kind.entry) }
{
    match kind {
        Kind::Word(Keyword::Const) => Some(stored(false, false)),
        Kind::Word(Keyword::Static) => Some(stored(false, true)),
        Kind::Word(Keyword::Extern | Keyword::Inline) if of_item => Some(stored(false, false)),
        Kind::Word(Keyword::Typedef) if of_item => Some(stored(true, false)),
        _ => None,
    }
}

// A word that can be around a type specifier, if it is next: what it says, and its offset.
fn take_word(tokens: &mut Tokens<'_>, of_item: bool) -> Option<(Storage, usize)>
    ensures said { IfSome result (λ x. next_says of_item (list_of tokens.old.rest.now) ≡ Some
        (storage_of x.0, x.1)) }
    ensures rest { IfSome result (λ _. list_of tokens.new.rest.now ≡ drop 1
        (list_of tokens.old.rest.now)) }
    ensures shorter { IfSome result (λ _. TakesOne tokens.old tokens.new) }
    ensures none { IfNone result ((next_says of_item (list_of tokens.old.rest.now) ≡ None) ×
        (tokens.new.rest.now ≡ tokens.old.rest.now)) }
{
    let [first, rest @ ..] = tokens.rest else {
        return None;
    };
    let said = around(first.kind, of_item)?;
    tokens.rest = rest;
    Some((said, first.offset))
}

// Such words, any number of times: what they say, and the offset of the first.
fn words(tokens: &mut Tokens<'_>, of_item: bool) -> (Storage, Option<usize>)
    ensures found { read_words of_item (list_of tokens.old.rest.now) ≡ Ok
        ((storage_of result.0, result.1), list_of tokens.new.rest.now) }
    ensures shorter { IsNoLonger tokens.new tokens.old }
{
    let mut storage = stored(false, false);
    let mut first = None;
    'items: while let Some((said, offset)) = take_word(tokens, of_item) {
        storage = both(storage, said);
        first = Some(first.unwrap_or(offset));
    }
    (storage, first)
}

// Specifiers with words around their type specifier.
fn specifiers<'t>(
    scope: Scope<'_, 't>,
    tokens: &mut Tokens<'t>,
    of_item: bool,
) -> Parsed<Specifiers<'t>>
    requires depth { scope.depth ≤ nesting_limit }
    ensures gives { Parses (read_specifiers of_item (names_in scope.entry) (parsers_in scope.entry)
        scope.entry.depth) (λ x. specifiers_of x.value) tokens.old tokens.new result }
    ensures shorter { IfOk result (λ _. IsShorter tokens.new tokens.old) }
{
    let (before, first) = words(tokens, of_item);
    let (head, offset) = attempt!(type_specifier_head(tokens, scope.names));
    let base = attempt!(base(scope.alloc, tokens, scope.names, scope.depth, head));
    let (following, _) = words(tokens, of_item);
    let storage = both(before, following);
    Ok(allocated!(Specifiers::new(scope.alloc, storage, base, first.unwrap_or(offset))))
}

/// The specifiers of an external declaration (6.7).
pub fn external_specifiers<'t>(
    alloc: Global,
    tokens: &mut Tokens<'t>,
    names: &TypedefNames<'t>,
) -> Result<Box<Specifiers<'t>>, Refusal<SyntaxFault>>
    ensures gives { Parses (read_external_specifiers (names_of names.now) (expressions names.now) 0)
        (λ x. specifiers_of x.value) tokens.old tokens.new result }
    ensures shorter { IfOk result (λ _. IsShorter tokens.new tokens.old) }
{
    let scope = Scope {
        alloc,
        names,
        depth: 0,
    };
    specifiers(scope, tokens, true)
}

/// The next token begins a declaration of locals.
pub fn starts_locals<'t>(tokens: &Tokens<'t>, names: &TypedefNames<'t>) -> bool
    ensures { result ≡ next_is (declarations.begins_locals (names_of names.now))
        (list_of tokens.now.rest.now) }
{
    match tokens.rest {
        [first, ..] => around(first.kind, false).is_some() || begins_type(first.kind, names),
        [] => false,
    }
}

/// A name that is declared, and no typedef name.
pub fn declared_name<'t>(
    tokens: &mut Tokens<'t>,
    names: &TypedefNames<'t>,
) -> Result<Name<'t>, Refusal<SyntaxFault>>
    ensures gives { Parses (token DeclaredName (expected DeclaredName)
        (plain_name_at (names_of names.now))) name_of tokens.old tokens.new result }
    ensures shorter { IfOk result (λ _. TakesOne tokens.old tokens.new) }
    ensures fresh { IfOk result (λ x. is_typedef_name (names_of names.now) x.spelling.now ≡ false) }
{
    let [first, rest @ ..] = tokens.rest else {
        return Err(Refusal::Fault(SyntaxFault::Wrong(Role::DeclaredName)));
    };
    let Kind::Name(spelling) = first.kind else {
        return Err(Refusal::Fault(SyntaxFault::Wrong(Role::DeclaredName)));
    };
    if names.contains(spelling) {
        return Err(Refusal::Fault(SyntaxFault::Wrong(Role::DeclaredName)));
    }
    let offset = first.offset;
    tokens.rest = rest;
    Ok(Name { spelling, offset })
}

// A local's declarator (6.7.6).
fn declarator<'t>(scope: Scope<'_, 't>, tokens: &mut Tokens<'t>) -> Parsed<Declarator<'t>>
    requires depth { scope.depth ≤ nesting_limit }
    ensures gives { Parses (read_declarator (plain_name_at (names_in scope.entry)) (parsers_in
        scope.entry) scope.entry.depth Alone) (λ x. declarator_of x.value) tokens.old tokens.new
        result }
    ensures shorter { IfOk result (λ _. IsShorter tokens.new tokens.old) }
{
    let pointers = pointer(tokens);
    let name = attempt!(declared_name(tokens, scope.names));
    let dimensions = attempt!(dimensions(scope.alloc, tokens, scope.names, scope.depth));
    Ok(allocated!(Declarator::new(scope.alloc, pointers, name, dimensions)))
}

// A local, and its initial value, which is a whole expression.
fn local<'t>(scope: Scope<'_, 't>, tokens: &mut Tokens<'t>) -> Parsed<Local<'t>>
    requires depth { scope.depth ≤ nesting_limit }
    ensures gives { Parses (declarations.read_local (names_in scope.entry) (parsers_in scope.entry)
        scope.entry.depth) (λ x. local_of x.value) tokens.old tokens.new result }
    ensures shorter { IfOk result (λ _. IsShorter tokens.new tokens.old) }
{
    let declarator = attempt!(declarator(scope, tokens));
    if !tokens.next_is(Punctuator::Assign) {
        let value = None;
        return Ok(allocated!(boxed(scope.alloc, Local { declarator, value })));
    }
    attempt!(tokens.mark(Punctuator::Assign, Role::Nothing));
    tokens.count = 0;
    let value = Some(attempt!(value(scope, tokens)));
    Ok(allocated!(boxed(scope.alloc, Local { declarator, value })))
}

/// What is expected after a value.
pub fn value_end(value: &Value<'_>) -> Role
    ensures { result ≡ grammar.value_end (value_of value.now) }
{
    match value {
        Value::Called(_) => Role::CallEnd,
        Value::Computed(_) => Role::OperandEnd,
    }
}

// What is expected after a local.
fn end_of_local(local: &Local<'_>) -> Role
    ensures { result ≡ declarations.end_of_local (local_of local.now) }
{
    match &local.value {
        Some(value) => value_end(value),
        None => Role::Nothing,
    }
}

// The locals after the first, with it, and the `;`.
fn more_locals<'t>(
    scope: Scope<'_, 't>,
    tokens: &mut Tokens<'t>,
    first: Box<Local<'t>>,
    locals: &mut Vec<Box<Local<'t>>>,
) -> Result<(), Refusal<SyntaxFault>>
    requires depth { scope.depth ≤ nesting_limit }
    requires empty { locals.old.items ≡ [] }
    ensures gives { Parses (declarations.read_list_from declarations.end_of_local Semicolon
        (read_nothing (local_of first.entry.value)) (declarations.read_local (names_in scope.entry)
        (parsers_in scope.entry) scope.entry.depth)) (λ _. map local_of (unboxed locals.new))
        tokens.old tokens.new result }
    ensures shorter { IfOk result (λ _. IsShorter tokens.new tokens.old) }
{
    let mut end = end_of_local(&first);
    allocated!(locals.push(first));
    'items: while tokens.next_is(Punctuator::Comma) {
        attempt!(tokens.mark(Punctuator::Comma, end));
        let next = attempt!(local(scope, tokens));
        end = end_of_local(&next);
        allocated!(locals.push(next));
    }
    attempt!(tokens.mark(Punctuator::Semicolon, end));
    Ok(())
}

/// A declaration of locals with its `;` (6.7).
pub fn locals<'t>(scope: Scope<'_, 't>, tokens: &mut Tokens<'t>) -> Parsed<Locals<'t>>
    requires depth { scope.depth ≤ nesting_limit }
    ensures gives { Parses (declarations.read_locals (names_in scope.entry) (parsers_in scope.entry)
        scope.entry.depth) (λ x. locals_of x.value) tokens.old tokens.new result }
    ensures shorter { IfOk result (λ _. IsShorter tokens.new tokens.old) }
{
    let specifiers = attempt!(specifiers(scope, tokens, false));
    let first = attempt!(local(scope, tokens));
    let mut locals = Vec::new(scope.alloc);
    attempt!(more_locals(scope, tokens, first, &mut locals));
    Ok(allocated!(boxed(scope.alloc, Locals { specifiers, locals })))
}
