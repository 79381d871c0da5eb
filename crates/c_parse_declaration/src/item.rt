//! Parameters, and declarators in external declarations (6.7.6, 6.9).

ghost use Rattle.std.specs.Prelude.{◌≡◌, ◌≤◌, IfOk, IfSome, IfNone, Ok, map};
ghost use Rattle.std.specs.Prelude.{option_map, [], true, false};
ghost use Rattle.c_token_spec.specs.declared.token.Punctuator.TheVariants.{RightParenthesis};
ghost use Rattle.c_parse_spec.specs.declared.Role.TheVariants.{Nothing};
ghost use Rattle.c_parse_spec.specs.Expressions.{is_typedef_name};
ghost use Rattle.c_parse_spec.specs.Leaves.{plain};
ghost use Rattle.c_parse_spec.specs.Units.{name_of_global};
ghost use Rattle.exact_read.specs.Grammar.{read_map, read_nothing};
ghost use Rattle.c_parse_laws.specs.Parsers.{token, next_is};
ghost use Rattle.c_parse_laws.specs.Declarations.{read_list_from};
ghost use Rattle.c_parse_laws.specs.Parameters as parameters;
ghost use Rattle.c_syntax.specs.Names.{name_of};
ghost use Rattle.c_syntax.specs.Expressions.{specifiers_of, dimensions_of, unboxed};
ghost use Rattle.c_syntax.specs.Units.{parameter_of, global_of};
ghost use Rattle.c_parse_token.specs.Lists.{list_of, names_of};
ghost use Rattle.c_parse_token.specs.Lists.{Parses, TakesOne, IsShorter, IsNoLonger};
ghost use Rattle.c_parse_expression.specs.Whole.{expressions};
ghost use Rattle.c_parse_declaration.specs.Parts.{has_none, read_function};
ghost use Rattle.c_parse_declaration.specs.Parts.{names_in, parsers_in};
ghost use Rattle.c_parse_spec.specs.Limits.{nesting_limit};

use crate::declaration::{declared_name, stored};
use crate::{Parsed, Scope};
use attempt::Refusal;
use c_parse_expression::{dimensions, specifiers};
use c_parse_spec::Role;
use c_parse_token::{SyntaxFault, Tokens, TypedefNames, allocated, attempt, consts, pointer};
use c_syntax::expression::{Declarator, Dimensions, Name, Specifiers, TypeSpecifier, boxed};
use c_syntax::unit::{FunctionDeclarator, Global as GlobalDeclarator, Parameter};
use c_token::Kind;
use c_token_spec::token::{Keyword, Punctuator};
use std::alloc::Global;

// `void`, if it is next: its offset.
fn take_void(tokens: &mut Tokens<'_>) -> Option<usize>
    ensures taken { IfSome result (λ x. token Nothing plain parameters.void_offset
        (list_of tokens.old.rest.now) ≡ Ok (x, list_of tokens.new.rest.now)) }
    ensures was { IfSome result (λ _. next_is parameters.is_void (list_of tokens.old.rest.now)
        ≡ true) }
    ensures shorter { IfSome result (λ _. TakesOne tokens.old tokens.new) }
    ensures none { IfNone result ((next_is parameters.is_void (list_of tokens.old.rest.now) ≡ false)
        × (tokens.new.rest.now ≡ tokens.old.rest.now)) }
{
    match tokens.rest {
        [first, rest @ ..] if matches!(first.kind, Kind::Word(Keyword::Void)) => {
            tokens.rest = rest;
            Some(first.offset)
        }
        _ => None,
    }
}

// A parameter's name, if it is next.
fn optional_name<'t>(
    tokens: &mut Tokens<'t>,
    names: &TypedefNames<'t>,
) -> Result<Option<Name<'t>>, Refusal<SyntaxFault>>
    ensures gives { Parses (parameters.read_optional_name (names_of names.now))
        (λ x. option_map name_of x) tokens.old tokens.new result }
    ensures shorter { IfOk result (λ _. IsNoLonger tokens.new tokens.old) }
{
    if !tokens.starts_plain_name(names) {
        return Ok(None);
    }
    Ok(Some(attempt!(declared_name(tokens, names))))
}

// What follows the specifiers of a parameter, with them.
fn parameter_after<'t>(
    scope: Scope<'_, 't>,
    tokens: &mut Tokens<'t>,
    specifiers: Box<Specifiers<'t>>,
) -> Parsed<Parameter<'t>>
    requires depth { scope.depth ≤ nesting_limit }
    ensures gives { Parses (read_map (parameters.parameter_of (specifiers_of
        specifiers.entry.value)) (parameters.read_parameter_rest (names_in scope.entry) (parsers_in
        scope.entry) scope.entry.depth)) (λ x. parameter_of x.value) tokens.old tokens.new result }
    ensures shorter { IfOk result (λ _. IsNoLonger tokens.new tokens.old) }
{
    let pointers = pointer(tokens);
    let name = attempt!(optional_name(tokens, scope.names));
    let dimensions = attempt!(dimensions(scope.alloc, tokens, scope.names, scope.depth));
    Ok(allocated!(boxed(
        scope.alloc,
        Parameter {
            specifiers,
            pointers,
            name,
            dimensions,
        }
    )))
}

// A parameter.
fn parameter<'t>(scope: Scope<'_, 't>, tokens: &mut Tokens<'t>) -> Parsed<Parameter<'t>>
    requires depth { scope.depth ≤ nesting_limit }
    ensures gives { Parses (parameters.read_parameter (names_in scope.entry) (parsers_in
        scope.entry) scope.entry.depth) (λ x. parameter_of x.value) tokens.old tokens.new result }
    ensures shorter { IfOk result (λ _. IsNoLonger tokens.new tokens.old) }
{
    let specifiers = attempt!(specifiers(scope.alloc, tokens, scope.names, scope.depth));
    parameter_after(scope, tokens, specifiers)
}

// A parameter of which `void` at this offset was read.
fn void_parameter<'t>(
    scope: Scope<'_, 't>,
    tokens: &mut Tokens<'t>,
    offset: usize,
) -> Parsed<Parameter<'t>>
    requires depth { scope.depth ≤ nesting_limit }
    ensures gives { Parses (parameters.read_void_parameter (names_in scope.entry) (parsers_in
        scope.entry) scope.entry.depth offset) (λ x. parameter_of x.value) tokens.old tokens.new
        result }
    ensures shorter { IfOk result (λ _. IsNoLonger tokens.new tokens.old) }
{
    consts(tokens);
    let base = allocated!(TypeSpecifier::void(scope.alloc));
    let specifiers = allocated!(Specifiers::new(scope.alloc, stored(false, false), base, offset));
    parameter_after(scope, tokens, specifiers)
}

// They are those of no array.
#[tactic(auto, using(c_syntax::proofs::Views::views))]
fn is_none(dimensions: &Dimensions<'_>) -> bool
    ensures { result ≡ has_none (dimensions_of dimensions.now) }
{
    !dimensions.is_open && dimensions.lengths.is_empty()
}

// What is expected after a parameter.
fn parameter_end(parameter: &Parameter<'_>) -> Role
    ensures { result ≡ parameters.end_of_parameter (parameter_of parameter.now) }
{
    if parameter.name.is_none() && is_none(&parameter.dimensions) {
        Role::DeclaredName
    } else {
        Role::Nothing
    }
}

// The parameters after the first, with it, and the `)`.
fn more_parameters<'t>(
    scope: Scope<'_, 't>,
    tokens: &mut Tokens<'t>,
    first: Box<Parameter<'t>>,
    list: &mut Vec<Box<Parameter<'t>>>,
) -> Result<(), Refusal<SyntaxFault>>
    requires depth { scope.depth ≤ nesting_limit }
    requires empty { list.old.items ≡ [] }
    ensures gives { Parses (read_list_from parameters.end_of_parameter RightParenthesis
        (read_nothing (parameter_of first.entry.value)) (parameters.read_parameter (names_in
        scope.entry) (parsers_in scope.entry) scope.entry.depth)) (λ _. map parameter_of (unboxed
        list.new)) tokens.old tokens.new result }
    ensures shorter { IfOk result (λ _. IsShorter tokens.new tokens.old) }
{
    let mut end = parameter_end(&first);
    allocated!(list.push(first));
    'items: while tokens.next_is(Punctuator::Comma) {
        attempt!(tokens.mark(Punctuator::Comma, end));
        let next = attempt!(parameter(scope, tokens));
        end = parameter_end(&next);
        allocated!(list.push(next));
    }
    attempt!(tokens.mark(Punctuator::RightParenthesis, end));
    Ok(())
}

// The parameters after the `(` of a function, with its `)`.
fn parameters<'t>(
    scope: Scope<'_, 't>,
    tokens: &mut Tokens<'t>,
    list: &mut Vec<Box<Parameter<'t>>>,
) -> Result<(), Refusal<SyntaxFault>>
    requires depth { scope.depth ≤ nesting_limit }
    requires empty { list.old.items ≡ [] }
    ensures gives { Parses (parameters.read_parameters (names_in scope.entry) (parsers_in
        scope.entry) scope.entry.depth) (λ _. map parameter_of (unboxed list.new)) tokens.old
        tokens.new result }
    ensures shorter { IfOk result (λ _. IsShorter tokens.new tokens.old) }
{
    if tokens.next_is(Punctuator::RightParenthesis) {
        attempt!(tokens.mark(Punctuator::RightParenthesis, Role::Nothing));
        return Ok(());
    }
    let Some(offset) = take_void(tokens) else {
        let first = attempt!(parameter(scope, tokens));
        return more_parameters(scope, tokens, first, list);
    };
    if tokens.next_is(Punctuator::RightParenthesis) {
        attempt!(tokens.mark(Punctuator::RightParenthesis, Role::DeclaredName));
        return Ok(());
    }
    let first = attempt!(void_parameter(scope, tokens, offset));
    more_parameters(scope, tokens, first, list)
}

// The parameters after the name of a function, with the name and the `*` before it.
fn function<'t>(
    alloc: Global,
    tokens: &mut Tokens<'t>,
    names: &TypedefNames<'t>,
    pointers: usize,
    name: Name<'t>,
) -> Result<Box<GlobalDeclarator<'t>>, Refusal<SyntaxFault>>
    ensures gives { Parses (read_function (names_of names.now) (expressions names.now) pointers
        (name_of name.entry)) (λ x. global_of x.value) tokens.old tokens.new result }
    ensures shorter { IfOk result (λ _. IsNoLonger tokens.new tokens.old) }
    ensures named { IfOk result (λ x. name_of_global (global_of x.value) ≡
        name.entry.spelling.now) }
{
    attempt!(tokens.opening(Punctuator::LeftParenthesis, 0));
    let mut list = Vec::new(alloc);
    let scope = Scope {
        alloc,
        names,
        depth: 1,
    };
    attempt!(parameters(scope, tokens, &mut list));
    let declarator = allocated!(boxed(
        alloc,
        FunctionDeclarator {
            pointers,
            name,
            parameters: list,
        },
    ));
    Ok(allocated!(boxed(alloc, GlobalDeclarator::Function(declarator))))
}

/// A declarator of a global, with `typedef` (then no function) or without. Its name is new.
pub fn global<'t>(
    alloc: Global,
    tokens: &mut Tokens<'t>,
    names: &TypedefNames<'t>,
    is_typedef: bool,
) -> Result<Box<GlobalDeclarator<'t>>, Refusal<SyntaxFault>>
    ensures gives { Parses (parameters.read_global (names_of names.now) (expressions names.now)
        is_typedef) (λ x. global_of x.value) tokens.old tokens.new result }
    ensures shorter { IfOk result (λ _. IsShorter tokens.new tokens.old) }
    ensures fresh { IfOk result (λ x. is_typedef_name (names_of names.now)
        (name_of_global (global_of x.value)) ≡ false) }
{
    let pointers = pointer(tokens);
    let name = attempt!(declared_name(tokens, names));
    if !is_typedef && tokens.next_is(Punctuator::LeftParenthesis) {
        return Ok(attempt!(function(alloc, tokens, names, pointers, name)));
    }
    let dimensions = attempt!(dimensions(alloc, tokens, names, 0));
    let declarator = allocated!(Declarator::new(alloc, pointers, name, dimensions));
    Ok(allocated!(boxed(alloc, GlobalDeclarator::Object(declarator))))
}
