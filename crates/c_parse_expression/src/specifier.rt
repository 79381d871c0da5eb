//! The types in expressions, and the specifiers and arrays of declarations (6.7).

ghost use Rattle.std.specs.Prelude.{◌≡◌, ◌≤◌, ◌<◌};
ghost use Rattle.c_parse_spec.specs.Expressions as grammar;
ghost use Rattle.c_parse_laws.specs.Classes.{name_at};
ghost use Rattle.c_parse_laws.specs.Types as types;
ghost use Rattle.c_syntax.specs.Expressions.{expressions_in, declarators_in, members_in};
ghost use Rattle.c_syntax.specs.Expressions.{constants_in};
ghost use Rattle.c_parse_token.specs.Lists.{IsShorter, IsNoLonger};
ghost use Rattle.c_parse_token.specs.Words.{head_of};
ghost use Rattle.c_parse_expression.specs.Steps.{tree_of, type_of, specified_of, specifier_of};
ghost use Rattle.c_parse_expression.specs.Steps.{member_row, declarator_row, array_of, length_rows};
ghost use Rattle.c_parse_expression.specs.Steps.{constant_row, constant_rows};
ghost use Rattle.c_parse_expression.specs.Steps.{read_all_members, read_member_row};
ghost use Rattle.c_parse_expression.specs.Steps.{read_more_declarators, read_next_declarator};
ghost use Rattle.c_parse_expression.specs.Steps.{read_open_array, read_given_array};
ghost use Rattle.c_parse_expression.specs.Steps.{read_lengths_from, read_constants_from};
ghost use Rattle.c_parse_expression.specs.Steps.{operators_of_array, operators_of_rows};
ghost use Rattle.c_parse_expression.specs.Steps.{counting_of, counting_in, around, names_in};
ghost use Rattle.c_parse_expression.specs.Steps.{Fits, Advances, Reads, ReadsPart};
ghost use Rattle.c_parse_spec.specs.Limits.{nesting_limit, operator_limit};

use crate::ends::{constant_end, member_end};
use crate::expression::{Parsed, Scope, conditional, ended};
use crate::operand::begin_whole;
use attempt::Refusal;
use c_parse_spec::Role;
use c_parse_token::{
    Head, SyntaxFault, Tokens, allocated, attempt, consts, integer_type, pointer,
    type_specifier_head,
};
use c_syntax::expression::{
    Constant, Declarator, Dimensions, Expression, Member, Specifiers, Storage, TypeName,
    TypeSpecifier,
};
use c_token_spec::token::Punctuator;

type Rows<T> = Result<Vec<Box<T>>, Refusal<SyntaxFault>>;

// No storage-class words.
const NO_STORAGE: Storage = Storage {
    is_typedef: false,
    is_static: false,
};

// The type of a cast or of `sizeof` (6.7.7).
#[cycle(parser)]
pub fn type_name<'t>(scope: Scope<'_, 't>, tokens: &mut Tokens<'t>) -> Parsed<TypeName<'t>>
    requires fits { Fits scope tokens.old }
    ensures { ReadsPart (λ inner. inner.type_name) type_of grammar.operators_of_type IsNoLonger
        scope.entry tokens.old tokens.new result }
{
    if scope.fuel == 0 {
        return Err(Refusal::Fault(SyntaxFault::LimitExceeded));
    }
    let left = Scope {
        fuel: scope.fuel - 1,
        ..scope
    };
    pointed(left, tokens)
}

// Specifiers and `*`.
#[cycle(parser)]
fn pointed<'t>(scope: Scope<'_, 't>, tokens: &mut Tokens<'t>) -> Parsed<TypeName<'t>>
    requires fits { Fits scope tokens.old }
    ensures { ReadsPart (types.read_type_name (names_in scope.entry)) type_of
        grammar.operators_of_type IsNoLonger scope.entry tokens.old tokens.new result }
{
    let specifiers = attempt!(specified(scope, tokens));
    let pointers = pointer(tokens);
    Ok(allocated!(TypeName::new(scope.alloc, specifiers, pointers)))
}

// Specifiers (6.7) without storage-class words.
#[cycle(parser)]
pub fn specifiers<'t>(scope: Scope<'_, 't>, tokens: &mut Tokens<'t>) -> Parsed<Specifiers<'t>>
    requires fits { Fits scope tokens.old }
    ensures { ReadsPart (λ inner. inner.specifiers) specified_of grammar.operators_of_specifiers
        IsNoLonger scope.entry tokens.old tokens.new result }
{
    if scope.fuel == 0 {
        return Err(Refusal::Fault(SyntaxFault::LimitExceeded));
    }
    let left = Scope {
        fuel: scope.fuel - 1,
        ..scope
    };
    specified(left, tokens)
}

// A type specifier, and `const` around it.
#[cycle(parser)]
fn specified<'t>(scope: Scope<'_, 't>, tokens: &mut Tokens<'t>) -> Parsed<Specifiers<'t>>
    requires fits { Fits scope tokens.old }
    ensures { ReadsPart (types.read_specifiers (names_in scope.entry)) specified_of
        grammar.operators_of_specifiers IsNoLonger scope.entry tokens.old tokens.new result }
{
    let first = consts(tokens);
    let (head, offset) = attempt!(type_specifier_head(tokens, scope.names));
    let base = attempt!(base(scope, tokens, head));
    consts(tokens);
    Ok(allocated!(Specifiers::new(scope.alloc, NO_STORAGE, base, first.unwrap_or(offset))))
}

// What is after the first token of a type specifier (6.7.2).
#[cycle(parser)]
pub fn base<'t>(
    scope: Scope<'_, 't>,
    tokens: &mut Tokens<'t>,
    head: Head<'t>,
) -> Parsed<TypeSpecifier<'t>>
    requires fits { Fits scope tokens.old }
    ensures { ReadsPart (λ inner depth counting. types.read_type_specifier_rest (names_in
        scope.entry) inner depth counting (head_of head.entry)) specifier_of
        grammar.operators_of_type_specifier IsNoLonger scope.entry tokens.old tokens.new result }
{
    match head {
        Head::Void => Ok(allocated!(TypeSpecifier::void(scope.alloc))),
        Head::Integer(first) => {
            let named = allocated!(integer_type(scope.alloc, tokens, first));
            Ok(allocated!(TypeSpecifier::integer(scope.alloc, named)))
        }
        Head::Named(name) => Ok(allocated!(TypeSpecifier::typedef_name(scope.alloc, name))),
        Head::Struct => structure(scope, tokens),
        Head::Enum => enumeration(scope, tokens),
    }
}

// What is after `struct`.
#[cycle(parser)]
fn structure<'t>(scope: Scope<'_, 't>, tokens: &mut Tokens<'t>) -> Parsed<TypeSpecifier<'t>>
    requires fits { Fits scope tokens.old }
    ensures { ReadsPart (types.read_struct (names_in scope.entry)) specifier_of
        grammar.operators_of_type_specifier IsNoLonger scope.entry tokens.old tokens.new result }
{
    if !tokens.starts_plain_name(scope.names) {
        let rows = attempt!(members(scope, tokens));
        return Ok(allocated!(TypeSpecifier::structure(scope.alloc, None, rows)));
    }
    let tag = attempt!(tokens.plain_name(scope.names));
    if !tokens.next_is(Punctuator::LeftBrace) {
        return Ok(allocated!(TypeSpecifier::struct_tag(scope.alloc, tag)));
    }
    let rows = attempt!(members(scope, tokens));
    Ok(allocated!(TypeSpecifier::structure(scope.alloc, Some(tag), rows)))
}

// What is after `enum`.
#[cycle(parser)]
fn enumeration<'t>(scope: Scope<'_, 't>, tokens: &mut Tokens<'t>) -> Parsed<TypeSpecifier<'t>>
    requires fits { Fits scope tokens.old }
    ensures { ReadsPart (types.read_enum (names_in scope.entry)) specifier_of
        grammar.operators_of_type_specifier IsNoLonger scope.entry tokens.old tokens.new result }
{
    if !tokens.starts_plain_name(scope.names) {
        let rows = attempt!(constants(scope, tokens));
        return Ok(allocated!(TypeSpecifier::enumeration(scope.alloc, None, rows)));
    }
    let tag = attempt!(tokens.plain_name(scope.names));
    if !tokens.next_is(Punctuator::LeftBrace) {
        return Ok(allocated!(TypeSpecifier::enum_tag(scope.alloc, tag)));
    }
    let rows = attempt!(constants(scope, tokens));
    Ok(allocated!(TypeSpecifier::enumeration(scope.alloc, Some(tag), rows)))
}

// Declarations of members in braces (6.7.2.1).
#[cycle(parser)]
fn members<'t>(scope: Scope<'_, 't>, tokens: &mut Tokens<'t>) -> Rows<Member<'t>>
    requires fits { Fits scope tokens.old }
    ensures { ReadsPart (types.read_members (names_in scope.entry)) members_in
        grammar.operators_of_members IsNoLonger scope.entry tokens.old tokens.new result }
{
    attempt!(tokens.opening(Punctuator::LeftBrace, scope.depth));
    let deeper = Scope {
        depth: scope.depth + 1,
        ..scope
    };
    let rows = attempt!(all_members(deeper, tokens));
    attempt!(tokens.mark(Punctuator::RightBrace, Role::Nothing));
    Ok(rows)
}

// Declarations of members, as long as one begins.
#[cycle(parser)]
fn all_members<'t>(scope: Scope<'_, 't>, tokens: &mut Tokens<'t>) -> Rows<Member<'t>>
    requires fits { Fits scope tokens.old }
    ensures { ReadsPart (read_all_members (names_in scope.entry)) members_in
        grammar.operators_of_members IsNoLonger scope.entry tokens.old tokens.new result }
{
    let mut rows: Vec<Box<Member<'t>>> = Vec::new(scope.alloc);
    'items: while tokens.starts_type(scope.names) {
        let row = attempt!(member(scope, tokens));
        allocated!(rows.push(row));
    }
    Ok(rows)
}

// A declaration of members.
#[cycle(parser)]
fn member<'t>(scope: Scope<'_, 't>, tokens: &mut Tokens<'t>) -> Parsed<Member<'t>>
    requires fits { Fits scope tokens.old }
    ensures { ReadsPart read_member_row member_row types.operators_of_member IsShorter scope.entry
        tokens.old tokens.new result }
{
    let specifiers = attempt!(specifiers(scope, tokens));
    let declarators = attempt!(member_list(scope, tokens));
    Ok(allocated!(Member::new(scope.alloc, specifiers, declarators)))
}

// Declarators of members, and the `;` after them.
#[cycle(parser)]
fn member_list<'t>(scope: Scope<'_, 't>, tokens: &mut Tokens<'t>) -> Rows<Declarator<'t>>
    requires fits { Fits scope tokens.old }
    ensures { ReadsPart types.read_member_list declarators_in grammar.operators_of_declarators
        IsShorter scope.entry tokens.old tokens.new result }
{
    let before = tokens.count;
    let first = attempt!(declarator(scope, tokens));
    Ok(attempt!(more_declarators(scope, tokens, before, first)))
}

// Further declarators after the first, and the `;` after them.
#[cycle(parser)]
fn more_declarators<'t>(
    scope: Scope<'_, 't>,
    tokens: &mut Tokens<'t>,
    before: usize,
    first: Box<Declarator<'t>>,
) -> Rows<Declarator<'t>>
    requires fits { Fits scope tokens.old }
    requires before { grammar.advance (counting_of scope.is_alone before)
        (grammar.operators_of_declarator (declarator_row first)) ≡ counting_of scope.is_alone
        tokens.old.count }
    ensures { Reads (read_more_declarators (around scope.entry) scope.entry.depth (counting_in
        scope.entry tokens.old) (declarator_row first.entry)) declarators_in (Advances
        grammar.operators_of_declarators scope.entry.is_alone before) IsShorter tokens.old
        tokens.new result }
{
    let mut end = member_end(&first);
    let mut all: Vec<Box<Declarator<'t>>> = Vec::new(scope.alloc);
    allocated!(all.push(first));
    'items: while tokens.next_is(Punctuator::Comma) {
        let next = attempt!(next_declarator(scope, tokens));
        end = member_end(&next);
        allocated!(all.push(next));
    }
    attempt!(tokens.mark(Punctuator::Semicolon, end));
    Ok(all)
}

// A comma and a declarator.
#[cycle(parser)]
fn next_declarator<'t>(scope: Scope<'_, 't>, tokens: &mut Tokens<'t>) -> Parsed<Declarator<'t>>
    requires fits { Fits scope tokens.old }
    ensures { ReadsPart read_next_declarator declarator_row grammar.operators_of_declarator
        IsShorter scope.entry tokens.old tokens.new result }
{
    attempt!(tokens.mark(Punctuator::Comma, Role::Nothing));
    Ok(attempt!(declarator(scope, tokens)))
}

// A declarator of a member (6.7.6).
#[cycle(parser)]
fn declarator<'t>(scope: Scope<'_, 't>, tokens: &mut Tokens<'t>) -> Parsed<Declarator<'t>>
    requires fits { Fits scope tokens.old }
    ensures { ReadsPart (types.read_declarator name_at) declarator_row
        grammar.operators_of_declarator IsShorter scope.entry tokens.old tokens.new result }
{
    let pointers = pointer(tokens);
    let name = attempt!(tokens.name(Role::DeclaredName));
    let dimensions = attempt!(dimensions(scope, tokens));
    Ok(allocated!(Declarator::new(scope.alloc, pointers, name, dimensions)))
}

// The lengths of an array, and whether the first is left out (6.7.6.2).
#[cycle(parser)]
pub fn dimensions<'t>(scope: Scope<'_, 't>, tokens: &mut Tokens<'t>) -> Parsed<Dimensions<'t>>
    requires fits { Fits scope tokens.old }
    ensures { ReadsPart types.read_dimensions array_of operators_of_array IsNoLonger scope.entry
        tokens.old tokens.new result }
{
    if !tokens.next_is(Punctuator::LeftBracket) {
        return Ok(allocated!(Dimensions::new(scope.alloc, false, Vec::new(scope.alloc))));
    }
    attempt!(tokens.opening(Punctuator::LeftBracket, scope.depth));
    if tokens.next_is(Punctuator::RightBracket) {
        return Ok(attempt!(open_array(scope, tokens)));
    }
    Ok(attempt!(given_array(scope, tokens)))
}

// After `[` an array whose first length is left out.
#[cycle(parser)]
fn open_array<'t>(scope: Scope<'_, 't>, tokens: &mut Tokens<'t>) -> Parsed<Dimensions<'t>>
    requires fits { Fits scope tokens.old }
    ensures { ReadsPart read_open_array array_of operators_of_array IsNoLonger scope.entry
        tokens.old tokens.new result }
{
    attempt!(tokens.mark(Punctuator::RightBracket, Role::Nothing));
    let before = tokens.count;
    let none: Vec<Box<Expression<'t>>> = Vec::new(scope.alloc);
    let all = attempt!(lengths(scope, tokens, before, none));
    Ok(allocated!(Dimensions::new(scope.alloc, true, all)))
}

// After `[` an array whose first length is given.
#[cycle(parser)]
fn given_array<'t>(scope: Scope<'_, 't>, tokens: &mut Tokens<'t>) -> Parsed<Dimensions<'t>>
    requires depth { scope.depth < nesting_limit }
    requires count { tokens.old.count ≤ operator_limit }
    ensures { ReadsPart read_given_array array_of operators_of_array IsNoLonger scope.entry
        tokens.old tokens.new result }
{
    let before = tokens.count;
    begin_whole(tokens, scope.is_alone);
    let deeper = Scope {
        depth: scope.depth + 1,
        ..scope
    };
    let first = attempt!(ended(deeper, tokens, Punctuator::RightBracket));
    let mut given: Vec<Box<Expression<'t>>> = Vec::new(scope.alloc);
    allocated!(given.push(first));
    let all = attempt!(lengths(scope, tokens, before, given));
    Ok(allocated!(Dimensions::new(scope.alloc, false, all)))
}

// Further lengths, after those given.
#[cycle(parser)]
fn lengths<'t>(
    scope: Scope<'_, 't>,
    tokens: &mut Tokens<'t>,
    before: usize,
    given: Vec<Box<Expression<'t>>>,
) -> Rows<Expression<'t>>
    requires fits { Fits scope tokens.old }
    requires before { grammar.advance (counting_of scope.is_alone before)
        (grammar.operators_of_lengths (expressions_in given)) ≡ counting_of scope.is_alone
        tokens.old.count }
    ensures { Reads (read_lengths_from (length_rows given.entry) (around scope.entry)
        scope.entry.depth (counting_in scope.entry tokens.old)) expressions_in (Advances
        grammar.operators_of_lengths scope.entry.is_alone before) IsNoLonger tokens.old tokens.new
        result }
{
    let mut all = given;
    'items: while tokens.next_is(Punctuator::LeftBracket) {
        let next = attempt!(length(scope, tokens));
        allocated!(all.push(next));
    }
    Ok(all)
}

// A length in brackets.
#[cycle(parser)]
fn length<'t>(scope: Scope<'_, 't>, tokens: &mut Tokens<'t>) -> Parsed<Expression<'t>>
    requires fits { Fits scope tokens.old }
    ensures { ReadsPart types.read_length tree_of grammar.operators IsShorter scope.entry tokens.old
        tokens.new result }
{
    attempt!(tokens.opening(Punctuator::LeftBracket, scope.depth));
    begin_whole(tokens, scope.is_alone);
    let deeper = Scope {
        depth: scope.depth + 1,
        ..scope
    };
    Ok(attempt!(ended(deeper, tokens, Punctuator::RightBracket)))
}

// Constants in braces (6.7.2.2).
#[cycle(parser)]
fn constants<'t>(scope: Scope<'_, 't>, tokens: &mut Tokens<'t>) -> Rows<Constant<'t>>
    requires fits { Fits scope tokens.old }
    ensures { ReadsPart (types.read_constants (names_in scope.entry)) constants_in
        grammar.operators_of_constants IsNoLonger scope.entry tokens.old tokens.new result }
{
    attempt!(tokens.opening(Punctuator::LeftBrace, scope.depth));
    let before = tokens.count;
    let deeper = Scope {
        depth: scope.depth + 1,
        ..scope
    };
    let first = attempt!(constant(deeper, tokens));
    let end = constant_end(&first);
    let mut rows: Vec<Box<Constant<'t>>> = Vec::new(scope.alloc);
    allocated!(rows.push(first));
    let end = attempt!(more_constants(deeper, tokens, before, &mut rows, end));
    attempt!(tokens.mark(Punctuator::RightBrace, end));
    Ok(rows)
}

// Further constants after those read, each after a comma; a comma may be after the last. Gives what
// is expected after them, where this is expected after those read.
#[cycle(parser)]
fn more_constants<'t>(
    scope: Scope<'_, 't>,
    tokens: &mut Tokens<'t>,
    before: usize,
    rows: &mut Vec<Box<Constant<'t>>>,
    end: Role,
) -> Result<Role, Refusal<SyntaxFault>>
    requires fits { Fits scope tokens.old }
    requires before { grammar.advance (counting_of scope.is_alone before)
        (grammar.operators_of_constants (constants_in rows.old)) ≡ counting_of scope.is_alone
        tokens.old.count }
    ensures { Reads (read_constants_from (names_in scope.entry) (around scope.entry)
        scope.entry.depth (constant_rows rows.old) (types.AfterConstant end (counting_in scope.entry
        tokens.old))) (λ x. (constant_rows rows.new, x)) (Advances operators_of_rows
        scope.entry.is_alone before) IsNoLonger tokens.old tokens.new result }
{
    let mut end = end;
    'items: while tokens.next_is(Punctuator::Comma) {
        attempt!(tokens.mark(Punctuator::Comma, Role::Nothing));
        if !tokens.starts_plain_name(scope.names) {
            return Ok(Role::Nothing);
        }
        let next = attempt!(constant(scope, tokens));
        end = constant_end(&next);
        allocated!(rows.push(next));
    }
    Ok(end)
}

// A constant, and its value where it has one.
#[cycle(parser)]
fn constant<'t>(scope: Scope<'_, 't>, tokens: &mut Tokens<'t>) -> Parsed<Constant<'t>>
    requires fits { Fits scope tokens.old }
    ensures { ReadsPart (types.read_constant (names_in scope.entry)) constant_row
        types.operators_of_constant IsShorter scope.entry tokens.old tokens.new result }
{
    let name = attempt!(tokens.plain_name(scope.names));
    if !tokens.next_is(Punctuator::Assign) {
        return Ok(allocated!(Constant::new(scope.alloc, name, None)));
    }
    attempt!(tokens.mark(Punctuator::Assign, Role::Nothing));
    begin_whole(tokens, scope.is_alone);
    let value = attempt!(conditional(scope, tokens));
    Ok(allocated!(Constant::new(scope.alloc, name, Some(value))))
}
