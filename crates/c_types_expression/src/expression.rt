//! Expressions, type names, specifiers and declarators, which contain one another.

ghost use Rattle.std.specs.Prelude.{◌≡◌, ◌||◌, [], false, int_lt, pos, option_map};
ghost use Rattle.c_syntax_spec.specs.Expression as tree;
ghost use Rattle.c_syntax.specs.Names.{name_of};
ghost use Rattle.c_syntax.specs.Expressions.{expression_of, type_name_of, specifiers_of};
ghost use Rattle.c_syntax.specs.Expressions.{type_specifier_of, declarator_of, constant_of};
ghost use Rattle.c_syntax.specs.Expressions.{member_of as member_tree_of};
ghost use Rattle.c_types_spec.specs.Expressions as rule;
ghost use Rattle.c_types_layout.specs.Structs.{layout_of};
ghost use Rattle.c_types_layout.specs.Types.{type_of};
ghost use Rattle.c_types_operator.specs.Operands.{operand_of, valued_of};
ghost use Rattle.c_types_scope.specs.States.{state_of, Runs};
ghost use Rattle.c_types_expression.specs.Trees as trees;

use crate::types::{
    array_length, declared_type, integer_constant, integer_scalar, one_more, pointers_to,
};
use attempt::{Refusal, attempt};
use c_syntax::expression::{
    Constant, Declarator, Expression, Member, Name, Specifiers, TypeName, TypeSpecifier,
};
use c_syntax_spec::{Access, BinaryOperator, UnaryOperator};
use c_types_core::constants::INT;
use c_types_core::fault::TypeFault;
use c_types_declaration::names::{named, not_wide, number_operand, typedef_named};
use c_types_declaration::sizes::{empty_layout, member};
use c_types_declaration::tags::{
    enum_finished, enum_named, enumerator, new_tag, struct_begun, struct_finished, struct_named,
};
use c_types_layout::structs::Layout;
use c_types_layout::types::{Base, CType};
use c_types_operator::attempt_or_drop;
use c_types_operator::binary::binary_rule;
use c_types_operator::cast::cast;
use c_types_operator::conditional::conditional;
use c_types_operator::member::{arrow, constant_operand, dot, size_operand, unary_rule};
use c_types_operator::operand::{Operand, Valued};
use c_types_operator::pointer::{bound_of, subscript};
use c_types_operator::value::value_of;
use c_types_scope::state::{State, push};
use c_types_spec::Position;
use std::alloc::Global;

/// Where the operand of a unary operator occurs.
fn under(operator: UnaryOperator) -> Position
    ensures { result ≡ rule.under operator }
{
    match operator {
        UnaryOperator::AddressOf => Position::Addressed,
        UnaryOperator::Dereference
        | UnaryOperator::Plus
        | UnaryOperator::Minus
        | UnaryOperator::Complement
        | UnaryOperator::Not => Position::Operand,
    }
}

/// A member of what an operand designates or points to.
fn member_of<'a>(
    alloc: Global,
    access: Access,
    x: Operand<'a>,
    name: Name<'a>,
    offset: usize,
    state: &State<'a>,
) -> Result<Operand<'a>, Refusal<TypeFault>>
    ensures { Runs operand_of result state.now (rule.member_of access (operand_of x.entry) (name_of
        name.entry) offset (state_of state.now)) }
{
    match access {
        Access::Dot => dot(
            alloc,
            state.structs(),
            x,
            name.spelling,
            name.offset,
            offset,
        ),
        Access::Arrow => {
            let v = attempt!(value_of(alloc, x));
            arrow(
                alloc,
                state.structs(),
                v,
                name.spelling,
                name.offset,
                offset,
            )
        }
    }
}

/// The value of the next constant of an enumeration, and whether one so far is negative.
#[derive(Clone, Copy)]
pub struct Next {
    /// The value of a constant without a value of its own.
    pub value: i128,
    /// A constant so far is negative.
    pub is_negative: bool,
}

/// One of the constants is negative.
fn is_negative(before: bool, given: i128) -> bool
    ensures { result ≡ before || int_lt given (pos 0) }
{
    before || given < 0
}

/// The value of an expression.
#[cycle(expressions)]
pub fn value<'a>(
    alloc: Global,
    x: &Expression<'a>,
    state: &mut State<'a>,
) -> Result<Valued<'a>, Refusal<TypeFault>>
    ensures { Runs valued_of result state.new (rule.value (expression_of x.now) (state_of
        state.old)) }
{
    let given = attempt!(expression(alloc, x, Position::Operand, state));
    value_of(alloc, given)
}

/// `base[index]`
#[cycle(expressions)]
#[tactic(auto, unfolding(c_types_spec::specs::Expressions::expression), using(c_syntax::proofs::Views::views))]
fn index<'a>(
    alloc: Global,
    x: &Expression<'a>,
    place: Position,
    state: &mut State<'a>,
) -> Result<Operand<'a>, Refusal<TypeFault>>
    requires { trees.IsIndex x.now }
    ensures { Runs operand_of result state.new (rule.expression (expression_of x.now) place
        (state_of state.old)) }
{
    match x {
        Expression::Index(base, at, offset) => {
            let x = attempt!(expression(alloc, base, Position::Operand, state));
            let first = attempt_or_drop!(bound_of(place, &x), Refusal::NoMemory; x);
            let a = attempt!(value_of(alloc, x));
            let y = attempt_or_drop!(expression(alloc, at, Position::Operand, state); a);
            let second = attempt_or_drop!(bound_of(place, &y), Refusal::NoMemory; a, y);
            let b = attempt_or_drop!(value_of(alloc, y); a);
            subscript(alloc, state.structs(), (first, second), a, b, *offset)
        }
        _ => unreachable!(),
    }
}

/// An operator between its operands.
#[cycle(expressions)]
#[tactic(auto, using(c_syntax::proofs::Views::views, crate::proofs::Values::by_value))]
fn binary<'a>(
    alloc: Global,
    x: &Expression<'a>,
    place: Position,
    state: &mut State<'a>,
) -> Result<Operand<'a>, Refusal<TypeFault>>
    requires { trees.IsBinary x.now }
    ensures { Runs operand_of result state.new (rule.expression (expression_of x.now) place
        (state_of state.old)) }
{
    match x {
        Expression::Binary(operator, left, right, offset) => {
            let a = attempt!(value(alloc, left, state));
            let b = attempt_or_drop!(value(alloc, right, state); a);
            binary_rule(alloc, *operator, state.structs(), a, b, *offset)
        }
        _ => unreachable!(),
    }
}

/// `test ? first : second`
#[cycle(expressions)]
#[tactic(auto, using(c_syntax::proofs::Views::views, crate::proofs::Values::by_value))]
fn choice<'a>(
    alloc: Global,
    x: &Expression<'a>,
    place: Position,
    state: &mut State<'a>,
) -> Result<Operand<'a>, Refusal<TypeFault>>
    requires { trees.IsConditional x.now }
    ensures { Runs operand_of result state.new (rule.expression (expression_of x.now) place
        (state_of state.old)) }
{
    match x {
        Expression::Conditional(test, first, second, offset) => {
            let c = attempt!(value(alloc, test, state));
            let a = attempt_or_drop!(value(alloc, first, state); c);
            let b = attempt_or_drop!(value(alloc, second, state); c, a);
            conditional(alloc, c, a, b, *offset)
        }
        _ => unreachable!(),
    }
}

/// An expression.
#[cycle(expressions)]
#[tactic(auto, unfolding(c_types_spec::specs::Expressions::expression, c_types_operator::specs::Operands::operand_of), using(c_syntax::proofs::Views::views, crate::proofs::Values::by_value))]
pub fn expression<'a>(
    alloc: Global,
    x: &Expression<'a>,
    place: Position,
    state: &mut State<'a>,
) -> Result<Operand<'a>, Refusal<TypeFault>>
    ensures { Runs operand_of result state.new (rule.expression (expression_of x.now) place
        (state_of state.old)) }
{
    match x {
        Expression::Named(name) => named(alloc, *name, state),
        Expression::Number(value, of, offset) => number_operand(alloc, *value, *of, *offset),
        Expression::Character(value, offset) => {
            constant_operand(alloc, INT, *value as i128, *offset)
        }
        Expression::Bracketed(inner, _) => expression(alloc, inner, place, state),
        Expression::Index(_, _, _) => index(alloc, x, place, state),
        Expression::Member(base, access, name, offset) => {
            let x = attempt!(expression(alloc, base, Position::Operand, state));
            member_of(alloc, *access, x, *name, *offset, state)
        }
        Expression::Unary(operator, inner, offset) => {
            let x = attempt!(expression(alloc, inner, under(*operator), state));
            unary_rule(alloc, *operator, x, *offset)
        }
        Expression::Sizeof(inner, offset) => {
            let x = attempt!(expression(alloc, inner, Position::Operand, state));
            let made = size_operand(alloc, state.structs(), &x.of, *offset);
            drop(x);
            made
        }
        Expression::SizeofType(name, offset) => {
            let of = attempt!(type_name(alloc, name, state));
            let made = size_operand(alloc, state.structs(), &of, *offset);
            drop(of);
            made
        }
        Expression::Cast(name, inner, offset) => {
            let of = attempt!(type_name(alloc, name, state));
            let v = attempt_or_drop!(value(alloc, inner, state); of);
            cast(alloc, place, of, v, *offset)
        }
        Expression::Binary(_, _, _, _) => binary(alloc, x, place, state),
        Expression::Conditional(_, _, _, _) => choice(alloc, x, place, state),
    }
}

/// The type of a cast or of `sizeof`.
#[cycle(expressions)]
#[tactic(auto, unfolding(c_types_spec::specs::Expressions::type_name, c_types_spec::specs::Expressions::specifiers), using(crate::proofs::Parts::parts))]
pub fn type_name<'a>(
    alloc: Global,
    name: &TypeName<'a>,
    state: &mut State<'a>,
) -> Result<CType, Refusal<TypeFault>>
    ensures { Runs type_of result state.new (rule.type_name (type_name_of name.now) (state_of
        state.old)) }
{
    let of = attempt!(type_specifier(alloc, &name.specifiers.base, state));
    let made = attempt!(pointers_to(name.pointers, of));
    not_wide(made, name.specifiers.offset)
}

/// The type of a type specifier.
#[cycle(expressions)]
#[tactic(auto, unfolding(c_types_spec::specs::Expressions::type_specifier, c_types_spec::specs::Declarations::typedef_named, c_types_spec::specs::Declarations::enum_named), using(c_syntax::proofs::Views::views))]
fn type_specifier<'a>(
    alloc: Global,
    base: &TypeSpecifier<'a>,
    state: &mut State<'a>,
) -> Result<CType, Refusal<TypeFault>>
    ensures { Runs type_of result state.new (rule.type_specifier (type_specifier_of base.now)
        (state_of state.old)) }
{
    match base {
        TypeSpecifier::Void => Ok(CType::plain(alloc, Base::Void)),
        TypeSpecifier::Integer(of) => {
            Ok(CType::plain(alloc, Base::Integer(integer_scalar(*of))))
        }
        TypeSpecifier::TypedefName(name) => typedef_named(alloc, *name, state),
        TypeSpecifier::StructTag(tag) => struct_named(alloc, *tag, state),
        TypeSpecifier::EnumTag(tag) => enum_named(alloc, *tag, state),
        TypeSpecifier::Struct(tag, list) => structure(alloc, list.as_slice(), *tag, state),
        TypeSpecifier::Enum(tag, list) => enumeration(alloc, list.as_slice(), *tag, state),
    }
}

/// `struct tag { .. }`
#[cycle(expressions)]
#[tactic(auto, unfolding(c_types_spec::specs::Expressions::type_specifier))]
fn structure<'a>(
    alloc: Global,
    list: &[Box<Member<'a>>],
    tag: Option<Name<'a>>,
    state: &mut State<'a>,
) -> Result<CType, Refusal<TypeFault>>
    ensures { Runs type_of result state.new (rule.type_specifier (tree.Struct (option_map name_of
        tag.entry) (trees.members_in list.now)) (state_of state.old)) }
{
    let number = attempt!(struct_begun(tag, state));
    let mut layout = attempt!(empty_layout(alloc));
    attempt!(members(alloc, list, &mut *layout, state));
    Ok(struct_finished(alloc, number, layout, state))
}

/// `enum tag { .. }`
#[cycle(expressions)]
#[tactic(auto, unfolding(c_types_spec::specs::Expressions::type_specifier))]
fn enumeration<'a>(
    alloc: Global,
    list: &[Box<Constant<'a>>],
    tag: Option<Name<'a>>,
    state: &mut State<'a>,
) -> Result<CType, Refusal<TypeFault>>
    ensures { Runs type_of result state.new (rule.type_specifier (tree.Enum (option_map name_of
        tag.entry) (trees.constants_in list.now)) (state_of state.old)) }
{
    attempt!(new_tag(tag, state));
    let is_negative = attempt!(enumerators(alloc, list, state));
    enum_finished(alloc, tag, is_negative, state)
}

/// The members of a struct, after those so far.
#[cycle(expressions)]
#[tactic(auto, using(crate::proofs::Rows::rows))]
fn members<'a>(
    alloc: Global,
    list: &[Box<Member<'a>>],
    layout: &mut Layout<'a>,
    state: &mut State<'a>,
) -> Result<(), Refusal<TypeFault>>
    ensures { Runs (λ _. layout_of layout.new) result state.new (rule.members (trees.members_in
        list.now) (layout_of layout.old) (state_of state.old)) }
{
    for item in list {
        match member_row(alloc, item, layout, state) {
            Ok(()) => {}
            Err(fault) => return Err(fault),
        }
    }
    Ok(())
}

/// The members of one declaration, after those so far.
#[cycle(expressions)]
#[tactic(auto, unfolding(c_types_spec::specs::Expressions::specifiers), using(crate::proofs::Parts::parts))]
fn member_row<'a>(
    alloc: Global,
    item: &Member<'a>,
    layout: &mut Layout<'a>,
    state: &mut State<'a>,
) -> Result<(), Refusal<TypeFault>>
    ensures { Runs (λ _. layout_of layout.new) result state.new (trees.member_row (member_tree_of
        item.now) (layout_of layout.old) (state_of state.old)) }
{
    let of = attempt!(type_specifier(alloc, &item.specifiers.base, state));
    let made = member_declarators(alloc, item.declarators.as_slice(), &of, layout, state);
    drop(of);
    made
}

/// The members that one declaration declares.
#[cycle(expressions)]
#[tactic(auto, unfolding(c_types_spec::specs::Expressions::member_declarators), using(crate::proofs::Parts::parts))]
fn member_declarators<'a>(
    alloc: Global,
    list: &[Box<Declarator<'a>>],
    of: &CType,
    layout: &mut Layout<'a>,
    state: &mut State<'a>,
) -> Result<(), Refusal<TypeFault>>
    ensures { Runs (λ _. layout_of layout.new) result state.new (rule.member_declarators
        (trees.declarators_in list.now) (type_of of.now) (layout_of layout.old) (state_of
        state.old)) }
{
    for item in list {
        let made = attempt!(declarator(alloc, item, of, state));
        attempt!(member(state.structs(), layout, item.name, made));
    }
    Ok(())
}

/// The type of a declared name, from that of its specifiers.
#[cycle(expressions)]
#[tactic(auto, unfolding(c_types_spec::specs::Expressions::declarator), using(crate::proofs::Parts::parts))]
pub fn declarator<'a>(
    alloc: Global,
    declared: &Declarator<'a>,
    of: &CType,
    state: &mut State<'a>,
) -> Result<CType, Refusal<TypeFault>>
    ensures { Runs type_of result state.new (rule.declarator (declarator_of declared.now) (type_of
        of.now) (state_of state.old)) }
{
    let mut found = Vec::new(alloc);
    attempt!(lengths_into(
        alloc,
        declared.dimensions.lengths.as_slice(),
        &mut found,
        state,
    ));
    declared_type(
        alloc,
        declared.pointers,
        declared.dimensions.is_open,
        found.as_slice(),
        of,
    )
}

/// The lengths of an array, from the left, after those so far.
#[cycle(expressions)]
#[tactic(auto, unfolding(c_types_spec::specs::Expressions::lengths), using(crate::proofs::Parts::parts, crate::proofs::Values::by_value))]
fn lengths_into<'a>(
    alloc: Global,
    list: &[Box<Expression<'a>>],
    found: &mut Vec<u64>,
    state: &mut State<'a>,
) -> Result<(), Refusal<TypeFault>>
    ensures { Runs (λ _. found.new.items) result state.new (rule.lengths (trees.expressions_in
        list.now) found.old.items (state_of state.old)) }
{
    for item in list {
        let v = attempt!(value(alloc, item, state));
        let found_length = array_length(&v);
        drop(v);
        let length = attempt!(found_length);
        attempt!(push(found, length));
    }
    Ok(())
}

/// The constants of an enumeration; whether one is negative.
#[cycle(expressions)]
#[tactic(auto, unfolding(c_types_spec::specs::Expressions::enumerators), using(crate::proofs::Rows::rows))]
fn enumerators<'a>(
    alloc: Global,
    list: &[Box<Constant<'a>>],
    state: &mut State<'a>,
) -> Result<bool, Refusal<TypeFault>>
    ensures { Runs (λ b. b) result state.new (rule.enumerators (trees.constants_in list.now) (pos 0)
        false (state_of state.old)) }
{
    let mut next = Next {
        value: 0,
        is_negative: false,
    };
    for item in list {
        attempt!(enumerator_row(alloc, item, &mut next, state));
    }
    Ok(next.is_negative)
}

/// A constant of an enumeration, which gives the next its value.
#[cycle(expressions)]
#[tactic(auto, using(crate::proofs::Parts::parts))]
fn enumerator_row<'a>(
    alloc: Global,
    item: &Constant<'a>,
    next: &mut Next,
    state: &mut State<'a>,
) -> Result<(), Refusal<TypeFault>>
    ensures { Runs (λ _. trees.next_of next.new) result state.new (trees.next_constant (constant_of
        item.now) (trees.next_of next.old) (state_of state.old)) }
{
    let given = attempt!(constant_value(alloc, item, next.value, state));
    attempt!(enumerator(item.name, given, state));
    next.value = attempt!(one_more(given), Refusal::NoMemory);
    next.is_negative = is_negative(next.is_negative, given);
    Ok(())
}

/// The value of a constant of an enumeration, where the one before asks for the next.
#[cycle(expressions)]
#[tactic(auto, using(crate::proofs::Parts::parts))]
fn constant_value<'a>(
    alloc: Global,
    constant: &Constant<'a>,
    next: i128,
    state: &mut State<'a>,
) -> Result<i128, Refusal<TypeFault>>
    ensures { Runs (λ v. v) result state.new (trees.constant_value (constant_of constant.now).1 next
        (state_of state.old)) }
{
    match &constant.value {
        Some(x) => {
            let v = attempt!(value(alloc, x, state));
            let made = integer_constant(&v);
            drop(v);
            made
        }
        None => Ok(next),
    }
}

/// The type of specifiers.
#[tactic(auto, unfolding(c_types_spec::specs::Expressions::specifiers), using(crate::proofs::Parts::parts))]
pub fn specifiers<'a>(
    alloc: Global,
    words: &Specifiers<'a>,
    state: &mut State<'a>,
) -> Result<CType, Refusal<TypeFault>>
    ensures { Runs type_of result state.new (rule.specifiers (specifiers_of words.now) (state_of
        state.old)) }
{
    type_specifier(alloc, &words.base, state)
}

/// The lengths of an array, from the left.
pub fn lengths<'a>(
    alloc: Global,
    list: &[Box<Expression<'a>>],
    state: &mut State<'a>,
) -> Result<Vec<u64>, Refusal<TypeFault>>
    ensures { Runs (λ l. l.items) result state.new (rule.lengths (trees.expressions_in list.now) []
        (state_of state.old)) }
{
    let mut found = Vec::new(alloc);
    attempt!(lengths_into(alloc, list, &mut found, state));
    Ok(found)
}
