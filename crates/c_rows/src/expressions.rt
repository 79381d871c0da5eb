//! Expressions and types as text: `(operator@offset operand ..)`, a name or a number with its
//! offset, and a type as its words with a `*` for each pointer.

use crate::tokens::put_number;
use c_syntax::expression::{
    Constant, Declarator, Dimensions, Expression, Member, Name, Specifiers, Storage, TypeName,
    TypeSpecifier,
};
use row_io::Out;

/// A name and its offset.
pub(crate) fn put_name(name: Name<'_>, out: &mut Out) {
    out.put(" ");
    out.bytes(name.spelling);
    out.put_at("", name.offset);
}

pub(crate) fn put_pointers(count: usize, out: &mut Out) {
    for _ in 0..count {
        out.put(" *");
    }
}

/// A tag, or none.
fn put_tag(tag: Option<Name<'_>>, out: &mut Out) {
    if let Some(tag) = tag {
        put_name(tag, out);
    }
}

fn put_storage(storage: Storage, out: &mut Out) {
    if storage.is_typedef {
        out.put(" typedef");
    }
    if storage.is_static {
        out.put(" static");
    }
}

/// An expression after a blank.
#[cycle(tree)]
pub(crate) fn put_expression(tree: &Expression<'_>, out: &mut Out) {
    match tree {
        Expression::Named(name) => put_name(*name, out),
        Expression::Number(value, number_type, offset) => {
            out.put(" ");
            put_number(*value, *number_type, out);
            out.put_at("", *offset);
        }
        Expression::Character(value, offset) => {
            out.put(" '");
            out.show_at(value, *offset);
        }
        _ => {
            out.put(" (");
            put_operation(tree, out);
            out.put(")");
        }
    }
}

/// An operator, its offset and its operands.
#[cycle(tree)]
fn put_operation(tree: &Expression<'_>, out: &mut Out) {
    match tree {
        Expression::Index(base, index, offset) => {
            out.put_at("index", *offset);
            put_expression(base, out);
            put_expression(index, out);
        }
        Expression::Member(base, access, name, offset) => {
            out.show_at(access, *offset);
            put_expression(base, out);
            put_name(*name, out);
        }
        Expression::Binary(operator, left, right, offset) => {
            out.show_at(operator, *offset);
            put_expression(left, out);
            put_expression(right, out);
        }
        Expression::Conditional(test, first, second, offset) => {
            out.put_at("if", *offset);
            put_expression(test, out);
            put_expression(first, out);
            put_expression(second, out);
        }
        _ => put_prefix(tree, out),
    }
}

/// An operator before its operand, its offset and the operand.
#[cycle(tree)]
fn put_prefix(tree: &Expression<'_>, out: &mut Out) {
    match tree {
        Expression::Bracketed(inner, offset) => {
            out.put_at("brackets", *offset);
            put_expression(inner, out);
        }
        Expression::Unary(operator, operand, offset) => {
            out.show_at(operator, *offset);
            put_expression(operand, out);
        }
        Expression::Sizeof(operand, offset) => {
            out.put_at("sizeof", *offset);
            put_expression(operand, out);
        }
        Expression::SizeofType(of, offset) => {
            out.put_at("sizeof", *offset);
            put_type(of, out);
        }
        Expression::Cast(to, operand, offset) => {
            out.put_at("cast", *offset);
            put_type(to, out);
            put_expression(operand, out);
        }
        _ => {}
    }
}

#[cycle(tree)]
fn put_type(of: &TypeName<'_>, out: &mut Out) {
    put_specifiers(&of.specifiers, out);
    put_pointers(of.pointers, out);
}

/// The offset of the first word, the storage-class words and the type specifier.
#[cycle(tree)]
pub(crate) fn put_specifiers(of: &Specifiers<'_>, out: &mut Out) {
    out.put_at(" type", of.offset);
    put_storage(of.storage, out);
    put_base(&of.base, out);
}

#[cycle(tree)]
fn put_base(base: &TypeSpecifier<'_>, out: &mut Out) {
    match base {
        TypeSpecifier::Struct(tag, members) => {
            out.put(" struct");
            put_tag(*tag, out);
            out.put(" {");
            put_members(members.as_slice(), out);
            out.put(" }");
        }
        TypeSpecifier::Enum(tag, constants) => {
            out.put(" enum");
            put_tag(*tag, out);
            out.put(" {");
            put_constants(constants.as_slice(), out);
            out.put(" }");
        }
        _ => put_word(base, out),
    }
}

/// A type that is a word or a tag.
fn put_word(base: &TypeSpecifier<'_>, out: &mut Out) {
    match base {
        TypeSpecifier::Void => out.put(" void"),
        TypeSpecifier::Integer(integer) => {
            out.put(" ");
            out.show(integer);
        }
        TypeSpecifier::TypedefName(name) => put_name(*name, out),
        TypeSpecifier::StructTag(tag) => {
            out.put(" struct");
            put_name(*tag, out);
        }
        TypeSpecifier::EnumTag(tag) => {
            out.put(" enum");
            put_name(*tag, out);
        }
        _ => {}
    }
}

#[cycle(tree)]
fn put_members(members: &[Box<Member<'_>>], out: &mut Out) {
    for member in members {
        put_specifiers(&member.specifiers, out);
        put_declarators(member.declarators.as_slice(), out);
        out.put(";");
    }
}

#[cycle(tree)]
fn put_declarators(declarators: &[Box<Declarator<'_>>], out: &mut Out) {
    for declarator in declarators {
        put_declarator(declarator, out);
    }
}

/// The pointers, the name and the lengths.
#[cycle(tree)]
pub(crate) fn put_declarator(of: &Declarator<'_>, out: &mut Out) {
    put_pointers(of.pointers, out);
    put_name(of.name, out);
    put_dimensions(&of.dimensions, out);
}

#[cycle(tree)]
pub(crate) fn put_dimensions(of: &Dimensions<'_>, out: &mut Out) {
    if of.is_open {
        out.put(" []");
    }
    for length in &of.lengths {
        out.put(" [");
        put_expression(length, out);
        out.put(" ]");
    }
}

#[cycle(tree)]
fn put_constants(constants: &[Box<Constant<'_>>], out: &mut Out) {
    for constant in constants {
        put_name(constant.name, out);
        if let Some(value) = &constant.value {
            out.put(" =");
            put_expression(value, out);
        }
    }
}
