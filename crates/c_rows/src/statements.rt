//! Statements as text: `(word@offset part ..)`.

use crate::expressions::{put_declarator, put_expression, put_name, put_specifiers};
use c_syntax::expression::Expression;
use c_syntax::simple::{Call, Simple, Value};
use c_syntax::statement::{ForStart, Group, Label, Local, Locals, Part, Statement};
use c_syntax_spec::StepOperator;
use row_io::Out;

fn put_call(call: &Call<'_>, out: &mut Out) {
    out.put(" (call");
    put_name(call.callee, out);
    for argument in &call.arguments {
        put_expression(argument, out);
    }
    out.put(")");
}

fn put_value(value: &Value<'_>, out: &mut Out) {
    match value {
        Value::Computed(tree) => put_expression(tree, out),
        Value::Called(call) => put_call(call, out),
    }
}

/// A word, the offset of an operator and its first operand.
fn put_test(word: &str, test: &Expression<'_>, offset: usize, out: &mut Out) {
    out.put_at(word, offset);
    put_expression(test, out);
}

fn put_step(
    word: &str,
    operator: StepOperator,
    target: &Expression<'_>,
    offset: usize,
    out: &mut Out,
) {
    out.put(word);
    out.show_at(&operator, offset);
    put_expression(target, out);
}

/// An expression statement: what is done, the offset of its operator, the target and the value.
fn put_simple(simple: &Simple<'_>, out: &mut Out) {
    out.put(" (");
    match simple {
        Simple::Assign(target, value, offset) => {
            put_test("assign", target, *offset, out);
            put_value(value, out);
        }
        Simple::AssignBy(operator, target, value, offset) => {
            out.put("assign ");
            out.show_at(operator, *offset);
            put_expression(target, out);
            put_expression(value, out);
        }
        Simple::StepAfter(operator, target, offset) => {
            put_step("after ", *operator, target, *offset, out);
        }
        Simple::StepBefore(operator, target, offset) => {
            put_step("before ", *operator, target, *offset, out);
        }
        Simple::Evaluate(value) => {
            out.put("evaluate");
            put_value(value, out);
        }
    }
    out.put(")");
}

fn put_local(local: &Local<'_>, out: &mut Out) {
    out.put(" ,");
    put_declarator(&local.declarator, out);
    if let Some(value) = &local.value {
        out.put(" =");
        put_value(value, out);
    }
}

/// A declaration of locals.
fn put_locals(locals: &Locals<'_>, out: &mut Out) {
    out.put(" (locals");
    put_specifiers(&locals.specifiers, out);
    for local in &locals.locals {
        put_local(local, out);
    }
    out.put(")");
}

fn put_start(start: &ForStart<'_>, out: &mut Out) {
    match start {
        ForStart::Empty => {}
        ForStart::Locals(locals) => put_locals(locals, out),
        ForStart::Simple(simple) => put_simple(simple, out),
    }
}

fn put_label(label: &Label<'_>, out: &mut Out) {
    match label {
        Label::Case(value, offset) => put_test(" (case", value, *offset, out),
        Label::Default(offset) => out.put_at(" (default", *offset),
    }
    out.put(")");
}

fn put_labels(labels: &[Label<'_>], out: &mut Out) {
    for label in labels {
        put_label(label, out);
    }
}

/// What is in a block or in a group of a `switch`.
#[cycle(statements)]
pub(crate) fn put_parts(parts: &[Part<'_>], out: &mut Out) {
    for part in parts {
        match part {
            Part::Locals(locals) => put_locals(locals, out),
            Part::Statement(statement) => put_statement(statement, out),
        }
    }
}

#[cycle(statements)]
fn put_groups(groups: &[Box<Group<'_>>], out: &mut Out) {
    for group in groups {
        put_labels(group.labels.as_slice(), out);
        put_parts(group.parts.as_slice(), out);
    }
}

#[cycle(statements)]
fn put_statement(statement: &Statement<'_>, out: &mut Out) {
    if let Statement::Perform(simple) = statement {
        return put_simple(simple, out);
    }
    out.put(" (");
    put_compound(statement, out);
    out.put(")");
}

/// A statement without others in it.
fn put_jump(statement: &Statement<'_>, out: &mut Out) {
    match statement {
        Statement::Empty(offset) => out.put_at("empty", *offset),
        Statement::Break(offset) => out.put_at("break", *offset),
        Statement::Continue(offset) => out.put_at("continue", *offset),
        Statement::Return(None, offset) => out.put_at("return", *offset),
        Statement::Return(Some(value), offset) => {
            out.put_at("return", *offset);
            put_value(value, out);
        }
        _ => {}
    }
}

/// A statement with others in it.
#[cycle(statements)]
fn put_compound(statement: &Statement<'_>, out: &mut Out) {
    match statement {
        Statement::Block(parts, offset) => {
            out.put_at("block", *offset);
            put_parts(parts.as_slice(), out);
        }
        Statement::If(test, body, offset) => {
            put_test("if", test, *offset, out);
            put_statement(body, out);
        }
        Statement::IfElse(test, body, otherwise, offset) => {
            put_test("if else", test, *offset, out);
            put_statement(body, out);
            put_statement(otherwise, out);
        }
        Statement::Switch(test, groups, offset) => {
            put_test("switch", test, *offset, out);
            put_groups(groups.as_slice(), out);
        }
        _ => put_loop(statement, out),
    }
}

#[cycle(statements)]
fn put_loop(statement: &Statement<'_>, out: &mut Out) {
    match statement {
        Statement::While(test, body, offset) => {
            put_test("while", test, *offset, out);
            put_statement(body, out);
        }
        Statement::Do(body, test, offset) => {
            put_test("do", test, *offset, out);
            put_statement(body, out);
        }
        Statement::For(start, test, step, body, offset) => {
            out.put_at("for", *offset);
            put_start(start, out);
            put_turns(test, step, out);
            put_statement(body, out);
        }
        _ => put_jump(statement, out),
    }
}

/// The test and the step of a `for`.
fn put_turns(test: &Option<Box<Expression<'_>>>, step: &Option<Box<Simple<'_>>>, out: &mut Out) {
    out.put(" ;");
    if let Some(test) = test {
        put_expression(test, out);
    }
    out.put(" ;");
    if let Some(step) = step {
        put_simple(step, out);
    }
    out.put(" ;");
}
