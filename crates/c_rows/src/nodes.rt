//! Graphs as text: the nodes one after the other, each with its number.

ghost use Rattle.std.specs.Prelude.{◌<◌, length};

use graph_core::{Graph, SharedBinding, SharedNode};
use graph_core_spec::Next;
use row_io::Out;
use std::fmt::Debug;
use term_bank::{Bank, TermId, TermNode};
use term_core_spec::{Atom, BinaryOperator, Family, Sort, Variable, Width};

/// A width that is not 32.
fn put_width(width: Width, out: &mut Out) {
    match width {
        Width::W8 => out.put("w8"),
        Width::W16 => out.put("w16"),
        Width::W32 => {}
        Width::W64 => out.put("w64"),
    }
}

/// A variable, and its width.
fn put_variable(variable: Variable, out: &mut Out) {
    out.put(match variable.family {
        Family::Local => "x",
        Family::IsSet => "s",
        Family::SourceMemory => return out.put("m"),
        Family::Further => "z",
        _ => "?",
    });
    out.show(&variable.index);
    if let Sort::Word(width) = variable.sort {
        put_width(width, out);
    }
}

/// A constant, and its width.
fn put_constant(width: Width, number: u64, out: &mut Out) {
    out.show(&number);
    put_width(width, out);
}

fn put_atom(atom: Atom, out: &mut Out) {
    match atom {
        Atom::Open(variable) => put_variable(variable, out),
        Atom::Constant(width, number) => put_constant(width, number, out),
        Atom::Truth(truth) => out.put(if truth { "true" } else { "false" }),
    }
}

/// The name of an operator after a bracket.
fn put_operator<T: Debug>(operator: &T, out: &mut Out) {
    out.put("(");
    out.show(operator);
}

/// An operator of two arguments: that of words by its own name, after a point.
fn put_binary(operator: BinaryOperator, out: &mut Out) {
    match operator {
        BinaryOperator::Word(word) => {
            out.put("(.");
            out.show(&word);
        }
        _ => put_operator(&operator, out),
    }
}

/// An argument after a blank.
#[cycle(terms)]
fn put_argument(bank: &Bank, id: TermId, out: &mut Out)
    requires { id < length bank.now }
{
    out.put(" ");
    put_term(bank, id, out);
}

/// A term: an operator and its arguments in brackets.
#[cycle(terms)]
fn put_term(bank: &Bank, id: TermId, out: &mut Out)
    requires { id < length bank.now }
{
    match bank.node(id) {
        TermNode::Leaf(atom) => return put_atom(atom, out),
        TermNode::Unary(operator, a) => {
            put_operator(&operator, out);
            put_argument(bank, a, out);
        }
        TermNode::Binary(operator, a, b) => {
            put_binary(operator, out);
            put_argument(bank, a, out);
            put_argument(bank, b, out);
        }
        TermNode::Ternary(operator, a, b, c) => {
            put_operator(&operator, out);
            put_argument(bank, a, out);
            put_argument(bank, b, out);
            put_argument(bank, c, out);
        }
        TermNode::Quaternary(operator, a, b, c, d) => {
            put_operator(&operator, out);
            put_argument(bank, a, out);
            put_argument(bank, b, out);
            put_argument(bank, c, out);
            put_argument(bank, d, out);
        }
        TermNode::Octonary(..) => out.put("(?"),
    }
    out.put(")");
}

/// A term that is in the bank.
fn put_known(bank: &Bank, id: TermId, out: &mut Out) {
    if id < bank.len() {
        put_term(bank, id, out);
    }
}

fn put_bindings(bank: &Bank, bindings: &[SharedBinding], out: &mut Out) {
    for binding in bindings {
        put_variable(binding.variable, out);
        out.put("=");
        put_known(bank, binding.term, out);
        out.put(" ");
    }
}

fn put_next(next: Next, out: &mut Out) {
    match next {
        Next::At(number) => out.show(&number),
        Next::Ret => out.put("ret"),
        Next::Err => out.put("err"),
    }
}

fn put_node(bank: &Bank, node: &SharedNode, out: &mut Out) {
    match node {
        SharedNode::Basic { bindings, next } => {
            put_bindings(bank, bindings.as_slice(), out);
            out.put("-> ");
            put_next(*next, out);
        }
        SharedNode::Cond {
            test,
            on_true,
            on_false,
        } => {
            put_known(bank, *test, out);
            out.put(" ? ");
            put_next(*on_true, out);
            out.put(" : ");
            put_next(*on_false, out);
        }
        SharedNode::Call {
            callee,
            inputs,
            outputs,
            landing,
        } => {
            put_bindings(bank, inputs.as_slice(), out);
            out.put("call ");
            out.show(callee);
            out.put(" ");
            put_bindings(bank, outputs.as_slice(), out);
            out.put("-> ");
            out.show(landing);
        }
    }
}

/// It is the test of a guard, or a test that always fails.
fn is_guard(node: &SharedNode) -> bool {
    match node {
        SharedNode::Cond { on_false, .. } => match on_false {
            Next::Err => true,
            Next::At(_) | Next::Ret => false,
        },
        SharedNode::Basic { .. } | SharedNode::Call { .. } => false,
    }
}

/// A graph, with the tests of guards or without them.
pub(crate) fn put_graph(graph: &Graph, with_guards: bool, out: &mut Out) {
    let mut is_first = true;
    for (number, node) in graph.nodes().iter().enumerate() {
        if with_guards || !is_guard(node) {
            if !is_first {
                out.put(" / ");
            }
            out.show(&number);
            out.put(" ");
            put_node(graph.bank(), node, out);
            is_first = false;
        }
    }
}
