//! Graphs as text: a line for each node, its number, the address if it is the first of an
//! instruction, and what it does.

ghost use Rattle.std.specs.Prelude.{◌<◌, length};

use decompile::CodeGraph;
use graph_core::{Next, SharedBinding, SharedNode};
use row_io::Out;
use std::fmt::Debug;
use term_bank::{Bank, TermId, TermNode};
use term_core_spec::{Atom, BinaryOperator, Family, Variable};

/// A variable after a blank.
pub(crate) fn put_variable(variable: Variable, out: &mut Out) {
    out.put(match variable.family {
        Family::Register => " x",
        Family::Entry => " e",
        Family::BinaryMemory => return out.put(" m"),
        _ => " ?",
    });
    out.show(&variable.index);
}

fn put_atom(atom: Atom, out: &mut Out) {
    match atom {
        Atom::Open(variable) => put_variable(variable, out),
        Atom::Constant(_, number) => {
            out.put(" ");
            out.hexadecimal(number & 0xffff_ffff);
        }
        Atom::Truth(truth) => out.put(if truth { " true" } else { " false" }),
    }
}

/// The name of an operator after a bracket.
fn put_operator<T: Debug>(operator: &T, out: &mut Out) {
    out.put(" (");
    out.show(operator);
}

/// An operator of two arguments: that of words by its own name.
fn put_binary(operator: BinaryOperator, out: &mut Out) {
    match operator {
        BinaryOperator::Word(word) => put_operator(&word, out),
        _ => put_operator(&operator, out),
    }
}

/// A term after a blank: an operator and its arguments in brackets.
fn put_term(bank: &Bank, id: TermId, out: &mut Out)
    requires { id < length bank.now }
{
    match bank.node(id) {
        TermNode::Leaf(atom) => return put_atom(atom, out),
        TermNode::Unary(operator, a) => {
            put_operator(&operator, out);
            put_term(bank, a, out);
        }
        TermNode::Binary(operator, a, b) => {
            put_binary(operator, out);
            put_term(bank, a, out);
            put_term(bank, b, out);
        }
        TermNode::Ternary(operator, a, b, c) => {
            put_operator(&operator, out);
            put_term(bank, a, out);
            put_term(bank, b, out);
            put_term(bank, c, out);
        }
        TermNode::Quaternary(operator, a, b, c, d) => {
            put_operator(&operator, out);
            put_term(bank, a, out);
            put_term(bank, b, out);
            put_term(bank, c, out);
            put_term(bank, d, out);
        }
        TermNode::Octonary(..) => out.put(" (?"),
    }
    out.put(")");
}

/// A term that is in the bank.
fn put_known(bank: &Bank, id: TermId, out: &mut Out) {
    if id < bank.len() {
        put_term(bank, id, out);
    }
}

fn put_bindings(bank: &Bank, bindings: &[SharedBinding], out: &mut Out) {
    for binding in bindings {
        put_variable(binding.variable, out);
        out.put(" =");
        put_known(bank, binding.term, out);
        out.put(";");
    }
}

fn put_next(next: Next, out: &mut Out) {
    match next {
        Next::At(number) => {
            out.put(" ");
            out.show(&number);
        }
        Next::Ret => out.put(" Ret"),
        Next::Err => out.put(" Err"),
    }
}

fn put_node(bank: &Bank, node: &SharedNode, out: &mut Out) {
    match node {
        SharedNode::Basic { bindings, next } => {
            put_bindings(bank, bindings.as_slice(), out);
            put_next(*next, out);
        }
        SharedNode::Cond {
            test,
            on_true,
            on_false,
        } => {
            put_known(bank, *test, out);
            out.put("?");
            put_next(*on_true, out);
            out.put(" :");
            put_next(*on_false, out);
        }
        SharedNode::Call {
            callee,
            inputs,
            outputs,
            landing,
        } => {
            put_bindings(bank, inputs.as_slice(), out);
            out.put(" graph ");
            out.show(callee);
            out.put(";");
            put_bindings(bank, outputs.as_slice(), out);
            put_next(Next::At(*landing), out);
        }
    }
}

/// The graph of a function.
pub(crate) fn put_graph(found: &CodeGraph, out: &mut Out) {
    for (number, node) in found.graph.nodes().iter().enumerate() {
        out.show(&number);
        for (address, first) in &found.firsts {
            if *first == number {
                out.put(" at ");
                out.hexadecimal(u64::from(*address));
            }
        }
        out.put(":");
        put_node(found.graph.bank(), node, out);
        out.put("\n");
    }
}
