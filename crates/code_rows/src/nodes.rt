//! Whether a graph is valid: `nodes ENTRY WORD..`. The words are read in order, over a stack of
//! terms: a number of 32 bits, `parameter`, `local` and `truth` go onto it; `add`, `multiply`,
//! `less` and `equal` take two terms off it and put one on it. A node takes its terms off the
//! stack: `to=N` goes on, `set=N` sets the local and goes on, `test=N,N` tests, and `call=G,N`
//! calls graph G with the parameter and continues after its landing node. N is the number of a
//! node, `ret` or `err`.

use crate::number;
use graph_core::{Binding, Graph, Next, Node, validate};
use row_io::{Out, decimal, split};
use std::alloc::{AllocError, Global};
use term_core::Term;
use term_core_spec::{Atom, BinaryOperator, Family, Sort, Variable, Width, WordOperator};

const fn variable(family: Family) -> Variable {
    Variable {
        family,
        index: 0,
        instance: 0,
        sort: Sort::Word(Width::W32),
    }
}

fn next(text: &str) -> Next {
    match text {
        "ret" => Next::Ret,
        "err" => Next::Err,
        _ => Next::At(number(text)),
    }
}

fn operator(word: &str) -> Option<BinaryOperator> {
    match word {
        "add" => Some(BinaryOperator::Word(WordOperator::Add)),
        "multiply" => Some(BinaryOperator::Word(WordOperator::Multiply)),
        "less" => Some(BinaryOperator::Less),
        "equal" => Some(BinaryOperator::Equal),
        _ => None,
    }
}

fn atom(word: &str) -> Atom {
    match word {
        "parameter" => Atom::Open(variable(Family::Parameter)),
        "local" => Atom::Open(variable(Family::Local)),
        "truth" => Atom::Truth(true),
        _ => Atom::Constant(Width::W32, decimal(word)),
    }
}

/// The last term, taken off; an untrue one where there is none.
fn popped(alloc: Global, stack: &mut Vec<Box<Term>>) -> Result<Box<Term>, AllocError> {
    match stack.pop() {
        Some(term) => Ok(term),
        None => Term::leaf(alloc, Atom::Truth(false)),
    }
}

/// The last two terms, put together.
fn combine(
    alloc: Global,
    operator: BinaryOperator,
    stack: &mut Vec<Box<Term>>,
) -> Result<(), AllocError> {
    let second = popped(alloc, stack)?;
    let first = popped(alloc, stack)?;
    Ok(stack.push(Term::binary(alloc, operator, first, second)?)?)
}

/// The last term is bound.
fn bound(
    alloc: Global,
    family: Family,
    stack: &mut Vec<Box<Term>>,
) -> Result<Vec<Binding>, AllocError> {
    let mut bindings = Vec::new(alloc);
    let term = popped(alloc, stack)?;
    bindings.push(Binding {
        variable: variable(family),
        term,
    })?;
    Ok(bindings)
}

fn add_call(
    alloc: Global,
    value: &str,
    stack: &mut Vec<Box<Term>>,
    graph: &mut Graph,
) -> Result<usize, AllocError> {
    let (callee, then) = split(value, ',');
    let inputs = bound(alloc, Family::Parameter, stack)?;
    push_leaf(alloc, "local", stack)?;
    let outputs = bound(alloc, Family::Local, stack)?;
    graph.add_call(alloc, number(callee), inputs, outputs, next(then))
}

fn add_test(
    alloc: Global,
    value: &str,
    stack: &mut Vec<Box<Term>>,
    graph: &mut Graph,
) -> Result<usize, AllocError> {
    let (on_true, on_false) = split(value, ',');
    graph.add(Node::Cond {
        test: popped(alloc, stack)?,
        on_true: next(on_true),
        on_false: next(on_false),
    })
}

fn add_node(
    alloc: Global,
    kind: &str,
    value: &str,
    stack: &mut Vec<Box<Term>>,
    graph: &mut Graph,
) -> Result<usize, AllocError> {
    match kind {
        "set" => {
            let bindings = bound(alloc, Family::Local, stack)?;
            graph.add(Node::Basic {
                bindings,
                next: next(value),
            })
        }
        "test" => add_test(alloc, value, stack, graph),
        "call" => add_call(alloc, value, stack, graph),
        _ => graph.add(Node::Basic {
            bindings: Vec::new(alloc),
            next: next(value),
        }),
    }
}

/// The term of a word.
fn add_term(alloc: Global, word: &str, stack: &mut Vec<Box<Term>>) -> Result<(), AllocError> {
    match operator(word) {
        Some(operator) => combine(alloc, operator, stack),
        None => push_leaf(alloc, word, stack),
    }
}

fn push_leaf(alloc: Global, word: &str, stack: &mut Vec<Box<Term>>) -> Result<(), AllocError> {
    let leaf = Term::leaf(alloc, atom(word))?;
    Ok(stack.push(leaf)?)
}

/// The nodes of a row.
fn add_nodes(
    alloc: Global,
    row: &str,
    stack: &mut Vec<Box<Term>>,
    graph: &mut Graph,
) -> Result<(), AllocError> {
    for word in row.split_whitespace() {
        match word.split_once('=') {
            Some((kind, value)) => {
                add_node(alloc, kind, value, stack, graph)?;
            }
            None => add_term(alloc, word, stack)?,
        }
    }
    Ok(())
}

/// The outcome of a row.
pub(crate) fn put_nodes(alloc: Global, row: &str, out: &mut Out) -> Result<(), AllocError> {
    let (entry, rest) = split(row, ' ');
    let mut stack = Vec::new(alloc);
    let mut graph = Graph::new(alloc);
    graph.set_entry(number(entry));
    add_nodes(alloc, rest, &mut stack, &mut graph)?;
    out.put("valid ");
    out.show(&validate(&graph));
    out.put(" nodes ");
    out.show(&graph.len());
    Ok(())
}
