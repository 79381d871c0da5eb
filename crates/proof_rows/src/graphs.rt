// Graphs as words: for each node in turn what it does and where a run continues after it. A node's
// word is a place, as in `walks`; with what it binds before it, as in `a=TERM,b=TERM>PLACE`; a
// test, as `TERM?PLACE/PLACE`; or `call`, whose landing node is the next one. A term has no spaces,
// and an operator precedes its arguments: `+`, `-`, `<`, `=`, `!`, `&`, `|`, `*` for the load of a
// byte, and `:` for a choice. A letter is a variable of that name, of the source if it is a capital
// one, a digit a constant; `T` and `F` are the truth values. `@` is any address, and `$`, `%` and
// `^` are the memories of the binary, of the source and in the zone.

use crate::walks::place;
use attempt::attempt;
use graph_core::{Binding, Graph, Node};
use graph_core_spec::Next;
use std::alloc::{AllocError, Global};
use term_core::Term;
use term_core_spec::{
    Atom, BinaryOperator, Family, Sort, TernaryOperator, UnaryOperator, Variable, Width,
    WordOperator,
};

/// A variable that is alone in its family: a memory, or any address.
fn only(family: Family, sort: Sort) -> Variable {
    Variable {
        family,
        index: 0,
        instance: 0,
        sort,
    }
}

/// The variable of a letter.
fn variable(letter: u8) -> Variable {
    let family = match letter {
        b'@' => return only(Family::Address, Sort::Word(Width::W32)),
        b'$' => return only(Family::BinaryMemory, Sort::Memory),
        b'%' => return only(Family::SourceMemory, Sort::Memory),
        b'^' => return only(Family::ZoneMemory, Sort::Memory),
        b'A'..=b'Z' => Family::Local,
        _ => Family::Register,
    };
    Variable {
        family,
        index: usize::from(letter),
        instance: 0,
        sort: Sort::Word(Width::W64),
    }
}

/// The term that was read last; one that is missing is false.
fn last(alloc: Global, read: &mut Vec<Box<Term>>) -> Result<Box<Term>, AllocError> {
    match read.pop() {
        Some(term) => Ok(term),
        None => Term::leaf(alloc, Atom::Truth(false)),
    }
}

fn unary(
    alloc: Global,
    read: &mut Vec<Box<Term>>,
    operator: UnaryOperator,
) -> Result<Box<Term>, AllocError> {
    let a = attempt!(last(alloc, read));
    Term::unary(alloc, operator, a)
}

fn binary(
    alloc: Global,
    read: &mut Vec<Box<Term>>,
    operator: BinaryOperator,
) -> Result<Box<Term>, AllocError> {
    let a = attempt!(last(alloc, read));
    let b = attempt!(last(alloc, read));
    Term::binary(alloc, operator, a, b)
}

fn choice(alloc: Global, read: &mut Vec<Box<Term>>) -> Result<Box<Term>, AllocError> {
    let a = attempt!(last(alloc, read));
    let b = attempt!(last(alloc, read));
    let c = attempt!(last(alloc, read));
    Term::ternary(alloc, TernaryOperator::Choose, a, b, c)
}

fn atom(byte: u8) -> Atom {
    match byte {
        b'T' => Atom::Truth(true),
        b'F' => Atom::Truth(false),
        b'0'..=b'9' => Atom::Constant(Width::W64, u64::from(byte - b'0')),
        _ => Atom::Open(variable(byte)),
    }
}

/// The term that a byte begins, before those that were read.
fn begun(alloc: Global, read: &mut Vec<Box<Term>>, byte: u8) -> Result<Box<Term>, AllocError> {
    match byte {
        b'+' => binary(alloc, read, BinaryOperator::Word(WordOperator::Add)),
        b'-' => binary(alloc, read, BinaryOperator::Word(WordOperator::Subtract)),
        b'<' => binary(alloc, read, BinaryOperator::Less),
        b'=' => binary(alloc, read, BinaryOperator::Equal),
        b'*' => binary(alloc, read, BinaryOperator::Load),
        b'&' => binary(alloc, read, BinaryOperator::And),
        b'|' => binary(alloc, read, BinaryOperator::Or),
        b'!' => unary(alloc, read, UnaryOperator::Not),
        b':' => choice(alloc, read),
        _ => Term::leaf(alloc, atom(byte)),
    }
}

pub(crate) fn term(alloc: Global, text: &str) -> Result<Box<Term>, AllocError> {
    let mut read = Vec::new(alloc);
    let bytes = text.as_bytes();
    let mut i = bytes.len();
    while i > 0 {
        i -= 1;
        let term = attempt!(begun(alloc, &mut read, bytes[i]));
        attempt!(read.push(term), AllocError);
    }
    last(alloc, &mut read)
}

fn binding(alloc: Global, text: &str) -> Result<Binding, AllocError> {
    let (name, value) = text.split_once('=').unwrap_or((text, ""));
    let term = attempt!(term(alloc, value));
    let variable = variable(name.bytes().next().unwrap_or(b'a'));
    Ok(Binding { variable, term })
}

fn bindings(alloc: Global, text: &str) -> Result<Vec<Binding>, AllocError> {
    let mut bindings = Vec::new(alloc);
    for part in text.split(',') {
        let binding = attempt!(binding(alloc, part));
        attempt!(bindings.push(binding), AllocError);
    }
    Ok(bindings)
}

// A call whose landing node is this one.
fn call(alloc: Global, landing: usize) -> Node {
    Node::Call {
        callee: 0,
        inputs: Vec::new(alloc),
        outputs: Vec::new(alloc),
        landing,
    }
}

fn test(alloc: Global, test: &str, places: &str) -> Result<Node, AllocError> {
    let (on_true, on_false) = places.split_once('/').unwrap_or((places, places));
    let test = attempt!(term(alloc, test));
    Ok(Node::Cond {
        test,
        on_true: place(on_true),
        on_false: place(on_false),
    })
}

fn basic(alloc: Global, text: &str) -> Result<Node, AllocError> {
    let Some((bound, next)) = text.split_once('>') else {
        return Ok(continues(alloc, place(text)));
    };
    let bindings = attempt!(bindings(alloc, bound));
    Ok(Node::Basic {
        bindings,
        next: place(next),
    })
}

fn continues(alloc: Global, next: Next) -> Node {
    Node::Basic {
        bindings: Vec::new(alloc),
        next,
    }
}

fn node(alloc: Global, word: &str, number: usize) -> Result<Node, AllocError> {
    if word == "call" {
        return Ok(call(alloc, number.wrapping_add(1)));
    }
    match word.split_once('?') {
        Some((tested, places)) => test(alloc, tested, places),
        None => basic(alloc, word),
    }
}

/// The graph of a text.
pub(crate) fn read(alloc: Global, text: &str) -> Result<Graph, AllocError> {
    let mut graph = Graph::new(alloc);
    for word in text.split(' ') {
        let number = graph.len();
        let node = attempt!(node(alloc, word, number));
        attempt!(graph.add(node));
    }
    Ok(graph)
}

/// The same, alone in a list.
pub(crate) fn read_alone(alloc: Global, text: &str) -> Result<Vec<Graph>, AllocError> {
    let graph = attempt!(read(alloc, text));
    let mut graphs = Vec::new(alloc);
    attempt!(graphs.push(graph), AllocError);
    Ok(graphs)
}
