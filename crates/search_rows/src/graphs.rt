// The question `loops GRAPH`: the heads of its loops, or `none`.
//
// A graph is for each node in turn where a run continues after it: `N`, `R` for return or `E` for
// failure, two of these as `A/B` for a test, or `call`, whose landing node is the next one. `from`
// and a number name the entry; else it is node 0.

use attempt::attempt;
use graph_core::{Graph, Node};
use graph_core_spec::Next;
use loop_find::loops;
use row_io::{Out, decimal, split_at};
use std::alloc::{AllocError, Global};
use term_core::Term;
use term_core_spec::Atom;

/// The number of a decimal numeral.
pub(crate) fn number(text: &str) -> usize {
    decimal(text) as usize
}

fn place(text: &str) -> Next {
    match text {
        "R" => Next::Ret,
        "E" => Next::Err,
        _ => Next::At(number(text)),
    }
}

// The node of a word. A test is true: which nodes may follow doesn't depend on it.
fn node(alloc: Global, word: &str, number: usize) -> Result<Node, AllocError> {
    if word == "call" {
        return Ok(Node::Call {
            callee: 0,
            inputs: Vec::new(alloc),
            outputs: Vec::new(alloc),
            landing: number.wrapping_add(1),
        });
    }
    match word.split_once('/') {
        None => Ok(Node::Basic {
            bindings: Vec::new(alloc),
            next: place(word),
        }),
        Some((on_true, on_false)) => {
            let test = attempt!(Term::leaf(alloc, Atom::Truth(true)));
            Ok(Node::Cond {
                test,
                on_true: place(on_true),
                on_false: place(on_false),
            })
        }
    }
}

/// The graph of a text.
fn read(alloc: Global, text: &str) -> Result<Graph, AllocError> {
    let (nodes, entry) = split_at(text, " from ");
    let mut graph = Graph::new(alloc);
    for word in nodes.split(' ') {
        let next = graph.len();
        let node = attempt!(node(alloc, word, next));
        attempt!(graph.add(node));
    }
    graph.set_entry(number(entry));
    Ok(graph)
}

/// Adds numbers with spaces between, or `none`.
pub(crate) fn add_numbers(out: &mut Out, numbers: &[usize]) {
    let mut before = "";
    for number in numbers {
        out.put(before);
        out.show(number);
        before = " ";
    }
    if numbers.is_empty() {
        out.put("none");
    }
}

/// Adds the answer.
pub(crate) fn answer(alloc: Global, out: &mut Out, text: &str) -> Result<(), AllocError> {
    let graph = attempt!(read(alloc, text));
    let found = attempt!(loops(alloc, &graph));
    let mut heads = Vec::new(alloc);
    for one in &found {
        attempt!(heads.push(one.head), AllocError);
    }
    add_numbers(out, heads.as_slice());
    Ok(())
}
