// Walks as words: for each node in turn where a run continues after it, `from` and the start,
// `stops` and `bounds` with marks, `cut` with nodes at which the walk ends, and `most` with the
// maximum of visits. A node's word is `N`, `R` for return or `E` for failure, two of these as
// `A/B` for a test, or `call`. A mark is `NODE:COUNT`.

use attempt::attempt;
use graph_core_spec::{Mark, Next};
use row_io::decimal;
use std::alloc::{AllocError, Global};
use visit_walk::Shape;
use visit_walk_spec::Successors;

/// A walk, and the maximum of its visits.
#[derive(Drop)]
pub(crate) struct Words {
    pub(crate) shape: Shape,
    pub(crate) start: usize,
    pub(crate) stops: Vec<Mark>,
    pub(crate) bounds: Vec<Mark>,
    pub(crate) maximum: usize,
}

/// The number of a decimal numeral.
pub(crate) fn number(text: &str) -> usize {
    decimal(text) as usize
}

pub(crate) fn place(text: &str) -> Next {
    match text {
        "R" => Next::Ret,
        "E" => Next::Err,
        _ => Next::At(number(text)),
    }
}

fn successors(text: &str) -> Successors {
    if text == "call" {
        return Successors::Callee;
    }
    match text.split_once('/') {
        Some((on_true, on_false)) => Successors::Two(place(on_true), place(on_false)),
        None => Successors::One(place(text)),
    }
}

pub(crate) fn mark(text: &str) -> Mark {
    let (node, count) = text.split_once(':').unwrap_or((text, "1"));
    Mark {
        node: number(node),
        count: number(count),
    }
}

/// What a word says of a walk.
#[derive(Clone, Copy)]
enum Part {
    Node,
    Start,
    Stop,
    Bound,
    Cut,
    Maximum,
}

/// What the words after a name say.
fn named(name: &str) -> Option<Part> {
    match name {
        "from" => Some(Part::Start),
        "stops" => Some(Part::Stop),
        "bounds" => Some(Part::Bound),
        "cut" => Some(Part::Cut),
        "most" => Some(Part::Maximum),
        _ => None,
    }
}

/// Adds what a word says.
fn add(words: &mut Words, part: Part, word: &str) -> Result<(), AllocError> {
    match part {
        Part::Node => attempt!(words.shape.successors.push(successors(word)), AllocError),
        Part::Start => words.start = number(word),
        Part::Stop => attempt!(words.stops.push(mark(word)), AllocError),
        Part::Bound => attempt!(words.bounds.push(mark(word)), AllocError),
        Part::Cut => words.shape.cut(number(word)),
        Part::Maximum => words.maximum = number(word),
    }
    Ok(())
}

fn add_all(words: &mut Words, text: &str) -> Result<(), AllocError> {
    let mut current = Part::Node;
    for word in text.split(' ') {
        match named(word) {
            Some(next) => current = next,
            None => attempt!(add(words, current, word)),
        }
    }
    Ok(())
}

/// The walk of a text; it starts at node 0, and has at most 65,536 visits, unless it says
/// otherwise.
pub(crate) fn read(alloc: Global, text: &str) -> Result<Words, AllocError> {
    let mut words = Words {
        shape: Shape {
            successors: Vec::new(alloc),
        },
        start: 0,
        stops: Vec::new(alloc),
        bounds: Vec::new(alloc),
        maximum: 65_536,
    };
    attempt!(add_all(&mut words, text));
    Ok(words)
}
