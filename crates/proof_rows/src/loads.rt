// The question `loads N`, of a graph whose one test compares a word with 0: the word at an address
// that is the word at an address, and so on, N times. The answer is whether the graph is valid, how
// many variables it has, and how many distinct subterms the condition of each visit has.

ghost use Rattle.std.specs.Prelude.{◌<◌, ◌≤◌, ℕ, length, IfOk};
ghost use Rattle.visit_walk_spec.specs.Listing.{IsListing};
ghost use Rattle.visit_walk_spec.specs.Visits.{Walk};

use crate::walks::number;
use attempt::attempt;
use graph_core::{Graph, SharedNode, validate};
use graph_core_spec::Next;
use path_cond::{Conditions, State, conditions};
use row_io::Out;
use std::alloc::{AllocError, Global};
use std::collections::HashMap;
use term_bank::{Bank, TermId, TermNode};
use term_core_spec::{
    Atom, BinaryOperator, Family, QuaternaryOperator, Sort, Variable, Width, WordOperator,
};
use visit_walk::{Shape, Visits, visits};

/// The maximum of subterms that are counted, and of visits.
const MOST: usize = 1 << 16;

fn variable(family: Family, sort: Sort) -> Atom {
    Atom::Open(Variable {
        family,
        index: 0,
        instance: 0,
        sort,
    })
}

/// Adds the byte at an address some bytes on.
fn add_byte(
    graph: &mut Graph,
    memory: TermId,
    address: TermId,
    offset: u64,
) -> Result<TermId, AllocError>
    requires { (memory < length graph.old.trees) × (address < length graph.old.trees) }
    ensures within { IfOk result (λ id. id < length graph.new.trees) }
    ensures longer { length graph.old.trees ≤ length graph.new.trees }
{
    let offset = attempt!(graph.add_term(TermNode::Leaf(Atom::Constant(Width::W32, offset))));
    let add = BinaryOperator::Word(WordOperator::Add);
    let at = attempt!(graph.add_term(TermNode::Binary(add, address, offset)));
    graph.add_term(TermNode::Binary(BinaryOperator::Load, memory, at))
}

/// Adds the word at an address.
fn add_word(graph: &mut Graph, memory: TermId, address: TermId) -> Result<TermId, AllocError>
    requires { (memory < length graph.old.trees) × (address < length graph.old.trees) }
    ensures within { IfOk result (λ id. id < length graph.new.trees) }
    ensures longer { length graph.old.trees ≤ length graph.new.trees }
{
    let a = attempt!(graph.add_term(TermNode::Binary(BinaryOperator::Load, memory, address)));
    let b = attempt!(add_byte(graph, memory, address, 1));
    let c = attempt!(add_byte(graph, memory, address, 2));
    let d = attempt!(add_byte(graph, memory, address, 3));
    graph.add_term(TermNode::Quaternary(QuaternaryOperator::Join, a, b, c, d))
}

/// Adds the word at the word at an address, and so on.
fn add_words(
    graph: &mut Graph,
    memory: TermId,
    address: TermId,
    levels: usize,
) -> Result<TermId, AllocError>
    requires { (memory < length graph.old.trees) × (address < length graph.old.trees) }
    ensures { IfOk result (λ id. id < length graph.new.trees) }
{
    let mut word = address;
    for _level in 0..levels {
        word = attempt!(add_word(graph, memory, word));
    }
    Ok(word)
}

/// Adds the test of a word.
fn add_test(graph: &mut Graph, word: TermId) -> Result<usize, AllocError>
    requires { word < length graph.old.trees }
{
    let zero = attempt!(graph.add_term(TermNode::Leaf(Atom::Constant(Width::W32, 0))));
    let test = attempt!(graph.add_term(TermNode::Binary(BinaryOperator::Equal, word, zero)));
    graph.add_shared(SharedNode::Cond {
        test,
        on_true: Next::Ret,
        on_false: Next::Err,
    })
}

/// Adds the node of the graph.
fn add_node(graph: &mut Graph, levels: usize) -> Result<usize, AllocError> {
    let memory = variable(Family::SourceMemory, Sort::Memory);
    let memory = attempt!(graph.add_term(TermNode::Leaf(memory)));
    let address = variable(Family::Parameter, Sort::Word(Width::W32));
    let address = attempt!(graph.add_term(TermNode::Leaf(address)));
    let word = attempt!(add_words(graph, memory, address, levels));
    add_test(graph, word)
}

fn add_size(alloc: Global, out: &mut Out, bank: &Bank, id: TermId) -> Result<(), AllocError> {
    out.put(" ");
    if id < bank.len() {
        let count = attempt!(bank.count_subterms(alloc, id, MOST));
        out.show(&count.unwrap_or(0));
    }
    Ok(())
}

fn add_sizes(
    alloc: Global,
    out: &mut Out,
    bank: &Bank,
    found: &Conditions,
) -> Result<(), AllocError> {
    for condition in found.known.conditions.as_slice() {
        attempt!(add_size(alloc, out, bank, *condition));
    }
    Ok(())
}

fn add_found(alloc: Global, out: &mut Out, graph: &Graph, visits: &Visits) -> Result<(), AllocError>
    requires { (w : Walk) × (maximum : ℕ) × IsListing w maximum visits.now }
{
    let mut bank = Bank::new(alloc);
    let start: State = HashMap::new(alloc);
    let found = attempt!(conditions(alloc, graph, visits, &start, &mut bank));
    add_sizes(alloc, out, &bank, &found)
}

/// Adds what is found of the walk from node 0.
fn add_walk(alloc: Global, out: &mut Out, graph: &Graph) -> Result<(), AllocError> {
    let shape = attempt!(Shape::of(alloc, graph));
    match visits(alloc, &shape, 0, &[], &[], MOST) {
        Ok(found) => add_found(alloc, out, graph, &found),
        Err(_) => Ok(out.put(" ?")),
    }
}

/// Adds what is found of the graph.
fn add_graph(alloc: Global, out: &mut Out, graph: &Graph) -> Result<(), AllocError> {
    let variables = attempt!(graph.variables(alloc));
    out.put(if validate(graph) {
        "valid, "
    } else {
        "not valid, "
    });
    out.show(&variables.len());
    out.put(" variables, terms");
    add_walk(alloc, out, graph)
}

/// Adds the answer.
pub(crate) fn answer(alloc: Global, out: &mut Out, text: &str) -> Result<(), AllocError> {
    let mut graph = Graph::new(alloc);
    attempt!(add_node(&mut graph, number(text)));
    add_graph(alloc, out, &graph)
}
