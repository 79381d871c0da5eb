//! Calls.
//!
//! `call INPUTS | INPUTS | OUTPUTS | CALLEE | ENTRY | BEFORE | AFTER` asks for the obligations of a
//! call at node 0 of both graphs: what the binary's call binds, what the source's does, and what
//! that binds where it is back; the callee's stack, the type of its result and those of its
//! parameters; what holds at entry; the relations before and after. Bindings and lines have ` ; `
//! between them. The caller takes 32 bytes of stack, and has a parameter of 32 bits and locals of
//! 32, 8 and 16 bits.
//!
//! `find NODE CALLEE | NODE CALLEE` asks for the landing nodes of two calls, in graphs whose node 0
//! is a call of graph 1, node 1 its landing node, node 2 a call of graph 1 whose landing node is
//! missing, and node 3 one of a graph that is missing.

ghost use Rattle.sim_calls.specs.Sites.{AreWithin};

use crate::settings::setting;
use crate::words::{put_terms, term, variable};
use attempt::{Refusal, attempt};
use c_types_spec::Scalar;
use graph_core::{Binding, Graph, GraphRun, Next, Node};
use proof_tree::{Frame, Reachable, Setting, Start};
use proof_tree_spec::Nodes;
use row_io::{Out, decimal, split};
use sim_calls::{CallFault, CallLines, Callee, Calls, Setup, find_calls, obligations};
use sim_rules_terms::Convention;
use std::alloc::{AllocError, Global};
use term_bank::Bank;
use term_core::Term;

/// Scalar types and their names.
const SCALARS: [(&str, u32, bool); 8] = [
    ("s8", 8, true),
    ("u8", 8, false),
    ("s16", 16, true),
    ("u16", 16, false),
    ("s32", 32, true),
    ("u32", 32, false),
    ("s64", 64, true),
    ("u64", 64, false),
];

/// The type of a name; any other name has none.
fn scalar(name: &str) -> Option<Scalar> {
    for (of, width, is_signed) in &SCALARS {
        if *of == name {
            return Some(Scalar {
                width: *width,
                is_signed: *is_signed,
            });
        }
    }
    None
}

/// Adds lines.
fn add_lines(alloc: Global, lines: &mut Vec<Box<Term>>, text: &str) -> Result<(), AllocError> {
    if text.trim().is_empty() {
        return Ok(());
    }
    for part in text.split(';') {
        let line = attempt!(term(alloc, part));
        attempt!(lines.push(line), AllocError);
    }
    Ok(())
}

/// Adds bindings.
fn add_bindings(alloc: Global, bindings: &mut Vec<Binding>, text: &str) -> Result<(), AllocError> {
    if text.trim().is_empty() {
        return Ok(());
    }
    for part in text.split(';') {
        let (name, value) = split(part.trim(), ' ');
        let term = attempt!(term(alloc, value));
        let variable = variable(name);
        attempt!(bindings.push(Binding { variable, term }), AllocError);
    }
    Ok(())
}

/// Adds the types of words.
fn add_scalars(types: &mut Vec<Scalar>, text: &str) -> Result<(), AllocError> {
    for word in text.split(' ') {
        if let Some(of) = scalar(word) {
            attempt!(types.push(of), AllocError);
        }
    }
    Ok(())
}

/// Adds a call: of this graph, with this landing node.
fn add_call(
    alloc: Global,
    graph: &mut Graph,
    callee: usize,
    landing: usize,
    inputs: &str,
    outputs: &str,
) -> Result<(), AllocError> {
    let mut bound = Vec::new(alloc);
    attempt!(add_bindings(alloc, &mut bound, inputs));
    let mut taken = Vec::new(alloc);
    attempt!(add_bindings(alloc, &mut taken, outputs));
    attempt!(graph.add(Node::Call {
        callee,
        inputs: bound,
        outputs: taken,
        landing,
    }));
    Ok(())
}

/// Adds a node that returns.
fn add_return(alloc: Global, graph: &mut Graph) -> Result<(), AllocError> {
    attempt!(graph.add(Node::Basic {
        bindings: Vec::new(alloc),
        next: Next::Ret,
    }));
    Ok(())
}

/// Adds calls: the first binds these.
fn add_calls(
    alloc: Global,
    graph: &mut Graph,
    inputs: &str,
    outputs: &str,
) -> Result<(), AllocError> {
    attempt!(add_call(alloc, graph, 1, 1, inputs, outputs));
    attempt!(add_return(alloc, graph));
    attempt!(add_call(alloc, graph, 1, 9, "", ""));
    add_call(alloc, graph, 7, 1, "", "")
}

/// Adds a graph with calls: the first binds these.
fn add_caller(
    alloc: Global,
    graphs: &mut Vec<Graph>,
    inputs: &str,
    outputs: &str,
) -> Result<(), AllocError> {
    let mut graph = Graph::new(alloc);
    attempt!(add_calls(alloc, &mut graph, inputs, outputs));
    attempt!(graphs.push(graph), AllocError);
    Ok(())
}

/// Adds a graph that returns.
fn add_callee(alloc: Global, graphs: &mut Vec<Graph>) -> Result<(), AllocError> {
    let mut graph = Graph::new(alloc);
    attempt!(add_return(alloc, &mut graph));
    attempt!(graphs.push(graph), AllocError);
    Ok(())
}

/// A graph with calls, and the callee's.
fn graphs(alloc: Global, inputs: &str, outputs: &str) -> Result<Vec<Graph>, AllocError> {
    let mut graphs = Vec::new(alloc);
    attempt!(add_caller(alloc, &mut graphs, inputs, outputs));
    attempt!(add_callee(alloc, &mut graphs));
    Ok(graphs)
}

fn run(graphs: &[Graph]) -> GraphRun<'_> {
    GraphRun {
        graphs,
        outermost: 0,
    }
}

/// Where both sides begin.
fn start<'a>(
    alloc: Global,
    binary: &GraphRun<'_>,
    source: &GraphRun<'_>,
) -> Result<Start<'a>, AllocError> {
    let binary = attempt!(Reachable::new(alloc, binary, 0));
    let source = attempt!(Reachable::new(alloc, source, 0));
    Ok(Start {
        binary,
        source,
        path: &[],
        premises: Vec::new(alloc),
        binary_bounds: Vec::new(alloc),
        source_bounds: Vec::new(alloc),
    })
}

/// A frame from the beginning of both sides to their returns.
fn frame<'a>(
    alloc: Global,
    binary: GraphRun<'a>,
    source: GraphRun<'a>,
    setting: &'a Setting,
    entry: &'a [Box<Term>],
) -> Result<Frame<'a>, AllocError> {
    let start = attempt!(start(alloc, &binary, &source));
    Ok(Frame {
        binary,
        source,
        setting,
        entry,
        start,
        goals: Vec::new(alloc),
        holds: Vec::new(alloc),
    })
}

/// The callee of words.
fn callee(alloc: Global, from: &Term, to: &Term, text: &str) -> Result<Callee, AllocError> {
    let (stack, rest) = split(text.trim(), ' ');
    let (result, rest) = split(rest, ' ');
    let mut parameters = Vec::new(alloc);
    attempt!(add_scalars(&mut parameters, rest));
    let stack = (decimal(stack) % 0x1_0000_0000) as u32;
    Callee::new(
        alloc,
        from,
        to,
        stack,
        parameters.as_slice(),
        scalar(result),
    )
}

/// What is left to show of calls.
fn put_obligations(
    alloc: Global,
    setup: &Setup<'_>,
    calls: &Calls<'_>,
    callee: &Callee,
    lines: &CallLines<'_>,
    out: &mut Out,
)
    requires { AreWithin calls.now }
{
    let mut bank = Bank::new(alloc);
    match obligations(alloc, &mut bank, setup, calls, callee, lines) {
        Ok(terms) => put_terms(&bank, terms.as_slice(), out),
        Err(Refusal::Fault(CallFault::Sort(index))) => {
            out.put("sort ");
            out.show(&index);
        }
        Err(Refusal::NoMemory) => out.fail(),
    }
}

/// What is left to show of the calls at node 0.
fn put_calls(
    alloc: Global,
    setup: &Setup<'_>,
    callee: &Callee,
    lines: &CallLines<'_>,
    out: &mut Out,
) {
    let nodes = Nodes {
        binary: 0,
        source: 0,
    };
    match find_calls(setup.frame, nodes, 1, 1) {
        Some(calls) => put_obligations(alloc, setup, &calls, callee, lines, out),
        None => out.put("no calls"),
    }
}

/// Answers over the frame, with the convention of the caller.
fn put_within(
    alloc: Global,
    frame: &Frame<'_>,
    text: &str,
    lines: &CallLines<'_>,
    out: &mut Out,
) -> Result<(), AllocError> {
    let from = attempt!(term(alloc, "sub e.2 32"));
    let to = attempt!(term(alloc, "e.2"));
    let convention = attempt!(Convention::new(alloc, &from, &to, &[]));
    let callee = attempt!(callee(alloc, &from, &to, text));
    let setup = Setup {
        frame: &*frame,
        convention: &convention,
        zone_from: &from,
        zone_to: &to,
    };
    put_calls(alloc, &setup, &callee, lines, out);
    Ok(())
}

/// Answers over the runs of both sides, with these lines.
fn put_with(
    alloc: Global,
    binary: GraphRun<'_>,
    source: GraphRun<'_>,
    setting: &Setting,
    entry: &[Box<Term>],
    lines: &CallLines<'_>,
    callee: &str,
    out: &mut Out,
) -> Result<(), AllocError> {
    let frame = attempt!(frame(alloc, binary, source, setting, entry));
    put_within(alloc, &frame, callee, lines, out)
}

/// Answers over the runs of both sides.
fn put_over(
    alloc: Global,
    binary: GraphRun<'_>,
    source: GraphRun<'_>,
    setting: &Setting,
    text: &str,
    out: &mut Out,
) -> Result<(), AllocError> {
    let (callee, rest) = split(text, '|');
    let (first, rest) = split(rest, '|');
    let (second, third) = split(rest, '|');
    let mut entry = Vec::new(alloc);
    attempt!(add_lines(alloc, &mut entry, first));
    let mut before = Vec::new(alloc);
    attempt!(add_lines(alloc, &mut before, second));
    let mut after = Vec::new(alloc);
    attempt!(add_lines(alloc, &mut after, third));
    let lines = CallLines {
        path: &[],
        before: before.as_slice(),
        after: after.as_slice(),
    };
    put_with(
        alloc,
        binary,
        source,
        setting,
        entry.as_slice(),
        &lines,
        callee,
        out,
    )
}

/// Answers with the graphs of both sides.
fn put_call(alloc: Global, setting: &Setting, text: &str, out: &mut Out) -> Result<(), AllocError> {
    let (bound, rest) = split(text, '|');
    let (inputs, rest) = split(rest, '|');
    let (outputs, rest) = split(rest, '|');
    let binary = attempt!(graphs(alloc, bound, ""));
    let source = attempt!(graphs(alloc, inputs, outputs));
    put_over(
        alloc,
        run(binary.as_slice()),
        run(source.as_slice()),
        setting,
        rest,
        out,
    )
}

/// Answers `call`.
pub(crate) fn answer(alloc: Global, text: &str, out: &mut Out) {
    match setting(alloc, "call") {
        Ok(setting) => {
            if put_call(alloc, &setting, text, out).is_err() {
                out.fail();
            }
        }
        Err(_) => out.fail(),
    }
}

fn place(text: &str) -> (usize, usize) {
    let (node, callee) = split(text.trim(), ' ');
    (decimal(node) as usize, decimal(callee) as usize)
}

/// The landing nodes of two calls.
fn put_landings(frame: &Frame<'_>, text: &str, out: &mut Out) {
    let (binary, source) = split(text, '|');
    let (binary, binary_callee) = place(binary);
    let (source, source_callee) = place(source);
    let nodes = Nodes { binary, source };
    match find_calls(frame, nodes, binary_callee, source_callee) {
        Some(calls) => {
            out.show(&calls.binary.landing);
            out.put(" ");
            out.show(&calls.source.landing);
        }
        None => out.put("none"),
    }
}

/// Answers over graphs with calls.
fn put_found(
    alloc: Global,
    setting: &Setting,
    text: &str,
    out: &mut Out,
) -> Result<(), AllocError> {
    let graphs = attempt!(graphs(alloc, "", ""));
    let run = run(graphs.as_slice());
    let frame = attempt!(frame(alloc, run, run, setting, &[]));
    put_landings(&frame, text, out);
    Ok(())
}

/// Answers `find`.
pub(crate) fn find(alloc: Global, text: &str, out: &mut Out) {
    match setting(alloc, "call") {
        Ok(setting) => {
            if put_found(alloc, &setting, text, out).is_err() {
                out.fail();
            }
        }
        Err(_) => out.fail(),
    }
}
