// Frames that start at node 0 of both sides' graphs, without premises, bounds, goals and holds.

use attempt::attempt;
use graph_core::{Graph, GraphRun};
use proof_tree::{Frame, Reachable, Setting, Start};
use std::alloc::{AllocError, Global};
use term_core::Term;

/// A run of graphs, of which the first is the outermost.
pub(crate) fn run(graphs: &[Graph]) -> GraphRun<'_> {
    GraphRun {
        graphs,
        outermost: 0,
    }
}

/// No parameters and no locals.
pub(crate) fn setting(alloc: Global) -> Setting {
    Setting {
        argument_words: 0,
        parameters: Vec::new(alloc),
        bodies: Vec::new(alloc),
    }
}

fn start<'a>(
    alloc: Global,
    binary: &GraphRun<'_>,
    source: &GraphRun<'_>,
) -> Result<Start<'a>, AllocError> {
    let binary = attempt!(Reachable::new(alloc, binary, 0));
    let source = attempt!(Reachable::new(alloc, source, 0));
    Ok(Start {
        binary,
        source,
        path: &[],
        premises: Vec::new(alloc),
        binary_bounds: Vec::new(alloc),
        source_bounds: Vec::new(alloc),
    })
}

/// A frame of two runs, with what holds at entry.
pub(crate) fn frame<'a>(
    alloc: Global,
    binary: GraphRun<'a>,
    source: GraphRun<'a>,
    setting: &'a Setting,
    entry: &'a [Box<Term>],
) -> Result<Frame<'a>, AllocError> {
    let start = attempt!(start(alloc, &binary, &source));
    Ok(Frame {
        binary,
        source,
        setting,
        entry,
        start,
        goals: Vec::new(alloc),
        holds: Vec::new(alloc),
    })
}
