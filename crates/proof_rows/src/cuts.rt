// The question `cut GRAPH | STARTS GOALS CUT`, of a frame whose sides both run one graph, as in
// `graphs`: whether its goal allows the cut. STARTS is a node on each side, GOALS a mark on each
// side, as in `walks`, and CUT a node on each side; where the cut is at calls, the landing nodes
// come after it.

use crate::frames::{frame, run, setting};
use crate::graphs;
use crate::walks::mark;
use attempt::attempt;
use graph_core::{Graph, GraphRun};
use graph_core_spec::Mark;
use proof_tree::{Frame, Hold, Premise, Setting, Start};
use proof_tree_spec::{Counts, Cut, Nodes};
use row_io::{Out, split_at};
use sim_cut::cut_allowed;
use std::alloc::{AllocError, Global};
use std::mem;
use term_core::Term;
use term_core_spec::Atom;

// A start, a goal and a cut.
#[derive(Clone, Copy)]
struct Asked {
    start: Nodes,
    goal: Nodes,
    counts: Counts,
    cut: Cut,
}

fn mark_at(marks: &[Mark], index: usize) -> Mark {
    match marks.get(index) {
        Some(mark) => *mark,
        None => Mark { node: 0, count: 1 },
    }
}

fn nodes_at(marks: &[Mark], binary: usize, source: usize) -> Nodes {
    Nodes {
        binary: mark_at(marks, binary).node,
        source: mark_at(marks, source).node,
    }
}

fn cut_of(marks: &[Mark]) -> Cut {
    let nodes = nodes_at(marks, 4, 5);
    if marks.len() > 6 {
        Cut::Calls(nodes, nodes_at(marks, 6, 7))
    } else {
        Cut::At(nodes)
    }
}

fn asked_of(marks: &[Mark]) -> Asked {
    Asked {
        start: nodes_at(marks, 0, 1),
        goal: nodes_at(marks, 2, 3),
        counts: Counts {
            binary: mark_at(marks, 2).count,
            source: mark_at(marks, 3).count,
        },
        cut: cut_of(marks),
    }
}

fn read(alloc: Global, text: &str) -> Result<Asked, AllocError> {
    let mut marks = Vec::new(alloc);
    for word in text.split(' ') {
        attempt!(marks.push(mark(word)), AllocError);
    }
    Ok(asked_of(marks.as_slice()))
}

// Adds what no goal looks at: a premise and a bound on each side.
fn fill<'a>(start: &mut Start<'a>, term: &'a Term) -> Result<(), AllocError> {
    attempt!(start.add_premise(Premise { term, holds: false }));
    attempt!(start.add_binary_bound(Mark { node: 3, count: 1 }));
    start.add_source_bound(Mark { node: 3, count: 1 })
}

// Puts another start in place of a frame's.
fn restart<'a>(
    alloc: Global,
    frame: &mut Frame<'a>,
    lines: &'a [Box<Term>],
    nodes: Nodes,
) -> Result<(), AllocError> {
    let mut start = attempt!(frame.start_at(alloc, nodes, &[], lines));
    mem::swap(&mut frame.start, &mut start);
    Ok(())
}

// Adds a goal to a frame.
fn stop<'a>(
    alloc: Global,
    frame: &mut Frame<'a>,
    lines: &'a [Box<Term>],
    asked: Asked,
) -> Result<(), AllocError> {
    let goal = attempt!(frame.goal_at(alloc, asked.goal, asked.counts, lines));
    frame.add_goal(goal)
}

// Prepares a frame: a start, a goal, and what no goal looks at.
fn prepare<'a>(
    alloc: Global,
    frame: &mut Frame<'a>,
    lines: &'a [Box<Term>],
    term: &'a Term,
    asked: Asked,
) -> Result<(), AllocError> {
    attempt!(restart(alloc, frame, lines, asked.start));
    attempt!(fill(&mut frame.start, term));
    attempt!(frame.add_hold(Hold {
        nodes: asked.goal,
        relation: lines,
    }));
    stop(alloc, frame, lines, asked)
}

// Whether the goal, in a frame that starts at the nodes, allows the cut.
fn judged(
    alloc: Global,
    run: GraphRun<'_>,
    setting: &Setting,
    lines: &[Box<Term>],
    term: &Term,
    asked: Asked,
) -> Result<bool, AllocError> {
    let mut frame = attempt!(frame(alloc, run, run, setting, lines));
    attempt!(prepare(alloc, &mut frame, lines, term, asked));
    Ok(cut_allowed(&frame, asked.cut))
}

// Whether the cut is allowed in runs of some graphs, of which the first is the outermost.
fn allows(alloc: Global, graphs: &[Graph], asked: Asked) -> Result<bool, AllocError> {
    let term = attempt!(Term::leaf(alloc, Atom::Truth(false)));
    let setting = setting(alloc);
    judged(alloc, run(graphs), &setting, &[], &term, asked)
}

/// Adds the answer.
pub(crate) fn answer(alloc: Global, out: &mut Out, text: &str) -> Result<(), AllocError> {
    let (nodes, rest) = split_at(text, " | ");
    let asked = attempt!(read(alloc, rest));
    let graph = attempt!(graphs::read_alone(alloc, nodes));
    let allowed = attempt!(allows(alloc, graph.as_slice(), asked));
    out.put(if allowed { "allowed" } else { "refused" });
    Ok(())
}
