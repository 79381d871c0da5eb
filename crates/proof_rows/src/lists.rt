// The question `visits WALK`: its visits in their order, `cyclic` with a node, or `too many`.
//
// A visit is its place, in brackets the counts of its marks where it has any, and after `<` the
// edges into it: each is the position of the visit that it comes from, the first being 0, and `t`
// or `f` for the branch of a test.

ghost use Rattle.std.specs.Prelude.{◌<◌, length};

use crate::walks::read;
use attempt::{Refusal, attempt};
use graph_core_spec::Next;
use row_io::Out;
use std::alloc::{AllocError, Global};
use visit_walk::{Visits, WalkFault, visits};
use visit_walk_spec::{Branch, Incoming};

pub(crate) fn add_place(out: &mut Out, place: Next) {
    match place {
        Next::At(node) => out.show(&node),
        Next::Ret => out.put("R"),
        Next::Err => out.put("E"),
    }
}

fn add_counts(out: &mut Out, counts: &[usize]) {
    let mut before = "(";
    for count in counts {
        out.put(before);
        out.show(count);
        before = ",";
    }
    if !counts.is_empty() {
        out.put(")");
    }
}

fn branch(branch: Branch) -> &'static str {
    match branch {
        Branch::Only => "",
        Branch::IfTrue => "t",
        Branch::IfFalse => "f",
    }
}

fn add_edges(out: &mut Out, edges: &[Incoming]) {
    let mut before = "<";
    for edge in edges {
        out.put(before);
        out.show(&edge.source);
        out.put(branch(edge.branch));
        before = ",";
    }
}

fn add_visit(out: &mut Out, found: &Visits, position: usize)
    requires { position < length found.now.visits }
{
    if position > 0 {
        out.put(" ");
    }
    add_place(out, found.place(position));
    add_counts(out, found.counts(position));
    add_edges(out, found.incoming(position));
}

fn add_visits(out: &mut Out, found: &Visits) {
    for position in 0..found.len() {
        add_visit(out, found, position);
    }
}

fn add_fault(out: &mut Out, fault: Refusal<WalkFault>, maximum: usize) {
    match fault {
        Refusal::Fault(WalkFault::Cyclic(node)) => {
            out.put("cyclic ");
            out.show(&node);
        }
        Refusal::Fault(WalkFault::TooMany(count)) if count > maximum => out.put("too many"),
        Refusal::Fault(WalkFault::TooMany(_)) => out.put("too few"),
        Refusal::NoMemory => out.fail(),
    }
}

/// Adds the answer.
pub(crate) fn answer(alloc: Global, out: &mut Out, text: &str) -> Result<(), AllocError> {
    let walk = attempt!(read(alloc, text));
    let (stops, bounds) = (walk.stops.as_slice(), walk.bounds.as_slice());
    match visits(alloc, &walk.shape, walk.start, stops, bounds, walk.maximum) {
        Ok(found) => add_visits(out, &found),
        Err(fault) => add_fault(out, fault, walk.maximum),
    }
    Ok(())
}
