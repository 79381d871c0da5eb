//! Cycles of nodes without marks, which a walk never leaves.

ghost use Rattle.std.specs.Prelude.{◌≡◌, ◌==◌, ◌&&◌, ◌++◌, nat_le, false, [], IfOk, OnOk};
ghost use Rattle.std.specs.List.{list_any};
ghost use Rattle.graph_core_spec.specs.declared.Next.TheVariants as next;
ghost use Rattle.visit_walk_spec.specs.Visits.{first_of};
ghost use Rattle.visit_walk_spec.specs.Visits as spec;
ghost use Rattle.visit_walk.specs.Nodes.{passed, passed_from, unmarked, rounds, option_list};
ghost use Rattle.visit_walk.specs.Nodes.{Adds, ArePassed, AreRounds, IsCycleAnswer};
ghost use Rattle.visit_walk.specs.Search.{numbers_of};

use crate::counts::{is_last, is_marked, zeros};
use crate::depth_first::{Targets, depth_first};
use crate::table::successors_at;
use graph_core_spec::{Mark, Next};
use indexmap::IndexSet;
use std::alloc::{AllocError, Global};
use visit_walk_spec::Successors;

/// Whether a mark counts the first arrival at a node, or none.
fn is_closed(marks: &[Mark], node: usize) -> bool
    ensures { result ≡ list_any (λ m. m.node == node && nat_le m.count 1) marks.now }
{
    marks
        .iter()
        .any(|mark| mark.node == node && mark.count <= 1)
}

/// Adds the node of a place, if a walk goes on after its first arrival.
fn add_passed(found: &mut IndexSet<usize>, marks: &[Mark], to: Next) -> Result<(), AllocError>
    ensures { OnOk result (Adds (passed marks.now to) found.old.keys found.new.keys) }
{
    match to {
        Next::At(node) => {
            if !is_closed(marks, node) {
                found.insert(node)?;
            }
            Ok(())
        }
        Next::Ret | Next::Err => Ok(()),
    }
}

/// The same of each place where a run continues.
fn add_passed_from(
    found: &mut IndexSet<usize>,
    marks: &[Mark],
    successors: Successors,
) -> Result<(), AllocError>
    ensures { OnOk result (Adds (passed_from marks.now successors) found.old.keys
        found.new.keys) }
{
    match successors {
        Successors::One(to) => {
            add_passed(found, marks, to)?;
            Ok(())
        }
        Successors::Two(on_true, on_false) => {
            add_passed(found, marks, on_true)?;
            add_passed(found, marks, on_false)?;
            Ok(())
        }
        Successors::Callee | Successors::Nothing => Ok(()),
    }
}

/// Adds the nodes that a walk passes: those that it reaches from its start, if it goes on there.
fn add_all_passed(
    found: &mut IndexSet<usize>,
    shape: &[Successors],
    marks: &[Mark],
    start: usize,
) -> Result<(), AllocError>
    requires { found.old.keys ≡ [] }
    ensures { OnOk result (ArePassed shape.now marks.now start found.new.keys) }
{
    found.insert(start)?;
    let mut next = 0;
    while next < found.len() {
        let node = found.as_slice()[next];
        add_passed_from(found, marks, successors_at(shape, node))?;
        next += 1;
    }
    Ok(())
}

/// The node of a place, if it has no mark.
fn unmarked_node(marks: &[Mark], to: Next) -> Option<usize>
    ensures { option_list result ≡ unmarked marks.now to }
{
    match to {
        Next::At(node) if !is_marked(marks, node) => Some(node),
        _ => None,
    }
}

/// None, one or two numbers.
fn joined(first: Option<usize>, second: Option<usize>) -> Targets
    ensures { numbers_of result ≡ option_list first ++ option_list second }
{
    match (first, second) {
        (Some(first), Some(second)) => Targets::Two(first, second),
        (Some(only), None) | (None, Some(only)) => Targets::One(only),
        (None, None) => Targets::Zero,
    }
}

/// The nodes without marks where a run continues after a node; after a call the call itself.
fn round_targets(marks: &[Mark], node: usize, successors: Successors) -> Targets
    ensures { numbers_of result ≡ rounds marks.now node successors }
{
    match successors {
        Successors::One(to) => joined(unmarked_node(marks, to), None),
        Successors::Two(on_true, on_false) => joined(
            unmarked_node(marks, on_true),
            unmarked_node(marks, on_false),
        ),
        Successors::Callee => Targets::One(node),
        Successors::Nothing => Targets::Zero,
    }
}

/// Adds those of each node.
fn add_rounds(
    targets: &mut Vec<Targets>,
    shape: &[Successors],
    marks: &[Mark],
) -> Result<(), AllocError>
    requires { targets.old.items ≡ [] }
    ensures { OnOk result (AreRounds shape.now marks.now targets.new.items) }
{
    for node in 0..shape.len() {
        targets.push(round_targets(marks, node, successors_at(shape, node)))?;
    }
    Ok(())
}

/// A node without mark on a cycle of such nodes, or a call, to which a walk that goes on at its
/// start comes before it ends; none, where there is none.
fn cycle_after_start(
    alloc: Global,
    shape: &[Successors],
    marks: &[Mark],
    start: usize,
) -> Result<Option<usize>, AllocError>
    requires { spec.is_last (next.At start) marks.now (first_of start marks.now).counts ≡ false }
    ensures { IfOk result (IsCycleAnswer shape.now marks.now start) }
{
    let mut found = IndexSet::new(alloc);
    add_all_passed(&mut found, shape, marks, start)?;
    let mut targets = Vec::new(alloc);
    add_rounds(&mut targets, shape, marks)?;
    let mut order = Vec::new(alloc);
    let answer = depth_first(alloc, targets.as_slice(), found.as_slice(), &mut order)?;
    Ok(answer)
}

/// The same of any walk.
pub(crate) fn cyclic_node(
    alloc: Global,
    shape: &[Successors],
    marks: &[Mark],
    start: usize,
) -> Result<Option<usize>, AllocError>
    ensures { IfOk result (IsCycleAnswer shape.now marks.now start) }
{
    let zeros = zeros(alloc, marks.len())?;
    if is_last(marks, zeros.as_slice(), start) {
        return Ok(None);
    }
    cycle_after_start(alloc, shape, marks, start)
}
