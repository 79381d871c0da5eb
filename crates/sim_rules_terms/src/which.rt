//! Which visits of a walk a rule speaks of.

ghost use Rattle.std.specs.Prelude.{◌≡◌, ◌+◌, ◌<◌, [], length, get_or, OnOk};
ghost use Rattle.sim_rules_spec.specs.Sides as sides;
ghost use Rattle.visit_walk.specs.Tables.{stray};
ghost use Rattle.sim_rules_terms.specs.Which.{test_of};

use graph_core_spec::{Mark, Next};
use std::alloc::AllocError;
use visit_walk::Visits;

/// Which visits. A mark is with its index among the stops of the walk, or among its bounds.
#[derive(Clone, Copy)]
pub enum Which {
    /// at which the run has returned
    Returns,
    /// at which it has failed
    Fails,
    /// the arrival that the stop counts
    Arrives(Mark, usize),
    /// the arrival that the bound counts, where it is no stop
    Breaks(Mark, usize),
}

// The count at an index after so many others, which is 0 where there is none.
fn count_after(counts: &[usize], skipped: usize, index: usize) -> usize
    ensures { result ≡ get_or counts.now (skipped + index) 0 }
{
    if index < counts.len() && skipped < counts.len() - index {
        counts[skipped + index]
    } else {
        0
    }
}

// Whether the visit at a position is the arrival that a mark counts, whose index among the marks of
// the walk is the sum of both.
fn arrives(visits: &Visits, position: usize, mark: Mark, skipped: usize, index: usize) -> bool
    requires { position < length visits.now.visits }
    ensures { result ≡ sides.arrives mark (skipped + index)
        (get_or visits.now.visits position stray) }
{
    match visits.place(position) {
        Next::At(node) => {
            mark.node == node && mark.count <= count_after(visits.counts(position), skipped, index)
        }
        Next::Ret | Next::Err => false,
    }
}

// Whether the visit at a position is one of those asked for, where the walk has these stops.
fn passes(which: Which, visits: &Visits, position: usize, stops: &[Mark]) -> bool
    requires { position < length visits.now.visits }
    ensures { result ≡ test_of stops.now which (get_or visits.now.visits position stray) }
{
    match which {
        Which::Returns => matches!(visits.place(position), Next::Ret),
        Which::Fails => matches!(visits.place(position), Next::Err),
        Which::Arrives(mark, index) => arrives(visits, position, mark, 0, index),
        Which::Breaks(mark, index) => {
            !visits.is_stop(position, stops) && arrives(visits, position, mark, stops.len(), index)
        }
    }
}

/// Finds the positions of the visits asked for, where the walk has these stops.
pub(crate) fn find_members(
    members: &mut Vec<usize>,
    which: Which,
    visits: &Visits,
    stops: &[Mark],
) -> Result<(), AllocError>
    requires { members.old.items ≡ [] }
    ensures { OnOk result (members.new.items
        ≡ sides.members (test_of stops.now which) visits.now.visits) }
{
    for position in 0..visits.len() {
        if passes(which, visits, position, stops) {
            members.push(position)?;
        }
    }
    Ok(())
}
