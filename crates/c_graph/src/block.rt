//! Where each statement of a block goes on.

ghost use Rattle.std.specs.Prelude.{◌≡◌, ◌≤◌, [], IfOk, OnOk};
ghost use Rattle.c_graph_spec.specs.Layout.{Setting};
ghost use Rattle.c_graph_layout.specs.Counts.{size_of};
ghost use Rattle.c_graph_layout.specs.Exits.{exits_of};
ghost use Rattle.c_graph_layout.specs.Lists.{block_of};
ghost use Rattle.c_graph.specs.Laid.{AreFollowed, block_end};

use attempt::attempt;
use c_graph_layout::{Exits, entry, size};
use c_types_core::action::Action;
use c_types_core::counts::sum;
use graph_core_spec::Next;
use std::alloc::{AllocError, Global};

/// Where a block ends that begins at a number.
fn end_of(actions: &[Action<'_>], at: usize) -> Result<usize, AllocError>
    ensures { IfOk result (λ n. n ≡ block_end actions.now at) }
{
    let mut end = at;
    for action in actions {
        let many = attempt!(size(action));
        end = attempt!(sum(end, many));
    }
    Ok(end)
}

/// Adds where each statement goes on, the last first, to a list that is empty.
fn add_followers(
    found: &mut Vec<Next>,
    actions: &[Action<'_>],
    end: usize,
    to: Next,
    exits: Exits,
) -> Result<(), AllocError>
    requires none { found.old.items ≡ [] }
    requires within { size_of (block_of actions.now) ≤ end }
    ensures { (f : Setting) → OnOk result (AreFollowed f actions.now end to
        (exits_of exits) 0 found.new.items) }
{
    let mut begin = end;
    let mut next = to;
    let mut i = actions.len();
    while i > 0 {
        i -= 1;
        found.push(next)?;
        let action = &actions[i];
        let many = attempt!(size(action));
        begin = begin.saturating_sub(many);
        next = attempt!(entry(action, begin, next, exits));
    }
    Ok(())
}

/// Where each statement of a block goes on, the last first.
pub(crate) fn followers(
    alloc: Global,
    actions: &[Action<'_>],
    at: usize,
    to: Next,
    exits: Exits,
) -> Result<Vec<Next>, AllocError>
    ensures { (f : Setting) → IfOk result (λ found. AreFollowed f actions.now
        (block_end actions.now at) to (exits_of exits) 0 found.items) }
{
    let end = attempt!(end_of(actions, at));
    let mut found = Vec::new(alloc);
    attempt!(add_followers(&mut found, actions, end, to, exits));
    Ok(found)
}
