//! Where statements begin.

ghost use Rattle.std.specs.Prelude.{◌≡◌, IfOk, ℕ};
ghost use Rattle.c_types_core.specs.Actions.{action_of, core_in};
ghost use Rattle.c_types_spec.specs.Core as tree;
ghost use Rattle.graph_core_spec.specs.declared.Next as next;
ghost use Rattle.c_graph_spec.specs.Layout as spec;
ghost use Rattle.c_graph_spec.specs.Layout.{Setting};
ghost use Rattle.c_graph_layout.specs.Exits.{exits_of};
ghost use Rattle.c_graph_layout.specs.Lists.{block_of, groups_of};

use crate::counts::{count, size, with_cases, with_sizes};
use attempt::attempt;
use c_types_core::action::{Action, Group};
use c_types_core::counts::sum;
use c_types_core::expression::Core;
use c_types_spec::Jump;
use graph_core_spec::Next;
use std::alloc::AllocError;

/// Where `break` and `continue` go on.
#[derive(Clone, Copy)]
pub struct Exits {
    /// Where `break` does.
    pub breaks: Next,
    /// Where `continue` does.
    pub continues: Next,
}

/// The first of so many nodes, or where they go on where there are none.
pub fn first(many: usize, at: usize, to: Next) -> Next
    ensures { result ≡ spec.first many at to }
{
    if many == 0 { to } else { Next::At(at) }
}

/// A label is `default`.
fn is_default(label: &Option<i128>) -> bool
    ensures { result ≡ spec.is_default label.now }
{
    match label {
        None => true,
        Some(_) => false,
    }
}

/// `default` is among the labels of a group.
fn has_default(labels: &[Option<i128>]) -> bool
    ensures { result ≡ spec.has_default labels.now }
{
    for label in labels {
        if is_default(label) {
            return true;
        }
    }
    false
}

/// Where a statement goes on that leaves what it is in.
#[tactic(auto, unfolding(c_graph_spec::specs::Layout::entry))]
fn leave(jump: Jump, exits: Exits) -> Next
    ensures { (f : Setting) (at : ℕ) (to : next.Next) → result
        ≡ spec.entry f (tree.Leave jump) at to (exits_of exits) }
{
    match jump {
        Jump::Break => exits.breaks,
        Jump::Continue => exits.continues,
    }
}

/// Where the end of a call begins.
#[tactic(auto, unfolding(c_graph_spec::specs::Layout::entry))]
fn end(value: &Option<Box<Core<'_>>>, at: usize) -> Next
    ensures { (f : Setting) (to : next.Next) (exits : spec.Exits) → result
        ≡ spec.entry f (tree.Return (core_in value.now)) at to exits }
{
    match value {
        Some(_) => Next::At(at),
        None => Next::Ret,
    }
}

/// Where a statement begins whose nodes have the numbers from `at` on.
#[cycle(entries)]
#[tactic(auto, using(c_types_core::proofs::ActionViews::action_views), unfolding(c_graph_spec::specs::Layout::entry, c_graph_spec::specs::Layout::otherwise))]
pub fn entry(action: &Action<'_>, at: usize, to: Next, exits: Exits) -> Result<Next, AllocError>
    ensures { (f : Setting) → IfOk result (λ next. next
        ≡ spec.entry f (action_of action.now) at to (exits_of exits)) }
{
    match action {
        Action::Block(actions) => block_entry(actions.as_slice(), at, to, exits),
        Action::Evaluate(x) => {
            let many = attempt!(count(x));
            Ok(first(many, at, to))
        }
        Action::Leave(jump) => Ok(leave(*jump, exits)),
        Action::Switch(test, groups) => {
            let tests = attempt!(count(test));
            let many = attempt!(with_cases(groups.as_slice(), tests));
            let begin = attempt!(sum(at, many));
            let other = attempt!(otherwise(groups.as_slice(), begin, to, exits));
            Ok(first(many, at, other))
        }
        Action::Return(value) => Ok(end(value, at)),
        Action::Set(_, _)
        | Action::Unset(_)
        | Action::Store(_, _, _, _, _)
        | Action::Call(_, _, _, _)
        | Action::If(_, _, _)
        | Action::Loop(_, _, _, _, _)
        | Action::MissingReturn(_) => Ok(Next::At(at)),
    }
}

/// Where statements begin, one after the other: from the last to the first.
#[cycle(entries)]
fn block_entry(
    actions: &[Action<'_>],
    at: usize,
    to: Next,
    exits: Exits,
) -> Result<Next, AllocError>
    ensures { (f : Setting) → IfOk result (λ next. next
        ≡ spec.entry f (block_of actions.now) at to (exits_of exits)) }
{
    let mut begin = attempt!(with_sizes(actions, at));
    let mut next = to;
    let mut i = actions.len();
    while i > 0 {
        i -= 1;
        let action = &actions[i];
        let many = attempt!(size(action));
        begin = begin.saturating_sub(many);
        next = attempt!(entry(action, begin, next, exits));
    }
    Ok(next)
}

/// The first node of the group with `default`, or of what follows the `switch`.
#[cycle(entries)]
pub fn otherwise(
    groups: &[Group<'_>],
    at: usize,
    to: Next,
    exits: Exits,
) -> Result<Next, AllocError>
    ensures { (f : Setting) → IfOk result (λ next. next
        ≡ spec.otherwise f (groups_of groups.now) at to (exits_of exits)) }
{
    let inside = Exits {
        breaks: to,
        continues: exits.continues,
    };
    let mut begin = at;
    for group in groups {
        if has_default(group.labels.as_slice()) {
            return entry(&group.body, begin, to, inside);
        }
        let many = attempt!(size(&group.body));
        begin = attempt!(sum(begin, many));
    }
    Ok(to)
}
