//! The functions that a body calls.

ghost use Rattle.std.specs.Prelude.{◌≡◌, IfOk};
ghost use Rattle.pair_setup_spec.specs.SourceReach as spec;
ghost use Rattle.c_types_core.specs.Actions.{action_of};
ghost use Rattle.pair_setup_calls.specs.Names.{Adds, block_of, groups_of, texts_of};

use attempt::attempt;
use c_types_core::action::{Action, Group};
use std::alloc::{AllocError, Global};

/// Adds the functions that a statement calls.
#[cycle(calls)]
#[tactic(auto, using(c_types_core::proofs::ActionViews::action_views, crate::proofs::Lists::joined), unfolding(pair_setup_spec::specs::SourceReach::calls_in))]
fn add_calls<'a>(names: &mut Vec<&'a [u8]>, action: &Action<'a>) -> Result<(), AllocError>
    ensures { Adds result names.old names.new (spec.calls_in (action_of action.now)) }
{
    match action {
        Action::Block(actions) => add_block_calls(names, actions.as_slice()),
        Action::Call(_, function, _, _) => {
            names.push(*function)?;
            Ok(())
        }
        Action::If(_, first, second) => {
            attempt!(add_calls(names, first));
            add_calls(names, second)
        }
        Action::Loop(_, _, _, step, body) => {
            attempt!(add_calls(names, step));
            add_calls(names, body)
        }
        Action::Switch(_, groups) => add_group_calls(names, groups.as_slice()),
        Action::Evaluate(_)
        | Action::Set(_, _)
        | Action::Unset(_)
        | Action::Store(_, _, _, _, _)
        | Action::Leave(_)
        | Action::Return(_)
        | Action::MissingReturn(_) => Ok(()),
    }
}

/// Adds the functions that statements call.
#[cycle(calls)]
fn add_block_calls<'a>(names: &mut Vec<&'a [u8]>, actions: &[Action<'a>]) -> Result<(), AllocError>
    ensures { Adds result names.old names.new (spec.calls_in (block_of actions.now)) }
{
    for action in actions {
        attempt!(add_calls(names, action));
    }
    Ok(())
}

/// Adds the functions that groups of a `switch` call.
#[cycle(calls)]
fn add_group_calls<'a>(names: &mut Vec<&'a [u8]>, groups: &[Group<'a>]) -> Result<(), AllocError>
    ensures { Adds result names.old names.new (spec.calls_in_groups (groups_of groups.now)) }
{
    for group in groups {
        attempt!(add_calls(names, &group.body));
    }
    Ok(())
}

/// The functions that a statement calls, in order.
pub(crate) fn calls_of<'a>(alloc: Global, action: &Action<'a>) -> Result<Vec<&'a [u8]>, AllocError>
    ensures { IfOk result (λ names. texts_of names.items ≡ spec.calls_in (action_of action.now)) }
{
    let mut names = Vec::new(alloc);
    attempt!(add_calls(&mut names, action));
    Ok(names)
}
