//! What statements do in a frame.

ghost use Rattle.std.specs.Prelude.{◌≡◌, ◌+◌, ◌≤◌, suc, IfSome, OnOk, map, option_map};
ghost use Rattle.std.specs.List.{list_any};
ghost use Rattle.c_types_spec.specs.Core as tree;
ghost use Rattle.c_types_core.specs.Expressions.{core_of};
ghost use Rattle.c_types_core.specs.Actions.{action_of, core_in, group_of};
ghost use Rattle.c_types_spec.specs.Statements.{groups_in, same_label};
ghost use Rattle.c_run_spec.specs.Evaluation as spec;
ghost use Rattle.c_run_value.specs.Settings.{setting_of};
ghost use Rattle.c_run_value.specs.Gives.{Gives, GivesValue};
ghost use Rattle.c_run.specs.Tasks.{Acts, Repeats, ending_of, loop_tasks, truth};
ghost use Rattle.c_run.specs.Frames.{ArePushed, IsPassed};
ghost use Rattle.c_run.specs.Groups.{picked, chosen_action};
ghost use Rattle.c_run.specs.Weights.{IsBelow, weight_of, weight_of_all, weight_of_groups};

use crate::frame::{Ending, Frame, Next, Pause, Task};
use attempt::{Refusal, attempt};
use c_run_spec::Guard;
use c_run_value::access::store_object;
use c_run_value::evaluation::{Scene, address_past, value};
use c_run_value::memory::Memory;
use c_run_value::setting::{Setting, Stop};
use c_types_core::action::{Action, Group};
use c_types_core::expression::Core;
use c_types_spec::{Jump, Scalar, TestPlace};
use std::alloc::AllocError;

/// The value of an expression in a frame.
pub fn value_in<'m, 's, 'a>(
    core: &Core<'a>,
    setting: &Setting<'s, 'a>,
    frame: &'m Frame<'s, 'a>,
    memory: &'m Memory,
    target: u128,
) -> Result<i128, Refusal<Stop>>
    ensures { GivesValue result (spec.value (setting_of setting.now) frame.now.locals.items
        memory.now target (core_of core.now)) }
{
    let scene = Scene {
        locals: frame.locals.as_slice(),
        memory,
        target,
    };
    value(core, setting, &scene)
}

/// A test is not 0.
pub fn holds<'m, 's, 'a>(
    test: &Core<'a>,
    setting: &Setting<'s, 'a>,
    frame: &'m Frame<'s, 'a>,
    memory: &'m Memory,
) -> Result<bool, Refusal<Stop>>
    ensures { Gives (λ b. b) result (truth (spec.value (setting_of setting.now)
        frame.now.locals.items memory.now 0 (core_of test.now))) }
{
    let value = attempt!(value_in(test, setting, frame, memory, 0));
    Ok(value != 0)
}

/// Statements one after the other.
fn block<'s, 'a>(
    actions: &'s [Action<'a>],
    setting: &Setting<'s, 'a>,
    frame: &mut Frame<'s, 'a>,
    memory: &mut Memory,
) -> Result<Next, Refusal<Stop>>
    ensures acts { Acts (setting_of setting.now) (tree.sequence (map action_of actions.now))
        frame.old memory.old frame.new memory.new result }
    ensures below { IsBelow (suc (suc (weight_of_all actions.now))) frame.old frame.new result }
{
    attempt!(frame.push(Task::Rest(actions)), Refusal::NoMemory);
    Ok(Next::Goes(Ending::Went))
}

/// A value that is dropped.
fn evaluate<'s, 'a>(
    core: &'s Core<'a>,
    setting: &Setting<'s, 'a>,
    frame: &mut Frame<'s, 'a>,
    memory: &mut Memory,
) -> Result<Next, Refusal<Stop>>
    ensures acts { Acts (setting_of setting.now) (tree.Evaluate (core_of core.now)) frame.old
        memory.old frame.new memory.new result }
    ensures below { IsBelow 1 frame.old frame.new result }
{
    let _value = attempt!(value_in(core, setting, frame, memory, 0));
    Ok(Next::Goes(Ending::Went))
}

/// A value for a local.
fn set<'s, 'a>(
    local: usize,
    core: &'s Core<'a>,
    setting: &Setting<'s, 'a>,
    frame: &mut Frame<'s, 'a>,
    memory: &mut Memory,
) -> Result<Next, Refusal<Stop>>
    ensures acts { Acts (setting_of setting.now) (tree.Set local (core_of core.now)) frame.old
        memory.old frame.new memory.new result }
    ensures below { IsBelow 1 frame.old frame.new result }
{
    let value = attempt!(value_in(core, setting, frame, memory, 0));
    frame.set(local, Some(value));
    Ok(Next::Goes(Ending::Went))
}

/// A declaration without initial value.
fn unset<'s, 'a>(
    local: usize,
    setting: &Setting<'s, 'a>,
    frame: &mut Frame<'s, 'a>,
    memory: &mut Memory,
) -> Result<Next, Refusal<Stop>>
    ensures acts { Acts (setting_of setting.now) (tree.Unset local) frame.old
        memory.old frame.new memory.new result }
    ensures below { IsBelow 1 frame.old frame.new result }
{
    frame.set(local, None);
    Ok(Next::Goes(Ending::Went))
}

/// A value for the object so many bytes past an address.
fn store<'s, 'a>(
    of: Scalar,
    address: &'s Core<'a>,
    displacement: usize,
    core: &'s Core<'a>,
    offset: usize,
    setting: &Setting<'s, 'a>,
    frame: &mut Frame<'s, 'a>,
    memory: &mut Memory,
) -> Result<Next, Refusal<Stop>>
    ensures acts { Acts (setting_of setting.now) (tree.Store of (core_of address.now) displacement
        (core_of core.now) offset) frame.old memory.old frame.new memory.new result }
    ensures below { IsBelow 1 frame.old frame.new result }
{
    let pointer = attempt!(value_in(address, setting, frame, memory, 0));
    let place = address_past(pointer, displacement);
    let value = attempt!(value_in(core, setting, frame, memory, place));
    attempt!(store_object(setting, memory, of, place, value, offset));
    Ok(Next::Goes(Ending::Went))
}

/// The values of arguments, for the call that is next.
fn pass<'s, 'a>(
    arguments: &'s [Box<Core<'a>>],
    setting: &Setting<'s, 'a>,
    frame: &mut Frame<'s, 'a>,
    memory: &Memory,
) -> Result<(), Refusal<Stop>>
    ensures values { Gives (λ _. frame.new.arguments.items) result (spec.values (setting_of
        setting.now) frame.old.locals.items memory.now (map (λ b. core_of b.value) arguments.now)) }
    ensures same { IsPassed frame.old frame.new }
{
    frame.arguments.clear();
    for argument in arguments {
        let value = attempt!(value_in(argument, setting, frame, &*memory, 0));
        attempt!(frame.arguments.push(value), Refusal::NoMemory);
    }
    Ok(())
}

/// A call.
fn call<'s, 'a>(
    number: usize,
    function: &'a [u8],
    arguments: &'s [Box<Core<'a>>],
    local: Option<usize>,
    setting: &Setting<'s, 'a>,
    frame: &mut Frame<'s, 'a>,
    memory: &mut Memory,
) -> Result<Next, Refusal<Stop>>
    ensures acts { Acts (setting_of setting.now) (tree.Call number function.now (map (λ b. core_of
        b.value) arguments.now) local) frame.old memory.old frame.new memory.new result }
    ensures below { IsBelow 1 frame.old frame.new result }
{
    attempt!(pass(arguments, setting, frame, memory));
    frame.callee = function;
    frame.receiver = local;
    Ok(Next::Pauses(Pause::Calls))
}

/// One of two, by a test.
fn choose<'s, 'a>(
    test: &'s Core<'a>,
    first: &'s Action<'a>,
    second: &'s Action<'a>,
    setting: &Setting<'s, 'a>,
    frame: &mut Frame<'s, 'a>,
    memory: &mut Memory,
) -> Result<Next, Refusal<Stop>>
    ensures acts { Acts (setting_of setting.now) (tree.If (core_of test.now) (action_of first.now)
        (action_of second.now)) frame.old memory.old frame.new memory.new result }
    ensures below { IsBelow (suc (weight_of first.now + weight_of second.now)) frame.old frame.new
        result }
{
    let is_first = attempt!(holds(test, setting, frame, memory));
    if is_first {
        attempt!(frame.push_do(first), Refusal::NoMemory);
        return Ok(Next::Goes(Ending::Went));
    }
    attempt!(frame.push_do(second), Refusal::NoMemory);
    Ok(Next::Goes(Ending::Went))
}

/// The tasks of a round whose test is before the body.
fn test_first<'s, 'a>(
    action: &'s Action<'a>,
    test: &'s Core<'a>,
    step: &'s Action<'a>,
    body: &'s Action<'a>,
    frame: &mut Frame<'s, 'a>,
) -> Result<(), AllocError>
    ensures { OnOk result (ArePushed frame.old frame.new (loop_tasks TestPlace.Before action.entry
        test.entry step.entry body.entry)) }
{
    attempt!(frame.push(Task::Repeat(action)));
    attempt!(frame.push(Task::Step(step)));
    attempt!(frame.push_do(body));
    attempt!(frame.push(Task::Test(test)));
    Ok(())
}

/// The tasks of a round whose test is after the body.
fn test_last<'s, 'a>(
    action: &'s Action<'a>,
    test: &'s Core<'a>,
    step: &'s Action<'a>,
    body: &'s Action<'a>,
    frame: &mut Frame<'s, 'a>,
) -> Result<(), AllocError>
    ensures { OnOk result (ArePushed frame.old frame.new (loop_tasks TestPlace.After action.entry
        test.entry step.entry body.entry)) }
{
    attempt!(frame.push(Task::Repeat(action)));
    attempt!(frame.push(Task::Test(test)));
    attempt!(frame.push_do(body));
    Ok(())
}

/// A loop, which `action` is: a round, and then it again.
fn repeat<'s, 'a>(
    action: &'s Action<'a>,
    place: TestPlace,
    test: &'s Core<'a>,
    step: &'s Action<'a>,
    body: &'s Action<'a>,
    setting: &Setting<'s, 'a>,
    frame: &mut Frame<'s, 'a>,
    memory: &mut Memory,
) -> Result<Next, Refusal<Stop>>
    ensures repeats { Repeats (setting_of setting.now) place action.entry test.entry step.entry
        body.entry frame.old memory.old frame.new memory.new result }
    ensures below { IsBelow 1 frame.old frame.new result }
{
    match place {
        TestPlace::Before => {
            attempt!(
                test_first(action, test, step, body, frame),
                Refusal::NoMemory
            );
            Ok(Next::Pauses(Pause::Waits))
        }
        TestPlace::After => {
            attempt!(
                test_last(action, test, step, body, frame),
                Refusal::NoMemory
            );
            Ok(Next::Pauses(Pause::Waits))
        }
    }
}

/// The end of the call.
fn give_back<'s, 'a>(
    value: &'s Option<Box<Core<'a>>>,
    setting: &Setting<'s, 'a>,
    frame: &mut Frame<'s, 'a>,
    memory: &mut Memory,
) -> Result<Next, Refusal<Stop>>
    ensures acts { Acts (setting_of setting.now) (tree.Return (core_in value.now)) frame.old
        memory.old frame.new memory.new result }
    ensures below { IsBelow 1 frame.old frame.new result }
{
    match value {
        Some(core) => {
            let value = attempt!(value_in(core, setting, frame, memory, 0));
            frame.given = Some(value);
            Ok(Next::Pauses(Pause::Ended))
        }
        None => {
            frame.given = None;
            Ok(Next::Pauses(Pause::Ended))
        }
    }
}

/// Two labels of groups are the same.
fn is_label(other: Option<i128>, label: Option<i128>) -> bool
    ensures { result ≡ same_label other label }
{
    match (other, label) {
        (None, None) => true,
        (Some(a), Some(b)) => a == b,
        (None, Some(_)) | (Some(_), None) => false,
    }
}

/// A label is among those of a group.
fn has_label(labels: &[Option<i128>], label: Option<i128>) -> bool
    ensures { result ≡ list_any (λ other. same_label other label) labels.now }
{
    for other in labels {
        if is_label(*other, label) {
            return true;
        }
    }
    false
}

/// What the first group with a label does.
#[tactic(auto, using(c_types_core::proofs::ActionViews::action_views))]
fn labelled<'b, 'a>(groups: &'b [Group<'a>], label: Option<i128>) -> Option<&'b Action<'a>>
    ensures group { option_map (λ a. action_of a.now) result ≡ picked label (groups_in (map
        group_of groups.now)) }
    ensures below { IfSome result (λ a. weight_of a.now ≤ weight_of_groups groups.now) }
{
    for group in groups {
        if has_label(&group.labels, label) {
            return Some(&group.body);
        }
    }
    None
}

/// What the group with a value does, else that with `default`.
fn chosen<'b, 'a>(groups: &'b [Group<'a>], value: i128) -> Option<&'b Action<'a>>
    ensures group { option_map (λ a. action_of a.now) result ≡ chosen_action value (groups_in (map
        group_of groups.now)) }
    ensures below { IfSome result (λ a. weight_of a.now ≤ weight_of_groups groups.now) }
{
    match labelled(groups, Some(value)) {
        Some(action) => Some(action),
        None => labelled(groups, None),
    }
}

/// One of several groups, by a value.
fn switch<'s, 'a>(
    test: &'s Core<'a>,
    groups: &'s [Group<'a>],
    setting: &Setting<'s, 'a>,
    frame: &mut Frame<'s, 'a>,
    memory: &mut Memory,
) -> Result<Next, Refusal<Stop>>
    ensures acts { Acts (setting_of setting.now) (tree.Switch (core_of test.now) (groups_in (map
        group_of groups.now))) frame.old memory.old frame.new memory.new result }
    ensures below { IsBelow (suc (suc (weight_of_groups groups.now))) frame.old frame.new result }
{
    let value = attempt!(value_in(test, setting, frame, memory, 0));
    let Some(action) = chosen(groups, value) else {
        return Ok(Next::Goes(Ending::Went));
    };
    attempt!(frame.push(Task::Switch), Refusal::NoMemory);
    attempt!(frame.push_do(action), Refusal::NoMemory);
    Ok(Next::Goes(Ending::Went))
}

/// How a jump ends a statement.
fn ending_of(jump: Jump) -> Ending
    ensures { result ≡ ending_of jump }
{
    match jump {
        Jump::Break => Ending::Broke,
        Jump::Continue => Ending::Continued,
    }
}

/// What a statement does.
#[tactic(auto, using(c_types_core::proofs::ActionViews::action_views))]
pub fn act<'s, 'a>(
    action: &'s Action<'a>,
    setting: &Setting<'s, 'a>,
    frame: &mut Frame<'s, 'a>,
    memory: &mut Memory,
) -> Result<Next, Refusal<Stop>>
    ensures acts { Acts (setting_of setting.now) (action_of action.now) frame.old memory.old
        frame.new memory.new result }
    ensures below { IsBelow (weight_of action.now) frame.old frame.new result }
{
    match action {
        Action::Block(actions) => block(actions, setting, frame, memory),
        Action::Evaluate(core) => evaluate(core, setting, frame, memory),
        Action::Set(local, core) => set(*local, core, setting, frame, memory),
        Action::Unset(local) => unset(*local, setting, frame, memory),
        Action::Store(of, address, displacement, core, offset) => store(
            *of,
            address,
            *displacement,
            core,
            *offset,
            setting,
            frame,
            memory,
        ),
        Action::Call(number, function, arguments, local) => call(
            *number, *function, arguments, *local, setting, frame, memory,
        ),
        Action::If(test, first, second) => choose(test, first, second, setting, frame, memory),
        Action::Loop(_, place, test, step, body) => {
            repeat(action, *place, test, step, body, setting, frame, memory)
        }
        Action::Leave(jump) => Ok(Next::Goes(ending_of(*jump))),
        Action::Switch(test, groups) => switch(test, groups, setting, frame, memory),
        Action::Return(value) => give_back(value, setting, frame, memory),
        Action::MissingReturn(offset) => Err(Refusal::Fault(Stop::Broke(
            Guard::MissingReturn,
            *offset,
        ))),
    }
}
