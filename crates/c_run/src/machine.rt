//! Functions that run: the innermost one, and those that wait for their callees.

ghost use Rattle.std.specs.Prelude.{◌≡◌, ◌<◌, ◌++◌, IfOk, OnOk, Ok, slice_get, option_map};
ghost use Rattle.c_run_spec.specs.Calls as spec;
ghost use Rattle.c_run_spec.specs.Execution as flow;
ghost use Rattle.c_types.specs.Typed.{body_of_name};
ghost use Rattle.c_run_value.specs.Settings.{setting_of};
ghost use Rattle.c_run.specs.Machines.{Ends, Turns, Turned, comes_to};
ghost use Rattle.c_run.specs.Machines.{IsBegun, IsCalled, IsEntered, IsReceived};

use crate::frame::{Frame, Pause};
use crate::running::go;
use attempt::{Refusal, attempt};
use c_run_value::memory::Memory;
use c_run_value::setting::{Setting, Stop};
use c_types::typed::Body;
use c_types_core::constants::value_in;
use c_types_core::values::TooWide;
use c_types_spec::Scalar;
use std::alloc::{AllocError, Global};

/// The functions that run.
#[derive(Drop)]
pub struct Machine<'s, 'a> {
    /// The innermost one.
    pub frame: Frame<'s, 'a>,
    /// Those that wait for their callees; the last is the innermost one's caller.
    pub waiting: Vec<Frame<'s, 'a>>,
    /// How many turns are left.
    pub left: u64,
}

/// How a run ended, unless it broke a guard.
#[derive(Clone, Copy)]
pub enum Ended {
    /// The turns were too few.
    More,
    /// The outermost function returned this value, unless it is `void`.
    Back(Option<i128>),
}

/// The body of the function of a name.
#[tactic(auto, unfolding(c_run_value::specs::Settings::setting_in))]
pub fn body_named<'s, 'a>(setting: &Setting<'s, 'a>, name: &[u8]) -> Option<&'s Body<'a>>
    ensures { option_map (λ b. body_of_name name.now b.now) result ≡ spec.body_named (setting_of
        setting.now).bodies name.now }
{
    let unit = setting.unit;
    unit.body(name)
}

/// The argument of a number, if there is one.
fn argument(arguments: &[i128], number: usize) -> Option<i128>
    ensures { result ≡ slice_get arguments.now number }
{
    match arguments.get(number) {
        Some(value) => Some(*value),
        None => None,
    }
}

/// The values of locals where a call begins: parameters have those of their arguments.
fn begin_locals(
    locals: &mut Vec<Option<i128>>,
    types: &[Scalar],
    arguments: &[i128],
) -> Result<(), AllocError>
    ensures { OnOk result (locals.new.items ≡ locals.old.items ++ spec.locals_at_entry types.now
        arguments.now) }
{
    for number in 0..types.len() {
        attempt!(locals.push(argument(arguments, number)), AllocError);
    }
    Ok(())
}

/// A function that is about to run.
fn idle<'s, 'a>(alloc: Global, types: &'s [Scalar]) -> Frame<'s, 'a>
    ensures { IsBegun types.now result }
{
    Frame {
        types,
        locals: Vec::new(alloc),
        tasks: Vec::new(alloc),
        arguments: Vec::new(alloc),
        callee: b"",
        receiver: None,
        given: None,
    }
}

/// A function where a call of it begins.
pub fn enter<'s, 'a>(
    alloc: Global,
    body: &'s Body<'a>,
    arguments: &[i128],
) -> Result<Frame<'s, 'a>, AllocError>
    ensures { IfOk result (λ frame. IsEntered body.now arguments.now frame) }
{
    let types = body.locals.as_slice();
    let mut frame = idle(alloc, types);
    attempt!(begin_locals(&mut frame.locals, types, arguments));
    attempt!(frame.push_do(&*body.action));
    Ok(frame)
}

/// A value in the type of a local.
fn as_local(types: &[Scalar], local: usize, value: Option<i128>) -> Result<Option<i128>, TooWide>
    ensures { IfOk result (λ v. v ≡ flow.as_local types.now local value) }
{
    let Some(number) = value else {
        return Ok(None);
    };
    let Some(of) = types.get(local) else {
        return Ok(None);
    };
    let made = attempt!(value_in(*of, number));
    Ok(Some(made))
}

/// The value of a function's call is put into its local.
fn receive(frame: &mut Frame<'_, '_>, value: Option<i128>) -> Result<(), TooWide>
    ensures { OnOk result (IsReceived frame.old frame.new value) }
{
    let Some(number) = frame.receiver else {
        return Ok(());
    };
    let put = attempt!(as_local(frame.types, number, value));
    frame.set(number, put);
    Ok(())
}

/// The innermost function has returned. Its caller goes on, if there is one.
fn give_back<'s, 'a>(
    setting: &Setting<'s, 'a>,
    machine: &mut Machine<'s, 'a>,
) -> Result<Option<Ended>, Refusal<Stop>>
    ensures { Turned (setting_of setting.now) Pause.Ended machine.old machine.new result }
{
    let value = machine.frame.given;
    let Some(caller) = machine.waiting.pop() else {
        return Ok(Some(Ended::Back(value)));
    };
    machine.frame = caller;
    attempt!(receive(&mut machine.frame, value), Refusal::NoMemory);
    Ok(None)
}

/// The innermost function takes a turn, if one is left.
fn take_turn<'s, 'a>(setting: &Setting<'s, 'a>, machine: &mut Machine<'s, 'a>) -> Option<Ended>
    ensures { Turned (setting_of setting.now) Pause.Waits machine.old machine.new (Ok result) }
{
    if machine.left == 0 {
        return Some(Ended::More);
    }
    machine.left -= 1;
    None
}

/// A function is called, with a turn, and the one that ran waits for it.
fn descend<'s, 'a>(
    alloc: Global,
    machine: &mut Machine<'s, 'a>,
    body: &'s Body<'a>,
) -> Result<(), AllocError>
    requires { 0 < machine.old.left }
    ensures { OnOk result (IsCalled body.now machine.old machine.new) }
{
    let callee = attempt!(enter(alloc, body, machine.frame.arguments.as_slice()));
    let frame = std::mem::replace(&mut machine.frame, callee);
    attempt!(machine.waiting.push(frame), AllocError);
    machine.left -= 1;
    Ok(())
}

/// The innermost function calls another, if a turn is left.
fn call<'s, 'a>(
    alloc: Global,
    setting: &Setting<'s, 'a>,
    machine: &mut Machine<'s, 'a>,
) -> Result<Option<Ended>, Refusal<Stop>>
    ensures { Turned (setting_of setting.now) Pause.Calls machine.old machine.new result }
{
    if machine.left == 0 {
        return Ok(Some(Ended::More));
    }
    let Some(body) = body_named(setting, machine.frame.callee) else {
        return Ok(Some(Ended::More));
    };
    attempt!(descend(alloc, machine, body), Refusal::NoMemory);
    Ok(None)
}

/// The innermost function, until it has returned, a turn is taken, or it has called another: how
/// the run ended, if it did.
fn turn<'s, 'a>(
    alloc: Global,
    setting: &Setting<'s, 'a>,
    machine: &mut Machine<'s, 'a>,
    memory: &mut Memory,
) -> Result<Option<Ended>, Refusal<Stop>>
    ensures { Turns (comes_to (setting_of setting.now) machine.old memory.old) (setting_of
        setting.now) machine.old machine.new memory.new result }
{
    match attempt!(go(setting, &mut machine.frame, memory)) {
        Pause::Ended => give_back(setting, machine),
        Pause::Waits => Ok(take_turn(setting, machine)),
        Pause::Calls => call(alloc, setting, machine),
    }
}

/// The functions that run, until the outermost one has returned or the turns are at an end.
pub fn drive<'s, 'a>(
    alloc: Global,
    setting: &Setting<'s, 'a>,
    machine: &mut Machine<'s, 'a>,
    memory: &mut Memory,
) -> Result<Ended, Refusal<Stop>>
    ensures { Ends (comes_to (setting_of setting.now) machine.old memory.old) memory.new result }
{
    'turns: loop {
        match attempt!(turn(alloc, setting, machine, memory)) {
            Some(ended) => return Ok(ended),
            None => {}
        }
    }
}
