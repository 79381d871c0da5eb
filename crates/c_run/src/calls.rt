//! The run of a call.

ghost use Rattle.std.specs.Prelude.{◌≡◌, ◌<◌, IfOk};
ghost use Rattle.c_run_spec.specs.Calls as spec;
ghost use Rattle.c_run_value.specs.Settings.{setting_in, setting_of};
ghost use Rattle.c_run.specs.Machines.{Ends};
ghost use Rattle.c_run.specs.Outcomes.{outcome_at, outcome_in};

use crate::machine::{Ended, Machine, body_named, drive, enter};
use attempt::{Refusal, attempt};
use c_run_spec::Guard;
use c_run_value::memory::Memory;
use c_run_value::setting::{Place, Setting, Stop, Zone};
use c_types::typed::Typed;
use std::alloc::{AllocError, Global};

/// A call of a function, in a memory.
#[derive(Clone, Copy)]
pub struct Call<'a> {
    /// The name of the function.
    pub function: &'a [u8],
    /// The values of its arguments, each in the range of its parameter's type.
    pub arguments: &'a [i128],
    /// The memory where the run begins.
    pub memory: &'a Memory,
    /// No access meets it.
    pub barred: Zone,
}

/// The outcome of a run with a number of turns.
#[derive(Drop)]
pub enum Outcome {
    /// The turns were too few, or a function without a body was called, which never ends.
    More,
    /// It broke a guard, at this offset of the source text.
    Guard(Guard, usize),
    /// It returned this value, unless the function is `void`, and left this memory.
    Back(Option<i128>, Memory),
}

/// The outcome of a run that stops short.
fn broken(stop: Stop) -> Outcome
    ensures { outcome_in result ≡ outcome_at stop }
{
    match stop {
        Stop::Broke(guard, offset) => Outcome::Guard(guard, offset),
    }
}

/// How the call of a function with a body ends, with the turns that are left once it is called.
fn run_body(
    alloc: Global,
    setting: &Setting<'_, '_>,
    call: &Call<'_>,
    after: &mut Memory,
    turns: u64,
) -> Result<Ended, Refusal<Stop>>
    requires { 0 < turns }
    ensures { Ends (spec.runs (setting_of setting.now) turns call.now.function.now
        call.now.arguments.now after.old turns) after.new result }
{
    let Some(body) = body_named(setting, call.function) else {
        return Ok(Ended::More);
    };
    let frame = attempt!(enter(alloc, body, call.arguments), Refusal::NoMemory);
    let mut machine = Machine {
        frame,
        waiting: Vec::new(alloc),
        left: turns - 1,
    };
    drive(alloc, setting, &mut machine, after)
}

/// The run of a call with a number of turns: each round of a loop takes one, and each call, this
/// one too. Nothing that is given changes: the run has a copy of the memory. It takes as much
/// memory again as it writes, and a frame for each function that waits for another; calls and
/// statements inside one another take no stack. Time is that of the statements performed, each of
/// a body at most once between two turns.
pub fn run<'s, 'a>(
    alloc: Global,
    unit: &'s Typed<'a>,
    place: &Place<'s, 'a>,
    call: &Call<'_>,
    turns: u64,
) -> Result<Outcome, AllocError>
    ensures { IfOk result (λ outcome. outcome_in outcome ≡ spec.c_run (setting_in unit.now
        place.now call.now.barred) call.now.function.now call.now.arguments.now
        call.now.memory.now turns) }
{
    if turns == 0 {
        return Ok(Outcome::More);
    }
    let setting = Setting {
        unit,
        place: *place,
        barred: call.barred,
    };
    let mut after = attempt!(call.memory.copy());
    match run_body(alloc, &setting, call, &mut after, turns) {
        Ok(ended) => match ended {
            Ended::More => Ok(Outcome::More),
            Ended::Back(value) => Ok(Outcome::Back(value, after)),
        },
        Err(refusal) => match refusal {
            Refusal::Fault(stop) => Ok(broken(stop)),
            Refusal::NoMemory => Err(AllocError),
        },
    }
}
