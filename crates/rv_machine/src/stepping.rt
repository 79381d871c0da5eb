ghost use Rattle.std.specs.Prelude.{◌≡◌, IfOk, OnErr};
ghost use Rattle.rv_machine.specs.Runs.{HasStepped, HasRun, IsUnderWay};

use crate::effects::{effect, sources};
use crate::machine::Machine;
use crate::{Ran, Stepped};
use rv_decode::decode;
use std::alloc::AllocError;

/// Executes the instruction at pc. Where it traps, and when out of memory, nothing changes.
pub fn step(machine: &mut Machine) -> Result<Stepped, AllocError>
    ensures done { IfOk result (λ s. HasStepped s machine.old machine.new) }
    ensures err { OnErr result (machine.new ≡ machine.old) }
{
    let Some(instruction) = decode(machine.word()) else {
        return Ok(Stepped::Trapped);
    };
    let (first, second) = sources(&instruction);
    let a = machine.register(first);
    let b = machine.register(second);
    let done = effect(&instruction, a, b, machine.pc());
    machine.apply(done)
}

/// Takes at most `limit` steps, halting where pc is `stop`, at the start too. Where an instruction
/// traps, and when out of memory, the machine is as it was before that step.
pub fn run(machine: &mut Machine, stop: u32, limit: u64) -> Result<Ran, AllocError>
    ensures done { IfOk result (λ r. HasRun r machine.old stop limit machine.new) }
    ensures err { OnErr result (IsUnderWay machine.old stop limit machine.new) }
{
    for _ in 0..limit {
        if machine.pc() == stop {
            return Ok(Ran::Stopped);
        }
        match step(machine)? {
            Stepped::Went => {}
            Stepped::Trapped => return Ok(Ran::Trapped),
        }
    }
    if machine.pc() == stop {
        Ok(Ran::Stopped)
    } else {
        Ok(Ran::More)
    }
}
