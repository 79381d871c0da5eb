//! What is wrong with code.

ghost use Rattle.std.specs.Prelude.{◌≡◌, ◌+◌, ◌<◌, ◌≤◌, ◌^◌, ◌&&◌, ◌||◌, is_some, IfOk};
ghost use Rattle.std.specs.List.{list_all};
ghost use Rattle.code_reach_spec.specs.FaultAt as spec;
ghost use Rattle.code_reach_spec.specs.Faults.{is_jalr as is_jalr_of};
ghost use Rattle.code_reach_spec.specs.Faults.{is_indirect as is_indirect_of};
ghost use Rattle.elf_read_spec.specs.Image as elf;
ghost use Rattle.elf_read_spec.specs.Image.{size_at};
ghost use Rattle.code_reach_tables.specs.Tables.{targets_from};
ghost use Rattle.code_reach.specs.Flows.{flow_seen, is_among, is_inside, fault_among};
ghost use Rattle.attempt.specs.declared.refusal.Refusal.TheVariants.{Fault};

use crate::flows::{Flow, flow_of};
use attempt::Refusal;
use code_reach_spec::CodeKind;
use code_reach_tables::{TableJump, instruction_at, target};
use elf_read::Image;
use indexmap::IndexSet;
use rv_instr::Instr;
use std::alloc::{AllocError, Global};
use thiserror::Error;

/// What is wrong with code, and at which address.
#[derive(Clone, Copy, Debug, Error)]
#[error("{kind:?} at {address}")]
pub struct CodeFault {
    /// What is wrong.
    pub kind: CodeKind,
    /// Where: the instruction, or the entry of the function.
    pub address: u32,
}

impl From<CodeFault> for Refusal<CodeFault> {
    ghost from_gives = { λ fault error. error ≡ Fault fault };

    fn from(fault: CodeFault) -> Self {
        Refusal::Fault(fault)
    }
}

/// Whether an address lies in the range of a function.
pub(crate) fn is_in_range(entry: u32, size: u32, target: u32) -> bool
    ensures { result ≡ spec.in_range entry size target }
{
    target >= entry && target - entry < size
}

/// Whether the instruction after one of the range lies in the range too.
pub(crate) fn has_next(entry: u32, size: u32, address: u32) -> bool
    requires from { entry ≤ address }
    requires below { address < entry + size }
    ensures { result ≡ spec.in_range entry size (address + 4) }
{
    size - (address - entry) > 4
}

/// Whether the instruction is a JALR.
fn is_jalr(instruction: &Instr) -> bool
    ensures { result ≡ is_jalr_of instruction.now }
{
    matches!(*instruction, Instr::Jalr { .. })
}

/// Whether the instruction calls what is no function.
fn calls_none(image: &Image<'_>, flow: Flow) -> bool
    ensures { result ≡ spec.calls_none image.now (flow_seen image.now flow) }
{
    match flow {
        Flow::Calls(target) => image.size_at(target).is_none(),
        _ => false,
    }
}

/// Whether one of so many words down from an address is a target.
fn some_target(targets: &IndexSet<u32>, address: u32, count: u32) -> bool
    ensures { result ≡ spec.some_target (is_among targets.now.keys) address count }
{
    for back in 0..count {
        if targets.contains(&address.saturating_sub(back.saturating_mul(4))) {
            return true;
        }
    }
    false
}

/// Whether the instruction can be reached without the words before it by which its address is
/// known: the JALR of a pair, or a word of a run-up after its first one, is the target of an
/// instruction that is reached.
fn is_entered(targets: &IndexSet<u32>, address: u32, instruction: &Instr, flow: Flow) -> bool
    ensures { (image : elf.Image) → result ≡ spec.is_entered (is_among targets.now.keys) address
        instruction.now (flow_seen image flow) }
{
    match flow {
        Flow::Jumps(_) | Flow::Calls(_) => is_jalr(instruction) && targets.contains(&address),
        Flow::Switches(jump) => some_target(targets, address, jump.before),
        Flow::Falls | Flow::Branches(_) | Flow::Links(_) | Flow::Returns | Flow::Stops => false,
    }
}

/// Whether the instruction goes to an address that the file doesn't determine, or keeps the return
/// address in a register other than x1.
fn is_indirect(instruction: &Instr, flow: Flow) -> bool
    ensures { (image : elf.Image) → result
        ≡ is_indirect_of instruction.now (flow_seen image flow) }
{
    match flow {
        Flow::Links(_) => true,
        Flow::Stops => is_jalr(instruction),
        Flow::Falls
        | Flow::Branches(_)
        | Flow::Jumps(_)
        | Flow::Calls(_)
        | Flow::Returns
        | Flow::Switches(_) => false,
    }
}

/// Whether a jump stays in the function, or goes to the entry of one: out of the range it is a tail
/// call.
fn may_jump(image: &Image<'_>, entry: u32, size: u32, target: u32) -> bool
    ensures { result ≡ (spec.in_range entry size target || is_some (size_at image.now target)) }
{
    is_in_range(entry, size, target) || image.size_at(target).is_some()
}

/// Whether a jump by a table may go there: to a multiple of 4 in the range.
fn is_table_target(entry: u32, size: u32, target: u32) -> bool
    ensures { result ≡ is_inside entry size target }
{
    target.is_multiple_of(4) && is_in_range(entry, size, target)
}

/// Whether each word of a table is a multiple of 4 and lies in the range.
fn all_inside(image: &Image<'_>, entry: u32, size: u32, jump: TableJump) -> bool
    ensures { result ≡ list_all (is_inside entry size)
        (targets_from image.now jump.first jump.count) }
{
    for index in 0..jump.count {
        if !is_table_target(entry, size, target(image, jump, index)) {
            return false;
        }
    }
    true
}

/// Whether control stays in the function after an instruction, or ends it by a tail call. A call
/// comes back to the next instruction, which may lie outside.
fn stays(image: &Image<'_>, entry: u32, size: u32, address: u32, flow: Flow) -> bool
    requires from { entry ≤ address }
    requires below { address < entry + size }
    ensures { result ≡ spec.stays image.now entry size address (flow_seen image.now flow) }
{
    match flow {
        Flow::Falls => has_next(entry, size, address),
        Flow::Branches(target) => {
            has_next(entry, size, address) && is_in_range(entry, size, target)
        }
        Flow::Jumps(target) => may_jump(image, entry, size, target),
        Flow::Switches(jump) => all_inside(image, entry, size, jump),
        Flow::Calls(_) | Flow::Links(_) | Flow::Returns | Flow::Stops => true,
    }
}

/// What is wrong with an instruction of this flow, the least kind first.
fn flow_fault(
    image: &Image<'_>,
    entry: u32,
    size: u32,
    targets: &IndexSet<u32>,
    address: u32,
    instruction: &Instr,
    flow: Flow,
) -> Option<CodeKind>
    requires from { entry ≤ address }
    requires below { address < entry + size }
    ensures { result ≡ spec.flow_fault image.now entry size address (is_among targets.now.keys)
        instruction.now (flow_seen image.now flow) }
{
    if calls_none(image, flow) {
        return Some(CodeKind::NoFunction);
    }
    if is_indirect(instruction, flow) || is_entered(targets, address, instruction, flow) {
        return Some(CodeKind::Indirect);
    }
    if stays(image, entry, size, address, flow) {
        return None;
    }
    Some(CodeKind::Leaves)
}

/// What is wrong with the instruction at an address of a function that has code, where these are
/// the targets that it reaches.
#[tactic(auto, unfolding(code_reach_spec::specs::FaultAt::fault_at))]
pub(crate) fn fault_at(
    alloc: Global,
    image: &Image<'_>,
    entry: u32,
    size: u32,
    targets: &IndexSet<u32>,
    address: u32,
) -> Result<Option<CodeKind>, AllocError>
    requires from { entry ≤ address }
    requires below { address < entry + size }
    requires whole { address + 4 ≤ 2 ^ 32 }
    ensures { IfOk result (λ found. found
        ≡ fault_among image.now entry size targets.now.keys address) }
{
    let Some(instruction) = instruction_at(image, address) else {
        return Ok(Some(CodeKind::Undecoded));
    };
    let flow = flow_of(alloc, image, entry, address, &instruction)?;
    let fault = flow_fault(image, entry, size, targets, address, &instruction, flow);
    Ok(fault)
}
