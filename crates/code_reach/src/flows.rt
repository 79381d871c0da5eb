//! Where control goes after an instruction.

ghost use Rattle.std.specs.Prelude.{◌≡◌, ◌+◌, ◌-◌, ◌*◌, ◌/◌, ◌≤◌, ◌^◌, ◌==◌, ◌&&◌};
ghost use Rattle.std.specs.Prelude.{not, nat_le, if◌then◌else◌, IfOk, Some};
ghost use Rattle.std.specs.Option.{option_map};
ghost use Rattle.elf_read_spec.specs.Image as elf;
ghost use Rattle.rv_machine_spec.specs.Arithmetic.{word as word_of};
ghost use Rattle.rv_machine_spec.specs.Machine.{past};
ghost use Rattle.code_reach_spec.specs.Code as spec;
ghost use Rattle.code_reach_tables.specs.Tables.{jump_seen};
ghost use Rattle.code_reach.specs.Flows.{flow_seen, flow_there, plain_flow_there};

use code_reach_tables::{TableJump, instruction_at, table_at};
use elf_read::Image;
use rv_instr::{Instr, Reg};
use std::alloc::{AllocError, Global};

/// Where control goes after an instruction.
#[derive(Clone, Copy)]
pub enum Flow {
    /// To the next instruction.
    Falls,
    /// To the next instruction or to the target.
    Branches(u32),
    /// To the target.
    Jumps(u32),
    /// To the target, and then to the next instruction.
    Calls(u32),
    /// To the target, with the return address in a register other than x1.
    Links(u32),
    /// To the return address.
    Returns,
    /// To one of the words of a table.
    Switches(TableJump),
    /// To no address that the file determines.
    Stops,
}

/// The address `offset` bytes from another; addresses wrap.
fn moved(address: u32, offset: i32) -> u32
    ensures { result ≡ past address (word_of offset) }
{
    address.wrapping_add(offset.cast_unsigned())
}

/// The flow of a JAL.
fn jump_flow(rd: Reg, target: u32) -> Flow
    ensures { (image : elf.Image) → flow_seen image result ≡ (if rd == 0 then spec.Jumps target
        else if rd == 1 then spec.Calls target else spec.Links target) }
{
    match rd.number() {
        0 => Flow::Jumps(target),
        1 => Flow::Calls(target),
        _ => Flow::Links(target),
    }
}

/// Whether a JALR to `rd` by `base` forms a pair with an AUIPC to a register directly before it.
fn is_pair(register: Reg, rd: Reg, base: Reg) -> bool
    ensures { result ≡ (not (register == 0) && (register == base) && nat_le rd 1) }
{
    register.number() != 0 && register.number() == base.number() && rd.number() <= 1
}

/// Where the JALR of a pair goes, which is at an address; bit 0 is cleared.
fn pair_destination(address: u32, imm: u32, offset: i32) -> u32
    ensures { result ≡ spec.target_of (past (address - 4) (imm * 2 ^ 12)) offset / 2 * 2 }
{
    let base = address.saturating_sub(4).wrapping_add(imm << 12);
    moved(base, offset) / 2 * 2
}

/// Where a JALR at an address goes as the second word of a pair, where this instruction is before
/// it; `None` where the two are no pair.
fn target_after(instruction: &Instr, address: u32, rd: Reg, base: Reg, offset: i32) -> Option<u32>
    ensures { result ≡ spec.pair_target (Some instruction.now) address rd base offset }
{
    match *instruction {
        Instr::Auipc { rd: register, imm } => {
            if is_pair(register, rd, base) {
                Some(pair_destination(address, imm, offset))
            } else {
                None
            }
        }
        _ => None,
    }
}

/// The same, given the instruction before it, if there is one.
fn pair_target(
    previous: Option<Instr>,
    address: u32,
    rd: Reg,
    base: Reg,
    offset: i32,
) -> Option<u32>
    ensures { result ≡ spec.pair_target previous address rd base offset }
{
    match previous {
        Some(instruction) => target_after(&instruction, address, rd, base, offset),
        None => None,
    }
}

/// The flow of a JALR that is no return, where it goes to this target as the second word of a pair.
fn pair_flow(target: Option<u32>, rd: Reg) -> Flow
    ensures { (image : elf.Image) → flow_seen image result ≡ spec.flow_of_pair target rd }
{
    match target {
        Some(target) if rd.number() == 0 => Flow::Jumps(target),
        Some(target) => Flow::Calls(target),
        None => Flow::Stops,
    }
}

/// The flow of an instruction at an address, given the one before it in the same function; jumps by
/// tables are not looked for.
fn plain_flow(previous: Option<Instr>, address: u32, instruction: &Instr) -> Flow
    ensures { (image : elf.Image) → flow_seen image result
        ≡ spec.flow_of previous address instruction.now }
{
    match *instruction {
        Instr::Jal { rd, offset } => jump_flow(rd, moved(address, offset)),
        Instr::Jalr { rd, base, offset } => {
            if rd.number() == 0 && base.number() == 1 && offset == 0 {
                Flow::Returns
            } else {
                pair_flow(pair_target(previous, address, rd, base, offset), rd)
            }
        }
        Instr::Branch { offset, .. } => Flow::Branches(moved(address, offset)),
        Instr::Ecall | Instr::Ebreak => Flow::Stops,
        Instr::Lui { .. }
        | Instr::Auipc { .. }
        | Instr::Load { .. }
        | Instr::Store { .. }
        | Instr::Immediate { .. }
        | Instr::Shift { .. }
        | Instr::Arithmetic { .. }
        | Instr::Fence { .. } => Flow::Falls,
    }
}

/// The instruction before the one at an address, in the function at an entry: before the entry
/// there is none.
pub(crate) fn instruction_before(image: &Image<'_>, entry: u32, address: u32) -> Option<Instr>
    requires from { entry ≤ address }
    requires whole { address + 4 ≤ 2 ^ 32 }
    ensures { result ≡ spec.instr_before image.now entry address }
{
    if address - entry >= 4 {
        return instruction_at(image, address - 4);
    }
    None
}

/// The flow where a jump by a table is found: it is one to no address that is known otherwise.
fn with_table(found: Option<TableJump>, flow: Flow) -> Flow
    ensures { (image : elf.Image) → flow_seen image result
        ≡ spec.with_table (option_map (jump_seen image) found) (flow_seen image flow) }
{
    match flow {
        Flow::Stops => match found {
            Some(jump) => Flow::Switches(jump),
            None => Flow::Stops,
        },
        Flow::Falls
        | Flow::Branches(_)
        | Flow::Jumps(_)
        | Flow::Calls(_)
        | Flow::Links(_)
        | Flow::Returns
        | Flow::Switches(_) => flow,
    }
}

/// The flow of an instruction at an address of the function at an entry.
pub(crate) fn flow_of(
    alloc: Global,
    image: &Image<'_>,
    entry: u32,
    address: u32,
    instruction: &Instr,
) -> Result<Flow, AllocError>
    requires from { entry ≤ address }
    requires whole { address + 4 ≤ 2 ^ 32 }
    ensures { IfOk result (λ flow. flow_seen image.now flow ≡ flow_there image.now entry address
        instruction.now) }
{
    let previous = instruction_before(image, entry, address);
    let flow = plain_flow(previous, address, instruction);
    let found = table_at(alloc, image, entry, address, instruction)?;
    Ok(with_table(found, flow))
}

/// The flow of the instruction at an address of the function at an entry.
#[tactic(auto, unfolding(code_reach_spec::specs::Code::flow_at))]
pub fn flow_at(
    alloc: Global,
    image: &Image<'_>,
    entry: u32,
    address: u32,
) -> Result<Option<Flow>, AllocError>
    requires from { entry ≤ address }
    requires whole { address + 4 ≤ 2 ^ 32 }
    ensures { IfOk result (λ flow. option_map (flow_seen image.now) flow
        ≡ spec.flow_at image.now entry address) }
{
    let Some(instruction) = instruction_at(image, address) else {
        return Ok(None);
    };
    let flow = flow_of(alloc, image, entry, address, &instruction)?;
    Ok(Some(flow))
}

/// The same, with a jump by a table as one to no known address.
pub(crate) fn plain_flow_at(image: &Image<'_>, entry: u32, address: u32) -> Option<Flow>
    requires from { entry ≤ address }
    requires whole { address + 4 ≤ 2 ^ 32 }
    ensures { option_map (flow_seen image.now) result ≡ plain_flow_there image.now entry address }
{
    let instruction = instruction_at(image, address)?;
    let previous = instruction_before(image, entry, address);
    Some(plain_flow(previous, address, &instruction))
}
