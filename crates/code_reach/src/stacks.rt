//! How deep the stack of a function goes.

ghost use Rattle.std.specs.Prelude.{ℕ, ◌≡◌, ◌↔◌, ◌+◌, ◌<◌, ◌≤◌, ◌^◌, ◌++◌, ◌∷◌, [], length, map};
ghost use Rattle.std.specs.Prelude.{take};
ghost use Rattle.std.specs.Prelude.{sum_by, nat_eq, All, Contains, IfOk, IfErr, OnOk, IsSome};
ghost use Rattle.std.specs.Prelude.{IfSome, Some};
ghost use Rattle.indexmap.specs.IndexMap.{get};
ghost use Rattle.elf_read_spec.specs.Image.{size_at};
ghost use Rattle.code_reach_spec.specs.Code.{IsCyclic, IsGreatest, opening_of, AreReachable};
ghost use Rattle.code_reach.specs.Growth.{Grows, IsPlace};
ghost use Rattle.code_reach.specs.Found.{IsDepth, IsReachError};
ghost use Rattle.code_reach_spec.specs.Faults.{ReachesNoFault};
ghost use Rattle.code_reach.specs.Stacks.{AreCalls, IsDeepest, IsOwnStack, IsTotal, IsEntered};
ghost use Rattle.code_reach.specs.Stacks.{IsFresh, known_or_zero, opening_at};
ghost use Rattle.code_reach.specs.Surveys.{CallsOut};

use crate::faults::CodeFault;
use crate::functions::visit;
use crate::range::range_fault;
use crate::survey::add_entries;
use crate::walk::{add, reached};
use attempt::{Refusal, attempt};
use code_reach_tables::instruction_at;
use elf_read::Image;
use indexmap::{IndexMap, IndexSet};
use rv_instr::{ImmediateOperation, Instr, Reg};
use std::alloc::{AllocError, Global};

/// What is to be done with a function.
#[derive(Clone, Copy)]
pub(crate) enum Task {
    /// To look at what it calls.
    Enter(u32),
    /// To add up its stack, once those that it calls are done.
    Leave(u32),
}

/// By how much an ADDI lowers the stack pointer.
fn lowered(rd: Reg, source: Reg, imm: i32) -> u64
    ensures { result ≡ opening_of (Some (Instr.Immediate ImmediateOperation.Add rd source imm)) }
{
    if rd.number() == 2 && source.number() == 2 && imm < 0 {
        u64::from(imm.unsigned_abs())
    } else {
        0
    }
}

/// By how many bytes an instruction lowers the stack pointer, if it is `addi x2, x2, imm`; 0 for
/// any other.
pub fn lowering(instruction: &Instr) -> u64
    ensures { result ≡ opening_of (Some instruction.now) }
{
    match *instruction {
        Instr::Immediate {
            operation: ImmediateOperation::Add,
            rd,
            source,
            imm,
        } => lowered(rd, source, imm),
        _ => 0,
    }
}

/// The same of the instruction at an address.
fn opening(image: &Image<'_>, address: u32) -> u64
    requires { address + 4 ≤ 2 ^ 32 }
    ensures opening { result ≡ opening_at image.now address }
    ensures short { result ≤ 2 ^ 11 }
{
    match instruction_at(image, address) {
        Some(instruction) => lowering(&instruction),
        None => 0,
    }
}

/// By how much the instructions at some addresses lower the stack pointer.
fn openings(image: &Image<'_>, addresses: &[u32]) -> u64
    requires whole { All (λ address. address + 4 ≤ 2 ^ 32) addresses.now }
    requires few { length addresses.now ≤ 2 ^ 32 }
    ensures { result ≡ sum_by (opening_at image.now) addresses.now }
{
    let mut sum = 0;
    for address in addresses {
        sum += opening(image, *address);
    }
    sum
}

/// The addresses that are reached in a function, ascending; none where it has no code.
fn places(
    alloc: Global,
    image: &Image<'_>,
    entry: u32,
    size: u32,
) -> Result<IndexSet<u32>, AllocError>
    ensures { IfOk result (λ places. AreReachable image.now entry size places.keys) }
{
    match range_fault(image, entry, size) {
        Some(_) => Ok(IndexSet::new(alloc)),
        None => {
            let mut targets = IndexSet::new(alloc);
            let places = reached(alloc, &mut targets, image, entry, size)?;
            Ok(places)
        }
    }
}

/// The entries that a function calls.
fn calls(alloc: Global, image: &Image<'_>, entry: u32) -> Result<IndexSet<u32>, AllocError>
    requires { IsSome (size_at image.now entry) }
    ensures { IfOk result (λ calls. AreCalls image.now entry calls.keys) }
{
    let mut calls = IndexSet::new(alloc);
    attempt!(visit(alloc, &mut calls, image, entry));
    Ok(calls)
}

/// The greatest known stack of some entries; 0 where there are none.
fn deepest(known: &IndexMap<u32, u64>, entries: &[u32]) -> u64
    ensures { IsDeepest (get nat_eq known.now) entries.now result }
{
    let mut deepest = 0;
    for entry in entries {
        deepest = deepest.max(known.get(entry).copied().unwrap_or(0));
    }
    deepest
}

/// By how much the instructions of a function lower the stack pointer.
fn own_stack(alloc: Global, image: &Image<'_>, entry: u32, size: u32) -> Result<u64, AllocError>
    ensures { IfOk result (IsOwnStack image.now entry size) }
{
    let places = places(alloc, image, entry, size)?;
    Ok(openings(image, places.as_slice()))
}

/// The greatest known stack of what a function calls; 0 where it calls nothing.
fn called_stack(
    alloc: Global,
    image: &Image<'_>,
    known: &IndexMap<u32, u64>,
    entry: u32,
) -> Result<u64, AllocError>
    requires { IsSome (size_at image.now entry) }
    ensures { IfOk result (IsGreatest (CallsOut image.now entry)
        (known_or_zero (get nat_eq known.now))) }
{
    let calls = calls(alloc, image, entry)?;
    Ok(deepest(known, calls.as_slice()))
}

/// The stack of a function, where those of what it calls are known.
fn total(
    alloc: Global,
    image: &Image<'_>,
    known: &IndexMap<u32, u64>,
    entry: u32,
) -> Result<u64, AllocError>
    requires sized { IsSome (size_at image.now entry) }
    requires short { (total : ℕ) → IsTotal image.now entry (get nat_eq known.now) total
        → total < 2 ^ 64 }
    ensures { IfOk result (λ total. IsTotal image.now entry (get nat_eq known.now) total) }
{
    let size = image.size_at(entry).unwrap();
    let own = own_stack(alloc, image, entry, size)?;
    let called = called_stack(alloc, image, known, entry)?;
    let total = own + called;
    Ok(total)
}

/// Adds to the tasks that a function be left, and on top that others be entered.
fn add_tasks(tasks: &mut Vec<Task>, entry: u32, calls: &[u32]) -> Result<(), AllocError>
    ensures { OnOk result (tasks.new.items
        ≡ (tasks.old.items ++ Task.Leave entry ∷ []) ++ map Task.Enter calls.now) }
{
    tasks.push(Task::Leave(entry))?;
    for target in calls {
        tasks.push(Task::Enter(*target))?;
    }
    Ok(())
}

/// Adds to the tasks that a function be left, and on top that those be entered that it calls.
fn enter(
    alloc: Global,
    image: &Image<'_>,
    tasks: &mut Vec<Task>,
    entry: u32,
) -> Result<(), AllocError>
    requires { IsSome (size_at image.now entry) }
    ensures { OnOk result (IsEntered image.now entry tasks.old.items tasks.new.items) }
{
    let calls = calls(alloc, image, entry)?;
    add_tasks(tasks, entry, calls.as_slice())?;
    Ok(())
}

/// The stack of a function where no fault is reached; `None` where a cycle of calls is reached.
/// Each function is entered once, and left when all that it calls are left: one that is entered and
/// not yet left is on the way from the first to the one at hand. The stacks that are known, the
/// functions that are entered and the tasks are the caller's, and empty at the start.
fn explore(
    alloc: Global,
    image: &Image<'_>,
    entry: u32,
    known: &mut IndexMap<u32, u64>,
    entered: &mut IndexSet<u32>,
    tasks: &mut Vec<Task>,
) -> Result<Option<u64>, AllocError>
    requires sized { IsSome (size_at image.now entry) }
    requires sound { ReachesNoFault image.now entry }
    requires fresh { IsFresh (get nat_eq known.old) entered.old.keys tasks.old.items }
    ensures { IfOk result (IsDepth image.now entry) }
{
    tasks.push(Task::Enter(entry))?;
    while let Some(task) = tasks.pop() {
        match task {
            Task::Leave(other) => {
                let total = total(alloc, image, known, other)?;
                known.insert(other, total)?;
            }
            Task::Enter(other) => {
                if known.contains_key(&other) {
                    continue;
                }
                if entered.contains(&other) {
                    return Ok(None);
                }
                let _count = entered.len();
                add(entered, other)?;
                enter(alloc, image, tasks, other)?;
            }
        }
    }
    Ok(known.get(&entry).copied())
}

/// The same, with nothing known or entered at the start.
fn depth(alloc: Global, image: &Image<'_>, entry: u32) -> Result<Option<u64>, AllocError>
    requires sized { IsSome (size_at image.now entry) }
    requires sound { ReachesNoFault image.now entry }
    ensures { IfOk result (IsDepth image.now entry) }
{
    let mut known = IndexMap::new(alloc);
    let mut entered = IndexSet::new(alloc);
    let mut tasks = Vec::new(alloc);
    explore(alloc, image, entry, &mut known, &mut entered, &mut tasks)
}

/// How many bytes of stack the function at an entry takes, with all that it calls; `None` where a
/// cycle of calls is reached. The fault is the first of all that is reached, as [`crate::reach`]
/// answers it.
pub fn stack(
    alloc: Global,
    image: &Image<'_>,
    entry: u32,
) -> Result<Option<u64>, Refusal<CodeFault>>
    requires { IsSome (size_at image.now entry) }
    ensures found { IfOk result (IsDepth image.now entry) }
    ensures acyclic { IfOk result (λ depth. IfSome depth (λ _. IsCyclic image.now entry → ⊥)) }
    ensures sound { OnOk result (ReachesNoFault image.now entry) }
    ensures fault { IfErr result (IsReachError image.now entry) }
{
    let mut entries = IndexSet::new(alloc);
    add_entries(alloc, &mut entries, image, entry)?;
    let depth = depth(alloc, image, entry)?;
    Ok(depth)
}
