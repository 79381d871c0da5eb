//! The addresses that a function reaches, and the targets of the instructions there.

ghost use Rattle.std.specs.Prelude.{◌≡◌, ◌+◌, ◌<◌, ◌≤◌, ◌^◌, ◌%◌, ◌∷◌, [], IfOk, OnOk, Contains};
ghost use Rattle.std.specs.List.{flat_map};
ghost use Rattle.code_reach_spec.specs.Code as spec;
ghost use Rattle.code_reach_spec.specs.Code.{HasCode, AreReachable};
ghost use Rattle.code_reach_spec.specs.Faults.{targets_of};
ghost use Rattle.code_reach_tables.specs.Tables.{targets_from};
ghost use Rattle.code_reach.specs.Flows.{flow_seen};
ghost use Rattle.code_reach.specs.Growth.{Grows, IsInside, GoesTo, HasTarget, AreAllReachable};
ghost use Rattle.code_reach.specs.Growth.{AreTargets};

use crate::faults::{has_next, is_in_range};
use crate::flows::{Flow, flow_at};
use code_reach_tables::{TableJump, target};
use elf_read::Image;
use indexmap::IndexSet;
use std::alloc::{AllocError, Global};

/// Adds an item to a set, last, unless it has it.
pub(crate) fn add(items: &mut IndexSet<u32>, item: u32) -> Result<(), AllocError>
    ensures { OnOk result (Grows (λ t. t ≡ item) items.old.keys items.new.keys) }
{
    items.insert(item)?;
    Ok(())
}

/// Adds the address of the next instruction, if it lies in the range.
fn add_next(
    reached: &mut IndexSet<u32>,
    entry: u32,
    size: u32,
    address: u32,
) -> Result<(), AllocError>
    requires from { entry ≤ address }
    requires below { address < entry + size }
    requires in_space { entry + size ≤ 2 ^ 32 }
    ensures { OnOk result (Grows (IsInside entry size
        ((address + 4) ∷ [])) reached.old.keys reached.new.keys) }
{
    if has_next(entry, size, address) {
        add(reached, address + 4)?;
    }
    Ok(())
}

/// Adds the target of a jump or branch, if it is aligned and lies in the range.
fn add_target(
    reached: &mut IndexSet<u32>,
    entry: u32,
    size: u32,
    target: u32,
) -> Result<(), AllocError>
    ensures { OnOk result (Grows (IsInside entry size
        (spec.aligned target)) reached.old.keys reached.new.keys) }
{
    if !target.is_multiple_of(4) {
        return Ok(());
    }
    if is_in_range(entry, size, target) {
        add(reached, target)?;
    }
    Ok(())
}

/// Adds the targets of a jump by a table that are aligned and lie in the range.
fn add_jump(
    reached: &mut IndexSet<u32>,
    image: &Image<'_>,
    entry: u32,
    size: u32,
    jump: TableJump,
) -> Result<(), AllocError>
    ensures { OnOk result (Grows (IsInside entry size (flat_map spec.aligned
        (targets_from image.now jump.first jump.count))) reached.old.keys reached.new.keys) }
{
    for index in 0..jump.count {
        add_target(reached, entry, size, target(image, jump, index))?;
    }
    Ok(())
}

/// Adds the addresses to which control may go after an instruction, inside the range.
fn add_flow(
    reached: &mut IndexSet<u32>,
    image: &Image<'_>,
    entry: u32,
    size: u32,
    address: u32,
    flow: Flow,
) -> Result<(), AllocError>
    requires from { entry ≤ address }
    requires below { address < entry + size }
    requires in_space { entry + size ≤ 2 ^ 32 }
    ensures { OnOk result (Grows (IsInside entry size
        (spec.nexts_of address (flow_seen image.now flow))) reached.old.keys reached.new.keys) }
{
    match flow {
        Flow::Falls | Flow::Calls(_) => {
            add_next(reached, entry, size, address)?;
            Ok(())
        }
        Flow::Branches(target) => {
            add_next(reached, entry, size, address)?;
            add_target(reached, entry, size, target)?;
            Ok(())
        }
        Flow::Jumps(target) | Flow::Links(target) => {
            add_target(reached, entry, size, target)?;
            Ok(())
        }
        Flow::Switches(jump) => {
            add_jump(reached, image, entry, size, jump)?;
            Ok(())
        }
        Flow::Returns | Flow::Stops => Ok(()),
    }
}

/// Adds the words of a table.
fn add_words(
    targets: &mut IndexSet<u32>,
    image: &Image<'_>,
    jump: TableJump,
) -> Result<(), AllocError>
    ensures { OnOk result (Grows (Contains
        (targets_from image.now jump.first jump.count)) targets.old.keys targets.new.keys) }
{
    for index in 0..jump.count {
        add(targets, target(image, jump, index))?;
    }
    Ok(())
}

/// Adds the target of a branch, a jump or a link, wherever it lies, and those of a table; that of a
/// call is none.
fn add_targets(targets: &mut IndexSet<u32>, image: &Image<'_>, flow: Flow) -> Result<(), AllocError>
    ensures { OnOk result (Grows (Contains
        (targets_of (flow_seen image.now flow))) targets.old.keys targets.new.keys) }
{
    match flow {
        Flow::Branches(target) | Flow::Jumps(target) | Flow::Links(target) => {
            add(targets, target)?;
            Ok(())
        }
        Flow::Switches(jump) => {
            add_words(targets, image, jump)?;
            Ok(())
        }
        Flow::Falls | Flow::Calls(_) | Flow::Returns | Flow::Stops => Ok(()),
    }
}

/// Adds the addresses to which control may go from one of a function that has code, and the targets
/// of the instruction there.
fn follow(
    alloc: Global,
    reached: &mut IndexSet<u32>,
    targets: &mut IndexSet<u32>,
    image: &Image<'_>,
    entry: u32,
    size: u32,
    address: u32,
) -> Result<(), AllocError>
    requires from { entry ≤ address }
    requires below { address < entry + size }
    requires in_space { entry + size ≤ 2 ^ 32 }
    requires whole { address + 4 ≤ 2 ^ 32 }
    ensures reached { OnOk result (Grows (GoesTo image.now entry size address) reached.old.keys
        reached.new.keys) }
    ensures targets { OnOk result (Grows (HasTarget image.now entry address) targets.old.keys
        targets.new.keys) }
{
    let found = flow_at(alloc, image, entry, address)?;
    match found {
        None => Ok(()),
        Some(flow) => {
            add_flow(reached, image, entry, size, address, flow)?;
            add_targets(targets, image, flow)?;
            Ok(())
        }
    }
}

/// Adds the addresses that are reached from the entry of a function that has code, each once, and
/// the targets of the instructions there.
fn add_reached(
    alloc: Global,
    reached: &mut IndexSet<u32>,
    targets: &mut IndexSet<u32>,
    image: &Image<'_>,
    entry: u32,
    size: u32,
) -> Result<(), AllocError>
    requires none_yet { reached.old.keys ≡ [] }
    requires no_targets { targets.old.keys ≡ [] }
    requires code { HasCode image.now entry size }
    ensures reached { OnOk result (AreAllReachable image.now entry size reached.new.keys) }
    ensures targets { OnOk result (AreTargets image.now entry size targets.new.keys) }
{
    add(reached, entry)?;
    let mut next = 0;
    while next < reached.len() {
        let address = reached.as_slice()[next];
        follow(alloc, reached, targets, image, entry, size, address)?;
        next += 1;
    }
    Ok(())
}

/// The addresses that are reached from the entry of a function that has code, ascending. Adds the
/// targets of the instructions there.
pub(crate) fn reached(
    alloc: Global,
    targets: &mut IndexSet<u32>,
    image: &Image<'_>,
    entry: u32,
    size: u32,
) -> Result<IndexSet<u32>, AllocError>
    requires no_targets { targets.old.keys ≡ [] }
    requires code { HasCode image.now entry size }
    ensures reached { IfOk result (λ reached. AreReachable image.now entry size reached.keys) }
    ensures targets { OnOk result (AreTargets image.now entry size targets.new.keys) }
{
    let mut reached = IndexSet::new(alloc);
    add_reached(alloc, &mut reached, targets, image, entry, size)?;
    reached.sort()?;
    Ok(reached)
}
