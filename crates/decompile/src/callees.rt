//! Whether the functions that a function calls are listed.

ghost use Rattle.std.specs.Prelude.{◌≡◌, ◌↔◌, ◌%◌, ◌==◌, if◌then◌else◌, All, Contains, IsTrue};
ghost use Rattle.std.specs.Prelude.{IfErr, OnOk, Some, None};
ghost use Rattle.std.specs.List.Sorted.{IsStrictlyIncreasing};
ghost use Rattle.elf_read_spec.specs.Image as elf;
ghost use Rattle.decompile.specs.Callees as spec;

use crate::error::GraphFault;
use crate::items::Item;
use attempt::{Refusal, attempt};
use code_reach::callee;

/// The address, if it is a multiple of 4.
fn aligned(target: u32) -> Option<u32>
    ensures { result ≡ spec.aligned_of target }
{
    if target.is_multiple_of(4) {
        Some(target)
    } else {
        None
    }
}

/// The entry of the function that an instruction calls, or ends by, if it does.
fn called(entry: u32, size: u32, item: &Item) -> Option<u32>
    ensures { (image : elf.Image) → result ≡ spec.callee_of_item image entry size item.now }
{
    match callee(entry, size, item.flow) {
        Some(target) => aligned(target),
        None => None,
    }
}

/// Whether an entry is among entries that ascend.
fn is_listed(entries: &[u32], callee: u32) -> bool
    requires { IsStrictlyIncreasing entries.now }
    ensures { IsTrue result ↔ Contains entries.now callee }
{
    match entries.binary_search(&callee) {
        Ok(_) => true,
        Err(_) => false,
    }
}

/// Refuses an instruction of a function whose callee isn't listed.
fn check_callee(
    entry: u32,
    size: u32,
    item: &Item,
    entries: &[u32],
) -> Result<(), Refusal<GraphFault>>
    requires { IsStrictlyIncreasing entries.now }
    ensures listed { (image : elf.Image) → OnOk result (spec.IsListed image entry size entries.now
        item.now) }
    ensures refused { (image : elf.Image) → IfErr result (spec.IsUnlisted image entry size
        entries.now item.now) }
{
    match called(entry, size, item) {
        Some(callee) => {
            if !is_listed(entries, callee) {
                return Err(Refusal::Fault(GraphFault::Unlisted {
                    address: item.address,
                    callee,
                }));
            }
            Ok(())
        }
        None => Ok(()),
    }
}

/// Refuses the first of some instructions of a function whose callee isn't listed.
pub(crate) fn check_callees(
    entry: u32,
    size: u32,
    items: &[Item],
    entries: &[u32],
) -> Result<(), Refusal<GraphFault>>
    requires { IsStrictlyIncreasing entries.now }
    ensures listed { (image : elf.Image) → OnOk result (All (spec.IsListed image entry size
        entries.now) items.now) }
    ensures refused { (image : elf.Image) → IfErr result (spec.IsFirstUnlisted image entry size
        entries.now items.now) }
{
    for item in items {
        attempt!(check_callee(entry, size, item, entries));
    }
    Ok(())
}
