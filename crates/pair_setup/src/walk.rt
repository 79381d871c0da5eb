//! One walk over the code of all listed functions, in whatever order they are listed.

ghost use Rattle.std.specs.Prelude.{◌≡◌, ◌+◌, [], unwrap_or, IfOk, IsTrue, OnOk};
ghost use Rattle.elf_read_spec.specs.Image.{size_at};
ghost use Rattle.pair_setup_calls.specs.Graph.{Grows};
ghost use Rattle.pair_setup_calls.specs.Names.{texts_of};
ghost use Rattle.pair_setup.specs.Names.{IsOf};
ghost use Rattle.pair_setup.specs.Walks.{AreApart, AreSoundOf, IsCalled, IsEntry, IsVisited};
ghost use Rattle.pair_setup.specs.Walks.{IsWalked};

use crate::calling::{Step, steps_at};
use crate::code::add;
use attempt::attempt;
use elf_read::{Image, SymbolValues};
use indexmap::IndexSet;
use std::alloc::{AllocError, Global};

/// Adds the entry that an instruction calls.
fn add_callee(entries: &mut IndexSet<u32>, step: Step) -> Result<(), AllocError>
    ensures { OnOk result (Grows (IsCalled step) entries.old.keys entries.new.keys) }
{
    match step.callee {
        Some(target) => add(entries, target),
        None => Ok(()),
    }
}

/// Adds the entries that some instructions call.
fn add_callees(entries: &mut IndexSet<u32>, steps: &[Step]) -> Result<(), AllocError>
    ensures { OnOk result (Grows (IsOf IsCalled steps.now) entries.old.keys entries.new.keys) }
{
    for step in steps {
        attempt!(add_callee(entries, *step));
    }
    Ok(())
}

/// Adds the entries that a function calls; false where it has a fault.
fn visit(
    alloc: Global,
    entries: &mut IndexSet<u32>,
    image: &Image<'_>,
    entry: u32,
) -> Result<bool, AllocError>
    ensures { IfOk result (λ sound. IsTrue sound → IsVisited image.now entry entries.old.keys
        entries.new.keys) }
{
    match attempt!(steps_at(alloc, image, entry)) {
        Some(steps) => {
            attempt!(add_callees(entries, steps.as_slice()));
            Ok(true)
        }
        None => Ok(false),
    }
}

/// Adds the entries of all that is reached from those that are there; false where something of it
/// has a fault.
fn walk_all(
    alloc: Global,
    entries: &mut IndexSet<u32>,
    image: &Image<'_>,
) -> Result<bool, AllocError>
    ensures { IfOk result (λ sound. IsTrue sound → IsWalked image.now entries.old.keys
        entries.new.keys) }
{
    let mut next = 0;
    while next < entries.len() {
        let entry = entries.as_slice()[next];
        let sound = attempt!(visit(alloc, entries, image, entry));
        if !sound {
            return Ok(false);
        }
        next += 1;
    }
    Ok(true)
}

/// Where the function at an entry ends; at the entry, where no function is.
fn end_of(image: &Image<'_>, entry: u32) -> u64
    ensures { result ≡ entry + unwrap_or (size_at image.now entry) 0 }
{
    let size = image.size_at(entry).unwrap_or(0);
    u64::from(entry) + u64::from(size)
}

/// Whether each of some functions ends before the next one begins.
fn are_apart(image: &Image<'_>, entries: &[u32]) -> bool
    ensures { IsTrue result → AreApart image.now entries.now }
{
    let mut end: u64 = 0;
    for entry in entries {
        if u64::from(*entry) < end {
            return false;
        }
        end = end_of(image, *entry);
    }
    true
}

/// Adds the entry of a name's function, if it has one.
fn add_root(entries: &mut IndexSet<u32>, image: &Image<'_>, name: &[u8]) -> Result<(), AllocError>
    ensures { OnOk result (Grows (IsEntry image.now name.now) entries.old.keys entries.new.keys) }
{
    match image.function(name) {
        SymbolValues::One(entry) => add(entries, entry),
        SymbolValues::Two(_, _) => Ok(()),
        SymbolValues::Absent => Ok(()),
    }
}

/// Adds the entries of the functions of some names.
fn add_roots(
    entries: &mut IndexSet<u32>,
    image: &Image<'_>,
    list: &[&[u8]],
) -> Result<(), AllocError>
    ensures { OnOk result (Grows (IsOf (IsEntry image.now)
        (texts_of list.now)) entries.old.keys entries.new.keys) }
{
    for name in list {
        attempt!(add_root(entries, image, name));
    }
    Ok(())
}

/// Adds the entries of all that listed functions reach; false where something of it has a fault.
fn is_sound(
    alloc: Global,
    entries: &mut IndexSet<u32>,
    image: &Image<'_>,
    list: &[&[u8]],
) -> Result<bool, AllocError>
    requires { entries.old.keys ≡ [] }
    ensures { IfOk result (λ sound. IsTrue sound → AreSoundOf image.now (texts_of list.now)
        entries.new.keys) }
{
    attempt!(add_roots(entries, image, list));
    let walked = attempt!(walk_all(alloc, entries, image));
    attempt!(entries.sort(), AllocError);
    if walked {
        Ok(are_apart(image, entries.as_slice()))
    } else {
        Ok(false)
    }
}

/// Adds the entries of all that listed functions reach, where nothing of it has a fault and no two
/// functions of it share bytes; otherwise none. It takes as long as the code is that is reached.
pub(crate) fn add_sound(
    alloc: Global,
    entries: &mut IndexSet<u32>,
    image: &Image<'_>,
    list: &[&[u8]],
) -> Result<(), AllocError>
    requires { entries.old.keys ≡ [] }
    ensures { OnOk result (AreSoundOf image.now (texts_of list.now) entries.new.keys) }
{
    let sound = attempt!(is_sound(alloc, entries, image, list));
    if sound {
        return Ok(());
    }
    entries.clear();
    Ok(())
}
