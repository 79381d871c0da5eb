//! The code of listed functions.

ghost use Rattle.std.specs.Prelude.{◌≡◌, ◌≢◌, [], All, Contains, IfErr, IfOk, IsSome, IsTrue, OnOk};
ghost use Rattle.std.specs.Prelude.{◌↔◌};
ghost use Rattle.elf_read_spec.specs.Image.{function_named, size_at};
ghost use Rattle.elf_read_spec.specs.declared.SymbolValues.TheVariants.{Absent};
ghost use Rattle.pair_setup_calls.specs.Graph.{Grows};
ghost use Rattle.code_reach.specs.Found.{IsReachError};
ghost use Rattle.pair_setup_calls.specs.Names.{texts_of};
ghost use Rattle.pair_setup.specs.Codes.{AddsNamed, AddsSound, AreCoded, AreSound};
ghost use Rattle.pair_setup.specs.Codes.{IsCodeErrorAt, IsFirstCodeError, IsReachErrorAt};
ghost use Rattle.pair_setup.specs.Walks.{AreSoundOf};

use crate::outcome::PairFault;
use crate::walk::add_sound;
use attempt::{Refusal, attempt};
use code_reach::{CodeFault, reach};
use code_reach_spec::CodeKind;
use elf_read::{Image, SymbolValues};
use indexmap::IndexSet;
use std::alloc::{AllocError, Global};

/// Adds an entry, last, unless it is there.
pub(crate) fn add(entries: &mut IndexSet<u32>, entry: u32) -> Result<(), AllocError>
    ensures { OnOk result (Grows (λ t. t ≡ entry) entries.old.keys entries.new.keys) }
{
    entries.insert(entry)?;
    Ok(())
}

/// Adds some entries.
fn add_all(entries: &mut IndexSet<u32>, added: &[u32]) -> Result<(), AllocError>
    ensures { OnOk result (Grows (Contains added.now) entries.old.keys entries.new.keys) }
{
    for entry in added {
        attempt!(add(entries, *entry));
    }
    Ok(())
}

/// Whether an entry is there.
fn is_known(entries: &IndexSet<u32>, entry: u32) -> bool
    ensures { IsTrue result ↔ Contains entries.now.keys entry }
{
    entries.contains(&entry)
}

/// Adds the entries of what is reached from one that isn't there.
fn add_new(
    alloc: Global,
    entries: &mut IndexSet<u32>,
    image: &Image<'_>,
    entry: u32,
) -> Result<(), Refusal<CodeFault>>
    requires sized { IsSome (size_at image.now entry) }
    requires sound { AreSound image.now entries.old.keys }
    ensures added { OnOk result (AddsSound image.now entry entries.old.keys entries.new.keys) }
    ensures fault { IfErr result (IsReachError image.now entry) }
{
    let reached = attempt!(reach(alloc, image, entry));
    attempt!(add_all(entries, reached.as_slice()), Refusal::NoMemory);
    Ok(())
}

/// Adds the entries of what is reached from one, itself too, where nothing of it has a fault. What
/// is there already was looked at: nothing that is reached from it has one.
fn add_reached(
    alloc: Global,
    entries: &mut IndexSet<u32>,
    image: &Image<'_>,
    entry: u32,
) -> Result<(), Refusal<CodeFault>>
    requires sized { IsSome (size_at image.now entry) }
    requires sound { AreSound image.now entries.old.keys }
    ensures added { OnOk result (AddsSound image.now entry entries.old.keys entries.new.keys) }
    ensures fault { IfErr result (IsReachError image.now entry) }
{
    if is_known(entries, entry) {
        Ok(())
    } else {
        add_new(alloc, entries, image, entry)
    }
}

/// The entry of a listed function, where the code that it reaches has no fault; all entries that it
/// reaches are added.
fn add_at(
    alloc: Global,
    entries: &mut IndexSet<u32>,
    image: &Image<'_>,
    entry: u32,
    index: usize,
) -> Result<u32, Refusal<PairFault>>
    requires sized { IsSome (size_at image.now entry) }
    requires sound { AreSound image.now entries.old.keys }
    ensures entry { IfOk result (λ found. found ≡ entry) }
    ensures added { OnOk result (AddsSound image.now entry entries.old.keys entries.new.keys) }
    ensures fault { IfErr result (IsReachErrorAt image.now entry index) }
{
    match add_reached(alloc, entries, image, entry) {
        Ok(()) => Ok(entry),
        Err(Refusal::Fault(fault)) => Err(Refusal::Fault(PairFault::Code(fault, index))),
        Err(Refusal::NoMemory) => Err(Refusal::NoMemory),
    }
}

/// The same of the function of a name, at an index of the list, that has a symbol.
fn add_named(
    alloc: Global,
    entries: &mut IndexSet<u32>,
    image: &Image<'_>,
    name: &[u8],
    index: usize,
) -> Result<u32, Refusal<PairFault>>
    requires symbol { function_named image.now name.now ≢ Absent }
    requires sound { AreSound image.now entries.old.keys }
    ensures added { IfOk result (AddsNamed image.now name.now entries.old.keys entries.new.keys) }
    ensures fault { IfErr result (IsCodeErrorAt image.now name.now index) }
{
    match image.function(name) {
        SymbolValues::One(entry) => add_at(alloc, entries, image, entry, index),
        SymbolValues::Two(_, address) => Err(Refusal::Fault(PairFault::Code(
            CodeFault {
                kind: CodeKind::Ambiguous,
                address,
            },
            index,
        ))),
        SymbolValues::Absent => unreachable!(),
    }
}

/// Adds the entries of the listed functions, and those of all that their code reaches, where
/// nothing of it has a fault; or else the fault of the first function that has one. Some of them
/// may be there.
fn add_listed(
    alloc: Global,
    firsts: &mut Vec<u32>,
    entries: &mut IndexSet<u32>,
    image: &Image<'_>,
    list: &[&[u8]],
) -> Result<(), Refusal<PairFault>>
    requires symbols { All (λ name. function_named image.now name ≢ Absent) (texts_of list.now) }
    requires no_firsts { firsts.old.items ≡ [] }
    requires sound { AreSoundOf image.now (texts_of list.now) entries.old.keys }
    ensures coded { OnOk result (AreCoded image.now (texts_of list.now) firsts.new.items
        entries.new.keys) }
    ensures fault { IfErr result (IsFirstCodeError image.now (texts_of list.now)) }
{
    for i in 0..list.len() {
        let entry = attempt!(add_named(alloc, entries, image, list[i], i));
        attempt!(firsts.push(entry), Refusal::NoMemory);
    }
    Ok(())
}

/// The entries of the listed functions, where nothing that their code reaches has a fault; those of
/// all that it reaches are added.
pub(crate) fn sound_entries(
    alloc: Global,
    entries: &mut IndexSet<u32>,
    image: &Image<'_>,
    list: &[&[u8]],
) -> Result<Vec<u32>, Refusal<PairFault>>
    requires symbols { All (λ name. function_named image.now name ≢ Absent) (texts_of list.now) }
    requires none { entries.old.keys ≡ [] }
    ensures coded { IfOk result (λ firsts. AreCoded image.now (texts_of list.now) firsts.items
        entries.new.keys) }
    ensures fault { IfErr result (IsFirstCodeError image.now (texts_of list.now)) }
{
    attempt!(add_sound(alloc, entries, image, list), Refusal::NoMemory);
    let mut firsts = Vec::new(alloc);
    attempt!(add_listed(alloc, &mut firsts, entries, image, list));
    Ok(firsts)
}
