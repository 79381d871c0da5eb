//! All functions that are reached from one.

ghost use Rattle.std.specs.Prelude.{◌≡◌, ◌+◌, ◌<◌, ◌≤◌, ◌^◌, ◌↔◌, [], All, IfOk, IfErr, OnOk};
ghost use Rattle.std.specs.Prelude.{IsSome, IsTrue};
ghost use Rattle.std.specs.List.Sorted.{IsStrictlyIncreasing};
ghost use Rattle.elf_read_spec.specs.Image.{size_at};
ghost use Rattle.code_reach.specs.Surveys.{AnyHasFault, AreEntries, IsFirstOf, IsOverlap};
ghost use Rattle.code_reach.specs.Found.{IsReach, IsReachError};

use crate::faults::CodeFault;
use crate::functions::{earlier, visit};
use crate::walk::add;
use attempt::{Refusal, attempt};
use code_reach_spec::CodeKind;
use elf_read::Image;
use indexmap::IndexSet;
use std::alloc::{AllocError, Global};

/// Adds the entries that are reached from one, itself too, and answers the first fault of their
/// functions.
fn survey(
    alloc: Global,
    entries: &mut IndexSet<u32>,
    image: &Image<'_>,
    entry: u32,
) -> Result<Option<CodeFault>, AllocError>
    requires none_yet { entries.old.keys ≡ [] }
    requires sized { IsSome (size_at image.now entry) }
    ensures entries { OnOk result (AreEntries image.now entry entries.new.keys) }
    ensures fault { IfOk result (IsFirstOf (AnyHasFault image.now entry)) }
{
    add(entries, entry)?;
    let mut first = None;
    let mut next = 0;
    while next < entries.len() {
        let other = entries.as_slice()[next];
        let found = visit(alloc, entries, image, other)?;
        first = earlier(first, found);
        next += 1;
    }
    Ok(first)
}

/// Whether a range, not empty, begins below an end.
fn is_met(end: u64, entry: u32, size: u32) -> bool
    ensures { IsTrue result ↔ (0 < size) × (entry < end) }
{
    size > 0 && u64::from(entry) < end
}

/// Of entries, ascending, the first whose range meets that of one before it.
fn overlap_fault(image: &Image<'_>, entries: &[u32]) -> Option<CodeFault>
    requires rising { IsStrictlyIncreasing entries.now }
    requires sized { All (λ entry. IsSome (size_at image.now entry)) entries.now }
    ensures { IsFirstOf (IsOverlap image.now entries.now) result }
{
    let mut end = 0;
    for entry in entries {
        let size = image.size_at(*entry).unwrap();
        if is_met(end, *entry, size) {
            return Some(CodeFault {
                kind: CodeKind::Overlap,
                address: *entry,
            });
        }
        end = end.max(u64::from(*entry) + u64::from(size));
    }
    None
}

/// Adds the entries of the functions that are reached from one, itself too, ascending.
pub(crate) fn add_entries(
    alloc: Global,
    entries: &mut IndexSet<u32>,
    image: &Image<'_>,
    entry: u32,
) -> Result<(), Refusal<CodeFault>>
    requires none_yet { entries.old.keys ≡ [] }
    requires sized { IsSome (size_at image.now entry) }
    ensures found { OnOk result (IsReach image.now entry entries.new.keys) }
    ensures fault { IfErr result (λ error. IsReachError image.now entry error) }
{
    let first = survey(alloc, entries, image, entry)?;
    entries.sort()?;
    let overlap = overlap_fault(image, entries.as_slice());
    match earlier(first, overlap) {
        Some(fault) => Err(Refusal::Fault(fault)),
        None => Ok(()),
    }
}

/// The entries of the functions that are reached from one, itself too, ascending. The fault is the
/// first of all that is reached: of one of the functions, or that two share bytes.
pub fn reach(alloc: Global, image: &Image<'_>, entry: u32) -> Result<Vec<u32>, Refusal<CodeFault>>
    requires { IsSome (size_at image.now entry) }
    ensures found { IfOk result (λ entries. IsReach image.now entry entries.items) }
    ensures fault { IfErr result (λ error. IsReachError image.now entry error) }
{
    let mut entries = IndexSet::new(alloc);
    attempt!(add_entries(alloc, &mut entries, image, entry));
    let list = attempt!(
        Vec::from_slice(alloc, entries.as_slice()),
        Refusal::NoMemory
    );
    Ok(list)
}
