//! The program headers of type `PT_LOAD`, and their faults.

ghost use Rattle.std.specs.Prelude.{◌≡◌, ◌+◌, ◌*◌, ◌≤◌, ◌<◌, ◌↔◌, ℕ, length, take, drop, map, All};
ghost use Rattle.std.specs.Prelude.{Some, IfOk, IsTrue};
ghost use Rattle.std.specs.Bool.{OnTrue, OnFalse};
ghost use Rattle.std.specs.Ordering.{nat_cmp};
ghost use Rattle.std.specs.BTreeMap.{get};
ghost use Rattle.elf_read_spec.specs.File as spec;
ghost use Rattle.elf_read.specs.ByStart.{AreByStart};
ghost use Rattle.elf_read.specs.Faults.{IsFirst};
ghost use Rattle.elf_read.specs.Offsets.{IsRising};
ghost use Rattle.elf_read.specs.Values.{segment_of};

use crate::Segment;
use crate::fields::{u16_at, u32_at};
use attempt::attempt;
use elf_read_spec::ElfKind;
use elf_read_spec::fields::{
    E_PHNUM, E_PHOFF, EHDR_SIZE, P_FILESZ, P_FLAGS, P_MEMSZ, P_OFFSET, P_VADDR, PHDR_SIZE, PT_LOAD,
};
use std::alloc::{AllocError, Global};
use std::collections::BTreeMap;

/// The offsets of the program headers of type `PT_LOAD`, in order.
pub(crate) fn loads(alloc: Global, bytes: &[u8]) -> Result<Vec<usize>, AllocError>
    requires long { EHDR_SIZE ≤ length bytes.now }
    requires table { spec.programs_end bytes.now ≤ length bytes.now }
    ensures loads { IfOk result (λ loads. loads.items ≡ spec.loads bytes.now) }
    ensures inside { IfOk result (λ loads. All (λ at. at + PHDR_SIZE
        ≤ length bytes.now) loads.items) }
    ensures rising { IfOk result (λ loads. IsRising loads.items) }
{
    let start = u32_at(bytes, E_PHOFF) as usize;
    let count = u16_at(bytes, E_PHNUM) as usize;
    let mut loads = Vec::new(alloc);
    for i in 0..count {
        let at = start + PHDR_SIZE * i;
        if u32_at(bytes, at) == PT_LOAD {
            loads.push(at)?;
        }
    }
    Ok(loads)
}

fn is_placed(bytes: &[u8], at: usize) -> bool
    requires { at + PHDR_SIZE ≤ length bytes.now }
    ensures { IsTrue result ↔ spec.IsPlaced bytes.now at }
{
    let file_size = u32_at(bytes, at + P_FILESZ) as usize;
    let memory_size = u32_at(bytes, at + P_MEMSZ) as usize;
    if file_size > memory_size {
        return false;
    }
    if file_size > 0 && u32_at(bytes, at + P_OFFSET) as usize + file_size > bytes.len() {
        return false;
    }
    u32_at(bytes, at + P_VADDR) as usize + memory_size <= 1 << 32
}

pub(crate) fn range_fault(bytes: &[u8], loads: &[usize]) -> Option<usize>
    requires loads { loads.now ≡ spec.loads bytes.now }
    requires inside { All (λ at. at + PHDR_SIZE ≤ length bytes.now) loads.now }
    requires rising { IsRising loads.now }
    ensures { IsFirst bytes.now ElfKind.SegmentRange result }
{
    for at in loads {
        if !is_placed(bytes, *at) {
            return Some(*at);
        }
    }
    None
}

/// The memories of two program headers share no address.
fn are_apart(bytes: &[u8], first: usize, second: usize) -> bool
    requires first { first + PHDR_SIZE ≤ length bytes.now }
    requires second { second + PHDR_SIZE ≤ length bytes.now }
    ensures { IsTrue result ↔ spec.AreApart bytes.now first second }
{
    let first_start = u32_at(bytes, first + P_VADDR) as usize;
    let first_end = first_start + u32_at(bytes, first + P_MEMSZ) as usize;
    let second_start = u32_at(bytes, second + P_VADDR) as usize;
    let second_end = second_start + u32_at(bytes, second + P_MEMSZ) as usize;
    first_start.max(second_start) >= first_end.min(second_end)
}

/// The memory of a program header shares an address with that of one of several, which lie apart:
/// then with that of the last one that begins below its end.
fn meets_any(bytes: &[u8], headers: &BTreeMap<usize, usize>, at: usize) -> bool
    requires inside { at + PHDR_SIZE ≤ length bytes.now }
    requires by_start { AreByStart bytes.now headers.now }
    ensures meets { OnTrue result ((start place : ℕ) × (get nat_cmp headers.now start ≡ Some place)
        × (spec.AreApart bytes.now place at → ⊥)) }
    ensures apart { OnFalse result ((start place : ℕ)
        → get nat_cmp headers.now start ≡ Some place → spec.AreApart bytes.now place at) }
{
    let start = u32_at(bytes, at + P_VADDR) as usize;
    let end = start + u32_at(bytes, at + P_MEMSZ) as usize;
    match headers.range(..end).next_back() {
        Some((_, place)) => !are_apart(bytes, *place, at),
        None => false,
    }
}

/// The first program header whose memory shares an address with that of an earlier one.
pub(crate) fn overlap_fault(
    alloc: Global,
    bytes: &[u8],
    loads: &[usize],
) -> Result<Option<usize>, AllocError>
    requires loads { loads.now ≡ spec.loads bytes.now }
    requires inside { All (λ at. at + PHDR_SIZE ≤ length bytes.now) loads.now }
    requires rising { IsRising loads.now }
    ensures { IfOk result (λ at. IsFirst bytes.now ElfKind.SegmentOverlap at) }
{
    // Those so far whose memory isn't empty, by its start.
    let mut headers = BTreeMap::new(alloc);
    for at in loads {
        if meets_any(bytes, &headers, *at) {
            return Ok(Some(*at));
        }
        if u32_at(bytes, *at + P_MEMSZ) > 0 {
            headers.insert(u32_at(bytes, *at + P_VADDR) as usize, *at)?;
        }
    }
    Ok(None)
}

/// The segments of `PT_LOAD` headers, in order.
pub(crate) fn segments<'a>(
    alloc: Global,
    bytes: &'a [u8],
    loads: &[usize],
) -> Result<Vec<Segment<'a>>, AllocError>
    requires inside { All (λ at. at + PHDR_SIZE ≤ length bytes.now) loads.now }
    requires placed { All (λ at. spec.IsPlaced bytes.now at) loads.now }
    ensures { IfOk result (λ segments. map segment_of segments.items
        ≡ map (spec.segment_at bytes.now) loads.now) }
{
    let mut segments = attempt!(Vec::with_capacity(alloc, loads.len()));
    for at in loads {
        segments.push(segment_at(bytes, *at))?;
    }
    Ok(segments)
}

fn segment_at<'a>(bytes: &'a [u8], at: usize) -> Segment<'a>
    requires inside { at + PHDR_SIZE ≤ length bytes.now }
    requires placed { spec.IsPlaced bytes.now at }
    ensures { segment_of result ≡ spec.segment_at bytes.now at }
{
    let start = u32_at(bytes, at + P_OFFSET) as usize;
    let size = u32_at(bytes, at + P_FILESZ) as usize;
    Segment {
        vaddr: u32_at(bytes, at + P_VADDR),
        memsz: u32_at(bytes, at + P_MEMSZ),
        flags: u32_at(bytes, at + P_FLAGS),
        bytes: piece(bytes, start, size),
    }
}

/// As many bytes as `size` from an offset on.
fn piece(bytes: &[u8], start: usize, size: usize) -> &[u8]
    requires { 0 < size → start + size ≤ length bytes.now }
    ensures { result.now ≡ take size (drop start bytes.now) }
{
    if size == 0 {
        return &[];
    }
    &bytes[start..start + size]
}
