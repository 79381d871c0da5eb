//! The fixed segments in the order of their addresses, and the runs of fixed bytes.

ghost use Rattle.std.specs.Prelude.{◌≡◌, ◌+◌, ◌^◌, ◌≤◌, ◌<◌, ◌↔◌, ℕ, length, map, All, AllPairs};
ghost use Rattle.std.specs.Prelude.{IfOk, IsTrue, slice_get};
ghost use Rattle.std.specs.List.{AllWithin};
ghost use Rattle.elf_read_spec.specs.Image as spec;
ghost use Rattle.elf_read.specs.Values.{segment_of};
ghost use Rattle.elf_read.specs.Separate.{AreSeparate};
ghost use Rattle.elf_read.specs.Fixed.{AreInOrder, AreFixed};
ghost use Rattle.elf_read.specs.Extents.{AreExtents, EndsBefore};

use crate::{Extent, Segment};
use std::alloc::{AllocError, Global};

/// How many of the segments begin at an address or below it.
pub(crate) fn place_of(fixed: &[Segment], address: u32) -> usize
    requires { AllPairs (λ x y. x.vaddr ≤ y.vaddr) fixed.now }
    ensures bound { result ≤ length fixed.now }
    ensures below { AllWithin (λ s. s.vaddr ≤ address) fixed.now 0 result }
    ensures above { AllWithin (λ s. address < s.vaddr) fixed.now result (length fixed.now) }
{
    let mut low = 0;
    let mut high = fixed.len();
    while low < high {
        let middle = low + (high - low) / 2;
        if fixed[middle].vaddr <= address {
            low = middle + 1;
        } else {
            high = middle;
        }
    }
    low
}

/// The fixed segments that have bytes, in the order of their addresses.
pub(crate) fn fixed_segments<'a>(
    alloc: Global,
    segments: &[Segment<'a>],
) -> Result<Vec<Segment<'a>>, AllocError>
    requires { AreSeparate (map segment_of segments.now) }
    ensures { IfOk result (λ fixed. AreFixed segments.now fixed.items) }
{
    let mut fixed = Vec::new(alloc);
    for segment in segments {
        if segment.has_fixed_bytes() {
            fixed.push(*segment)?;
        }
    }
    fixed.sort_unstable_by_key(|segment| segment.vaddr);
    Ok(fixed)
}

/// The fixed byte at an address.
pub(crate) fn byte_at(fixed: &[Segment], address: u32) -> Option<u8>
    requires { AreInOrder fixed.now }
    ensures { result ≡ spec.fixed_among (map segment_of fixed.now) address }
{
    let place = place_of(fixed, address);
    if place == 0 {
        return None;
    }
    fixed[place - 1].fixed_byte(address)
}

/// The extents of the runs of fixed bytes, by address.
pub(crate) fn extents(alloc: Global, fixed: &[Segment]) -> Result<Vec<Extent>, AllocError>
    requires { AreInOrder fixed.now }
    ensures { IfOk result (λ extents. AreExtents fixed.now extents.items) }
{
    let mut extents: Vec<Extent> = Vec::new(alloc);
    for segment in fixed {
        let extent = segment.extent();
        if end_before(extents.as_slice(), extent.first) {
            let last = extents.len() - 1;
            extents[last] = Extent {
                first: extents[last].first,
                last: extent.last,
            };
        } else {
            extents.push(extent)?;
        }
    }
    Ok(extents)
}

/// The last of several extents ends directly before an address.
fn end_before(extents: &[Extent], first: u32) -> bool
    requires { All (λ e. e.last < first) extents.now }
    ensures { IsTrue result ↔ EndsBefore extents.now first }
{
    let count = extents.len();
    count > 0 && extents[count - 1].last + 1 == first
}

impl<'a> Segment<'a> {
    /// The addresses of its bytes.
    fn extent(&self) -> Extent
        requires full { 0 < length self.now.bytes.now }
        requires in_space { self.now.vaddr + length self.now.bytes.now ≤ 2 ^ 32 }
        ensures first { result.first ≡ self.now.vaddr }
        ensures last { result.last + 1 ≡ self.now.vaddr + length self.now.bytes.now }
    {
        Extent {
            first: self.vaddr,
            last: self.vaddr + (self.bytes.len() - 1) as u32,
        }
    }
}

/// The extent at an index.
pub(crate) fn extent_at(extents: &[Extent], i: usize) -> Option<Extent>
    ensures { result ≡ slice_get extents.now i }
{
    extents.get(i).copied()
}
