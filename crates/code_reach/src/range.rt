ghost use Rattle.std.specs.Prelude.{◌≡◌, ◌+◌, ◌≤◌, ◌<◌, ◌^◌, ◌%◌, ◌↔◌, IsTrue, MatchOption};
ghost use Rattle.code_reach_spec.specs.Code.{HasCode, IsFixedRange, IsRangeFault};

use code_reach_spec::CodeKind;
use elf_read::Image;

/// Whether every byte of the range of a function is fixed by the file, and the range ends at 2^32
/// at the latest.
fn is_fixed_range(image: &Image<'_>, entry: u32, size: u32) -> bool
    ensures { IsTrue result ↔ IsFixedRange image.now entry size }
{
    if u64::from(entry) + u64::from(size) > 0x1_0000_0000 {
        return false;
    }
    for k in 0..size {
        if image.fixed_byte(entry + k).is_none() {
            return false;
        }
    }
    true
}

/// Whether a function begins and ends at a multiple of 4.
fn is_aligned(entry: u32, size: u32) -> bool
    ensures { IsTrue result ↔ (entry % 4 ≡ 0) × (size % 4 ≡ 0) }
{
    entry.is_multiple_of(4) && size.is_multiple_of(4)
}

/// What is wrong with the range of the function at an entry, so many bytes long: it is empty, a
/// byte of it is not fixed by the file, or its entry or its size is no multiple of 4, the first of
/// these. `None`: it has code.
pub fn range_fault(image: &Image<'_>, entry: u32, size: u32) -> Option<CodeKind>
    ensures { MatchOption result (HasCode image.now entry size)
        (λ kind. IsRangeFault image.now entry size kind) }
{
    if size == 0 {
        return Some(CodeKind::Empty);
    }
    if !is_fixed_range(image, entry, size) {
        return Some(CodeKind::Writable);
    }
    if !is_aligned(entry, size) {
        return Some(CodeKind::Misplaced);
    }
    None
}
