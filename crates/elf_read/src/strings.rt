//! A string table, and the names in it.

ghost use Rattle.std.specs.Prelude.{◌≡◌, ◌==◌, ◌<◌, ◌^◌, ◌↔◌, drop, length, Contains, IfOk, IfSome};
ghost use Rattle.std.specs.Prelude.{IsSome, MatchOption};
ghost use Rattle.elf_read_spec.specs.File.{name_in};
ghost use Rattle.elf_read.specs.Zeros.{AreZeros, IsNextZero, HasNoZero};

use std::alloc::{AllocError, Global};
use std::marker::Model;

/// A string table (System V ABI, string table), with the offsets of its 0 bytes: the end of a name
/// is looked up, since many names may share one long text.
#[derive(Drop)]
pub(crate) struct Strings<'a> {
    bytes: &'a [u8],
    zeros: Vec<u32>,
}

impl<'a> Model for Strings<'a> {
    ghost use Rattle.std.specs.Prelude.{List, ℕ};

    ghost Value = { List ℕ };

    ghost use Rattle.elf_read.specs.Zeros.{AreZeros};

    ghost view = { λ s. s.bytes.now };

    ghost invariant = { λ s. AreZeros s.bytes.now s.zeros.items };
}

impl<'a> Strings<'a> {
    pub(crate) fn new(alloc: Global, bytes: &'a [u8]) -> Result<Strings<'a>, AllocError>
        requires { length bytes.now < 2 ^ 32 }
        ensures { IfOk result (λ strings. strings ≡ bytes.now) }
    {
        let zeros = zeros(alloc, bytes)?;
        Ok(Strings { bytes, zeros })
    }

    /// The name at an offset, if a 0 byte ends it; the empty one at offset 0.
    pub(crate) fn name(&self, place: usize) -> Option<&'a [u8]>
        ensures ended { IsSome result ↔ (0 < place → Contains (drop place self.now) 0) }
        ensures name { IfSome result (λ name. name.now ≡ name_in self.now place) }
    {
        if place == 0 {
            return Some(&[]);
        }
        let end = next_zero(self.bytes, self.zeros.as_slice(), place)?;
        Some(&self.bytes[place..end])
    }
}

/// The offsets of the 0 bytes of a string table, in order.
fn zeros(alloc: Global, strings: &[u8]) -> Result<Vec<u32>, AllocError>
    requires { length strings.now < 2 ^ 32 }
    ensures { IfOk result (λ zeros. AreZeros strings.now zeros.items) }
{
    let mut zeros = Vec::new(alloc);
    for (place, byte) in strings.iter().enumerate() {
        if *byte == 0 {
            zeros.push(place as u32)?;
        }
    }
    Ok(zeros)
}

/// The offset of the first 0 byte from an offset on.
fn next_zero(strings: &[u8], zeros: &[u32], from: usize) -> Option<usize>
    requires { AreZeros strings.now zeros.now }
    ensures { MatchOption result (HasNoZero strings.now from)
        (λ place. IsNextZero strings.now from place) }
{
    let mut low = 0;
    let mut high = zeros.len();
    while low < high {
        let middle = low + (high - low) / 2;
        if (zeros[middle] as usize) < from {
            low = middle + 1;
        } else {
            high = middle;
        }
    }
    zeros.get(low).map(|place| *place as usize)
}
