//! What is read of a function while its nodes are written.

ghost use Rattle.std.specs.Prelude.{◌≡◌, ◌+◌, ◌^◌, ◌≤◌, All};
ghost use Rattle.std.specs.List.Sorted.{IsStrictlyIncreasing};
ghost use Rattle.decompile_spec.specs.Blocks as spec;
ghost use Rattle.decompile.specs.Answer.{number_in};

use crate::numbers::plus;
use elf_read::Extent;
use graph_core_spec::Next;
use indexmap::IndexMap;
use std::alloc::AllocError;

/// A function, the fixed bytes that its stores must not meet, and the numbers of nodes and graphs.
#[derive(Drop)]
pub(crate) struct Function<'a> {
    /// Where it begins.
    pub entry: u32,
    /// How many bytes it has.
    pub size: u32,
    /// The runs of fixed bytes of the file, by address.
    pub runs: &'a [Extent],
    /// The entries of functions, ascending; a function's graph has its entry's index.
    pub entries: &'a [u32],
    /// The number of the first node of each instruction, by its address.
    pub firsts: &'a IndexMap<u32, usize>,
    ghost in_space: { entry + size ≤ 2 ^ 32 },
    ghost ordered: { All (λ run. run.first ≤ run.last) runs.now },
    ghost rising: { IsStrictlyIncreasing entries.now },
}

/// Whether an address lies in the range of a function.
fn is_in_range(entry: u32, size: u32, target: u32) -> bool
    ensures { result ≡ spec.is_in_range entry size target }
{
    target >= entry && target - entry < size
}

/// Whether a jump to an address leaves the function of this entry and size: it is a tail call.
pub(crate) fn leaves_range(entry: u32, size: u32, target: u32) -> bool
    ensures { result ≡ spec.leaves_range entry size target }
{
    target.is_multiple_of(4) && !is_in_range(entry, size, target)
}

impl Function<'_> {
    ghost use Rattle.std.specs.Prelude.{◌≡◌, ◌+◌, IfOk};
    ghost use Rattle.decompile_spec.specs.Blocks as spec;
    ghost use Rattle.decompile.specs.Answer.{first_in};
    ghost use Rattle.decompile.specs.Settings.{setting_of};

    /// The number of the first node of the instruction at an address.
    fn first(&self, address: u32) -> usize
        ensures { result ≡ first_in self.now.firsts.now.entries address }
    {
        self.firsts.get(&address).copied().unwrap_or(0)
    }

    /// The number of a node of the instruction at an address, if there are so many numbers.
    pub(crate) fn node(&self, address: u32, index: usize) -> Result<usize, AllocError>
        ensures { IfOk result (λ number. number
            ≡ (setting_of self.now).at (spec.Of address index)) }
    {
        plus(self.first(address), index)
    }

    /// Whether an address lies in the range.
    fn is_inside(&self, target: u32) -> bool
        ensures { result ≡ spec.is_inside (setting_of self.now) target }
    {
        is_in_range(self.entry, self.size, target)
    }

    /// Whether a jump to an address leaves the function.
    pub(crate) fn leaves(&self, target: u32) -> bool
        ensures { result ≡ spec.leaves (setting_of self.now) target }
    {
        leaves_range(self.entry, self.size, target)
    }

    /// On to the instruction at an address; an error at no multiple of 4, and outside the range.
    #[tactic(auto, unfolding(decompile_spec::specs::Blocks::toward))]
    pub(crate) fn toward(&self, target: u32) -> Next
        ensures { result ≡ spec.toward (setting_of self.now) target }
    {
        if target.is_multiple_of(4) && self.is_inside(target) {
            Next::At(self.first(target))
        } else {
            Next::Err
        }
    }

    /// On to the instruction after the one at an address.
    #[tactic(auto, unfolding(decompile_spec::specs::Blocks::toward))]
    pub(crate) fn onward(&self, address: u32) -> Next
        ensures { result ≡ spec.toward (setting_of self.now) (address + 4) }
    {
        match address.checked_add(4) {
            Some(next) => self.toward(next),
            None => Next::Err,
        }
    }
}

/// The number of the graph of the function at an entry: its index among the entries, which are
/// ascending, or how many those are where it isn't there.
pub fn graph_number(entries: &[u32], entry: u32) -> usize
    requires { IsStrictlyIncreasing entries.now }
    ensures { result ≡ number_in entries.now entry }
{
    match entries.binary_search(&entry) {
        Ok(index) => index,
        Err(_) => entries.len(),
    }
}
