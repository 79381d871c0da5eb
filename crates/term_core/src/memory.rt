// A byte for each address, in trees that share what they have in common.

ghost use Rattle.std.specs.Prelude.{◌≡◌, ℕ, ◌-◌, ◌^◌, ◌<◌, ◌≤◌, ◌==◌, ◌&&◌, nat_le, IfOk, OnOk};
ghost use Rattle.std.specs.Prelude.{OnErr};
ghost use Rattle.term_core_spec.specs.Value.{with_byte, overlaid};
ghost use Rattle.term_core.specs.Memory.{bytes_of, byte_in, of_halves};

use attempt::attempt;
use std::alloc::{AllocError, Global};
use std::fmt;
use std::fmt::{Debug, Formatter, Write};
use std::rc::Rc;

/// How many bits an address has.
const ADDRESS_BITS: u32 = 32;

/// The bytes at the addresses of a number of bits, by the highest bit first.
#[derive(Drop)]
pub enum Tree {
    /// this byte at each address
    All(u8),
    /// the bytes of the lower half of the addresses, and those of the upper half
    Fork(Rc<Tree>, Rc<Tree>),
}

/// A byte for each address; one that was never written has 0. A copy shares all, and a change makes
/// at most two new nodes for each bit of an address.
#[derive(Drop)]
pub struct Memory {
    alloc: Global,
    tree: Tree,
}

// How many addresses each half has, and 1 where there is but one.
fn half_of(depth: u32) -> u64
    requires { depth ≤ 32 }
    ensures value { result ≡ 2 ^ (depth - 1) }
    ensures most { result < 2 ^ 32 }
{
    1 << depth.saturating_sub(1)
}

// Two halves, of which the lower is new.
#[tactic(auto, unfolding(crate::specs::Memory::byte_in))]
fn with_lower(alloc: Global, lower: Tree, upper: Rc<Tree>) -> Result<Tree, AllocError>
    ensures { IfOk result (λ t. (depth q : ℕ)
        → byte_in t depth q ≡ of_halves lower upper.value depth q) }
{
    let lower = Rc::new(alloc, lower)?;
    Ok(Tree::Fork(lower, upper))
}

// Two halves, of which the upper is new.
#[tactic(auto, unfolding(crate::specs::Memory::byte_in))]
fn with_upper(alloc: Global, lower: Rc<Tree>, upper: Tree) -> Result<Tree, AllocError>
    ensures { IfOk result (λ t. (depth q : ℕ)
        → byte_in t depth q ≡ of_halves lower.value upper depth q) }
{
    let upper = Rc::new(alloc, upper)?;
    Ok(Tree::Fork(lower, upper))
}

// Two new halves.
#[tactic(auto, unfolding(crate::specs::Memory::byte_in))]
fn fork(alloc: Global, lower: Tree, upper: Tree) -> Result<Tree, AllocError>
    ensures { IfOk result (λ t. (depth q : ℕ)
        → byte_in t depth q ≡ of_halves lower upper depth q) }
{
    let lower = Rc::new(alloc, lower)?;
    let upper = Rc::new(alloc, upper)?;
    Ok(Tree::Fork(lower, upper))
}

// Whether all addresses are from `low` to below `high`.
fn covers(low: u64, high: u64, size: u64) -> bool
    ensures { result ≡ (low == 0 && nat_le size high) }
{
    low == 0 && size <= high
}

impl Tree {
    // The byte at an address.
    #[tactic(auto, unfolding(crate::specs::Memory::byte_in))]
    fn byte(&self, depth: u32, address: u64) -> u8
        requires { depth ≤ 32 }
        ensures { result ≡ byte_in self.now depth address }
    {
        match self {
            Tree::All(byte) => *byte,
            Tree::Fork(low, high) => {
                let half = half_of(depth);
                let below = depth.saturating_sub(1);
                if address < half {
                    low.byte(below, address)
                } else {
                    high.byte(below, address - half)
                }
            }
        }
    }

    // The same bytes; the halves are shared.
    #[tactic(auto, unfolding(crate::specs::Memory::byte_in))]
    fn share(&self) -> Result<Tree, AllocError>
        ensures { IfOk result (λ t. (depth q : ℕ) → byte_in t depth q ≡ byte_in self.now depth q) }
    {
        match self {
            Tree::All(byte) => Ok(Tree::All(*byte)),
            Tree::Fork(low, high) => {
                let lower = attempt!(low.clone());
                let upper = attempt!(high.clone());
                Ok(Tree::Fork(lower, upper))
            }
        }
    }

    // The lower and the upper half, shared.
    #[tactic(auto, unfolding(crate::specs::Memory::byte_in))]
    fn halves(&self, alloc: Global) -> Result<(Rc<Tree>, Rc<Tree>), AllocError>
        ensures { IfOk result (λ h. (depth q : ℕ)
            → byte_in self.now depth q ≡ of_halves h.0.value h.1.value depth q) }
    {
        match self {
            Tree::All(byte) => {
                let half = Rc::new(alloc, Tree::All(*byte))?;
                let other = attempt!(half.clone());
                Ok((half, other))
            }
            Tree::Fork(low, high) => {
                let lower = attempt!(low.clone());
                let upper = attempt!(high.clone());
                Ok((lower, upper))
            }
        }
    }

    // The tree with one byte changed.
    fn with_byte(
        &self,
        alloc: Global,
        depth: u32,
        address: u64,
        byte: u8,
    ) -> Result<Tree, AllocError>
        requires most { depth ≤ 32 }
        requires within { address < 2 ^ depth }
        ensures { IfOk result (λ t. (q : ℕ) → q < 2 ^ depth
            → byte_in t depth q ≡ with_byte (byte_in self.now depth) address byte q) }
    {
        if depth == 0 {
            return Ok(Tree::All(byte));
        }
        let half = half_of(depth);
        let (lower, upper) = self.halves(alloc)?;
        if address < half {
            let changed_lower = lower.with_byte(alloc, depth - 1, address, byte)?;
            with_lower(alloc, changed_lower, upper)
        } else {
            let changed_upper = upper.with_byte(alloc, depth - 1, address - half, byte)?;
            with_upper(alloc, lower, changed_upper)
        }
    }

    // The bytes of `zone` from `low` to below `high`, and these bytes elsewhere.
    fn over(
        &self,
        alloc: Global,
        zone: &Tree,
        depth: u32,
        low: u64,
        high: u64,
    ) -> Result<Tree, AllocError>
        requires { depth ≤ 32 }
        ensures { IfOk result (λ t. (q : ℕ) → q < 2 ^ depth → byte_in t depth q
            ≡ overlaid (byte_in self.now depth) (byte_in zone.now depth) low high q) }
    {
        let size = size_of(depth);
        if high <= low {
            return self.share();
        }
        if size <= low {
            return self.share();
        }
        if covers(low, high, size) {
            return zone.share();
        }
        if depth == 0 {
            return zone.share();
        }
        let half = half_of(depth);
        let (lower, upper) = self.halves(alloc)?;
        let (zone_lower, zone_upper) = zone.halves(alloc)?;
        let made_lower = lower.over(alloc, &zone_lower, depth - 1, low, high)?;
        let (low, high) = (low.saturating_sub(half), high.saturating_sub(half));
        let made_upper = upper.over(alloc, &zone_upper, depth - 1, low, high)?;
        fork(alloc, made_lower, made_upper)
    }
}

impl Tree {
    // Writes the bytes that are not 0, each after its address, from `start` on; whether none was
    // written yet.
    fn list<W: Write>(
        &self,
        f: &mut Formatter<W>,
        half: u64,
        start: u64,
        first: bool,
    ) -> Result<bool, fmt::Error> {
        match self {
            Tree::All(byte) => {
                if *byte == 0 {
                    return Ok(first);
                }
                f.write_str(if first { "" } else { ", " })?;
                write!(f, "{start}: {byte}")?;
                Ok(false)
            }
            Tree::Fork(low, high) => {
                let first = attempt!(low.list(f, half / 2, start, first));
                high.list(f, half / 2, start.wrapping_add(half), first)
            }
        }
    }
}

impl Debug for Memory {
    fn fmt<W: Write>(&self, f: &mut Formatter<W>) -> Result<(), fmt::Error> {
        f.write_str("Memory { bytes: {")?;
        let _none = self.tree.list(f, 0x8000_0000, 0, true)?;
        f.write_str("} }")
    }
}

// How many addresses there are.
fn size_of(depth: u32) -> u64
    requires { depth ≤ 32 }
    ensures { result ≡ 2 ^ depth }
{
    1 << depth
}

impl Memory {
    /// No byte is written.
    #[tactic(auto, unfolding(crate::specs::Memory::byte_in))]
    pub fn new(alloc: Global) -> Memory
        ensures { bytes_of result ≡ (λ q. 0) }
    {
        Memory {
            alloc,
            tree: Tree::All(0),
        }
    }

    /// The byte at an address.
    pub fn byte(&self, address: u32) -> u8
        ensures { result ≡ bytes_of self.now address }
    {
        self.tree.byte(ADDRESS_BITS, u64::from(address))
    }

    /// Writes one byte. Out of memory, nothing changes.
    pub fn set(&mut self, address: u32, byte: u8) -> Result<(), AllocError>
        ensures ok { OnOk result (bytes_of self.new ≡ with_byte (bytes_of self.old) address byte) }
        ensures err { OnErr result (bytes_of self.new ≡ bytes_of self.old) }
    {
        let address = u64::from(address);
        let tree = attempt!(self.tree.with_byte(self.alloc, ADDRESS_BITS, address, byte));
        self.tree = tree;
        Ok(())
    }

    /// The bytes with one changed.
    pub fn with(&self, address: u32, byte: u8) -> Result<Memory, AllocError>
        ensures { IfOk result (λ m. bytes_of m ≡ with_byte (bytes_of self.now) address byte) }
    {
        let address = u64::from(address);
        let tree = attempt!(self.tree.with_byte(self.alloc, ADDRESS_BITS, address, byte));
        Ok(Memory {
            alloc: self.alloc,
            tree,
        })
    }

    /// The same bytes.
    pub fn copy(&self) -> Result<Memory, AllocError>
        ensures { IfOk result (λ m. bytes_of m ≡ bytes_of self.now) }
    {
        Ok(Memory {
            alloc: self.alloc,
            tree: attempt!(self.tree.share()),
        })
    }

    /// The bytes of `zone` from `low` to below `high`, and these bytes elsewhere.
    pub fn over(&self, zone: &Memory, low: u64, high: u64) -> Result<Memory, AllocError>
        ensures { IfOk result (λ m. bytes_of m
            ≡ overlaid (bytes_of self.now) (bytes_of zone.now) low high) }
    {
        let tree = self
            .tree
            .over(self.alloc, &zone.tree, ADDRESS_BITS, low, high)?;
        Ok(Memory {
            alloc: self.alloc,
            tree,
        })
    }
}
