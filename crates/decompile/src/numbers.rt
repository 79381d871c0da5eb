//! The numbers of nodes: which is the first of each instruction.

ghost use Rattle.std.specs.Prelude.{◌≡◌, ◌+◌, ◌^◌, ◌<◌, ◌≤◌, [], map};
ghost use Rattle.std.specs.Prelude.{IfOk, IfErr, MatchResult, OnOk};
ghost use Rattle.std.specs.List.Sorted.{IsStrictlyIncreasing};
ghost use Rattle.elf_read_spec.specs.Image as elf;
ghost use Rattle.decompile.specs.Items.{item_of};
ghost use Rattle.decompile.specs.Counts as spec;
ghost use Rattle.attempt.specs.declared.refusal.Refusal.TheVariants.{Fault};
ghost use Rattle.decompile.specs.declared.error.GraphFault.TheVariants.{Large};

use crate::error::GraphFault;
use crate::function::leaves_range;
use crate::items::Item;
use attempt::{Refusal, attempt};
use code_reach::Flow;
use indexmap::IndexMap;
use rv_instr::{Instr, LoadKind, StoreKind};
use std::alloc::{AllocError, Global};

/// The sum; out of memory exactly where no `usize` holds it: so many nodes don't fit into memory.
pub(crate) fn plus(first: usize, second: usize) -> Result<usize, AllocError>
    ensures { MatchResult result (λ sum. sum ≡ first + second)
        (λ _. 2 ^ 64 ≤ first + second) }
{
    match first.checked_add(second) {
        Some(sum) => Ok(sum),
        None => Err(AllocError),
    }
}

/// How many tests a load has: that its address is aligned.
fn load_tests(kind: LoadKind) -> usize
    ensures { result ≡ spec.load_tests kind }
{
    match kind {
        LoadKind::Byte | LoadKind::ByteUnsigned => 0,
        LoadKind::Half | LoadKind::HalfUnsigned | LoadKind::Word => 1,
    }
}

/// How many tests a store has before those of the runs of fixed bytes: that its address is aligned.
fn alignments(kind: StoreKind) -> usize
    ensures { result ≡ spec.alignments kind }
{
    match kind {
        StoreKind::Byte => 0,
        StoreKind::Half | StoreKind::Word => 1,
    }
}

/// How many tests an instruction has before it, where there are so many runs of fixed bytes.
fn access_tests(runs: usize, instruction: &Instr) -> Result<usize, AllocError>
    ensures { IfOk result (λ count. count ≡ spec.access_tests runs instruction.now) }
{
    match *instruction {
        Instr::Load { kind, .. } => Ok(load_tests(kind)),
        Instr::Store { kind, .. } => plus(alignments(kind), runs),
        _ => Ok(0),
    }
}

/// What the number of an instruction's nodes depends on beside the instruction.
#[derive(Clone, Copy, Drop)]
pub(crate) struct Counting {
    /// Where the function begins.
    pub entry: u32,
    /// How many bytes it has.
    pub size: u32,
    /// How many runs of fixed bytes the file has.
    pub runs: usize,
}

/// How many nodes an instruction has beside one: its tests, the node in which a branch keeps the
/// index of a table, the landing node after a call, with that the test before a tail call, and the
/// tests of an index after the first one.
fn further_nodes(by: Counting, item: &Item) -> Result<usize, AllocError>
    ensures { (image : elf.Image) → IfOk result (λ count. count
        ≡ spec.further_nodes by (item_of image item.now)) }
{
    match item.flow {
        Flow::Falls => access_tests(by.runs, &item.instruction),
        Flow::Jumps(target) => {
            if leaves_range(by.entry, by.size, target) {
                return Ok(2);
            }
            Ok(0)
        }
        Flow::Calls(target) => Ok(usize::from(target.is_multiple_of(4))),
        Flow::Branches(_) => Ok(usize::from(item.keeps)),
        Flow::Switches(jump) => Ok((jump.count as usize).saturating_sub(1)),
        Flow::Links(_) | Flow::Returns | Flow::Stops => Ok(0),
    }
}

/// The number of the first node after those of an instruction, of which this is the first.
fn after(by: Counting, item: &Item, first: usize) -> Result<usize, AllocError>
    ensures { (image : elf.Image) → IfOk result (λ next. next
        ≡ first + (spec.further_nodes by (item_of image item.now) + 1)) }
{
    let further = attempt!(further_nodes(by, item));
    let own = attempt!(plus(further, 1));
    plus(first, own)
}

/// A number of nodes, if it is at most the maximum.
fn bounded(count: usize, maximum: usize) -> Result<usize, Refusal<GraphFault>>
    ensures within { IfOk result (λ same. (same ≡ count) × (count ≤ maximum)) }
    ensures large { IfErr result (λ error. (error ≡ Fault (Large count)) × (maximum < count)) }
{
    if count > maximum {
        return Err(Refusal::Fault(GraphFault::Large(count)));
    }
    Ok(count)
}

/// How many nodes the graph of some instructions has; the count stops above the maximum.
pub(crate) fn count_nodes(
    by: Counting,
    items: &[Item],
    maximum: usize,
) -> Result<usize, Refusal<GraphFault>>
    ensures count { (image : elf.Image) → IfOk result (λ count. count
        ≡ spec.counted by 1 (map (item_of image) items.now)) }
    ensures within { IfOk result (λ count. count ≤ maximum) }
    ensures large { (image : elf.Image) → IfErr result (spec.IsTooMany by maximum
        (map (item_of image) items.now)) }
{
    let mut count = bounded(1, maximum)?;
    for item in items {
        let next = after(by, item, count)?;
        count = bounded(next, maximum)?;
    }
    Ok(count)
}

/// Numbers the first node of each of some instructions: the landing node at the entry has the
/// number 0, and the nodes of the instructions follow in order.
fn number_nodes(
    firsts: &mut IndexMap<u32, usize>,
    by: Counting,
    items: &[Item],
) -> Result<(), AllocError>
    requires none { firsts.old.entries ≡ [] }
    requires rising { IsStrictlyIncreasing (map (λ item. item.address) items.now) }
    ensures { (image : elf.Image) → OnOk result (firsts.new.entries
        ≡ spec.numbered by 1 (map (item_of image) items.now)) }
{
    let mut next: usize = 1;
    for item in items {
        firsts.insert(item.address, next)?;
        next = after(by, item, next)?;
    }
    Ok(())
}

/// The number of the first node of each of some instructions, by its address.
pub(crate) fn first_nodes(
    alloc: Global,
    by: Counting,
    items: &[Item],
) -> Result<IndexMap<u32, usize>, AllocError>
    requires { IsStrictlyIncreasing (map (λ item. item.address) items.now) }
    ensures { (image : elf.Image) → IfOk result (λ firsts. firsts.entries
        ≡ spec.numbered by 1 (map (item_of image) items.now)) }
{
    let mut firsts = IndexMap::new(alloc);
    attempt!(number_nodes(&mut firsts, by, items));
    Ok(firsts)
}
