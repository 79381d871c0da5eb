//! The instructions that a function reaches.

ghost use Rattle.std.specs.Prelude.{◌≡◌, [], IfOk, IfErr, IsSome, OnOk};
ghost use Rattle.std.specs.Prelude.{map};
ghost use Rattle.elf_read_spec.specs.Image.{size_at};
ghost use Rattle.code_reach.specs.Found.{IsCode, IsCodeError};
ghost use Rattle.decompile.specs.Items as spec;
ghost use Rattle.decompile.specs.Items.{AreInstructions, Decoded, AreBranches, AreKept};

use attempt::{Refusal, attempt};
use code_reach::{CodeFault, Flow, code, flow_at};
use elf_read::Image;
use indexmap::IndexSet;
use rv_decode::decode;
use rv_instr::Instr;
use std::alloc::{AllocError, Global};

/// An instruction, its address, and where control goes after it.
#[derive(Clone, Copy, Drop)]
pub(crate) struct Item {
    /// Where it is.
    pub address: u32,
    /// What it is.
    pub instruction: Instr,
    /// Where control goes.
    pub flow: Flow,
    /// Whether it is the branch that bounds the index of a table by which the function jumps.
    pub keeps: bool,
}

/// The instructions of a function's words, none of which keeps an index yet.
fn decoded(
    alloc: Global,
    image: &Image<'_>,
    entry: u32,
    words: &[(u32, u32)],
) -> Result<Vec<Item>, AllocError>
    requires { IsCode image.now entry words.now }
    ensures { IfOk result (λ items. Decoded image.now entry words.now items.items) }
{
    let mut items = Vec::new(alloc);
    for (address, word) in words {
        let instruction = decode(*word).unwrap();
        let found = flow_at(alloc, image, entry, *address)?;
        let flow = found.unwrap();
        items.push(Item {
            address: *address,
            instruction,
            flow,
            keeps: false,
        })?;
    }
    Ok(items)
}

/// The branch that bounds the index of a jump by a table.
fn branch_by(flow: Flow) -> Option<u32>
    ensures { result ≡ spec.branch_by flow }
{
    match flow {
        Flow::Switches(jump) => Some(jump.branch),
        Flow::Falls
        | Flow::Branches(_)
        | Flow::Jumps(_)
        | Flow::Calls(_)
        | Flow::Links(_)
        | Flow::Returns
        | Flow::Stops => None,
    }
}

/// Adds the branch that bounds the index of a jump by a table.
fn add_branch(branches: &mut IndexSet<u32>, flow: Flow) -> Result<(), AllocError>
    ensures { OnOk result (branches.new.keys
        ≡ spec.with_branch (spec.branch_by flow) branches.old.keys) }
{
    match branch_by(flow) {
        Some(branch) => {
            branches.insert(branch)?;
            Ok(())
        }
        None => Ok(()),
    }
}

/// Adds the branches that bound the indices of jumps by tables.
fn add_branches(branches: &mut IndexSet<u32>, items: &[Item]) -> Result<(), AllocError>
    requires { branches.old.keys ≡ [] }
    ensures { OnOk result (AreBranches items.now branches.new.keys) }
{
    for item in items {
        add_branch(branches, item.flow)?;
    }
    Ok(())
}

/// The instructions, each with whether it is one of the branches.
fn keeping(alloc: Global, branches: &IndexSet<u32>, items: &[Item]) -> Result<Vec<Item>, AllocError>
    ensures { IfOk result (λ kept. kept.items ≡ map (spec.keeping branches.now.keys) items.now) }
{
    let mut kept = Vec::new(alloc);
    for item in items {
        let keeps = branches.contains(&item.address);
        kept.push(Item {
            address: item.address,
            instruction: item.instruction,
            flow: item.flow,
            keeps,
        })?;
    }
    Ok(kept)
}

/// The instructions, each with whether it bounds the index of a jump of these.
fn kept(alloc: Global, items: &[Item]) -> Result<Vec<Item>, AllocError>
    ensures { IfOk result (λ kept. AreKept items.now kept.items) }
{
    let mut branches = IndexSet::new(alloc);
    attempt!(add_branches(&mut branches, items));
    keeping(alloc, &branches, items)
}

/// The instructions that the function at an entry reaches, by address, or its first fault.
pub(crate) fn instructions(
    alloc: Global,
    image: &Image<'_>,
    entry: u32,
) -> Result<Vec<Item>, Refusal<CodeFault>>
    requires { IsSome (size_at image.now entry) }
    ensures found { IfOk result (λ items. AreInstructions image.now entry items.items) }
    ensures fault { IfErr result (λ error. IsCodeError image.now entry error) }
{
    let words = code(alloc, image, entry)?;
    let items = decoded(alloc, image, entry, words.as_slice())?;
    let found = kept(alloc, items.as_slice())?;
    Ok(found)
}
