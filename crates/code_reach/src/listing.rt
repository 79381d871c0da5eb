//! The words of a function.

ghost use Rattle.std.specs.Prelude.{◌≡◌, ◌+◌, ◌<◌, ◌≤◌, ◌^◌, All, IfOk, IfErr, IsSome, Some, None};
ghost use Rattle.elf_read_spec.specs.Image.{size_at};
ghost use Rattle.code_reach_spec.specs.Code.{word_at};
ghost use Rattle.code_reach.specs.Flows.{fault_among};
ghost use Rattle.code_reach.specs.Growth.{IsPlace};
ghost use Rattle.code_reach.specs.Listing.{AreWords, IsListingError, IsWordError};
ghost use Rattle.code_reach.specs.Found.{IsCode, IsCodeError};

use crate::faults::{CodeFault, fault_at};
use crate::range::range_fault;
use crate::walk::reached;
use attempt::{Refusal, attempt};
use code_reach_spec::CodeKind;
use code_reach_tables::word;
use elf_read::Image;
use indexmap::IndexSet;
use std::alloc::Global;

/// The word at an address of a function, unless the instruction is wrong, where these are the
/// targets that the function reaches.
fn sound_word(
    alloc: Global,
    image: &Image<'_>,
    entry: u32,
    size: u32,
    targets: &IndexSet<u32>,
    address: u32,
) -> Result<u32, Refusal<CodeFault>>
    requires { IsPlace entry size address }
    ensures word { IfOk result (λ found. word_at image.now address ≡ Some found) }
    ensures sound { IfOk result (λ _. fault_among image.now entry size targets.now.keys address
        ≡ None) }
    ensures fault { IfErr result (IsWordError image.now entry size targets.now.keys address) }
{
    let Some(found) = word(image, address) else {
        return Err(Refusal::Fault(CodeFault {
            kind: CodeKind::Undecoded,
            address,
        }));
    };
    let fault = fault_at(alloc, image, entry, size, targets, address)?;
    match fault {
        Some(kind) => Err(Refusal::Fault(CodeFault { kind, address })),
        None => Ok(found),
    }
}

/// The words at some addresses of a function, unless one of their instructions is wrong.
fn words(
    alloc: Global,
    image: &Image<'_>,
    entry: u32,
    size: u32,
    targets: &IndexSet<u32>,
    addresses: &[u32],
) -> Result<Vec<(u32, u32)>, Refusal<CodeFault>>
    requires { All (IsPlace entry size) addresses.now }
    ensures listed { IfOk result (λ words. AreWords image.now entry size targets.now.keys
        addresses.now words.items) }
    ensures fault { IfErr result (λ error. IsListingError image.now entry size targets.now.keys
        addresses.now error) }
{
    let mut words = Vec::new(alloc);
    for address in addresses {
        let found = attempt!(sound_word(alloc, image, entry, size, targets, *address));
        words.push((*address, found))?;
    }
    Ok(words)
}

/// The code of the function at an entry: the address and the word of each instruction that it
/// reaches, ascending. The fault is the first of the function's own, by address and then by kind;
/// other functions, those that it calls too, aren't looked at.
pub fn code(
    alloc: Global,
    image: &Image<'_>,
    entry: u32,
) -> Result<Vec<(u32, u32)>, Refusal<CodeFault>>
    requires { IsSome (size_at image.now entry) }
    ensures found { IfOk result (λ words. IsCode image.now entry words.items) }
    ensures fault { IfErr result (λ error. IsCodeError image.now entry error) }
{
    let size = image.size_at(entry).unwrap();
    if let Some(kind) = range_fault(image, entry, size) {
        return Err(Refusal::Fault(CodeFault {
            kind,
            address: entry,
        }));
    }
    let mut targets = IndexSet::new(alloc);
    let places = reached(alloc, &mut targets, image, entry, size)?;
    words(alloc, image, entry, size, &targets, places.as_slice())
}
