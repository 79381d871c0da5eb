//! One function: the entries that it calls, and its first fault.

ghost use Rattle.std.specs.Prelude.{◌≡◌, ◌+◌, ◌<◌, ◌≤◌, ◌^◌, length, All, IfOk, OnOk, IsSome};
ghost use Rattle.std.specs.Prelude.{MatchOption};
ghost use Rattle.elf_read_spec.specs.Image as elf;
ghost use Rattle.elf_read_spec.specs.Image.{size_at};
ghost use Rattle.code_reach_spec.specs.Faults.{rank as rank_of};
ghost use Rattle.code_reach.specs.Flows.{flow_seen, called_by, callee_at as callee_there};
ghost use Rattle.code_reach.specs.Growth.{Grows, FromFirst, IsPlace};
ghost use Rattle.code_reach.specs.Listing.{IsStop};
ghost use Rattle.code_reach.specs.Surveys as spec;
ghost use Rattle.code_reach.specs.Surveys.{CallsFrom, CallsOut, HasFault, AreSound};
ghost use Rattle.code_reach.specs.Surveys.{IsFirstOf};

use crate::faults::{CodeFault, fault_at, is_in_range};
use crate::flows::{Flow, plain_flow_at};
use crate::range::range_fault;
use crate::walk::{add, reached};
use code_reach_spec::CodeKind;
use elf_read::Image;
use indexmap::IndexSet;
use std::alloc::{AllocError, Global};

/// The rank of a kind among those at one address.
fn rank(kind: CodeKind) -> u8
    ensures { result ≡ rank_of kind }
{
    match kind {
        CodeKind::NoFunction => 1,
        CodeKind::Ambiguous => 2,
        CodeKind::Empty => 3,
        CodeKind::Writable => 4,
        CodeKind::Misplaced => 5,
        CodeKind::Undecoded => 6,
        CodeKind::Indirect => 7,
        CodeKind::Leaves => 8,
        CodeKind::Overlap => 9,
    }
}

/// Whether a fault comes before another: its address is lower, or it is the same and the kind is.
fn is_before(fault: CodeFault, other: CodeFault) -> bool
    ensures { result ≡ spec.is_before fault other }
{
    fault.address < other.address
        || fault.address == other.address && rank(fault.kind) < rank(other.kind)
}

/// The first of at most two faults.
pub(crate) fn earlier(first: Option<CodeFault>, second: Option<CodeFault>) -> Option<CodeFault>
    ensures { result ≡ spec.earlier first second }
{
    let Some(fault) = first else {
        return second;
    };
    match second {
        Some(other) if is_before(other, fault) => Some(other),
        _ => Some(fault),
    }
}

/// Where an instruction of this flow calls, in the function of this entry and size: the target of a
/// call, and that of a tail call, which is a jump out of the range.
pub fn callee(entry: u32, size: u32, flow: Flow) -> Option<u32>
    ensures { (image : elf.Image) → result ≡ called_by entry size (flow_seen image flow) }
{
    match flow {
        Flow::Jumps(target) => {
            if is_in_range(entry, size, target) {
                None
            } else {
                Some(target)
            }
        }
        Flow::Calls(target) => Some(target),
        Flow::Falls
        | Flow::Branches(_)
        | Flow::Links(_)
        | Flow::Returns
        | Flow::Switches(_)
        | Flow::Stops => None,
    }
}

/// Where the instruction at an address of a function calls.
pub fn callee_at(image: &Image<'_>, entry: u32, size: u32, address: u32) -> Option<u32>
    requires from { entry ≤ address }
    requires whole { address + 4 ≤ 2 ^ 32 }
    ensures { result ≡ callee_there image.now entry size address }
{
    let flow = plain_flow_at(image, entry, address)?;
    callee(entry, size, flow)
}

/// Adds the entry that the instruction at an address of a function calls, if it calls one.
fn add_call(
    entries: &mut IndexSet<u32>,
    image: &Image<'_>,
    entry: u32,
    size: u32,
    address: u32,
) -> Result<(), AllocError>
    requires from { entry ≤ address }
    requires whole { address + 4 ≤ 2 ^ 32 }
    ensures { OnOk result (Grows
        (CallsFrom image.now entry size address) entries.old.keys entries.new.keys) }
{
    let Some(target) = callee_at(image, entry, size, address) else {
        return Ok(());
    };
    if image.size_at(target).is_some() {
        add(entries, target)?;
    }
    Ok(())
}

/// Adds the entries that the instructions at some addresses of a function call.
fn add_calls(
    entries: &mut IndexSet<u32>,
    image: &Image<'_>,
    entry: u32,
    size: u32,
    addresses: &[u32],
) -> Result<(), AllocError>
    requires { All (IsPlace entry size) addresses.now }
    ensures { OnOk result (Grows (FromFirst (CallsFrom image.now entry size) addresses.now
        (length addresses.now)) entries.old.keys entries.new.keys) }
{
    for address in addresses {
        add_call(entries, image, entry, size, *address)?;
    }
    Ok(())
}

/// The first of some addresses of a function at which an instruction is wrong, where these are the
/// targets that it reaches.
fn first_wrong(
    alloc: Global,
    image: &Image<'_>,
    entry: u32,
    size: u32,
    targets: &IndexSet<u32>,
    addresses: &[u32],
) -> Result<Option<CodeFault>, AllocError>
    requires { All (IsPlace entry size) addresses.now }
    ensures { IfOk result (λ found. MatchOption found
        (AreSound image.now entry size targets.now.keys addresses.now)
        (λ fault. IsStop image.now entry size targets.now.keys addresses.now fault.kind
        fault.address)) }
{
    for address in addresses {
        let found = fault_at(alloc, image, entry, size, targets, *address)?;
        if let Some(kind) = found {
            return Ok(Some(CodeFault {
                kind,
                address: *address,
            }));
        }
    }
    Ok(None)
}

/// Adds the entries that a function calls, and answers its first fault.
pub(crate) fn visit(
    alloc: Global,
    entries: &mut IndexSet<u32>,
    image: &Image<'_>,
    entry: u32,
) -> Result<Option<CodeFault>, AllocError>
    requires { IsSome (size_at image.now entry) }
    ensures calls { OnOk result (Grows
        (CallsOut image.now entry) entries.old.keys entries.new.keys) }
    ensures fault { IfOk result (IsFirstOf (HasFault image.now entry)) }
{
    let size = image.size_at(entry).unwrap();
    if let Some(kind) = range_fault(image, entry, size) {
        return Ok(Some(CodeFault {
            kind,
            address: entry,
        }));
    }
    let mut targets = IndexSet::new(alloc);
    let places = reached(alloc, &mut targets, image, entry, size)?;
    let addresses = places.as_slice();
    add_calls(entries, image, entry, size, addresses)?;
    first_wrong(alloc, image, entry, size, &targets, addresses)
}
