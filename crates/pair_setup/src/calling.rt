//! The instructions of functions: which functions they call, and by how much they lower the stack
//! pointer.

ghost use Rattle.std.specs.Prelude.{◌≡◌, ◌+◌, ◌≤◌, ◌^◌, map, All, Some, IfOk, IfSome};
ghost use Rattle.elf_read_spec.specs.Image.{size_at};
ghost use Rattle.code_reach.specs.Found.{IsCode};
ghost use Rattle.pair_setup.specs.Calling as spec;

use attempt::{Refusal, attempt};
use code_reach::{callee_at, code, lowering};
use elf_read::Image;
use rv_decode::decode;
use std::alloc::{AllocError, Global};

/// What an instruction of a function does to its callers.
#[derive(Clone, Copy, Drop)]
pub(crate) struct Step {
    /// By how much it lowers the stack pointer.
    pub opening: u64,
    /// Where it calls, or ends the function by a jump out of its range; each an entry in a function
    /// without faults.
    pub callee: Option<u32>,
}

/// By how much a word lowers the stack pointer.
fn opening(bits: u32) -> u64
    ensures { result ≡ spec.opening_of_word bits }
{
    match decode(bits) {
        Some(instruction) => lowering(&instruction),
        None => 0,
    }
}

/// What the word at an address of a function does.
fn word_step(image: &Image<'_>, entry: u32, size: u32, word: (u32, u32)) -> Step
    requires { spec.IsWhole entry word }
    ensures { result ≡ spec.step_of image.now entry size word }
{
    let (address, bits) = word;
    Step {
        opening: opening(bits),
        callee: callee_at(image, entry, size, address),
    }
}

/// What some words of a function do.
fn steps(
    alloc: Global,
    image: &Image<'_>,
    entry: u32,
    size: u32,
    words: &[(u32, u32)],
) -> Result<Vec<Step>, AllocError>
    requires { All (spec.IsWhole entry) words.now }
    ensures { IfOk result (λ steps. steps.items ≡ map
        (spec.step_of image.now entry size) words.now) }
{
    let mut steps = Vec::new(alloc);
    for word in words {
        attempt!(steps.push(word_step(image, entry, size, *word)), AllocError);
    }
    Ok(steps)
}

/// The instructions of the function of an entry and a size; none where it has a fault.
fn sound_steps(
    alloc: Global,
    image: &Image<'_>,
    entry: u32,
    size: u32,
) -> Result<Option<Vec<Step>>, AllocError>
    requires { size_at image.now entry ≡ Some size }
    ensures { IfOk result (λ found. IfSome found (λ steps. spec.AreSteps image.now entry
        steps.items)) }
{
    match code(alloc, image, entry) {
        Ok(words) => {
            let found = attempt!(steps(alloc, image, entry, size, words.as_slice()));
            Ok(Some(found))
        }
        Err(Refusal::Fault(_)) => Ok(None),
        Err(Refusal::NoMemory) => Err(AllocError),
    }
}

/// The instructions of the function at an address; none where no function begins there, or it has a
/// fault.
pub(crate) fn steps_at(
    alloc: Global,
    image: &Image<'_>,
    entry: u32,
) -> Result<Option<Vec<Step>>, AllocError>
    ensures { IfOk result (λ found. IfSome found (λ steps. spec.AreSteps image.now entry
        steps.items)) }
{
    match image.size_at(entry) {
        Some(size) => sound_steps(alloc, image, entry, size),
        None => Ok(None),
    }
}
