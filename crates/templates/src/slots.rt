//! How far below the stack pointer at entry words are saved.

ghost use Rattle.std.specs.Prelude.{◌≡◌, ◌++◌, IfOk, OnOk, filter, flat_map, map};
ghost use Rattle.std.specs.Prelude.{◌&&◌, nat_le, ℕ, List, [], ◌∷◌};
ghost use Rattle.templates_spec.specs.Templates as spec;
ghost use Rattle.templates.specs.Viewed.{facts_of};

use crate::facts::Facts;
use attempt::attempt;
use std::alloc::{AllocError, Global};

/// The same numbers.
pub(crate) fn widened(alloc: Global, numbers: &[u32]) -> Result<Vec<u64>, AllocError>
    ensures { IfOk result (λ wide. wide.items ≡ numbers.now) }
{
    let mut wide = Vec::new(alloc);
    for number in numbers {
        attempt!(wide.push(u64::from(*number)), AllocError);
    }
    Ok(wide)
}

// How far below a word is that is saved at this offset at this depth; 0 where it isn't below.
fn distance(depth: u32, offset: i32) -> u64
    ensures { result ≡ spec.distance depth offset }
{
    let depth = u64::from(depth);
    let by = u64::from(offset.unsigned_abs());
    if offset < 0 {
        depth + by
    } else {
        depth.saturating_sub(by)
    }
}

// Adds how far words are that are saved at these offsets at a depth.
fn add_distances(distances: &mut Vec<u64>, depth: u32, offsets: &[i32]) -> Result<(), AllocError>
    ensures { OnOk result (distances.new.items
        ≡ distances.old.items ++ map (spec.distance depth) offsets.now) }
{
    for offset in offsets {
        attempt!(distances.push(distance(depth, *offset)), AllocError);
    }
    Ok(())
}

// The same at all depths.
fn all_distances(alloc: Global, depths: &[u32], offsets: &[i32]) -> Result<Vec<u64>, AllocError>
    ensures { IfOk result (λ all. all.items
        ≡ flat_map (λ depth. map (spec.distance depth) offsets.now) depths.now) }
{
    let mut distances = Vec::new(alloc);
    for depth in depths {
        attempt!(add_distances(&mut distances, *depth, offsets));
    }
    Ok(distances)
}

// Adds a number, unless it is there.
fn add_once(once: &mut Vec<u64>, number: u64) -> Result<(), AllocError>
    ensures { (rest : List ℕ) → OnOk result (once.new.items ++ spec.each_once once.new.items rest
        ≡ once.old.items ++ spec.each_once once.old.items (number ∷ rest)) }
{
    if once.as_slice().contains(&number) {
        return Ok(());
    }
    once.push(number)?;
    Ok(())
}

// Numbers, each where it is first.
fn each_once(alloc: Global, numbers: &[u64]) -> Result<Vec<u64>, AllocError>
    ensures { IfOk result (λ once. once.items ≡ spec.each_once [] numbers.now) }
{
    let mut once = Vec::new(alloc);
    for number in numbers {
        attempt!(add_once(&mut once, *number));
    }
    Ok(once)
}

// Whether a word so far below is whole in a stack.
fn is_within(stack: u32, distance: u64) -> bool
    ensures { result ≡ nat_le 4 distance && nat_le distance stack }
{
    4 <= distance && distance <= u64::from(stack)
}

// Keeps those that are.
fn keep_within(distances: &mut Vec<u64>, stack: u32)
    ensures { distances.new.items
        ≡ filter (λ n. nat_le 4 n && nat_le n stack) distances.old.items }
{
    distances.retain(|distance| is_within(stack, *distance));
}

/// How far below the stack pointer at entry the words are that are saved in the stack.
pub(crate) fn slots(alloc: Global, facts: &Facts) -> Result<Vec<u64>, AllocError>
    ensures { IfOk result (λ found. found.items ≡ spec.slots (facts_of facts.now)) }
{
    let all = attempt!(all_distances(alloc, facts.depths.as_slice(), facts.saved.as_slice()));
    let mut once = attempt!(each_once(alloc, all.as_slice()));
    keep_within(&mut once, facts.stack);
    Ok(once)
}
