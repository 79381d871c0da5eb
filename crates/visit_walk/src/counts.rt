//! Counts of arrivals at marked nodes, each vector of counts kept once.

ghost use Rattle.std.specs.Prelude.{◌≡◌, ◌+◌, ◌^◌, ◌<◌, ◌≤◌, ◌==◌, length, IfOk, MatchResult, OnOk};
ghost use Rattle.std.specs.Prelude.{suc, [], drop, replicate, if◌then◌else◌};
ghost use Rattle.std.specs.List.{list_any};
ghost use Rattle.graph_core_spec.specs.declared.Next.TheVariants as next;
ghost use Rattle.visit_walk_spec.specs.DepthFirst.{AreDistinct};
ghost use Rattle.visit_walk_spec.specs.Visits as spec;
ghost use Rattle.visit_walk.specs.Tables.{lists_of, vector_at, Extends, Holds};

use attempt::attempt;
use graph_core_spec::{Mark, Next};
use indexmap::IndexSet;
use std::alloc::{AllocError, Global};

/// Whether an arrival at a node, after which a mark has this count, is the last that it counts.
fn is_full(mark: &Mark, count: usize, node: usize) -> bool
    ensures { result ≡ spec.is_full (next.At node) mark.now count }
{
    mark.node == node && mark.count <= count
}

/// Whether an arrival at a node is the last that a mark counts.
pub(crate) fn is_last(marks: &[Mark], counts: &[usize], node: usize) -> bool
    ensures { result ≡ spec.is_last (next.At node) marks.now counts.now }
{
    for i in 0..marks.len() {
        if i >= counts.len() {
            return false;
        }
        if is_full(&marks[i], counts[i], node) {
            return true;
        }
    }
    false
}

/// The same of any place: at a return or a failure there is no mark.
pub(crate) fn is_last_at(place: Next, marks: &[Mark], counts: &[usize]) -> bool
    ensures { result ≡ spec.is_last place marks.now counts.now }
{
    match place {
        Next::At(node) => is_last(marks, counts, node),
        Next::Ret | Next::Err => false,
    }
}

/// The counts after the first so many.
pub(crate) fn counts_after(counts: &[usize], count: usize) -> &[usize]
    ensures { result.now ≡ drop count counts.now }
{
    if count > counts.len() {
        return &counts[counts.len()..];
    }
    &counts[count..]
}

/// So many zeros.
pub(crate) fn zeros(alloc: Global, count: usize) -> Result<Vec<usize>, AllocError>
    ensures { IfOk result (λ zeros. zeros.items ≡ replicate count 0) }
{
    let mut zeros = Vec::new(alloc);
    for _ in 0..count {
        zeros.push(0)?;
    }
    Ok(zeros)
}

/// Whether a node is that of a mark.
pub(crate) fn is_marked(marks: &[Mark], node: usize) -> bool
    ensures { result ≡ list_any (λ m. m.node == node) marks.now }
{
    marks.iter().any(|mark| mark.node == node)
}

/// The count of a mark after one more arrival at a node.
fn next_count(mark: &Mark, count: usize, node: usize) -> Result<usize, AllocError>
    ensures { MatchResult result (λ next. next
        ≡ (if mark.now.node == node then suc count else count)) (λ _. 2 ^ 64 ≤ count + 1) }
{
    if mark.node != node {
        return Ok(count);
    }
    match count.checked_add(1) {
        Some(next) => Ok(next),
        None => Err(AllocError),
    }
}

/// Adds the counts after one more arrival at a node.
fn add_counts(
    new: &mut Vec<usize>,
    marks: &[Mark],
    counts: &[usize],
    node: usize,
) -> Result<(), AllocError>
    requires { new.old.items ≡ [] }
    ensures { OnOk result (new.new.items ≡ spec.counted node marks.now counts.now) }
{
    for i in 0..marks.len() {
        if i >= counts.len() {
            return Ok(());
        }
        let next = next_count(&marks[i], counts[i], node)?;
        new.push(next)?;
    }
    Ok(())
}

/// The counts after one more arrival at a node.
fn counted(
    alloc: Global,
    marks: &[Mark],
    counts: &[usize],
    node: usize,
) -> Result<Vec<usize>, AllocError>
    ensures { IfOk result (λ new. new.items ≡ spec.counted node marks.now counts.now) }
{
    let mut new = Vec::new(alloc);
    attempt!(add_counts(&mut new, marks, counts, node));
    Ok(new)
}

/// The index of a vector of counts, which is added where it isn't there.
pub(crate) fn intern(
    vectors: &mut IndexSet<Vec<usize>>,
    counts: Vec<usize>,
) -> Result<usize, AllocError>
    ensures index { IfOk result (λ i. Holds (lists_of vectors.new.keys) i counts.items) }
    ensures extends { OnOk result (Extends (lists_of vectors.old.keys)
        (lists_of vectors.new.keys)) }
    ensures distinct { OnOk result (AreDistinct (lists_of vectors.new.keys)) }
{
    let (index, _) = vectors.insert_full(counts)?;
    Ok(index)
}

/// The index of the counts after one more arrival at a node, given that of the counts before.
pub(crate) fn count(
    alloc: Global,
    marks: &[Mark],
    vectors: &mut IndexSet<Vec<usize>>,
    counts: usize,
    node: usize,
) -> Result<usize, AllocError>
    requires { counts < length (lists_of vectors.old.keys) }
    ensures index { IfOk result (λ i. Holds (lists_of vectors.new.keys) i
        (spec.counted node marks.now (vector_at (lists_of vectors.old.keys) counts))) }
    ensures extends { OnOk result (Extends (lists_of vectors.old.keys)
        (lists_of vectors.new.keys)) }
    ensures distinct { OnOk result (AreDistinct (lists_of vectors.new.keys)) }
{
    let new = attempt!(counted(alloc, marks, vectors[counts].as_slice(), node));
    intern(vectors, new)
}
