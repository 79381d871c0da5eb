//! A table of the visits of a walk, each once, and what follows each.

ghost use Rattle.std.specs.Prelude.{◌≡◌, ◌<◌, [], length, IfOk, OnOk};
ghost use Rattle.visit_walk_spec.specs.Shape as shapes;
ghost use Rattle.visit_walk_spec.specs.Visits.{arrival_of, edges_of, first_of, followed};
ghost use Rattle.visit_walk.specs.Tables as tables;
ghost use Rattle.visit_walk.specs.Tables.{vectors_of, vector_at, visit_at};
ghost use Rattle.visit_walk.specs.Tables.{IsTable, IsKeyAdded, IsKeyAfter, IsArrived, AreFollowed};
ghost use Rattle.visit_walk.specs.Tables.{IsExplored, IsEmpty, IsBegun, lists_of};
ghost use Rattle.visit_walk_spec.specs.DepthFirst.{AreDistinct};

use crate::counts::{count, intern, is_last, zeros};
use crate::depth_first::Targets;
use attempt::attempt;
use graph_core_spec::{Mark, Next};
use indexmap::IndexSet;
use std::alloc::{AllocError, Global};
use visit_walk_spec::Successors;

/// A visit, whose counts are given by their index.
#[derive(Clone, Copy, PartialEq, Eq, Hash)]
pub(crate) enum Key {
    /// At a node, with these counts.
    Node(usize, usize),
    /// At a return.
    Return(usize),
    /// At a failure.
    Error(usize),
}

/// The index of a visit's counts.
pub(crate) fn counts_of(key: Key) -> usize
    ensures { result ≡ tables.counts_of key }
{
    match key {
        Key::Node(_, counts) | Key::Return(counts) | Key::Error(counts) => counts,
    }
}

/// The place of a visit.
pub(crate) fn place_of(key: Key) -> Next
    ensures { result ≡ tables.place_of key }
{
    match key {
        Key::Node(node, _) => Next::At(node),
        Key::Return(_) => Next::Ret,
        Key::Error(_) => Next::Err,
    }
}

/// Vectors of counts, and visits; each once.
#[derive(Drop)]
pub(crate) struct Table {
    pub(crate) vectors: IndexSet<Vec<usize>>,
    pub(crate) keys: IndexSet<Key>,
}

/// Where a run continues after a node.
pub(crate) fn successors_at(shape: &[Successors], node: usize) -> Successors
    ensures { result ≡ shapes.successors_at shape.now node }
{
    shape
        .get(node)
        .copied()
        .unwrap_or(Successors::One(Next::Err))
}

/// The index of a visit, which is added where it isn't there.
fn add(keys: &mut IndexSet<Key>, key: Key) -> Result<usize, AllocError>
    ensures { IfOk result (IsKeyAdded keys.old.keys keys.new.keys key) }
{
    let (index, _) = keys.insert_full(key)?;
    Ok(index)
}

/// The visit after an edge to a place, from one whose counts are at this index.
fn key_after(
    alloc: Global,
    marks: &[Mark],
    vectors: &mut IndexSet<Vec<usize>>,
    counts: usize,
    to: Next,
) -> Result<Key, AllocError>
    requires distinct { AreDistinct (lists_of vectors.old.keys) }
    requires there { counts < length vectors.old.keys }
    ensures { IfOk result (IsKeyAfter marks.now (lists_of vectors.old.keys)
        (lists_of vectors.new.keys) counts to) }
{
    match to {
        Next::At(node) => {
            let counts = attempt!(count(alloc, marks, vectors, counts, node));
            Ok(Key::Node(node, counts))
        }
        Next::Ret => Ok(Key::Return(counts)),
        Next::Err => Ok(Key::Error(counts)),
    }
}

/// The index of that visit, which is added where it isn't there.
fn arrive(
    alloc: Global,
    marks: &[Mark],
    table: &mut Table,
    counts: usize,
    to: Next,
) -> Result<usize, AllocError>
    requires table { IsTable table.old }
    requires there { counts < length (vectors_of table.old) }
    ensures { IfOk result (IsArrived table.old table.new
        (arrival_of marks.now (vector_at (vectors_of table.old) counts) to)) }
{
    let key = key_after(alloc, marks, &mut table.vectors, counts, to)?;
    let index = add(&mut table.keys, key)?;
    Ok(index)
}

/// What follows a visit, by where the run continues; what isn't there is added.
fn add_successors(
    alloc: Global,
    marks: &[Mark],
    table: &mut Table,
    index: usize,
    counts: usize,
    successors: Successors,
) -> Result<Targets, AllocError>
    requires table { IsTable table.old }
    requires there { counts < length (vectors_of table.old) }
    requires within { index < length table.old.keys.keys }
    requires counts { (visit_at table.old index).counts ≡ vector_at (vectors_of table.old) counts }
    ensures { IfOk result (AreFollowed table.old table.new
        (followed marks.now (visit_at table.old index) successors)) }
{
    match successors {
        Successors::One(to) => {
            let target = arrive(alloc, marks, table, counts, to)?;
            Ok(Targets::One(target))
        }
        Successors::Two(on_true, on_false) => {
            let first = arrive(alloc, marks, table, counts, on_true)?;
            let second = arrive(alloc, marks, table, counts, on_false)?;
            Ok(Targets::Two(first, second))
        }
        Successors::Callee => Ok(Targets::One(index)),
        Successors::Nothing => Ok(Targets::Zero),
    }
}

/// What follows the visit at an index; what isn't there is added.
fn follow(
    alloc: Global,
    shape: &[Successors],
    marks: &[Mark],
    table: &mut Table,
    index: usize,
) -> Result<Targets, AllocError>
    requires table { IsTable table.old }
    requires within { index < length table.old.keys.keys }
    ensures { IfOk result (AreFollowed table.old table.new
        (edges_of shape.now marks.now (visit_at table.old index))) }
{
    match table.keys[index] {
        Key::Node(node, counts) => {
            if is_last(marks, table.vectors[counts].as_slice(), node) {
                return Ok(Targets::Zero);
            }
            let successors = successors_at(shape, node);
            let targets = add_successors(alloc, marks, table, index, counts, successors)?;
            Ok(targets)
        }
        Key::Return(_) | Key::Error(_) => Ok(Targets::Zero),
    }
}

/// Adds the first visit to an empty table.
fn begin(alloc: Global, marks: &[Mark], table: &mut Table, start: usize) -> Result<(), AllocError>
    requires { IsEmpty table.old }
    ensures { OnOk result (IsBegun marks.now start table.new) }
{
    let zeros = zeros(alloc, marks.len())?;
    let counts = intern(&mut table.vectors, zeros)?;
    table.keys.insert(Key::Node(start, counts))?;
    Ok(())
}

/// Adds the visits of a walk to an empty table, and what follows each to the targets, until all are
/// there or they are more than the maximum; answers whether all are there.
pub(crate) fn explore(
    alloc: Global,
    shape: &[Successors],
    marks: &[Mark],
    start: usize,
    maximum: usize,
    table: &mut Table,
    targets: &mut Vec<Targets>,
) -> Result<bool, AllocError>
    requires table { IsEmpty table.old }
    requires targets { targets.old.items ≡ [] }
    ensures { IfOk result (IsExplored shape.now marks.now start maximum table.new
        targets.new.items) }
{
    begin(alloc, marks, table, start)?;
    for i in 0..maximum {
        if i == table.keys.len() {
            return Ok(true);
        }
        let found = follow(alloc, shape, marks, table, i)?;
        targets.push(found)?;
        if table.keys.len() > maximum {
            return Ok(false);
        }
    }
    Ok(table.keys.len() == maximum)
}
