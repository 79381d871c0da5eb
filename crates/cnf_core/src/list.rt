ghost use Rattle.std.specs.Prelude.{◌≡◌, ◌==◌, ◌+◌, ◌<◌, ◌≤◌, ◌++◌, ◌∷◌, [], length, slice_get};
ghost use Rattle.std.specs.Prelude.{slice_range, Some, IsOk, OnOk, OnErr};
ghost use Rattle.std.specs.Option.{option_map};
ghost use Rattle.cnf_core.specs.Laid.{start_of};

use crate::Literal;
use std::alloc::{AllocError, Global};
use std::marker::Model;

/// Clauses one after the other. Their literals are in one list, and a second list has the end of
/// each clause in it.
#[derive(Drop)]
pub struct ClauseList {
    literals: Vec<Literal>,
    ends: Vec<usize>,
}

impl Model for ClauseList {
    ghost use Rattle.std.specs.Prelude.{◌-◌, length, min, vec_capacity, vec_len};
    ghost use Rattle.cnf_core.specs.Listed.{Listed};

    ghost Value = { Listed };

    ghost use Rattle.cnf_core.specs.Laid.{clauses_in, AreEnds};

    ghost view = { λ c. record {
      clauses = clauses_in c.literals.items c.ends.items;
      spare = min (vec_capacity c.literals - vec_len c.literals)
          (vec_capacity c.ends - vec_len c.ends);
    } };

    ghost invariant = { λ c. AreEnds 0 (length c.literals.items) c.ends.items };
}

impl ClauseList {
    /// No clauses.
    pub fn new(alloc: Global) -> Self
        ensures { result.clauses ≡ [] }
    {
        ClauseList {
            literals: Vec::new(alloc),
            ends: Vec::new(alloc),
        }
    }

    /// How many clauses there are.
    pub fn len(&self) -> usize
        ensures { result ≡ length self.now.clauses }
    {
        self.ends.len()
    }

    /// Whether there are no clauses.
    pub fn is_empty(&self) -> bool
        ensures { result ≡ (length self.now.clauses == 0) }
    {
        self.ends.is_empty()
    }

    /// The clause of an index that is there, counted from 0.
    pub fn clause(&self, index: usize) -> &[Literal]
        requires { index < length self.now.clauses }
        ensures { slice_get self.now.clauses index ≡ Some result.now }
    {
        let (start, end) = bounds_of(self.ends.as_slice(), index);
        part_of(self.literals.as_slice(), start, end)
    }

    /// The clause of an index, counted from 0.
    pub fn get(&self, index: usize) -> Option<&[Literal]>
        ensures { option_map (λ clause. clause.now) result ≡ slice_get self.now.clauses index }
    {
        if index < self.len() {
            Some(self.clause(index))
        } else {
            None
        }
    }

    /// Makes room: clauses that have with one for each so many literals are then added without
    /// taking memory.
    pub fn reserve(&mut self, room: usize) -> Result<(), AllocError>
        ensures room { OnOk result (room ≤ self.new.spare) }
        ensures kept { self.old.spare ≤ self.new.spare }
        ensures same { self.new.clauses ≡ self.old.clauses }
    {
        self.literals.reserve(room)?;
        self.ends.reserve(room)?;
        Ok(())
    }

    /// Adds a clause after the others. After a refusal the clauses are as before, and no room is
    /// lost.
    pub fn push(&mut self, clause: &[Literal]) -> Result<(), AllocError>
        ensures added { OnOk result (self.new.clauses ≡ self.old.clauses ++ clause.now ∷ []) }
        ensures refused { OnErr result (self.new.clauses ≡ self.old.clauses) }
        ensures fits { length clause.now + 1 ≤ self.old.spare → IsOk result }
        ensures spare { OnOk result (self.old.spare ≤ self.new.spare + (length clause.now + 1)) }
        ensures kept { OnErr result (self.old.spare ≤ self.new.spare) }
    {
        self.ends.reserve(1)?;
        self.literals.extend_from_slice(clause)?;
        self.ends.push(self.literals.len())?;
        Ok(())
    }
}

/// Where the clause of an index begins and ends, by the ends of all clauses.
fn bounds_of(ends: &[usize], index: usize) -> (usize, usize)
    requires { index < length ends.now }
    ensures start { result.0 ≡ start_of 0 ends.now index }
    ensures end { slice_get ends.now index ≡ Some result.1 }
{
    let end = ends[index];
    if index == 0 {
        return (0, end);
    }
    (ends[index - 1], end)
}

/// The literals from one offset up to another.
fn part_of(literals: &[Literal], start: usize, end: usize) -> &[Literal]
    requires rising { start ≤ end }
    requires inside { end ≤ length literals.now }
    ensures { result.now ≡ slice_range literals.now start end }
{
    &literals[start..end]
}
