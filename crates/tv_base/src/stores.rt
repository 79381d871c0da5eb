ghost use Rattle.std.specs.Prelude.{◌≡◌, ℕ, ◌<◌, ◌≤◌, List, [], length, Some, IfOk, OnOk, OnErr};
ghost use Rattle.std.specs.Prelude.{IsErrOf};
ghost use Rattle.attempt.specs.declared.refusal.Refusal.TheVariants.{NoMemory};
ghost use Rattle.tv_base.specs.Faults.{HasCause};
ghost use Rattle.tv_base.specs.Writing.{GrowsByFirst, IsEmptied};
ghost use Rattle.tv_base.specs.Contents.{store_state, steady_store_state};
ghost use Rattle.tv_base.specs.Contents.{store_held, store_begun, store_faults};
ghost use Rattle.tv_base.specs.Contents.{steady_store_held, steady_store_begun, steady_faults};
ghost use Rattle.tv_base.specs.Plans.{store_plan, fresh, called, GoesAs, TakesAs};

use crate::mishaps::Mishaps;
use crate::shelf::Shelf;
use crate::{OutsideFault, Sink, Store};
use attempt::{Refusal, attempt};
use std::alloc::Global;

/// Files in memory that are written, of which calls can fail. Contracts see what it
/// holds.
#[derive(Drop)]
pub struct MemStore<'a> {
    shelf: Shelf,
    mishaps: Mishaps<'a>,
}

impl<'a> MemStore<'a> {
    /// A store that holds nothing. The calls with the numbers `failing` fail, the first call having
    /// the number 1, and a `put` takes at most `most` bytes.
    pub fn new(alloc: Global, failing: &'a [u64], most: usize) -> Self
        ensures held { (name : List ℕ) → store_held result name ≡ Some [] }
        ensures begun { store_begun result ≡ [] }
        ensures faults { store_faults result ≡ 0 }
        ensures plan { store_plan result ≡ fresh failing.now most }
    {
        MemStore {
            shelf: Shelf::new(alloc),
            mishaps: Mishaps::new(failing, most),
        }
    }

    /// The name begun last.
    pub fn begun(&self) -> &str
        ensures { result.now ≡ store_begun self.now }
    {
        self.shelf.last.name.as_str()
    }

    /// What was written under the name begun last.
    pub fn text(&self) -> &[u8]
        ensures { store_held self.now (store_begun self.now) ≡ Some result.now }
    {
        self.shelf.last.text.as_slice()
    }

    /// How many calls failed.
    pub fn faults(&self) -> u64
        ensures { result ≡ store_faults self.now }
    {
        self.mishaps.faults
    }
}

impl<'a> Sink for MemStore<'a> {
    ghost state = { store_state };

    fn put(&mut self, bytes: &[u8]) -> Result<usize, Refusal<OutsideFault>>
        ensures planned { TakesAs (store_plan self.old) (length bytes.now) result }
        ensures counted { store_plan self.new ≡ called (store_plan self.old) }
        ensures bound { IfOk result (λ count. count ≤ length bytes.now) }
        ensures progress { IfOk result (λ count. 0 < length bytes.now → 0 < count) }
        ensures grows { GrowsByFirst (store_held self.old) (store_begun self.old)
            result bytes.now (store_held self.new) }
        ensures same_name { store_begun self.new ≡ store_begun self.old }
        ensures refused { OnErr result (store_held self.new ≡ store_held self.old) }
        ensures cause { HasCause (store_faults self.old) (store_faults self.new) result }
        ensures unfailing { OnOk result (store_faults self.new ≡ store_faults self.old) }
        ensures no_memory { IsErrOf result NoMemory → store_faults self.new
            ≡ store_faults self.old }
    {
        let count = attempt!(self.mishaps.count_put(bytes.len()));
        self.shelf.add(&bytes[..count])?;
        Ok(count)
    }
}

impl<'a> Store for MemStore<'a> {
    fn begin(&mut self, name: &str) -> Result<(), Refusal<OutsideFault>>
        ensures planned { GoesAs (store_plan self.old) ⊥ result }
        ensures counted { store_plan self.new ≡ called (store_plan self.old) }
        ensures empties { OnOk result (IsEmptied (store_held self.old) name.now
            (store_held self.new)) }
        ensures name { OnOk result (store_begun self.new ≡ name.now) }
        ensures refused { OnErr result (store_held self.new ≡ store_held self.old) }
        ensures refused_name { OnErr result (store_begun self.new ≡ store_begun self.old) }
        ensures cause { HasCause (store_faults self.old) (store_faults self.new) result }
        ensures unfailing { OnOk result (store_faults self.new ≡ store_faults self.old) }
        ensures no_memory { IsErrOf result NoMemory → store_faults self.new
            ≡ store_faults self.old }
    {
        self.mishaps.count_call()?;
        self.shelf.begin(name)?;
        Ok(())
    }
}

/// Files in memory that are written, of which no call fails. Contracts see what it
/// holds.
#[derive(Drop)]
pub struct SteadyStore {
    shelf: Shelf,
}

impl SteadyStore {
    /// A store that holds nothing.
    pub fn new(alloc: Global) -> Self
        ensures held { (name : List ℕ) → steady_store_held result name ≡ Some [] }
        ensures begun { steady_store_begun result ≡ [] }
    {
        SteadyStore {
            shelf: Shelf::new(alloc),
        }
    }

    /// The name begun last.
    pub fn begun(&self) -> &str
        ensures { result.now ≡ steady_store_begun self.now }
    {
        self.shelf.last.name.as_str()
    }

    /// What was written under the name begun last.
    pub fn text(&self) -> &[u8]
        ensures { steady_store_held self.now (steady_store_begun self.now) ≡ Some result.now }
    {
        self.shelf.last.text.as_slice()
    }
}

impl Sink for SteadyStore {
    ghost state = { steady_store_state };

    fn put(&mut self, bytes: &[u8]) -> Result<usize, Refusal<OutsideFault>>
        ensures only_memory { OnErr result (IsErrOf result NoMemory) }
        ensures whole { IfOk result (λ count. count ≡ length bytes.now) }
        ensures bound { IfOk result (λ count. count ≤ length bytes.now) }
        ensures progress { IfOk result (λ count. 0 < length bytes.now → 0 < count) }
        ensures grows { GrowsByFirst (steady_store_held self.old)
            (steady_store_begun self.old) result bytes.now (steady_store_held self.new) }
        ensures same_name { steady_store_begun self.new ≡ steady_store_begun self.old }
        ensures refused { OnErr result (steady_store_held self.new ≡ steady_store_held self.old) }
        ensures cause { HasCause (steady_faults self.old) (steady_faults self.new) result }
        ensures unfailing { OnOk result (steady_faults self.new ≡ steady_faults self.old) }
        ensures no_memory { IsErrOf result NoMemory → steady_faults self.new
            ≡ steady_faults self.old }
    {
        self.shelf.add(bytes)?;
        Ok(bytes.len())
    }
}

impl Store for SteadyStore {
    fn begin(&mut self, name: &str) -> Result<(), Refusal<OutsideFault>>
        ensures only_memory { OnErr result (IsErrOf result NoMemory) }
        ensures empties { OnOk result (IsEmptied (steady_store_held self.old) name.now
            (steady_store_held self.new)) }
        ensures name { OnOk result (steady_store_begun self.new ≡ name.now) }
        ensures refused { OnErr result (steady_store_held self.new ≡ steady_store_held self.old) }
        ensures refused_name { OnErr result (steady_store_begun self.new
            ≡ steady_store_begun self.old) }
        ensures cause { HasCause (steady_faults self.old) (steady_faults self.new) result }
        ensures unfailing { OnOk result (steady_faults self.new ≡ steady_faults self.old) }
        ensures no_memory { IsErrOf result NoMemory → steady_faults self.new
            ≡ steady_faults self.old }
    {
        self.shelf.begin(name)?;
        Ok(())
    }
}
