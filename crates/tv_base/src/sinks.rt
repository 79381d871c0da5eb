ghost use Rattle.std.specs.Prelude.{◌≡◌, ◌<◌, ◌≤◌, [], length, IfOk, OnOk, OnErr, IsErrOf};
ghost use Rattle.attempt.specs.declared.refusal.Refusal.TheVariants.{NoMemory};
ghost use Rattle.tv_base.specs.Faults.{HasCause};
ghost use Rattle.tv_base.specs.Writing.{GrowsByFirst};
ghost use Rattle.tv_base.specs.Contents.{sink_state, steady_sink_state};
ghost use Rattle.tv_base.specs.Contents.{sink_held, sink_begun, sink_faults};
ghost use Rattle.tv_base.specs.Contents.{steady_sink_held, steady_sink_begun, steady_faults};
ghost use Rattle.tv_base.specs.Shelf.{unnamed};
ghost use Rattle.tv_base.specs.Plans.{sink_plan, fresh, called, TakesAs};

use crate::mishaps::Mishaps;
use crate::{OutsideFault, Sink};
use attempt::{Refusal, attempt};
use std::alloc::Global;

/// A place to write in memory, of which calls can fail. Contracts see what it holds.
#[derive(Drop)]
pub struct MemSink<'a> {
    text: Vec<u8>,
    mishaps: Mishaps<'a>,
}

impl<'a> MemSink<'a> {
    /// A sink that holds nothing. The calls with the numbers `failing` fail, the first call having
    /// the number 1, and a call takes at most `most` bytes.
    pub fn new(alloc: Global, failing: &'a [u64], most: usize) -> Self
        ensures held { sink_held result ≡ unnamed [] }
        ensures begun { sink_begun result ≡ [] }
        ensures faults { sink_faults result ≡ 0 }
        ensures plan { sink_plan result ≡ fresh failing.now most }
    {
        MemSink {
            text: Vec::new(alloc),
            mishaps: Mishaps::new(failing, most),
        }
    }

    /// What was written.
    pub fn text(&self) -> &[u8]
        ensures { sink_held self.now ≡ unnamed result.now }
    {
        self.text.as_slice()
    }

    /// How many calls failed.
    pub fn faults(&self) -> u64
        ensures { result ≡ sink_faults self.now }
    {
        self.mishaps.faults
    }
}

impl<'a> Sink for MemSink<'a> {
    ghost state = { sink_state };

    fn put(&mut self, bytes: &[u8]) -> Result<usize, Refusal<OutsideFault>>
        ensures planned { TakesAs (sink_plan self.old) (length bytes.now) result }
        ensures counted { sink_plan self.new ≡ called (sink_plan self.old) }
        ensures bound { IfOk result (λ count. count ≤ length bytes.now) }
        ensures progress { IfOk result (λ count. 0 < length bytes.now → 0 < count) }
        ensures grows { GrowsByFirst (sink_held self.old) (sink_begun self.old)
            result bytes.now (sink_held self.new) }
        ensures same_name { sink_begun self.new ≡ sink_begun self.old }
        ensures refused { OnErr result (sink_held self.new ≡ sink_held self.old) }
        ensures cause { HasCause (sink_faults self.old) (sink_faults self.new) result }
        ensures unfailing { OnOk result (sink_faults self.new ≡ sink_faults self.old) }
        ensures no_memory { IsErrOf result NoMemory → sink_faults self.new ≡ sink_faults self.old }
    {
        let count = attempt!(self.mishaps.count_put(bytes.len()));
        self.text.extend_from_slice(&bytes[..count])?;
        Ok(count)
    }
}

/// A place to write in memory, of which no call fails. Contracts see what it holds.
#[derive(Drop)]
pub struct SteadySink {
    text: Vec<u8>,
}

impl SteadySink {
    /// A sink that holds nothing.
    pub fn new(alloc: Global) -> Self
        ensures held { steady_sink_held result ≡ unnamed [] }
        ensures begun { steady_sink_begun result ≡ [] }
    {
        SteadySink {
            text: Vec::new(alloc),
        }
    }

    /// What was written.
    pub fn text(&self) -> &[u8]
        ensures { steady_sink_held self.now ≡ unnamed result.now }
    {
        self.text.as_slice()
    }
}

impl Sink for SteadySink {
    ghost state = { steady_sink_state };

    fn put(&mut self, bytes: &[u8]) -> Result<usize, Refusal<OutsideFault>>
        ensures only_memory { OnErr result (IsErrOf result NoMemory) }
        ensures whole { IfOk result (λ count. count ≡ length bytes.now) }
        ensures bound { IfOk result (λ count. count ≤ length bytes.now) }
        ensures progress { IfOk result (λ count. 0 < length bytes.now → 0 < count) }
        ensures grows { GrowsByFirst (steady_sink_held self.old)
            (steady_sink_begun self.old) result bytes.now (steady_sink_held self.new) }
        ensures same_name { steady_sink_begun self.new ≡ steady_sink_begun self.old }
        ensures refused { OnErr result (steady_sink_held self.new ≡ steady_sink_held self.old) }
        ensures cause { HasCause (steady_faults self.old) (steady_faults self.new) result }
        ensures unfailing { OnOk result (steady_faults self.new ≡ steady_faults self.old) }
        ensures no_memory { IsErrOf result NoMemory → steady_faults self.new
            ≡ steady_faults self.old }
    {
        self.text.extend_from_slice(bytes)?;
        Ok(bytes.len())
    }
}
