ghost use Rattle.std.specs.Prelude.{◌≡◌, ◌+◌, ◌-◌, ◌^◌, ◌≤◌, min, ◌<◌, IsErrOf, IfOk, OnOk, OnErr};
ghost use Rattle.attempt.specs.declared.refusal.Refusal.TheVariants.{Fault};
ghost use Rattle.tv_base.specs.declared.faults.OutsideFault.TheVariants.{Failed};
ghost use Rattle.tv_base.specs.Faults.{HasCause};
ghost use Rattle.tv_base.specs.Plans.{plan_of, fresh, called, GoesAs, TakesAs};

use crate::OutsideFault;
use attempt::{Refusal, attempt};

/// Which calls of an object in memory fail, and how much a call takes.
#[derive(Clone, Copy)]
pub(crate) struct Mishaps<'a> {
    /// The numbers of the calls that fail. The object's first call has the number 1.
    failing: &'a [u64],
    /// The most bytes that a call takes.
    pub(crate) most: usize,
    /// How many calls there were.
    calls: u64,
    /// How many calls failed; it stops at the last value.
    pub(crate) faults: u64,
}

impl<'a> Mishaps<'a> {
    pub(crate) fn new(failing: &'a [u64], most: usize) -> Self
        ensures faults { result.faults ≡ 0 }
        ensures plan { plan_of result ≡ fresh failing.now most }
    {
        Mishaps {
            failing,
            most,
            calls: 0,
            faults: 0,
        }
    }

    /// Raises the count, and answers the refusal.
    pub(crate) fn fail<T>(&mut self) -> Result<T, Refusal<OutsideFault>>
        ensures refusal { IsErrOf result (Fault Failed) }
        ensures count { self.new.faults ≡ min (self.old.faults + 1) (2 ^ 64 - 1) }
        ensures plan { plan_of self.new ≡ plan_of self.old }
        ensures cause { HasCause self.old.faults self.new.faults result }
    {
        self.faults = self.faults.saturating_add(1);
        Err(Refusal::Fault(OutsideFault::Failed))
    }

    /// Counts a call, and refuses it where its number is among those that fail.
    pub(crate) fn count_call(&mut self) -> Result<(), Refusal<OutsideFault>>
        ensures cause { HasCause self.old.faults self.new.faults result }
        ensures fault { OnErr result (IsErrOf result (Fault Failed)) }
        ensures well { OnOk result (self.new.faults ≡ self.old.faults) }
        ensures planned { GoesAs (plan_of self.old) ⊥ result }
        ensures counted { plan_of self.new ≡ called (plan_of self.old) }
    {
        self.calls = self.calls.saturating_add(1);
        if self.failing.contains(&self.calls) {
            return self.fail();
        }
        Ok(())
    }

    /// Counts a call that is to write `size` bytes, and answers how many of them it takes. Where it
    /// would take none of some, it fails.
    pub(crate) fn count_put(&mut self, size: usize) -> Result<usize, Refusal<OutsideFault>>
        ensures bound { IfOk result (λ count. count ≤ size) }
        ensures progress { IfOk result (λ count. 0 < size → 0 < count) }
        ensures cause { HasCause self.old.faults self.new.faults result }
        ensures fault { OnErr result (IsErrOf result (Fault Failed)) }
        ensures well { OnOk result (self.new.faults ≡ self.old.faults) }
        ensures planned { TakesAs (plan_of self.old) size result }
        ensures counted { plan_of self.new ≡ called (plan_of self.old) }
    {
        attempt!(self.count_call());
        let count = size.min(self.most);
        if count == 0 && size > 0 {
            return self.fail();
        }
        Ok(count)
    }
}
