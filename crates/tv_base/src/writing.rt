ghost use Rattle.std.specs.Prelude.{◌≡◌, ℕ, ◌<◌, ◌≤◌, List, length, Option, IfOk, OnOk};
ghost use Rattle.std.specs.Prelude.{OnErr, IsErrOf};
ghost use Rattle.attempt.specs.declared.refusal.Refusal.TheVariants.{NoMemory};
ghost use Rattle.tv_base.specs.Faults.{HasCause};
ghost use Rattle.tv_base.specs.States.{SinkState};
ghost use Rattle.tv_base.specs.Writing.{Grows, GrowsByFirst, GrowsPartly, IsEmptied};

use crate::OutsideFault;
use attempt::Refusal;

/// A place to write.
pub trait Sink {
    /// What contracts see: the bytes held under each name; the name begun last, to which writes go,
    /// the empty one before any `begin`, and for ever in a sink that is no store; and how many
    /// calls failed, which stops at 18446744073709551615.
    ghost state: { Self → SinkState };

    /// Adds the first bytes of `bytes` at the end of what is held, and answers how many; at least
    /// one, unless `bytes` is empty.
    fn put(&mut self, bytes: &[u8]) -> Result<usize, Refusal<OutsideFault>>
        ensures bound { IfOk result (λ count. count ≤ length bytes.now) }
        ensures progress { IfOk result (λ count. 0 < length bytes.now → 0 < count) }
        ensures grows { GrowsByFirst (state self.old).held (state self.old).begun result bytes.now
            (state self.new).held }
        ensures same_name { (state self.new).begun ≡ (state self.old).begun }
        ensures refused { OnErr result ((state self.new).held ≡ (state self.old).held) }
        ensures cause { HasCause (state self.old).faults (state self.new).faults result }
        ensures unfailing { OnOk result ((state self.new).faults ≡ (state self.old).faults) }
        ensures no_memory { IsErrOf result NoMemory → (state self.new).faults
            ≡ (state self.old).faults };
}

/// Files that are written, one at a time.
pub trait Store: Sink {
    /// Begins the file of this name, which then holds nothing.
    fn begin(&mut self, name: &str) -> Result<(), Refusal<OutsideFault>>
        ensures empties { OnOk result (IsEmptied (Self.state self.old).held name.now
            (Self.state self.new).held) }
        ensures name { OnOk result ((Self.state self.new).begun ≡ name.now) }
        ensures refused { OnErr result ((Self.state self.new).held ≡ (Self.state self.old).held) }
        ensures refused_name { OnErr result
            ((Self.state self.new).begun ≡ (Self.state self.old).begun) }
        ensures cause { HasCause (Self.state self.old).faults (Self.state self.new).faults result }
        ensures unfailing { OnOk result
            ((Self.state self.new).faults ≡ (Self.state self.old).faults) }
        ensures no_memory { IsErrOf result NoMemory → (Self.state self.new).faults
            ≡ (Self.state self.old).faults };
}

/// Writes all of `bytes`, in as many calls as it takes. After a refusal a proper prefix of
/// them is written.
pub fn write_all<S: Sink>(sink: &mut S, bytes: &[u8]) -> Result<(), Refusal<OutsideFault>>
    ensures grows { OnOk result (Grows (S.state sink.old).held (S.state sink.old).begun bytes.now
        (S.state sink.new).held) }
    ensures part { OnErr result
        (GrowsPartly (S.state sink.old).held (S.state sink.old).begun bytes.now
        (S.state sink.new).held) }
    ensures same_name { (S.state sink.new).begun ≡ (S.state sink.old).begun }
    ensures cause { HasCause (S.state sink.old).faults (S.state sink.new).faults result }
    ensures unfailing { OnOk result ((S.state sink.new).faults ≡ (S.state sink.old).faults) }
    ensures no_memory { IsErrOf result NoMemory → (S.state sink.new).faults
        ≡ (S.state sink.old).faults }
{
    let mut at = 0;
    'pieces: while at < bytes.len() {
        at += sink.put(&bytes[at..])?;
    }
    Ok(())
}
