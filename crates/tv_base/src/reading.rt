ghost use Rattle.std.specs.Prelude.{◌≡◌, ℕ, ◌+◌, ◌<◌, ◌≤◌, List, ◌++◌, length, take, Option, IfOk};
ghost use Rattle.std.specs.Prelude.{OnOk, OnErr, IsErrOf, vec_len};
ghost use Rattle.attempt.specs.declared.refusal.Refusal.TheVariants.{NoMemory};
ghost use Rattle.tv_base.specs.Faults.{HasCause};
ghost use Rattle.tv_base.specs.Reading.{HandsOverFirst, ZeroAtEnd, IsTaken, IsPartlyTaken};
ghost use Rattle.tv_base.specs.Reading.{with_name};
ghost use Rattle.tv_base.specs.States.{DeskState};

use crate::OutsideFault;
use attempt::Refusal;
use std::alloc::Global;

/// How many bytes one read asks for.
const PIECE: usize = 65_536;

/// Files that are read, one at a time. Before any `begin` nothing is left to read.
pub trait Desk {
    /// What contracts see: the bytes under each name, which never change; what is left of the begun
    /// file; the names of the files that were begun, in order; and how many calls failed, which
    /// stops at 18446744073709551615.
    ghost state: { Self → DeskState };

    /// Begins the file of this name, from its first byte. A name without a file is refused.
    fn begin(&mut self, name: &str) -> Result<(), Refusal<OutsideFault>>
        ensures begins { OnOk result ((state self.new).left ≡ (state self.old).files name.now) }
        ensures opens { OnOk result
            ((state self.new).opened ≡ with_name (state self.old).opened name.now) }
        ensures same_bytes { (state self.new).files ≡ (state self.old).files }
        ensures refused { OnErr result ((state self.new).left ≡ (state self.old).left) }
        ensures refused_name { OnErr result ((state self.new).opened ≡ (state self.old).opened) }
        ensures cause { HasCause (state self.old).faults (state self.new).faults result }
        ensures unfailing { OnOk result ((state self.new).faults ≡ (state self.old).faults) }
        ensures no_memory { IsErrOf result NoMemory → (state self.new).faults
            ≡ (state self.old).faults };

    /// Hands over the next bytes of the begun file, at the front of `buf`, and answers how many;
    /// 0 only where none is left.
    fn read(&mut self, buf: &mut [u8]) -> Result<usize, Refusal<OutsideFault>>
        requires { 0 < length buf.old }
        ensures bound { IfOk result (λ count. count ≤ length buf.old) }
        ensures hands_over { HandsOverFirst (state self.old).left result buf.new
            (state self.new).left }
        ensures end { ZeroAtEnd (state self.old).left result }
        ensures same_bytes { (state self.new).files ≡ (state self.old).files }
        ensures same_names { (state self.new).opened ≡ (state self.old).opened }
        ensures refused { OnErr result ((state self.new).left ≡ (state self.old).left) }
        ensures cause { HasCause (state self.old).faults (state self.new).faults result }
        ensures unfailing { OnOk result ((state self.new).faults ≡ (state self.old).faults) }
        ensures no_memory { IsErrOf result NoMemory → (state self.new).faults
            ≡ (state self.old).faults };
}

/// Reads the next piece of the begun file, at most `buf` long, to the end of `bytes`, and answers
/// how many bytes that were. After a refusal `bytes` is unchanged.
fn read_piece<D: Desk>(
    desk: &mut D,
    buf: &mut [u8],
    bytes: &mut Vec<u8>,
) -> Result<usize, Refusal<OutsideFault>>
    requires { 0 < length buf.old }
    ensures bound { IfOk result (λ count. count ≤ length buf.old) }
    ensures appends { IfOk result (λ count. bytes.new.items
        ≡ bytes.old.items ++ take count buf.new) }
    ensures grows { IfOk result (λ count. vec_len bytes.new ≡ vec_len bytes.old + count) }
    ensures hands_over { HandsOverFirst (D.state desk.old).left result buf.new
        (D.state desk.new).left }
    ensures end { ZeroAtEnd (D.state desk.old).left result }
    ensures part { OnErr result (IsPartlyTaken (length buf.old) (D.state desk.old).left
        (D.state desk.new).left) }
    ensures same_bytes { (D.state desk.new).files ≡ (D.state desk.old).files }
    ensures same_names { (D.state desk.new).opened ≡ (D.state desk.old).opened }
    ensures cause { HasCause (D.state desk.old).faults (D.state desk.new).faults result }
    ensures unfailing { OnOk result ((D.state desk.new).faults ≡ (D.state desk.old).faults) }
    ensures no_memory { IsErrOf result NoMemory → (D.state desk.new).faults
        ≡ (D.state desk.old).faults }
{
    let count = desk.read(buf)?;
    bytes.extend_from_slice(&buf[..count])?;
    Ok(count)
}

/// An empty buffer for the pieces that are read.
fn make_buffer(alloc: Global) -> Result<Vec<u8>, Refusal<OutsideFault>>
    ensures room { IfOk result (λ buf. 0 < vec_len buf) }
    ensures no_memory { OnErr result (IsErrOf result NoMemory) }
{
    Ok(vec![in alloc; 0u8; PIECE]?)
}

/// Reads the begun file until its end, or until `most` bytes are taken. After a refusal some of
/// them, at most `most`, are taken from the desk.
pub fn read_up_to<D: Desk>(
    alloc: Global,
    desk: &mut D,
    most: usize,
) -> Result<Vec<u8>, Refusal<OutsideFault>>
    ensures bound { IfOk result (λ bytes. vec_len bytes ≤ most) }
    ensures taken { IfOk result (λ bytes. IsTaken most (D.state desk.old).left bytes.items
        (D.state desk.new).left) }
    ensures part { OnErr result
        (IsPartlyTaken most (D.state desk.old).left (D.state desk.new).left) }
    ensures same_bytes { (D.state desk.new).files ≡ (D.state desk.old).files }
    ensures same_names { (D.state desk.new).opened ≡ (D.state desk.old).opened }
    ensures cause { HasCause (D.state desk.old).faults (D.state desk.new).faults result }
    ensures unfailing { OnOk result ((D.state desk.new).faults ≡ (D.state desk.old).faults) }
    ensures no_memory { IsErrOf result NoMemory → (D.state desk.new).faults
        ≡ (D.state desk.old).faults }
{
    let mut buf = make_buffer(alloc)?;
    let mut bytes = Vec::new(alloc);
    'pieces: while bytes.len() < most {
        let room = buf.len().min(most - bytes.len());
        let count = read_piece(desk, &mut buf[..room], &mut bytes)?;
        if count == 0 {
            return Ok(bytes);
        }
    }
    Ok(bytes)
}
