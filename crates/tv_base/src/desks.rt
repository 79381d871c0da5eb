ghost use Rattle.std.specs.Prelude.{◌≡◌, ◌<◌, ◌≤◌, [], length, map, min, string_bytes, Some, None};
ghost use Rattle.std.specs.Prelude.{IfSome, IsOk, IfOk, OnOk, OnErr, IsErrOf};
ghost use Rattle.attempt.specs.declared.refusal.Refusal.TheVariants.{NoMemory};
ghost use Rattle.tv_base.specs.Faults.{HasCause};
ghost use Rattle.tv_base.specs.Reading.{HandsOverFirst, ZeroAtEnd, with_name};
ghost use Rattle.tv_base.specs.Contents.{desk_state, steady_state};
ghost use Rattle.tv_base.specs.Contents.{desk_bytes, desk_left, desk_opened, desk_faults};
ghost use Rattle.tv_base.specs.Contents.{steady_bytes, steady_left, steady_opened};
ghost use Rattle.tv_base.specs.Contents.{steady_faults};
ghost use Rattle.tv_base.specs.Given.{bytes_of, steady_bytes_of};
ghost use Rattle.tv_base.specs.Plans.{desk_plan, fresh, called, GoesAs, TakesAs};

use crate::given::{GivenFile, copy_front, find};
use crate::mishaps::Mishaps;
use crate::{Desk, OutsideFault};
use attempt::{Refusal, attempt};
use std::alloc::{AllocError, Global};

/// Files in memory, of which calls can fail. Contracts see their bytes, and which were begun.
#[derive(Drop)]
pub struct MemDesk<'a> {
    files: &'a [GivenFile<'a>],
    left: &'a [u8],
    opened: Vec<String>,
    mishaps: Mishaps<'a>,
    alloc: Global,
}

impl<'a> MemDesk<'a> {
    /// A desk with these files, no file begun. The calls with the numbers `failing` fail, the first
    /// call having the number 1, and a read hands over at most `most` bytes.
    pub fn new(alloc: Global, files: &'a [GivenFile<'a>], failing: &'a [u64], most: usize) -> Self
        ensures bytes { desk_bytes result ≡ bytes_of files.now }
        ensures left { desk_left result ≡ Some [] }
        ensures opened { desk_opened result ≡ Some [] }
        ensures faults { desk_faults result ≡ 0 }
        ensures plan { desk_plan result ≡ fresh failing.now most }
    {
        MemDesk {
            files,
            left: &[],
            opened: Vec::new(alloc),
            mishaps: Mishaps::new(failing, most),
            alloc,
        }
    }

    /// How many calls failed.
    pub fn faults(&self) -> u64
        ensures { result ≡ desk_faults self.now }
    {
        self.mishaps.faults
    }
}

/// Adds a name to those that were begun.
fn add_name(alloc: Global, opened: &mut Vec<String>, name: &str) -> Result<(), AllocError>
    ensures added { OnOk result (Some (map string_bytes opened.new.items)
        ≡ with_name (Some (map string_bytes opened.old.items)) name.now) }
    ensures refused { OnErr result (opened.new.items ≡ opened.old.items) }
{
    let name = attempt!(String::from_str(alloc, name));
    opened.push(name)?;
    Ok(())
}

impl<'a> Desk for MemDesk<'a> {
    ghost state = { desk_state };

    fn begin(&mut self, name: &str) -> Result<(), Refusal<OutsideFault>>
        ensures planned { GoesAs (desk_plan self.old) (desk_bytes self.old name.now ≡ None) result }
        ensures counted { desk_plan self.new ≡ called (desk_plan self.old) }
        ensures begins { OnOk result (desk_left self.new ≡ desk_bytes self.old name.now) }
        ensures opens { OnOk result (desk_opened self.new ≡ with_name
            (desk_opened self.old) name.now) }
        ensures same_bytes { desk_bytes self.new ≡ desk_bytes self.old }
        ensures refused { OnErr result (desk_left self.new ≡ desk_left self.old) }
        ensures refused_name { OnErr result (desk_opened self.new ≡ desk_opened self.old) }
        ensures cause { HasCause (desk_faults self.old) (desk_faults self.new) result }
        ensures unfailing { OnOk result (desk_faults self.new ≡ desk_faults self.old) }
        ensures no_memory { IsErrOf result NoMemory → desk_faults self.new ≡ desk_faults self.old }
    {
        self.mishaps.count_call()?;
        match find(self.files, name) {
            Some(bytes) => {
                add_name(self.alloc, &mut self.opened, name)?;
                self.left = bytes;
                Ok(())
            }
            None => self.mishaps.fail(),
        }
    }

    fn read(&mut self, buf: &mut [u8]) -> Result<usize, Refusal<OutsideFault>>
        requires { 0 < length buf.old }
        ensures planned { IfSome (desk_left self.old) (λ left. TakesAs (desk_plan self.old)
            (min (length left) (length buf.old)) result) }
        ensures counted { desk_plan self.new ≡ called (desk_plan self.old) }
        ensures bound { IfOk result (λ count. count ≤ length buf.old) }
        ensures hands_over { HandsOverFirst (desk_left self.old) result buf.new
            (desk_left self.new) }
        ensures end { ZeroAtEnd (desk_left self.old) result }
        ensures same_bytes { desk_bytes self.new ≡ desk_bytes self.old }
        ensures same_names { desk_opened self.new ≡ desk_opened self.old }
        ensures refused { OnErr result (desk_left self.new ≡ desk_left self.old) }
        ensures cause { HasCause (desk_faults self.old) (desk_faults self.new) result }
        ensures unfailing { OnOk result (desk_faults self.new ≡ desk_faults self.old) }
        ensures no_memory { IsErrOf result NoMemory → desk_faults self.new ≡ desk_faults self.old }
    {
        attempt!(self.mishaps.count_call());
        let count = copy_front(self.left, buf, self.mishaps.most);
        if count == 0 && !self.left.is_empty() {
            return self.mishaps.fail();
        }
        self.left = &self.left[count..];
        Ok(count)
    }
}

/// Files in memory, of which no call fails. A name that no file has is that of an empty file.
/// Contracts see their bytes.
#[derive(Drop)]
pub struct SteadyDesk<'a> {
    files: &'a [GivenFile<'a>],
    left: &'a [u8],
}

impl<'a> SteadyDesk<'a> {
    /// A desk with these files, no file begun.
    pub fn new(files: &'a [GivenFile<'a>]) -> Self
        ensures bytes { steady_bytes result ≡ steady_bytes_of files.now }
        ensures left { steady_left result ≡ Some [] }
    {
        SteadyDesk { files, left: &[] }
    }
}

impl<'a> Desk for SteadyDesk<'a> {
    ghost state = { steady_state };

    fn begin(&mut self, name: &str) -> Result<(), Refusal<OutsideFault>>
        ensures ok { IsOk result }
        ensures begins { OnOk result (steady_left self.new ≡ steady_bytes self.old name.now) }
        ensures opens { OnOk result (steady_opened self.new ≡ with_name
            (steady_opened self.old) name.now) }
        ensures same_bytes { steady_bytes self.new ≡ steady_bytes self.old }
        ensures refused { OnErr result (steady_left self.new ≡ steady_left self.old) }
        ensures refused_name { OnErr result (steady_opened self.new ≡ steady_opened self.old) }
        ensures cause { HasCause (steady_faults self.old) (steady_faults self.new) result }
        ensures unfailing { OnOk result (steady_faults self.new ≡ steady_faults self.old) }
        ensures no_memory { IsErrOf result NoMemory → steady_faults self.new
            ≡ steady_faults self.old }
    {
        self.left = find(self.files, name).unwrap_or(&[]);
        Ok(())
    }

    fn read(&mut self, buf: &mut [u8]) -> Result<usize, Refusal<OutsideFault>>
        requires { 0 < length buf.old }
        ensures ok { IsOk result }
        ensures bound { IfOk result (λ count. count ≤ length buf.old) }
        ensures hands_over { HandsOverFirst (steady_left self.old) result buf.new
            (steady_left self.new) }
        ensures end { ZeroAtEnd (steady_left self.old) result }
        ensures same_bytes { steady_bytes self.new ≡ steady_bytes self.old }
        ensures same_names { steady_opened self.new ≡ steady_opened self.old }
        ensures refused { OnErr result (steady_left self.new ≡ steady_left self.old) }
        ensures cause { HasCause (steady_faults self.old) (steady_faults self.new) result }
        ensures unfailing { OnOk result (steady_faults self.new ≡ steady_faults self.old) }
        ensures no_memory { IsErrOf result NoMemory → steady_faults self.new
            ≡ steady_faults self.old }
    {
        let taken = copy_front(self.left, buf, buf.len());
        self.left = &self.left[taken..];
        Ok(taken)
    }
}
