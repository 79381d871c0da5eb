ghost use Rattle.std.specs.Prelude.{◌≡◌, ◌<◌, ◌≤◌, [], Option, None, string_bytes, IsErr, IsErrOf};
ghost use Rattle.std.specs.Prelude.{IfOk, OnOk};
ghost use Rattle.attempt.specs.declared.refusal.Refusal.TheVariants.{NoMemory};
ghost use Rattle.tv_base.specs.Faults.{HasCause};
ghost use Rattle.tv_base.specs.Contents.{unseen_desk, unseen_sink};

use crate::{Desk, OutsideFault, Sink, Store};
use attempt::Refusal;
use std::io::{self, ErrorKind, Print, Read, Write};
use std::rt::Files;

/// The refusal for an error of the operating system: out of memory, or a failure, at which the
/// count rises.
fn refused<T>(faults: &mut u64, error: &io::Error) -> Result<T, Refusal<OutsideFault>>
    ensures refusal { IsErr result }
    ensures cause { HasCause faults.old faults.new result }
    ensures no_memory { IsErrOf result NoMemory → faults.new ≡ faults.old }
{
    if error.kind() == ErrorKind::OutOfMemory {
        return Err(Refusal::NoMemory);
    }
    *faults = faults.saturating_add(1);
    Err(Refusal::Fault(OutsideFault::Failed))
}

/// The file that takes a standard descriptor. Opened for reading, it takes no byte of a report.
const NOTHING: &str = "/dev/null";

/// Files that are kept open so that descriptors 0 to 2 are taken: the operating system gives a file
/// the lowest descriptor that is free, and a program may be started with some of these three
/// closed. A file that is opened later then has another one, and what is written to a standard
/// descriptor that was closed fails.
#[derive(Drop)]
pub struct Descriptors<R: Files> {
    files: [R::File; 3],
}

impl<R: Files> Descriptors<R> {
    /// Takes those of the three that are free. The first error of the operating system ends it.
    pub fn take(rt: &R) -> io::Result<Self> {
        let first = std::fs::open(rt, NOTHING)?;
        let second = std::fs::open(rt, NOTHING)?;
        let third = std::fs::open(rt, NOTHING)?;
        Ok(Descriptors {
            files: [first, second, third],
        })
    }
}

/// Files of the operating system, read. Contracts see neither their contents nor which were begun.
#[derive(Drop)]
pub struct FileDesk<R: Files + Drop> {
    rt: R,
    file: Option<R::File>,
    faults: u64,
}

impl<R: Files + Drop> FileDesk<R> {
    /// A desk with no file begun.
    pub fn new(rt: R) -> Self
        ensures { (⟦<FileDesk<R> as Desk>⟧.state result).faults ≡ 0 }
    {
        FileDesk {
            rt,
            file: None,
            faults: 0,
        }
    }
}

impl<R: Files + Drop> Desk for FileDesk<R> {
    ghost state = { λ desk. unseen_desk desk.faults };

    fn begin(&mut self, name: &str) -> Result<(), Refusal<OutsideFault>> {
        match std::fs::open(&self.rt, name) {
            Ok(file) => {
                self.file = Some(file);
                Ok(())
            }
            Err(error) => refused(&mut self.faults, &error),
        }
    }

    fn read(&mut self, buf: &mut [u8]) -> Result<usize, Refusal<OutsideFault>> {
        let Some(file) = &mut self.file else {
            return Ok(0);
        };
        match file.read(buf) {
            Ok(count) => Ok(count),
            Err(error) => refused(&mut self.faults, &error),
        }
    }
}

/// The outcome of a write of `size` bytes. A write of some bytes that took none is a failure.
fn taken(
    faults: &mut u64,
    size: usize,
    outcome: io::Result<usize>,
) -> Result<usize, Refusal<OutsideFault>>
    requires { IfOk outcome (λ count. count ≤ size) }
    ensures bound { IfOk result (λ count. count ≤ size) }
    ensures progress { IfOk result (λ count. 0 < size → 0 < count) }
    ensures cause { HasCause faults.old faults.new result }
    ensures unfailing { OnOk result (faults.new ≡ faults.old) }
    ensures no_memory { IsErrOf result NoMemory → faults.new ≡ faults.old }
{
    match outcome {
        Ok(0) if size > 0 => {
            *faults = faults.saturating_add(1);
            Err(Refusal::Fault(OutsideFault::Failed))
        }
        Ok(count) => Ok(count),
        Err(error) => refused(faults, &error),
    }
}

/// Standard output. Contracts see nothing of what it holds.
#[derive(Drop)]
pub struct OutSink<R: Print + Drop> {
    rt: R,
    faults: u64,
}

impl<R: Print + Drop> OutSink<R> {
    /// Standard output, with no fault so far.
    pub fn new(rt: R) -> Self
        ensures { (⟦<OutSink<R> as Sink>⟧.state result).faults ≡ 0 }
    {
        OutSink { rt, faults: 0 }
    }
}

impl<R: Print + Drop> Sink for OutSink<R> {
    ghost state = { λ sink. unseen_sink [] sink.faults };

    fn put(&mut self, bytes: &[u8]) -> Result<usize, Refusal<OutsideFault>> {
        let outcome = self.rt.write_some(bytes);
        taken(&mut self.faults, bytes.len(), outcome)
    }
}

/// Files of the operating system, written. Contracts see nothing of what they hold.
#[derive(Drop)]
pub struct FileStore<R: Files + AllocGlobal + Drop> {
    rt: R,
    begun: String,
    file: Option<R::File>,
    faults: u64,
}

impl<R: Files + AllocGlobal + Drop> FileStore<R> {
    /// A store with no file begun, where every write fails.
    pub fn new(rt: R) -> Self
        ensures faults { (⟦<FileStore<R> as Sink>⟧.state result).faults ≡ 0 }
        ensures begun { (⟦<FileStore<R> as Sink>⟧.state result).begun ≡ [] }
    {
        let begun = String::new(rt.alloc());
        FileStore {
            rt,
            begun,
            file: None,
            faults: 0,
        }
    }
}

impl<R: Files + AllocGlobal + Drop> Sink for FileStore<R> {
    ghost state = { λ store. unseen_sink (string_bytes store.begun) store.faults };

    fn put(&mut self, bytes: &[u8]) -> Result<usize, Refusal<OutsideFault>> {
        let Some(file) = &mut self.file else {
            self.faults = self.faults.saturating_add(1);
            return Err(Refusal::Fault(OutsideFault::Failed));
        };
        let outcome = file.write(bytes);
        taken(&mut self.faults, bytes.len(), outcome)
    }
}

impl<R: Files + AllocGlobal + Drop> Store for FileStore<R> {
    fn begin(&mut self, name: &str) -> Result<(), Refusal<OutsideFault>> {
        let begun = String::from_str(self.rt.alloc(), name)?;
        match std::fs::create(&self.rt, name) {
            Ok(file) => {
                self.file = Some(file);
                self.begun = begun;
                Ok(())
            }
            Err(error) => refused(&mut self.faults, &error),
        }
    }
}
