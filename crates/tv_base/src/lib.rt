//! Input and output as traits: `Desk` (files to read), `Sink` (a place to write), `Store` (a sink
//! with named files) and `Notes` (how a run goes on); and a list of bytes as one value ([`Bytes`]).
//! A read hands over the next bytes, a write appends the bytes that it says it took, and a call
//! answers `Failed` only where the object's count of faults rose: `specs/Reading.antt`,
//! `specs/Writing.antt`, `specs/Faults.antt`. Of notes nothing is claimed.
//!
//! Of the traits there are `FileDesk`, `OutSink` and `FileStore` by the operating system, whose
//! contents contracts do not see; `MemDesk`, `MemSink` and `MemStore` in memory, of which given
//! calls fail (`specs/Plans.antt`); `SteadyDesk`, `SteadySink` and `SteadyStore` in memory, whose
//! calls never fail. What those in memory hold is defined in `specs/Given.antt` and
//! `specs/Shelf.antt`. `Descriptors` are taken before a file is opened.
#![tactic(auto)]

mod bytes;
mod desks;
mod faults;
mod given;
mod mishaps;
mod notes;
mod reading;
mod shelf;
mod sinks;
mod stores;
mod system;
mod writing;

pub use bytes::Bytes;
pub use desks::{MemDesk, SteadyDesk};
pub use faults::OutsideFault;
pub use given::GivenFile;
pub use notes::{NoNotes, Note, Notes};
pub use reading::{Desk, read_up_to};
pub use sinks::{MemSink, SteadySink};
pub use stores::{MemStore, SteadyStore};
pub use system::{Descriptors, FileDesk, FileStore, OutSink};
pub use writing::{Sink, Store, write_all};
