ghost use Rattle.std.specs.Prelude.{◌≡◌, ℕ, List, [], Some, string_bytes, OnOk, OnErr};
ghost use Rattle.tv_base.specs.Writing.{Grows, IsEmptied};
ghost use Rattle.tv_base.specs.Shelf.{on_shelf};

use std::alloc::{AllocError, Global};
use std::mem;

/// A file that a store in memory holds.
#[derive(Drop)]
pub(crate) struct StoredFile {
    pub(crate) name: String,
    pub(crate) text: Vec<u8>,
}

/// Files in memory that are written one at a time: those begun earlier, in that order, and the one
/// begun last.
#[derive(Drop)]
pub(crate) struct Shelf {
    pub(crate) earlier: Vec<StoredFile>,
    pub(crate) last: StoredFile,
    alloc: Global,
}

impl Shelf {
    /// A shelf on which nothing is written, under the empty name.
    pub(crate) fn new(alloc: Global) -> Self
        ensures held { (name : List ℕ) → on_shelf result name ≡ Some [] }
        ensures begun { string_bytes result.last.name ≡ [] }
    {
        Shelf {
            earlier: Vec::new(alloc),
            last: StoredFile {
                name: String::new(alloc),
                text: Vec::new(alloc),
            },
            alloc,
        }
    }

    /// Begins a file, which then holds nothing.
    pub(crate) fn begin(&mut self, name: &str) -> Result<(), AllocError>
        ensures empties { OnOk result (IsEmptied (on_shelf self.old) name.now (on_shelf self.new)) }
        ensures name { OnOk result (string_bytes self.new.last.name ≡ name.now) }
        ensures refused { OnErr result (on_shelf self.new ≡ on_shelf self.old) }
        ensures refused_name { OnErr result (self.new.last.name ≡ self.old.last.name) }
    {
        let fresh = StoredFile {
            name: String::from_str(self.alloc, name)?,
            text: Vec::new(self.alloc),
        };
        let before = mem::replace(&mut self.last, fresh);
        match self.earlier.push(before) {
            Ok(()) => Ok(()),
            Err(refused) => {
                self.last = refused.value;
                Err(AllocError)
            }
        }
    }

    /// Adds a piece to the file begun last.
    pub(crate) fn add(&mut self, piece: &[u8]) -> Result<(), AllocError>
        ensures grows { OnOk result (Grows (on_shelf self.old)
            (string_bytes self.old.last.name) piece.now (on_shelf self.new)) }
        ensures name { self.new.last.name ≡ self.old.last.name }
        ensures refused { OnErr result (on_shelf self.new ≡ on_shelf self.old) }
    {
        self.last.text.extend_from_slice(piece)
    }
}
