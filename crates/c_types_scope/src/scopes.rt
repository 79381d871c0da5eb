//! Scopes of names (6.2.1): the file scope and the blocks that are open.

ghost use Rattle.std.specs.Prelude.{◌≡◌, [], Some, None, IfOk, OnOk, OnErr, option_map};
ghost use Rattle.c_token_spec.specs.Words.{entry_of};
ghost use Rattle.c_types_spec.specs.Names as rule;
ghost use Rattle.c_types_scope.specs.Scopes.{scopes_of, file_of};

use crate::entries::{Entry, declare, hide, innermost_start, meaning_at, place_of, unwind};
use indexmap::IndexMap;
use std::alloc::{AllocError, Global};
use std::marker::Model;

/// What names mean in the scopes that are open. A name may be hidden: it was declared in an earlier
/// group of the same `switch`.
#[derive(Drop)]
pub struct Scopes<'a, M> {
    /// The names of the file scope, in order.
    file: IndexMap<&'a [u8], M>,
    /// The declarations in the blocks, in order.
    entries: Vec<Entry<'a, M>>,
    /// For each block how many declarations were there before it, the outermost first.
    starts: Vec<usize>,
    /// For each name the place of its last declaration in a block.
    newest: IndexMap<&'a [u8], Option<usize>>,
}

impl<'a, M> Model for Scopes<'a, M> {
    ghost use Rattle.std.specs.Prelude.{ℕ, List, Option, reverse};
    ghost use Rattle.c_types_scope.specs.Scopes.{file_of};
    ghost use Rattle.c_types_scope.specs.Entries.{AreTied, AreStarts, blocks_of};

    ghost Value = { List (List ℕ × Option M) × List (List (List ℕ × Option M)) };

    ghost view = { λ a. (
      file_of a.file.entries,
      blocks_of (reverse a.starts.items) (reverse a.entries.items),
    ) };

    ghost invariant = { λ a. AreTied (reverse a.entries.items) a.newest.entries
        × AreStarts (reverse a.starts.items) (reverse a.entries.items) };
}

/// What the file scope says of a name.
fn in_file<'b, M>(file: &'b IndexMap<&[u8], M>, name: &[u8]) -> Option<Option<&'b M>>
    ensures { option_map (λ m. option_map (λ x. x.now) m) result ≡ entry_of (file_of
        file.now.entries) name.now }
{
    match file.get(name) {
        Some(meaning) => Some(Some(meaning)),
        None => None,
    }
}

impl<'a, M: Drop> Scopes<'a, M> {
    /// The file scope alone, without names.
    pub fn new(alloc: Global) -> Scopes<'a, M>
        ensures { result ≡ ([], []) }
    {
        Scopes {
            file: IndexMap::new(alloc),
            entries: Vec::new(alloc),
            starts: Vec::new(alloc),
            newest: IndexMap::new(alloc),
        }
    }

    /// What a name means: `Some(None)` where it is hidden, none where it is not declared.
    pub fn find(&self, name: &[u8]) -> Option<Option<&M>>
        ensures { option_map (λ m. option_map (λ x. x.now) m) result ≡ rule.in_scope (scopes_of
            self.now) name.now }
    {
        match place_of(&self.newest, name) {
            Some(place) => meaning_at(self.entries.as_slice(), place),
            None => in_file(&self.file, name),
        }
    }

    /// What the innermost scope says of a name.
    pub fn find_innermost(&self, name: &[u8]) -> Option<Option<&M>>
        ensures { option_map (λ m. option_map (λ x. x.now) m) result ≡ rule.in_innermost (scopes_of
            self.now) name.now }
    {
        match innermost_start(self.starts.as_slice()) {
            None => in_file(&self.file, name),
            Some(start) => match place_of(&self.newest, name) {
                Some(place) => {
                    if place < start {
                        None
                    } else {
                        meaning_at(self.entries.as_slice(), place)
                    }
                }
                None => None,
            },
        }
    }

    /// What the file scope says of a name.
    pub fn find_in_file(&self, name: &[u8]) -> Option<Option<&M>>
        ensures { option_map (λ m. option_map (λ x. x.now) m) result ≡ entry_of
            (scopes_of self.now).file name.now }
    {
        in_file(&self.file, name)
    }

    /// Declares a name in the file scope, or changes what it means there.
    pub fn declare_in_file(&mut self, name: &'a [u8], meaning: M) -> Result<(), AllocError>
        ensures { OnOk result (scopes_of self.new ≡ rule.declared_in_file name.now (Some meaning)
            (scopes_of self.old)) }
    {
        self.file.insert(name, meaning)?;
        Ok(())
    }

    /// Declares a name in the innermost scope.
    pub fn declare(&mut self, name: &'a [u8], meaning: M) -> Result<(), AllocError>
        ensures { OnOk result (scopes_of self.new ≡ rule.declared name.now (Some meaning) (scopes_of
            self.old)) }
    {
        if self.starts.is_empty() {
            self.file.insert(name, meaning)?;
            return Ok(());
        }
        declare(&mut self.entries, &mut self.newest, name, meaning)?;
        Ok(())
    }

    /// Opens a block.
    pub fn open(&mut self) -> Result<(), AllocError>
        ensures { OnOk result (scopes_of self.new ≡ rule.opened (scopes_of self.old)) }
    {
        self.starts.push(self.entries.len())?;
        Ok(())
    }

    /// Closes the innermost block.
    pub fn close(&mut self)
        ensures { scopes_of self.new ≡ rule.closed (scopes_of self.old) }
    {
        match self.starts.pop() {
            Some(start) => unwind(&mut self.entries, &mut self.newest, start),
            None => {}
        }
    }

    /// The names of the file scope, in the order of their declarations.
    pub fn into_file(self) -> IndexMap<&'a [u8], M>
        ensures { file_of result.entries ≡ (scopes_of self.entry).file }
    {
        let Scopes { file, .. } = self;
        file
    }

    /// Closes the innermost block, and hides its names until the block around it is closed.
    pub fn close_hidden(&mut self)
        ensures { scopes_of self.new ≡ rule.closed_hidden None (scopes_of self.old) }
    {
        match self.starts.pop() {
            Some(start) => {
                if self.starts.is_empty() {
                    unwind(&mut self.entries, &mut self.newest, start);
                } else {
                    hide(self.entries.as_mut_slice(), start);
                }
            }
            None => {}
        }
    }
}
