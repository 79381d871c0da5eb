//! The values and sizes of the symbols of a name.

ghost use Rattle.std.specs.Prelude.{◌≡◌, IfOk, option_map, slice_get, unwrap_or};
ghost use Rattle.std.specs.Ordering.{nat_cmp};
ghost use Rattle.std.specs.BTreeMap.{get as at_node};
ghost use Rattle.elf_read_spec.specs.declared.SymbolValues.TheVariants.{Absent};
ghost use Rattle.elf_read.specs.NameTree.{ArePlaced, looked_up};
ghost use Rattle.elf_read.specs.Lookups.{AreLookups};

use crate::Symbol;
use crate::names::Names;
use crate::tree::{Tree, node};
use elf_read_spec::SymbolValues;
use elf_read_spec::fields::{STT_FUNC, STT_OBJECT};
use std::alloc::{AllocError, Global};
use std::collections::BTreeMap;

/// The values of functions and of globals, by the nodes of their names.
#[derive(Drop)]
pub(crate) struct Named<'a> {
    pub tree: Tree<'a>,
    /// The node of the name of each symbol.
    pub numbers: Vec<usize>,
    pub functions: BTreeMap<usize, SymbolValues>,
    pub objects: BTreeMap<usize, SymbolValues>,
    /// The sizes of the first globals.
    pub sizes: BTreeMap<usize, u32>,
}

impl<'a> Named<'a> {
    /// What is known of some symbols, whose names begin at these offsets of a string table.
    pub(crate) fn new(
        alloc: Global,
        symbols: &[Symbol<'a>],
        strings: &'a [u8],
        offsets: &[u32],
    ) -> Result<Named<'a>, AllocError>
        requires { ArePlaced symbols.now strings.now offsets.now }
        ensures { IfOk result (λ named. AreLookups named symbols.now) }
    {
        let names = Names::new(alloc, symbols, strings, offsets)?;
        let functions = names.values(alloc, symbols, STT_FUNC)?;
        let objects = names.values(alloc, symbols, STT_OBJECT)?;
        let sizes = names.sizes(alloc, symbols, STT_OBJECT)?;
        let Names { tree, numbers } = names;
        Ok(Named {
            tree,
            numbers,
            functions,
            objects,
            sizes,
        })
    }

    /// The functions of a name.
    pub(crate) fn function(&self, name: &[u8]) -> SymbolValues
        ensures { result ≡ unwrap_or (looked_up self.now.tree self.now.functions name.now) Absent }
    {
        values_at(&self.tree, &self.functions, name)
    }

    /// The globals of a name.
    pub(crate) fn object(&self, name: &[u8]) -> SymbolValues
        ensures { result ≡ unwrap_or (looked_up self.now.tree self.now.objects name.now) Absent }
    {
        values_at(&self.tree, &self.objects, name)
    }

    /// The size of the first global of a name.
    pub(crate) fn object_size(&self, name: &[u8]) -> Option<u32>
        ensures { result ≡ looked_up self.now.tree self.now.sizes name.now }
    {
        let number = node(&self.tree, name)?;
        self.sizes.get(&number).copied()
    }

    /// The globals of the name of the symbol at an index.
    pub(crate) fn object_at(&self, i: usize) -> Option<SymbolValues>
        ensures { result ≡ option_map (λ node. unwrap_or (at_node nat_cmp self.now.objects node)
            Absent) (slice_get self.now.numbers.items i) }
    {
        let number = self.numbers.get(i).copied()?;
        let values = self.objects.get(&number).copied();
        Some(values.unwrap_or(SymbolValues::Absent))
    }
}

/// The values of a name.
fn values_at(tree: &Tree, values: &BTreeMap<usize, SymbolValues>, name: &[u8]) -> SymbolValues
    ensures { result ≡ unwrap_or (looked_up tree.now values.now name.now) Absent }
{
    match node(tree, name) {
        Some(node) => values.get(&node).copied().unwrap_or(SymbolValues::Absent),
        None => SymbolValues::Absent,
    }
}
