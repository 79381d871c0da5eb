//! The nodes of the names of symbols, and the values and sizes of these.

ghost use Rattle.std.specs.Prelude.{◌≡◌, length, IfOk};
ghost use Rattle.elf_read.specs.NameTree.{ArePlaced, AreCollected, AreNumbered};
ghost use Rattle.elf_read.specs.NameTree.{size_step, values_step, with_first as values_with};

use crate::Symbol;
use crate::tree::{Tree, add_blocks, add_name};
use elf_read_spec::SymbolValues;
use std::alloc::{AllocError, Global};
use std::collections::BTreeMap;

/// The names of some symbols.
#[derive(Drop)]
pub(crate) struct Names<'a> {
    pub tree: Tree<'a>,
    /// The node of the name of each symbol.
    pub numbers: Vec<usize>,
}

impl<'a> Names<'a> {
    /// The names of some symbols, of which each begins at an offset of a string table.
    pub(crate) fn new(
        alloc: Global,
        symbols: &[Symbol<'a>],
        strings: &'a [u8],
        offsets: &[u32],
    ) -> Result<Names<'a>, AllocError>
        requires { ArePlaced symbols.now strings.now offsets.now }
        ensures nodes { IfOk result (λ names. AreNumbered names.tree symbols.now
            names.numbers.items) }
        ensures long { IfOk result (λ names. length names.numbers.items ≡ length symbols.now) }
    {
        let mut tree = BTreeMap::new(alloc);
        let mut nodes = BTreeMap::new(alloc);
        add_blocks(alloc, &mut tree, &mut nodes, strings)?;
        let mut numbers = Vec::new(alloc);
        for i in 0..symbols.len() {
            let number = add_name(alloc, &mut tree, &nodes, symbols[i].name, offsets[i])?;
            numbers.push(number)?;
        }
        Ok(Names { tree, numbers })
    }

    /// The values of the symbols of a type, by the nodes of their names; from the last symbol to
    /// the first.
    pub(crate) fn values(
        &self,
        alloc: Global,
        symbols: &[Symbol],
        kind: u8,
    ) -> Result<BTreeMap<usize, SymbolValues>, AllocError>
        requires nodes { AreNumbered self.now.tree symbols.now self.now.numbers.items }
        requires long { length self.now.numbers.items ≡ length symbols.now }
        ensures { IfOk result (λ values. AreCollected self.now.tree symbols.now kind values_step
            values 0) }
    {
        let mut values = BTreeMap::new(alloc);
        let mut at = symbols.len();
        while at > 0 {
            at -= 1;
            if symbols[at].kind == kind {
                let number = self.numbers[at];
                let later = values.get(&number).copied().unwrap_or(SymbolValues::Absent);
                values.insert(number, with_first(symbols[at].value, later))?;
            }
        }
        Ok(values)
    }

    /// The sizes of the first symbols of a type and of each name, by the nodes of their names; from
    /// the last symbol to the first.
    pub(crate) fn sizes(
        &self,
        alloc: Global,
        symbols: &[Symbol],
        kind: u8,
    ) -> Result<BTreeMap<usize, u32>, AllocError>
        requires nodes { AreNumbered self.now.tree symbols.now self.now.numbers.items }
        requires long { length self.now.numbers.items ≡ length symbols.now }
        ensures { IfOk result (λ sizes. AreCollected self.now.tree symbols.now kind size_step
            sizes 0) }
    {
        let mut sizes = BTreeMap::new(alloc);
        let mut at = symbols.len();
        while at > 0 {
            at -= 1;
            if symbols[at].kind == kind {
                sizes.insert(self.numbers[at], symbols[at].size)?;
            }
        }
        Ok(sizes)
    }
}

/// The values of the symbols of a name, given the first symbol's and those of all others.
fn with_first(value: u32, later: SymbolValues) -> SymbolValues
    ensures { result ≡ values_with value later }
{
    match later {
        SymbolValues::Absent => SymbolValues::One(value),
        SymbolValues::One(other) if other == value => SymbolValues::One(value),
        SymbolValues::One(other) => SymbolValues::Two(value, other),
        SymbolValues::Two(first, other) if first == value => SymbolValues::Two(value, other),
        SymbolValues::Two(first, _) => SymbolValues::Two(value, first),
    }
}
