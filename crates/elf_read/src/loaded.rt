//! The image of an executable, and what is read off it.

ghost use Rattle.std.specs.Prelude.{◌≡◌, ◌+◌, ◌-◌, ◌^◌, ◌<◌, ◌≤◌, ◌==◌, ℕ, true, All, length, ◌&&◌};
ghost use Rattle.std.specs.Prelude.{◌∷◌, if◌then◌else◌, max};
ghost use Rattle.std.specs.Prelude.{unwrap_or, bytes_eq, map, filter, slice_get, None, Some, IfOk};
ghost use Rattle.std.specs.Bool.{OnTrue, OnFalse};
ghost use Rattle.std.specs.Option.{option_map};
ghost use Rattle.elf_read_spec.specs.Image as spec;

use crate::fixed::{byte_at, extent_at, extents, fixed_segments};
use crate::named::Named;
use crate::sizes::sizes;
use crate::{Extent, Segment, Symbol};
use elf_read_spec::SymbolValues;
use elf_read_spec::fields::PF_W;
use memory_spec::Run;
use std::alloc::{AllocError, Global};
use std::collections::BTreeMap;
use std::marker::Model;

/// What an executable holds: its segments in the order of their headers, its defined symbols in the
/// order of their table. It borrows the file.
#[derive(Drop)]
pub struct Image<'a> {
    segments: Vec<Segment<'a>>,
    symbols: Vec<Symbol<'a>>,
    // The segments with fixed bytes, by address.
    fixed: Vec<Segment<'a>>,
    // The addresses of the runs of fixed bytes.
    extents: Vec<Extent>,
    // The values and sizes of the symbols, by their names.
    named: Named<'a>,
    // The size of each function, by its entry.
    sizes: BTreeMap<u32, u32>,
    global_pointer: Option<u32>,
}

impl<'a> Model for Image<'a> {
    ghost use Rattle.elf_read_spec.specs.Image.{Image as image};

    ghost Value = { image };

    ghost use Rattle.elf_read.specs.Indexed.{image_view, IsIndexed};

    ghost view = { image_view };

    ghost invariant = { IsIndexed };
}

impl<'a> Image<'a> {
    ghost use Rattle.elf_read.specs.Values.{segment_of, symbol_of, IsExtentAt};
    ghost use Rattle.elf_read.specs.Separate.{AreSeparate};
    ghost use Rattle.elf_read.specs.NameTree.{ArePlaced};
    ghost use Rattle.elf_read_spec.specs.declared.fields.TheConstants.{STT_OBJECT};
    ghost use Rattle.elf_read_spec.specs.Runs.{AreRuns, bytes_from};
    ghost use Rattle.memory_spec.specs.Runs.{AreBytes};
    ghost use Rattle.memory_spec.specs.Viewed.{runs_of};

    /// The image of some segments and symbols, whose names begin at these offsets of a string
    /// table.
    pub(crate) fn new(
        alloc: Global,
        segments: Vec<Segment<'a>>,
        symbols: Vec<Symbol<'a>>,
        strings: &'a [u8],
        offsets: &[u32],
    ) -> Result<Image<'a>, AllocError>
        requires separate { AreSeparate (map segment_of segments.items) }
        requires placed { ArePlaced symbols.items strings.now offsets.now }
        ensures { IfOk result (λ image. image
            ≡ record {
              segments = map segment_of segments.entry.items;
              symbols = map symbol_of
                  symbols.entry.items;
            }) }
    {
        let fixed = fixed_segments(alloc, segments.as_slice())?;
        let extents = extents(alloc, fixed.as_slice())?;
        let named = Named::new(alloc, symbols.as_slice(), strings, offsets)?;
        let sizes = sizes(alloc, symbols.as_slice())?;
        let global_pointer = first_named(symbols.as_slice(), b"__global_pointer$");
        Ok(Image {
            segments,
            symbols,
            fixed,
            extents,
            named,
            sizes,
            global_pointer,
        })
    }

    /// The segment at an index in the order of the program headers.
    pub fn segment(&self, i: usize) -> Option<&Segment<'a>>
        ensures { option_map (λ s. segment_of s.now) result ≡ slice_get self.now.segments i }
    {
        self.segments.get(i)
    }

    /// How many defined symbols there are.
    pub fn symbol_count(&self) -> usize
        ensures { result ≡ length self.now.symbols }
    {
        self.symbols.len()
    }

    /// The symbol at an index among the defined ones, in the order of their table.
    pub fn symbol(&self, i: usize) -> Option<&Symbol<'a>>
        ensures { option_map (λ s. symbol_of s.now) result ≡ slice_get self.now.symbols i }
    {
        self.symbols.get(i)
    }

    /// The size in bytes of the function that begins at an address: the greatest of its symbols.
    pub fn size_at(&self, entry: u32) -> Option<u32>
        ensures { result ≡ spec.size_at self.now entry }
    {
        self.sizes.get(&entry).copied()
    }

    /// The functions of a name: its symbols of type `STT_FUNC`.
    pub fn function(&self, name: &[u8]) -> SymbolValues
        ensures { result ≡ spec.function_named self.now name.now }
    {
        self.named.function(name)
    }

    /// The globals of a name: its symbols of type `STT_OBJECT`.
    pub fn object(&self, name: &[u8]) -> SymbolValues
        ensures { result ≡ spec.object_named self.now name.now }
    {
        self.named.object(name)
    }

    /// The size in bytes of the first global of a name.
    pub fn object_size(&self, name: &[u8]) -> Option<u32>
        ensures { result ≡ spec.first_of (map (λ (s : spec.Symbol). s.size)
            (filter (spec.has_name STT_OBJECT name.now) self.now.symbols)) }
    {
        self.named.object_size(name)
    }

    /// The globals of the name of the symbol at an index. The name isn't read.
    pub fn object_at(&self, i: usize) -> Option<SymbolValues>
        ensures { result ≡ option_map (λ (s : spec.Symbol). spec.object_named self.now s.name)
            (slice_get self.now.symbols i) }
    {
        self.named.object_at(i)
    }

    /// The value of the first symbol `__global_pointer$`, of any type (RISC-V psABI, global
    /// pointer).
    pub fn global_pointer(&self) -> Option<u32>
        ensures { result ≡ spec.global_pointer self.now }
    {
        self.global_pointer
    }

    /// The byte that the file fixes at an address: one of a segment that nothing may write.
    pub fn fixed_byte(&self, address: u32) -> Option<u8>
        ensures { result ≡ spec.fixed_byte self.now address }
    {
        byte_at(self.fixed.as_slice(), address)
    }

    /// The runs of fixed bytes by address, with their bytes. Segments that touch have one run.
    pub fn runs(&self, alloc: Global) -> Result<Vec<Run>, AllocError>
        ensures runs { IfOk result (λ runs. AreRuns self.now (runs_of runs.items)) }
        ensures bytes { IfOk result (λ runs. AreBytes (runs_of runs.items)) }
    {
        let mut runs = Vec::new(alloc);
        let extents = self.extents.as_slice();
        for extent in extents {
            let bytes = self.bytes_in(alloc, *extent)?;
            runs.push(Run {
                start: extent.first,
                bytes,
            })?;
        }
        Ok(runs)
    }

    /// The fixed bytes at the addresses of an extent; 0 where none is fixed.
    fn bytes_in(&self, alloc: Global, extent: Extent) -> Result<Vec<u8>, AllocError>
        requires { extent.first ≤ extent.last }
        ensures bytes { IfOk result (λ bytes. bytes.items
            ≡ bytes_from self.now extent.first (extent.last + 1 - extent.first)) }
        ensures small { IfOk result (λ bytes. All (λ b. b < 2 ^ 8) bytes.items) }
    {
        let mut bytes = Vec::new(alloc);
        for k in 0..u64::from(extent.last - extent.first) + 1 {
            let byte = self.fixed_byte(extent.first + k as u32);
            bytes.push(byte.unwrap_or(0))?;
        }
        Ok(bytes)
    }

    /// The addresses of a run of fixed bytes, at an index among the runs by address. The bytes are
    /// those of [`Image::fixed_byte`].
    pub fn run(&self, i: usize) -> Option<Extent>
        ensures { IsExtentAt self.now i result }
    {
        extent_at(self.extents.as_slice(), i)
    }
}

ghost use Rattle.elf_read.specs.Fixed as fixed;
ghost use Rattle.elf_read.specs.Values as values;

impl<'a> Segment<'a> {
    /// It has bytes, and nothing may write them: it is without the flag `PF_W`.
    pub(crate) fn has_fixed_bytes(&self) -> bool
        ensures { result ≡ fixed.has_fixed_bytes self.now }
    {
        self.flags / PF_W % 2 == 0 && !self.bytes.is_empty()
    }

    /// The file's byte at an address, unless the segment may be written.
    pub(crate) fn fixed_byte(&self, address: u32) -> Option<u8>
        ensures { result ≡ (if spec.is_fixed (values.segment_of self.now) then spec.byte_in
            (values.segment_of self.now) address else None) }
    {
        if self.flags / PF_W % 2 != 0 || address < self.vaddr {
            return None;
        }
        let place = (address - self.vaddr) as usize;
        self.bytes.get(place).copied()
    }
}

fn first_named(symbols: &[Symbol], name: &[u8]) -> Option<u32>
    ensures { result ≡ spec.first_of
        (map (λ s. s.value) (filter (λ s. bytes_eq s.name name.now)
        (map values.symbol_of symbols.now))) }
{
    for symbol in symbols {
        if symbol.name == name {
            return Some(symbol.value);
        }
    }
    None
}
