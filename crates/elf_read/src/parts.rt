//! The parts of an image.

/// A segment that is loaded: a program header of type `PT_LOAD` (System V ABI, program header).
#[derive(Clone, Copy)]
pub struct Segment<'a> {
    /// `p_vaddr`, the address of its first byte.
    pub vaddr: u32,
    /// `p_memsz`, how many bytes it has in memory.
    pub memsz: u32,
    /// `p_flags`: 1 for code, 2 for memory that may be written, 4 for memory that may be read.
    pub flags: u32,
    /// Its `p_filesz` bytes in the file, from its start on.
    pub bytes: &'a [u8],
}

/// A symbol that is defined: its `st_shndx` isn't 0 (System V ABI, symbol table).
#[derive(Clone, Copy)]
pub struct Symbol<'a> {
    /// Its name, without the 0 byte that ends it.
    pub name: &'a [u8],
    /// `st_value`, an address.
    pub value: u32,
    /// `st_size`, in bytes.
    pub size: u32,
    /// Its type, `st_info & 15`: 1 for an object, 2 for a function.
    pub kind: u8,
}

/// The addresses of a run of fixed bytes.
#[derive(Clone, Copy)]
pub struct Extent {
    /// The first one.
    pub first: u32,
    /// The last one.
    pub last: u32,
}
