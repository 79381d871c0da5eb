//! The fields of an ELF32 file: offsets, sizes and values, by the names of the System V ABI
//! (chapters 4 and 5) and of the RISC-V psABI.

/// The size of an ELF header.
pub const EHDR_SIZE: usize = 52;
/// The size of a program header.
pub const PHDR_SIZE: usize = 32;
/// The size of a section header.
pub const SHDR_SIZE: usize = 40;
/// The size of an entry of a symbol table.
pub const SYM_SIZE: usize = 16;

/// The bytes with which a file begins.
pub const ELFMAG: [u8; 4] = [0x7f, 0x45, 0x4c, 0x46];

// offsets in the ELF header
pub const EI_CLASS: usize = 4;

pub const EI_DATA: usize = 5;

pub const EI_VERSION: usize = 6;

pub const E_TYPE: usize = 16;

pub const E_MACHINE: usize = 18;

pub const E_VERSION: usize = 20;

pub const E_PHOFF: usize = 28;

pub const E_SHOFF: usize = 32;

pub const E_FLAGS: usize = 36;

pub const E_EHSIZE: usize = 40;

pub const E_PHENTSIZE: usize = 42;

pub const E_PHNUM: usize = 44;

pub const E_SHENTSIZE: usize = 46;

pub const E_SHNUM: usize = 48;

// offsets in a program header, whose p_type is its first field
pub const P_OFFSET: usize = 4;

pub const P_VADDR: usize = 8;

pub const P_FILESZ: usize = 16;

pub const P_MEMSZ: usize = 20;

pub const P_FLAGS: usize = 24;

// offsets in a section header
pub const SH_TYPE: usize = 4;

pub const SH_OFFSET: usize = 16;

pub const SH_SIZE: usize = 20;

pub const SH_LINK: usize = 24;

pub const SH_ENTSIZE: usize = 36;

// offsets in an entry of a symbol table, whose st_name is its first field
pub const ST_VALUE: usize = 4;

pub const ST_SIZE: usize = 8;

pub const ST_INFO: usize = 12;

pub const ST_SHNDX: usize = 14;

// values
pub const ELFCLASS32: u8 = 1;

pub const ELFDATA2LSB: u8 = 1;

pub const EV_CURRENT: u8 = 1;

pub const ET_EXEC: u16 = 2;

pub const EM_RISCV: u16 = 243;

pub const PT_LOAD: u32 = 1;
/// The flag of a segment that may be written, in p_flags.
pub const PF_W: u32 = 2;

pub const SHT_SYMTAB: u32 = 2;

pub const SHT_STRTAB: u32 = 3;

pub const SHN_UNDEF: u16 = 0;
/// The type of a symbol of a global, `st_info & 15`.
pub const STT_OBJECT: u8 = 1;
/// The type of a symbol of a function.
pub const STT_FUNC: u8 = 2;
