//! Memory as the program keeps it, which contracts see as the bytes by address of `memory_spec`.

ghost use Rattle.std.specs.Prelude.{◌≡◌, IfOk, OnOk, OnErr};
ghost use Rattle.std.specs.FinMap as map;
ghost use Rattle.memory_spec.specs.Memory.{byte_at};

use std::alloc::{AllocError, Global};
use std::collections::BTreeMap;
use std::marker::Model;

/// Bytes by address. An address that was never written has 0.
#[derive(Drop)]
pub struct Memory {
    bytes: BTreeMap<u32, u8>,
}

impl Model for Memory {
    ghost use Rattle.memory_spec.specs.Memory.{Memory as Bytes};
    ghost use Rattle.std.specs.FinMap as map;
    ghost use Rattle.std.specs.Coded.{coded_ℕ};

    ghost Value = { Bytes };

    ghost coded = { map.code coded_ℕ coded_ℕ };

    ghost view = { λ m. map.from_entries m.bytes.entries };
}

impl Memory {
    /// No byte is written.
    pub fn new(alloc: Global) -> Memory
        ensures { result ≡ map.empty }
    {
        Memory {
            bytes: BTreeMap::new(alloc),
        }
    }

    /// The same bytes, in memory of their own.
    pub fn copy(&self) -> Result<Memory, AllocError>
        ensures { IfOk result (λ other. other ≡ self.now) }
    {
        let bytes = self.bytes.clone()?;
        Ok(Memory { bytes })
    }

    /// The byte at an address.
    pub fn byte(&self, address: u32) -> u8
        ensures { result ≡ byte_at self.now address }
    {
        match self.bytes.get(&address) {
            Some(byte) => *byte,
            None => 0,
        }
    }

    /// Writes a byte. When out of memory nothing changes.
    pub fn put(&mut self, address: u32, byte: u8) -> Result<(), AllocError>
        ensures ok { OnOk result (self.new ≡ map.insert self.old address byte) }
        ensures err { OnErr result (self.new ≡ self.old) }
    {
        let _ = self.bytes.insert(address, byte)?;
        Ok(())
    }
}
