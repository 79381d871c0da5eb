ghost use Rattle.std.specs.Prelude.{ℕ, ◌≡◌, ◌+◌, ◌%◌, ◌^◌, ◌<◌, [], IsSome, IfOk, OnOk, OnErr};
ghost use Rattle.std.specs.Prelude.{Option, Some, None};
ghost use Rattle.std.specs.FinMap as map;
ghost use Rattle.memory_spec.specs.Memory.{byte_at};
ghost use Rattle.rv_machine_spec.specs.Machine.{store_byte, load_half as half_at};
ghost use Rattle.rv_machine_spec.specs.Machine.{load_word as word_at};
ghost use Rattle.rv_machine_spec.specs.Step.{load as load_of, store as store_of};
ghost use Rattle.rv_machine_spec.specs.Arithmetic.{extended};
ghost use Rattle.rv_machine.specs.Stores.{put_back, store_bytes, load_size, store_size};

use rv_instr::{LoadKind, StoreKind};
use std::alloc::{AllocError, Global};
use std::collections::BTreeMap;
use std::marker::Model;

/// The bytes of a machine's memory. An address that was never written reads 0.
#[derive(Drop)]
pub struct Memory {
    bytes: BTreeMap<u32, u8>,
}

impl Model for Memory {
    ghost use Rattle.memory_spec.specs.Memory.{Memory as Bytes};
    ghost use Rattle.rv_machine.specs.Cells.{AllCells};
    ghost use Rattle.std.specs.FinMap as map;
    ghost use Rattle.std.specs.Coded.{coded_ℕ};

    ghost Value = { Bytes };

    ghost coded = { map.code coded_ℕ coded_ℕ };

    ghost view = { λ m. map.from_entries m.bytes.entries };

    ghost invariant = { λ m. AllCells m.bytes.entries };
}

impl Memory {
    /// No byte is written.
    pub fn new(alloc: Global) -> Memory
        ensures { result ≡ map.empty }
    {
        Memory {
            bytes: BTreeMap::new(alloc),
        }
    }

    /// Every address that is there is a word, and what it has is a byte.
    pub fn has_cells(&self)
        ensures { (a b : ℕ) → map.get self.now a ≡ Some b → (a < 2 ^ 32) × (b < 256) }
    {
        let _ = &self.bytes;
    }

    /// The byte at an address.
    pub fn byte(&self, address: u32) -> u8
        ensures { result ≡ byte_at self.now address }
    {
        match self.bytes.get(&address) {
            Some(byte) => *byte,
            None => 0,
        }
    }

    /// Writes one byte, and answers what was there. When out of memory nothing changes.
    pub fn put(&mut self, address: u32, byte: u8) -> Result<Option<u8>, AllocError>
        ensures old { IfOk result (λ old. old ≡ map.get self.old address) }
        ensures ok { OnOk result (self.new ≡ store_byte self.old address byte) }
        ensures err { OnErr result (self.new ≡ self.old) }
    {
        Ok(self.bytes.insert(address, byte)?)
    }

    /// Undoes a write: `old` is what was at the address before it.
    fn restore(&mut self, address: u32, old: Option<u8>)
        requires { IsSome (map.get self.old address) }
        ensures { self.new ≡ put_back self.old address old }
    {
        match old {
            Some(byte) => {
                let _ = self.bytes.insert(address, byte);
            }
            None => {
                let _ = self.bytes.remove(&address);
            }
        }
    }

    /// Writes the bytes from an address on. When out of memory nothing changes.
    fn store_bytes(&mut self, address: u32, bytes: &[u8]) -> Result<(), AllocError>
        ensures ok { OnOk result (self.new ≡ store_bytes self.old address bytes.now) }
        ensures err { OnErr result (self.new ≡ self.old) }
    {
        let Some((first, rest)) = bytes.split_first() else {
            return Ok(());
        };
        let old = self.put(address, *first)?;
        match self.store_bytes(address.wrapping_add(1), rest) {
            Ok(()) => Ok(()),
            Err(error) => {
                self.restore(address, old);
                Err(error)
            }
        }
    }

    /// What a load of an aligned address puts into its register.
    #[tactic(auto, unfolding(rv_machine_spec::specs::Step::load))]
    pub fn load(&self, kind: LoadKind, address: u32) -> u32
        requires { address % load_size kind ≡ 0 }
        ensures { load_of kind self.now address ≡ Some result }
    {
        match kind {
            LoadKind::Byte => sign_extended(u32::from(self.byte(address)), 8),
            LoadKind::Half => sign_extended(self.half(address), 16),
            LoadKind::Word => self.word(address),
            LoadKind::ByteUnsigned => u32::from(self.byte(address)),
            LoadKind::HalfUnsigned => self.half(address),
        }
    }

    #[tactic(auto, unfolding(rv_machine_spec::specs::Machine::load_half))]
    fn half(&self, address: u32) -> u32
        ensures value { result ≡ half_at self.now address }
        ensures below { result < 2 ^ 16 }
    {
        let low = u32::from(self.byte(address));
        let high = u32::from(self.byte(address.wrapping_add(1)));
        low + 256 * high
    }

    /// The four bytes from an address on as a word.
    #[tactic(auto, unfolding(rv_machine_spec::specs::Machine::load_word))]
    pub fn word(&self, address: u32) -> u32
        ensures { result ≡ word_at self.now address }
    {
        let a = u32::from(self.byte(address));
        let b = u32::from(self.byte(address.wrapping_add(1)));
        let c = u32::from(self.byte(address.wrapping_add(2)));
        let d = u32::from(self.byte(address.wrapping_add(3)));
        a + (b << 8) + (c << 16) + (d << 24)
    }

    /// A store to an aligned address. When out of memory nothing changes.
    pub fn store(&mut self, kind: StoreKind, address: u32, value: u32) -> Result<(), AllocError>
        requires { address % store_size kind ≡ 0 }
        ensures ok { OnOk result (store_of kind self.old address value ≡ Some self.new) }
        ensures err { OnErr result (self.new ≡ self.old) }
    {
        let bytes = value.to_le_bytes();
        match kind {
            StoreKind::Byte => self.store_bytes(address, &bytes[..1]),
            StoreKind::Half => self.store_bytes(address, &bytes[..2]),
            StoreKind::Word => self.store_bytes(address, &bytes),
        }
    }
}

/// The low `count` bits, sign extended to a word.
fn sign_extended(bits: u32, count: u32) -> u32
    requires some { 0 < count }
    requires short { count < 32 }
    requires below { bits < 2 ^ count }
    ensures { result ≡ extended count bits }
{
    if bits < 1 << (count - 1) {
        bits
    } else {
        bits.wrapping_sub(1 << count)
    }
}
