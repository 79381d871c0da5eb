ghost use Rattle.std.specs.Prelude.{◌≡◌, ◌+◌, ◌%◌, ◌^◌, ◌<◌, IfOk, OnOk, OnErr, Some, replicate};
ghost use Rattle.rv_machine_spec.specs.Machine.{IsMachine, read_register, write_register, past};
ghost use Rattle.rv_machine_spec.specs.Machine.{load_word};
ghost use Rattle.rv_machine_spec.specs.Step.{put, next};
ghost use Rattle.rv_machine.specs.Effects.{applied, IsAligned};
ghost use Rattle.rv_machine.specs.Stores.{load_size, store_size};
ghost use Rattle.rv_machine.specs.Runs.{HasApplied};

use crate::memory::Memory;
use crate::{Effect, Stepped};
use rv_instr::{LoadKind, Reg, StoreKind};
use std::alloc::AllocError;
use std::marker::Model;

/// A machine: 32 registers, pc and memory. Contracts see it as the record of `rv_machine_spec`.
#[derive(Drop)]
pub struct Machine {
    registers: [u32; 32],
    pc: u32,
    memory: Memory,
}

impl Model for Machine {
    ghost use Rattle.rv_machine_spec.specs.Machine.{Machine as State};
    ghost use Rattle.rv_machine.specs.Coded.{state_code};
    ghost use Rattle.rv_machine.specs.Cells.{HasWords};

    ghost Value = { State };

    ghost coded = { state_code };

    ghost view = { λ m. record { registers = m.registers; pc = m.pc; memory = m.memory } };

    ghost invariant = { λ m. HasWords m.registers m.pc };
}

impl Machine {
    /// A machine whose registers are all 0.
    pub fn new(pc: u32, memory: Memory) -> Machine
        ensures { result ≡ record { registers = replicate 32 0; pc = pc; memory = memory } }
    {
        Machine {
            registers: [0; 32],
            pc,
            memory,
        }
    }

    /// Every machine is one: 32 registers, words, and bytes at addresses.
    pub fn is_machine(&self)
        ensures { IsMachine self.now }
    {
        let _ = &self.pc;
        self.memory.has_cells();
    }

    /// The value of a register.
    #[tactic(auto, unfolding(rv_machine_spec::specs::Machine::read_register))]
    pub fn register(&self, register: Reg) -> u32
        ensures { result ≡ read_register self.now register }
    {
        if register.number() == 0 {
            0
        } else {
            self.registers[usize::from(register.number())]
        }
    }

    /// The address of the next instruction.
    pub fn pc(&self) -> u32
        ensures { result ≡ self.now.pc }
    {
        self.pc
    }

    /// The memory.
    pub fn memory(&self) -> &Memory
        ensures { result.now ≡ self.now.memory }
    {
        &self.memory
    }

    /// The word at pc.
    pub fn word(&self) -> u32
        ensures { result ≡ load_word self.now.memory self.now.pc }
    {
        self.memory.word(self.pc)
    }

    /// Writes a register; nothing is written to x0.
    #[tactic(auto, unfolding(rv_machine_spec::specs::Machine::write_register))]
    pub fn set_register(&mut self, rd: Reg, value: u32)
        ensures { self.new ≡ write_register self.old rd value }
    {
        if rd.number() != 0 {
            self.registers[usize::from(rd.number())] = value;
        }
    }

    fn set_pc(&mut self, target: u32)
        ensures { self.new ≡ record self.old { pc = target } }
    {
        self.pc = target;
    }

    fn advance(&mut self)
        ensures { self.new ≡ next self.old }
    {
        self.pc = self.pc.wrapping_add(4);
    }

    fn put(&mut self, rd: Reg, value: u32)
        ensures { self.new ≡ put rd value self.old }
    {
        self.set_register(rd, value);
        self.advance();
    }

    /// Does an effect.
    pub fn apply(&mut self, effect: Effect) -> Result<Stepped, AllocError>
        requires { IsAligned effect }
        ensures done { IfOk result (λ s. HasApplied s effect self.old self.new) }
        ensures err { OnErr result (self.new ≡ self.old) }
    {
        match effect {
            Effect::Put { rd, value } => self.put(rd, value),
            Effect::Link { rd, target } => self.link(rd, target),
            Effect::Goto { target } => self.set_pc(target),
            Effect::Load { kind, rd, address } => self.load(kind, rd, address),
            Effect::Store {
                kind,
                address,
                value,
            } => self.store(kind, address, value)?,
            Effect::Nothing => self.advance(),
            Effect::Trap => return Ok(Stepped::Trapped),
        }
        Ok(Stepped::Went)
    }

    fn link(&mut self, rd: Reg, target: u32)
        ensures { self.new ≡ record (write_register self.old rd
            (past self.old.pc 4)) { pc = target } }
    {
        let back = self.pc.wrapping_add(4);
        self.set_register(rd, back);
        self.set_pc(target);
    }

    fn load(&mut self, kind: LoadKind, rd: Reg, address: u32)
        requires { address % load_size kind ≡ 0 }
        ensures { applied (Effect.Load kind rd address) self.old ≡ Some self.new }
    {
        let value = self.memory.load(kind, address);
        self.put(rd, value);
    }

    fn store(&mut self, kind: StoreKind, address: u32, value: u32) -> Result<(), AllocError>
        requires { address % store_size kind ≡ 0 }
        ensures ok { OnOk result (applied (Effect.Store kind address value) self.old
            ≡ Some self.new) }
        ensures err { OnErr result (self.new ≡ self.old) }
    {
        self.memory.store(kind, address, value)?;
        self.advance();
        Ok(())
    }
}
