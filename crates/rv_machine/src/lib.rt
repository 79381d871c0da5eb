//! The RV32IM machine as a program, by which the definitions can be tried.
//!
//! The main type is [`Machine`]: 32 registers, pc and [`Memory`], which contracts see as the record
//! of `rv_machine_spec`. [`step`] and [`run`] are `step` and `after` of `rv_machine_spec`
//! (`specs/Step.antt`), exactly; at a trap, and when out of memory, the machine is as it was before
//! the step. [`effects::effect`] says what an instruction does, its operands read, and allocates
//! nothing; it is `effect_of` in `specs/Effects.antt`, and what an [`Effect`] means for the machine
//! is `applied`.

#![tactic(auto)]

pub mod effects;
mod machine;
mod memory;
mod stepping;

pub use machine::Machine;
pub use memory::Memory;
use rv_instr::{LoadKind, Reg, StoreKind};
pub use stepping::{run, step};

/// What an instruction does to the machine, its operands read.
#[derive(Clone, Copy, Debug)]
pub enum Effect {
    /// The value goes into the register, and the next instruction follows.
    Put {
        rd: Reg,
        value: u32,
    },
    /// The address of the next instruction goes into the register, and the target follows.
    Link {
        rd: Reg,
        target: u32,
    },
    /// The target follows.
    Goto {
        target: u32,
    },
    /// What the load reads at the address goes into the register, and the next instruction follows.
    Load {
        kind: LoadKind,
        rd: Reg,
        address: u32,
    },
    /// The value is stored at the address, and the next instruction follows.
    Store {
        kind: StoreKind,
        address: u32,
        value: u32,
    },
    /// The next instruction follows.
    Nothing,
    /// The instruction traps.
    Trap,
}

/// How a step ended, unless out of memory.
#[derive(Clone, Copy, Debug)]
pub enum Stepped {
    /// The instruction is executed.
    Went,
    /// The instruction traps; the machine is as it was.
    Trapped,
}

/// How a run ended, unless out of memory.
#[derive(Clone, Copy, Debug)]
pub enum Ran {
    /// pc is the address to stop at.
    Stopped,
    /// An instruction traps; the machine is as it was before it.
    Trapped,
    /// All steps are taken, and pc is another address.
    More,
}
