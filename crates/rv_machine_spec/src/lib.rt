//! What an RV32IM machine is and what one instruction does to it, as definitions; no code.
//!
//! `specs/Machine.antt` has the machine: 32 registers, pc, and memory as a finite map from
//! addresses to bytes. `specs/Arithmetic.antt` has the operations on words, and `specs/Step.antt`
//! has `execute`, `step` and `after`. They say what the RISC-V unprivileged specification says of
//! RV32I and M; where it leaves a choice, misaligned accesses, ECALL and EBREAK trap. `proofs/` has
//! the lemmas that most users of these definitions want.

#![tactic(auto)]
