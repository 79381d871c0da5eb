//! Memory of bytes, as the machine, the C source and the terms see it: bytes by address
//! (`specs/Memory.antt`), zones of addresses (`specs/Zones.antt`), and runs of fixed bytes
//! (`specs/Runs.antt`), which are [`Run`]s in the program. Of this only that type runs.
#![tactic(auto)]

/// Bytes at addresses one after the other.
#[derive(Drop)]
pub struct Run {
    /// The address of the first byte.
    pub start: u32,
    /// The bytes.
    pub bytes: Vec<u8>,
}
