//! What a C function does with a number of turns. A turn is taken before each round of a loop and
//! at each call, so a run with a number of turns always has an outcome. The run of a call is
//! `c_run` in `specs/Calls.antt`, over the typed core, by its statements (`specs/Execution.antt`),
//! expressions (`specs/Evaluation.antt`) and accesses to memory (`specs/Accesses.antt`). [`Guard`]
//! names what a run may not do. Nothing of it runs.
#![tactic(auto)]

/// What a run may not do, in the order of their numbers. A run that does it breaks this guard, and
/// has no further meaning.
#[derive(Clone, Copy)]
pub enum Guard {
    /// It reads a local that has no value yet.
    UnsetLocal,
    /// A sum, difference, product or negation is outside its signed type (ISO C11, 6.5p5).
    SignedOverflow,
    /// A divisor is 0, or the least number of a signed type is divided by -1 (6.5.5).
    Division,
    /// A shift count is below 0 or not below the width (6.5.7).
    ShiftCount,
    /// It accesses address 0, an address at no multiple of the alignment, or one past 2^32; or it
    /// takes a member by a pointer that is 0 or misaligned (6.5.3.2).
    Access,
    /// It accesses the barred zone, where the machine's code has its stack.
    BarredZone,
    /// It writes a byte that the file fixes.
    FixedByte,
    /// The sum or difference of a pointer and an integer is outside 0 to 2^32 - 1 (6.5.6).
    PointerRange,
    /// An index is below 0 or not below the declared length of the array (6.5.6).
    Index,
    /// It reaches the end of a function that returns a value (6.9.1).
    MissingReturn,
}
