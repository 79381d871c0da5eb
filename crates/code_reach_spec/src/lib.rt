//! The functions of a file, and what is wrong with them.
//!
//! `specs/Code.antt` has which instructions a function reaches, what it calls, how deep its stack
//! goes, and what it means that a memory holds the fixed bytes. `specs/Faults.antt` has what is
//! wrong with a function, where, and which fault is the first; `specs/FaultAt.antt` has the first
//! fault of an instruction as a function. [`CodeKind`] names the kinds.
#![tactic(auto)]

/// Why the code of a function is refused, in the order in which kinds at one address are answered.
#[derive(Clone, Copy, Debug)]
pub enum CodeKind {
    /// A call's target is no function.
    NoFunction,
    /// The function's symbols have two values.
    Ambiguous,
    /// The function has no bytes.
    Empty,
    /// A byte of the function is not fixed by the file.
    Writable,
    /// The function doesn't begin or end at a multiple of 4.
    Misplaced,
    /// A word that is reached is no instruction.
    Undecoded,
    /// A jump to an address that the file doesn't determine, as is the second word of an AUIPC pair
    /// that can be reached without the first; or one that keeps the return address in a register
    /// other than x1.
    Indirect,
    /// Control goes out of the function by other means than a call, a return, or a jump to a
    /// function.
    Leaves,
    /// The function shares bytes with another one.
    Overlap,
}
