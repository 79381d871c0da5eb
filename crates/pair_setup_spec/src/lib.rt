//! Pairs of functions: what a listed name's C source and code reach, why they can't be paired, and
//! what pairing a list of functions with their source answers.
//!
//! `specs/SourceReach.antt` says which functions the body of a C function calls and reaches, and
//! which globals it names; `specs/Faults.antt` which faults a list of names has, and which of them
//! is answered; `specs/Code.antt` which code has a fault, `specs/Nodes.antt` which graph is too
//! large, and `specs/Outcome.antt` which of all answers a list has. Of the crate only the
//! enum below runs.

#![tactic(auto)]

/// Why a list of functions can't be paired. They are in the order in which those of one function
/// are answered.
#[derive(Clone, Copy)]
pub enum PairKind {
    /// The list is empty.
    NothingListed,
    /// A listed function, or one that its source reaches, has no body.
    NoSource,
    /// No FUNC symbol has the listed name.
    NoSymbol,
    /// A global that a body names which is reached has no OBJECT symbol, or symbols of several
    /// values, or another size than its type.
    ObjectSize,
    /// A cycle of calls is reached, in the source or in the code.
    Recursive,
    /// The function takes more than [`MAX_STACK`](tv_limits::MAX_STACK) bytes of stack.
    StackTooDeep,
}
