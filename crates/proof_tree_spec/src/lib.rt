//! Proofs that a binary function does what its source says: points, frames, goals and rules.
//!
//! `specs/Cuts.antt` defines the rules that cut runs in two (Split, Call, Hold and Wait) over any
//! two transition systems: the frames of their sub-proofs, and what each asks. `specs/Frames.antt`
//! has frames over graphs and terms, `specs/Proofs.antt` proofs and how deep they nest,
//! `specs/Scope.antt` the terms that they may have as lines. Of the crate only the types
//! below run.

#![tactic(auto)]

/// How many arrivals count on each side.
#[derive(Clone, Copy)]
pub struct Counts {
    /// On the binary side.
    pub binary: usize,
    /// On the source side.
    pub source: usize,
}

/// A node on each side.
#[derive(Clone, Copy)]
pub struct Nodes {
    /// On the binary side.
    pub binary: usize,
    /// On the source side.
    pub source: usize,
}

/// Where a point of a source function is. Loops and calls are numbered in source order.
#[derive(Clone, Copy)]
pub enum Place {
    /// the test of a loop
    Test(u32),
    /// the start of a loop's body
    Body(u32),
    /// a call
    Call(u32),
}

/// Where a rule cuts the runs of a frame.
#[derive(Clone, Copy)]
pub enum Cut {
    /// at a node on each side, as Split and Hold do
    At(Nodes),
    /// at a call on each side, whose runs continue at the landing nodes after them
    Calls(Nodes, Nodes),
}
