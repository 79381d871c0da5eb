//! The scripts that a search for proofs tries: which loops of both sides are matched, which calls
//! are inlined, where cuts are, and how often a loop that isn't cut may turn.
//!
//! `specs/Loops.antt` defines the loops of a graph, `specs/Inlining.antt` which calls are inlined,
//! `specs/Choices.antt` the choices of a script in their order, and `specs/Shapes.antt` the shape
//! that a choice gives, which is a tree of rules without lines. Of the crate only the types below
//! run.
#![tactic(auto)]

pub mod laws;
pub mod samples;

/// Which calls are inlined.
#[derive(Clone, Copy)]
pub enum Inlining {
    /// none
    Never,
    /// those of functions without a part, and of those that aren't called equally often on both
    /// sides
    Needed,
    /// all
    Always,
}

/// At which point of a loop of the source a cut is.
#[derive(Clone, Copy)]
pub enum LoopPoint {
    /// its test
    Test,
    /// the start of its body
    Body,
}
