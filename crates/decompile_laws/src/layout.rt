//! One layout of a code graph: the entry's landing node, then the nodes of each instruction in the
//! order of addresses, a call's landing node directly after the call.
//!
//! `specs/Layout.antt` has the layout; the law of the crate says that a graph laid out so is the
//! code graph of the function. Nothing of the crate runs.

ghost use Rattle.decompile_laws.specs.Layout.{LaidAreCodeGraphs};

/// A graph that is laid out so, of all that a function without faults reaches, is the code graph of
/// the function.
pub fn laid_are_code_graphs()
    ensures { LaidAreCodeGraphs }
{}
