//! Laws: the graph of a function without faults is valid, binds registers and memory alone, and has
//! one size.
//!
//! Graphs of code are those of `decompile_spec`, validity that of `graph_core_spec`. Nothing of the
//! crate runs.

ghost use Rattle.decompile_laws.specs.Valid.{CodeGraphsAreValid, CodeGraphsBindTheState};
ghost use Rattle.decompile_laws.specs.Valid.{CodeGraphsHaveOneSize};

/// A code graph of a function without faults is valid, where the fixed bytes lie below 2^32.
pub fn code_graphs_are_valid()
    ensures { CodeGraphsAreValid }
{}

/// A code graph binds, in its own function's frame, only registers and the memory of the binary; so
/// the entry registers and parameters keep their values until the function returns.
pub fn code_graphs_bind_the_state()
    ensures { CodeGraphsBindTheState }
{}

/// All code graphs of one function have equally many nodes, however graphs and nodes are numbered.
pub fn code_graphs_have_one_size()
    ensures { CodeGraphsHaveOneSize }
{}
