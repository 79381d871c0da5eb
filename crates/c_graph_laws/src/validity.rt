//! The law that the graphs of a typed unit are valid.

ghost use Rattle.c_graph_laws.specs.Valid.{SourceGraphsAreValid};

/// Each graph of a typed unit is valid: each node that is named is there, and each term is well
/// sorted.
pub fn source_graphs_are_valid()
    ensures { SourceGraphsAreValid }
{}
