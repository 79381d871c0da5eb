//! The laws of inlining: each function's clause is one law, and its body is empty.

ghost use Rattle.graph_inline_spec.specs.Kept.{CallsAloneAreInlined, SizesAreSums, StayValid};
ghost use Rattle.graph_inline_spec.specs.Kept.{RunsAreKept, FixedBytesAreKept};
ghost use Rattle.graph_inline_spec.specs.Kept.{OthersStayFresh, OthersStayUnbound, StaysUncalled};

/// There is no inlined graph exactly where the node is no call, or is not there.
pub fn calls_alone_are_inlined()
    ensures { CallsAloneAreInlined }
{}

/// The inlined graph has the nodes of the caller and of the callee, and one more.
pub fn sizes_are_sums()
    ensures { SizesAreSums }
{}

/// Where a call can be inlined there is the inlined graph, and it is valid.
pub fn inlined_graphs_are_valid()
    ensures { StayValid }
{}

/// From each node of the caller at which no function waits: the run of the set of graphs fails
/// exactly if the run of the set with the inlined graph fails, and returns exactly if that returns,
/// with the same values of all variables but those of the inlined call. The runs may begin with
/// different values of those.
pub fn runs_are_kept()
    ensures { RunsAreKept }
{}

/// Where a memory that the call doesn't bind on its return always holds the fixed bytes, it always
/// does in the run of the inlined graph.
pub fn fixed_bytes_are_kept()
    ensures { FixedBytesAreKept }
{}

/// A graph without variables of another instance has none after inlining: a further call can be
/// inlined at that instance.
pub fn other_instances_stay_fresh()
    ensures { OthersStayFresh }
{}

/// A function's own variable of another instance, such as a register at its entry, is bound by no
/// node of the inlined graph if by none of the caller.
pub fn other_instances_stay_unbound()
    ensures { OthersStayUnbound }
{}

/// No graph of the set with the inlined graph calls it.
pub fn inlined_graphs_stay_uncalled()
    ensures { StaysUncalled }
{}
