//! The law that a C function and its graph run together.
//!
//! `specs/Together.antt` says when variables have what a C run has, and what it is that both runs
//! end alike. The graphs are those of `c_graph_spec`, the runs of C those of `c_run_spec`.

ghost use Rattle.c_graph_laws.specs.Together.{RunsTogether};
ghost use Rattle.c_graph_laws.specs.Starts.{StartsExist};

/// From every start with variables alike, the C run of a call breaks a guard with some number of
/// turns exactly if the run of the graphs fails; it returns exactly if the graphs return, with the
/// same result and memory; and it is endless exactly if that run is.
pub fn functions_and_graphs_run_together()
    ensures { RunsTogether }
{}

/// For a function with a body, and whatever arguments of its parameters' types, memory and zone,
/// there are variables alike: each such call has a start.
pub fn calls_have_starts()
    ensures { StartsExist }
{}
