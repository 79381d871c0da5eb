//! The laws of what the graphs of C keep at every step.

ghost use Rattle.c_graph_laws.specs.Keeps.{NodesBindNoZone, RunsKeepBytes};

/// From the entry of a function on, the memory has the same fixed bytes, and the same bytes from
/// 2^32 on, after every number of steps: a store comes after its tests, and addresses wrap.
pub fn runs_keep_bytes()
    ensures { RunsKeepBytes }
{}

/// The zone is the same at every step: no node binds its ends, in its own function's frame or in
/// that of a callee.
pub fn nodes_bind_no_zone()
    ensures { NodesBindNoZone }
{}
