//! Graphs of basic, conditional and call nodes over terms, and transition systems.
//!
//! The main type is [`Graph`], whose nodes share the terms of a bank; [`validate`] is true exactly
//! where each node that is named exists and each term is well sorted. The trait [`Walks`] is what
//! the proofs of simulation know of a transition system; the run of a set of graphs ([`GraphRun`])
//! is one. Graphs and their runs are defined in `graph_core_spec`, transition systems in
//! `graph_core_spec`; `specs/Graphs.antt` has the graph of trees that a [`Graph`] is.
#![tactic(auto)]

mod graph;
mod run;
mod shared;
mod sharing;
mod validity;
mod variables;
mod walks;

pub use graph::{Binding, Graph, Node};
pub use graph_core_spec::Next;
pub use run::{GraphRun, callee_runs_as_alone, steps_keep_fixed_bytes, valid_run_keeps_sorts};
pub use shared::{SharedBinding, SharedNode};
pub use validity::validate;
pub use walks::{
    Walks, arrivals_add_up, ended_run_stays, leading_is_transitive, run_goes_on,
    run_stops_as_its_rest, run_stops_once, start_is_no_stop, steps_keep_what_always_holds,
};
