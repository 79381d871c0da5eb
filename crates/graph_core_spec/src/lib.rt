//! Transition systems, and graphs of basic, conditional and call nodes over terms.
//!
//! `specs/TransitionSystem.antt` defines a system, its runs, its arrivals at nodes and its stops;
//! `specs/Simulation.antt` when a binary system and a source system agree up to their stops.
//! `specs/Graph.antt` defines graphs and when one is valid; `specs/Run.antt` the run of a set of
//! graphs with a stack of waiting frames, as a transition system, and the paths of a graph;
//! `specs/Variables.antt` a graph's variables. Of the crate only the enum [`Next`] runs.

#![tactic(auto)]

/// Where a run continues.
#[derive(Clone, Copy)]
pub enum Next {
    /// at this node of the same graph
    At(usize),
    /// nowhere: the graph returns
    Ret,
    /// nowhere: the run fails
    Err,
}

/// A node, and a number of arrivals at it.
#[derive(Clone, Copy)]
pub struct Mark {
    /// The node.
    pub node: usize,
    /// How many arrivals.
    pub count: usize,
}
