//! What the C functions of a unit call: the graph of their calls, by numbers.
//!
//! A name of the file scope has as its number its index in the order of the first declarations, so
//! that the first name in the source is the one of the least number. [`call_graph`] gives for each
//! number those of the functions that its body calls, exactly as `pair_setup_spec` has it
//! (`specs/SourceReach.antt` there); the names are defined in `specs/Names.antt`.
//!
//! Such a graph is, for each node, the list of the nodes that it calls; a node that isn't there
//! calls nothing. [`reached`] and [`extend`] give exactly what is reached, [`is_cyclic`] answers
//! exactly whether a cycle is, and each depth that [`depths`] gives is one; of a node from which
//! only nodes of the graph are reached it gives each below 2^64 (`specs/Graph.antt`).
#![tactic(auto)]

mod calling;
mod cycle;
mod graph;
mod numbers;
mod ordering;
mod reaching;
mod settling;

pub use cycle::is_cyclic;
pub use graph::call_graph;
pub use numbers::{body_at, name_at, number};
pub use reaching::{called, extend, reached};
pub use settling::depths;
