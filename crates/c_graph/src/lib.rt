//! The graphs of C functions, from their typed cores: [`translate`] gives exactly `graph_of` and
//! `points_of` of `c_graph_spec` (`specs/SourceGraph.antt` there) for a function of a unit, and
//! [`graphs`] all graphs of a unit.
//!
//! The terms of a statement are built in a bank of their own ([`c_graph_terms`]), its node is
//! written over that bank, and both are then added to the graph. Where each statement begins is
//! known before any term is made ([`c_graph_layout`]).
#![tactic(auto)]

mod bindings;
mod block;
mod cases;
mod drafts;
mod emission;
mod frame;
mod imports;
mod places;
mod points;
mod selection;
mod simple;
mod source_graph;
mod statement;

pub use frame::source_number;
pub use points::Point;
pub use source_graph::{SourceGraph, graphs, translate};
