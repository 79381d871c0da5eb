//! The rules of a proof that leave obligations: what these say of the runs of two sets of graphs.
//!
//! `specs/Points.antt` defines what a term says of a state of each side, `specs/Systems.antt` a
//! frame over graphs and terms as one over their transition systems, and what its simulation is;
//! `specs/Rules.antt` has the obligations of Leaf and Restrict, `specs/Calls.antt` those of Call,
//! and `specs/Proper.antt` what is assumed of a frame. The laws are the clauses of [`laws`]: valid
//! obligations, and the simulations of the sub-proofs, give the simulation of a frame.

#![tactic(auto)]

pub mod laws;
pub mod samples;

/// A side of a function.
#[derive(Clone, Copy)]
pub enum Side {
    /// the binary
    Binary,
    /// the source
    Source,
}
