//! The graph of a function of an executable.
//!
//! `specs/State.antt` says which values a machine's registers and its memory of bytes give the
//! variables of terms; `specs/InstructionTerms.antt` has the term of each form of instruction;
//! `specs/Blocks.antt` the nodes of an instruction, and `specs/CodeGraph.antt` when a graph is that
//! of a function: its nodes have names, and a numbering of the names is all that the graph adds.
//! Nothing of the crate runs.

#![tactic(auto)]
