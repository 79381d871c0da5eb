//! Laws of frames with inlined calls (`graph_inline_spec`). A part of a proof has a graph of its
//! own on each side, with calls inlined into it, beside the graphs that its functions call: its
//! runs fail, return and give results as the function's do, and where its frame is simulated, the
//! function's is. Nothing of the crate runs: each function's clause is one law, and its body is
//! empty.
#![tactic(auto)]

pub mod laws;
