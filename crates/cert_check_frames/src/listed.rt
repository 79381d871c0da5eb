//! Listed functions.

use graph_core::GraphRun;
use indexmap::IndexMap;
use memory_spec::Run;
use proof_tree::Setting;
use proof_tree_spec::{Nodes, Place};
use sim_rules_terms::Convention;
use term_core::Term;
use term_core_spec::Variable;

/// A variable that has the value of a term.
#[derive(Drop)]
pub struct Fact {
    /// The variable.
    pub variable: Variable,
    /// The term.
    pub term: Box<Term>,
}

/// The node of a place of a source function in its graph.
#[derive(Clone, Copy)]
pub struct PlaceNode {
    /// The place.
    pub place: Place,
    /// The node.
    pub node: usize,
}

/// A function of which a certificate may have a part, and the frame at its entry: from the nodes at
/// which both graphs begin to their returns.
#[derive(Clone, Copy)]
pub struct Listed<'a> {
    /// Its name.
    pub name: &'a [u8],
    /// How much stack its code takes, in bytes.
    pub stack: u32,
    /// The run of the binary.
    pub binary: GraphRun<'a>,
    /// The run of the source.
    pub source: GraphRun<'a>,
    /// Where both sides begin.
    pub nodes: Nodes,
    /// The path of the source body there: none, since nothing is inlined.
    pub path: &'a [u32],
    /// What the variables are.
    pub setting: &'a Setting,
    /// What holds at the entry.
    pub entry: &'a [Box<Term>],
    /// What holds where both sides have returned, and where their memories may differ.
    pub convention: &'a Convention<'a>,
    /// The terms of the binary's variables at the entry, the first of each; others are themselves.
    pub binary_terms: &'a [Fact],
    /// The terms of the source's.
    pub source_terms: &'a [Fact],
    /// The fixed bytes.
    pub runs: &'a [Run],
    /// The first node of each instruction of its code, by address.
    pub firsts: Option<&'a IndexMap<u32, usize>>,
    /// The nodes of the places of its source.
    pub places: &'a [PlaceNode],
}
