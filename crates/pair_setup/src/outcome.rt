//! What pairing answers.

use code_reach::CodeFault;
use graph_core::Graph;
use indexmap::IndexMap;
use pair_setup_spec::PairKind;

/// A listed function.
#[derive(Clone, Copy)]
pub struct Function {
    /// Where its code begins.
    pub entry: u32,
    /// How many bytes its code has.
    pub size: u32,
    /// How many bytes of stack it takes, with all that it calls.
    pub stack: u64,
}

/// Listed functions, each of which has code and a source that can be compared.
#[derive(Drop)]
pub struct Pairs {
    /// The listed functions, in the order of the list.
    pub functions: Vec<Function>,
    /// The entries of all functions that their code reaches, ascending, each once.
    pub entries: Vec<u32>,
    /// The graphs of the functions at these entries, in their order.
    pub code: Vec<Graph>,
    /// The number of the first node of each instruction in these graphs, by its address.
    pub firsts: Vec<IndexMap<u32, usize>>,
}

/// A name of which a fault speaks.
#[derive(Clone, Copy)]
pub enum Named {
    /// None: nothing is listed.
    Nothing,
    /// The one at an index of the list.
    Listed(usize),
    /// The one of a number, as [`pair_setup_calls::name_at`] gives it.
    Declared(usize),
}

/// Why a list has no pairs.
#[derive(Clone, Copy)]
pub enum PairFault {
    /// A function can't be paired, and the name of which that speaks.
    Refused(PairKind, Named),
    /// The code of the function at an index of the list has a fault; this is the first.
    Code(CodeFault, usize),
    /// A graph has more than [`tv_limits::MAX_NODES`] nodes.
    Nodes,
}
