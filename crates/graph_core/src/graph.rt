//! Graphs over the terms of a bank.

ghost use Rattle.std.specs.Prelude.{◌≡◌, ◌<◌, ◌≤◌, ◌^◌, ◌∷◌, [], IfOk, OnOk, OnErr, All, length};
ghost use Rattle.std.specs.Prelude.{map};
ghost use Rattle.term_core.specs.Trees.{term_of};
ghost use Rattle.term_bank.specs.Nodes.{IsNode as IsTermNode, Holds, build, Extends};
ghost use Rattle.term_sorts.specs.Sorts.{AreSorts};
ghost use Rattle.graph_core_spec.specs.Graph as spec;
ghost use Rattle.graph_core_spec.specs.Graph.{empty, with_call, with_nodes};
ghost use Rattle.graph_core.specs.Shared.{shared_node_of, IsSharedNode};
ghost use Rattle.graph_core.specs.Graphs.{binding_of, bindings_of, graph_of, node_of};
ghost use Rattle.graph_core.specs.Graphs.{Adds, AreShared, Grows};

use crate::shared::{SharedBinding, SharedNode};
use crate::sharing::share;
use graph_core_spec::Next;
use std::alloc::{AllocError, Global};
use std::marker::Model;
use term_bank::{Bank, TermId, TermNode};
use term_core::Term;
use term_core_spec::{Sort, Variable};
use term_sorts::add_sorts;
use term_substitution::intern;

/// A variable, and the term whose value it gets.
#[derive(Drop)]
pub struct Binding {
    /// What is bound.
    pub variable: Variable,
    /// Its value, in terms of the values before.
    pub term: Box<Term>,
}

/// A node of a graph.
#[derive(Drop)]
pub enum Node {
    /// It binds variables, all at once, and continues. A landing node is one that binds none.
    Basic {
        /// What it binds.
        bindings: Vec<Binding>,
        /// Where it continues.
        next: Next,
    },
    /// It continues by a test.
    Cond {
        /// The test, a truth value.
        test: Box<Term>,
        /// Where it continues if the test holds.
        on_true: Next,
        /// Where it continues if it doesn't.
        on_false: Next,
    },
    /// It runs another graph, and continues at its landing node where that returns.
    Call {
        /// The index of that graph in the set.
        callee: usize,
        /// The callee's variables, in terms of the caller's.
        inputs: Vec<Binding>,
        /// Variables of the caller, in terms of the callee's.
        outputs: Vec<Binding>,
        /// The landing node.
        landing: usize,
    },
}

/// A graph. Its nodes share the terms of its bank, which has each term once. A node's number is its
/// index.
#[derive(Drop)]
pub struct Graph {
    alloc: Global,
    bank: Bank,
    // Of the first terms of the bank, among them those of the nodes.
    sorts: Vec<Option<Sort>>,
    nodes: Vec<SharedNode>,
    entry: usize,
}

impl Model for Graph {
    ghost use Rattle.graph_core.specs.Shared.{Stored, stored_code};

    ghost Value = { Stored };

    ghost coded = { stored_code };

    ghost use Rattle.graph_core.specs.Sorts.{IsStored};

    ghost view = { λ g. record { trees = g.bank; nodes = g.nodes.items; entry = g.entry } };

    ghost invariant = { λ g. IsStored g.bank g.sorts.items g.nodes.items };
}

impl Graph {
    /// A graph without nodes and terms, whose entry is to be node 0.
    pub fn new(alloc: Global) -> Self
        ensures graph { graph_of result ≡ empty }
        ensures trees { result.trees ≡ [] }
    {
        Graph {
            alloc,
            bank: Bank::new(alloc),
            sorts: Vec::new(alloc),
            nodes: Vec::new(alloc),
            entry: 0,
        }
    }

    /// How many nodes there are.
    pub fn len(&self) -> usize
        ensures count { result ≡ length (graph_of self.now).nodes }
        ensures small { result < 2 ^ 63 }
    {
        self.nodes.len()
    }

    /// The node at which a run begins.
    pub fn entry(&self) -> usize
        ensures { result ≡ (graph_of self.now).entry }
    {
        self.entry
    }

    /// Lets runs begin at a node.
    pub fn set_entry(&mut self, entry: usize)
        ensures graph { graph_of self.new ≡ record (graph_of self.old) { entry = entry } }
        ensures trees { self.new.trees ≡ self.old.trees }
    {
        self.entry = entry;
    }

    /// The terms.
    pub fn bank(&self) -> &Bank
        ensures { result.now ≡ self.now.trees }
    {
        &self.bank
    }

    /// The nodes, whose terms are in the bank.
    pub fn nodes(&self) -> &[SharedNode]
        ensures nodes { result.now ≡ self.now.nodes }
        ensures within { All (IsSharedNode (length self.now.trees)) result.now }
    {
        self.nodes.as_slice()
    }

    /// The sorts of the first terms, among them those of the nodes.
    pub(crate) fn sorts(&self) -> &[Option<Sort>]
        ensures sorts { AreSorts self.now.trees result.now }
        ensures within { All (IsSharedNode (length result.now)) self.now.nodes }
    {
        let _ = &self.nodes;
        self.sorts.as_slice()
    }

    /// The index of a node's term, which is added where it isn't there; the graph's nodes stay.
    pub fn add_term(&mut self, node: TermNode) -> Result<TermId, AllocError>
        requires { IsTermNode (length self.old.trees) node }
        ensures id { IfOk result (λ i. Holds self.new.trees i (build self.old.trees node)) }
        ensures within { IfOk result (λ i. i < length self.new.trees) }
        ensures extends { Extends self.old.trees self.new.trees }
        ensures longer { length self.old.trees ≤ length self.new.trees }
        ensures kept { graph_of self.new ≡ graph_of self.old }
    {
        self.bank.add(node)
    }

    /// Adds a node whose terms are in the bank, and answers its number.
    pub fn add_shared(&mut self, node: SharedNode) -> Result<usize, AllocError>
        requires { IsSharedNode (length self.old.trees) node }
        ensures number { IfOk result (λ number. number ≡ length (graph_of self.old).nodes) }
        ensures added { OnOk result (graph_of self.new
            ≡ with_nodes (graph_of self.old) (shared_node_of self.old.trees node ∷ [])) }
        ensures kept { OnErr result (graph_of self.new ≡ graph_of self.old) }
        ensures trees { self.new.trees ≡ self.old.trees }
    {
        add_sorts(&self.bank, &mut self.sorts)?;
        let number = self.nodes.len();
        self.nodes.push(node)?;
        Ok(number)
    }

    // Adds two nodes, and answers the number of the first.
    fn add_two(&mut self, first: SharedNode, second: SharedNode) -> Result<usize, AllocError>
        requires first { IsSharedNode (length self.old.trees) first }
        requires second { IsSharedNode (length self.old.trees) second }
        ensures { Adds self.old self.new (shared_node_of self.old.trees first
            ∷ shared_node_of self.old.trees second ∷ []) result }
    {
        add_sorts(&self.bank, &mut self.sorts)?;
        let number = self.nodes.len();
        self.nodes.reserve(2)?;
        self.nodes.push_reserved(first);
        self.nodes.push_reserved(second);
        Ok(number)
    }

    // The index of a tree, which is added to the bank.
    fn share_term(&mut self, term: &Term) -> Result<TermId, AllocError>
        ensures id { IfOk result (λ i. Holds self.new.trees i (term_of term.now)) }
        ensures grows { Grows self.old self.new }
    {
        intern(self.alloc, &mut self.bank, term)
    }

    // Bindings over the bank, to which their terms are added.
    fn share(&mut self, bindings: &[Binding]) -> Result<Vec<SharedBinding>, AllocError>
        ensures shared { IfOk result (λ found. AreShared self.new.trees
            (map binding_of bindings.now) found.items) }
        ensures grows { Grows self.old self.new }
    {
        share(self.alloc, &mut self.bank, bindings)
    }

    fn add_basic(&mut self, bindings: &[Binding], next: Next) -> Result<usize, AllocError>
        ensures { Adds self.old self.new
            (spec.Basic (map binding_of bindings.now) next ∷ []) result }
    {
        let bindings = self.share(bindings)?;
        self.add_shared(SharedNode::Basic { bindings, next })
    }

    fn add_test(&mut self, test: &Term, on_true: Next, on_false: Next) -> Result<usize, AllocError>
        ensures { Adds self.old self.new
            (spec.Cond (term_of test.now) on_true on_false ∷ []) result }
    {
        let test = self.share_term(test)?;
        self.add_shared(SharedNode::Cond {
            test,
            on_true,
            on_false,
        })
    }

    // What a call passes and takes back, over the bank.
    fn share_both(
        &mut self,
        inputs: &[Binding],
        outputs: &[Binding],
    ) -> Result<(Vec<SharedBinding>, Vec<SharedBinding>), AllocError>
        ensures inputs { IfOk result (λ found. AreShared self.new.trees
            (map binding_of inputs.now) found.0.items) }
        ensures outputs { IfOk result (λ found. AreShared self.new.trees
            (map binding_of outputs.now) found.1.items) }
        ensures grows { Grows self.old self.new }
    {
        let inputs = self.share(inputs)?;
        let outputs = self.share(outputs)?;
        Ok((inputs, outputs))
    }

    // Adds a call alone.
    fn add_call_at(
        &mut self,
        callee: usize,
        inputs: &[Binding],
        outputs: &[Binding],
        landing: usize,
    ) -> Result<usize, AllocError>
        ensures { Adds self.old self.new (spec.Call callee (map binding_of inputs.now)
            (map binding_of outputs.now) landing ∷ []) result }
    {
        let (inputs, outputs) = self.share_both(inputs, outputs)?;
        self.add_shared(SharedNode::Call {
            callee,
            inputs,
            outputs,
            landing,
        })
    }

    /// Adds a node, its terms to the bank, and answers its number. Out of memory, the bank may have
    /// some more terms.
    pub fn add(&mut self, node: Node) -> Result<usize, AllocError>
        ensures number { IfOk result (λ number. number ≡ length (graph_of self.old).nodes) }
        ensures added { OnOk result (graph_of self.new
            ≡ with_nodes (graph_of self.old) (node_of node ∷ [])) }
        ensures kept { OnErr result (graph_of self.new ≡ graph_of self.old) }
        ensures extends { Extends self.old.trees self.new.trees }
    {
        match &node {
            Node::Basic { bindings, next } => self.add_basic(bindings.as_slice(), *next),
            Node::Cond {
                test,
                on_true,
                on_false,
            } => self.add_test(test, *on_true, *on_false),
            Node::Call {
                callee,
                inputs,
                outputs,
                landing,
            } => self.add_call_at(*callee, inputs.as_slice(), outputs.as_slice(), *landing),
        }
    }

    /// Adds a call and, directly after it, its landing node, which continues at `next`; answers the
    /// call's number. Out of memory, the bank may have some more terms.
    pub fn add_call(
        &mut self,
        alloc: Global,
        callee: usize,
        inputs: Vec<Binding>,
        outputs: Vec<Binding>,
        next: Next,
    ) -> Result<usize, AllocError>
        ensures number { IfOk result (λ number. number ≡ length (graph_of self.old).nodes) }
        ensures added { OnOk result (graph_of self.new
            ≡ with_call (graph_of self.old) callee (bindings_of inputs)
            (bindings_of outputs) next) }
        ensures kept { OnErr result (graph_of self.new ≡ graph_of self.old) }
        ensures extends { Extends self.old.trees self.new.trees }
    {
        let number = self.len();
        let (inputs, outputs) = self.share_both(inputs.as_slice(), outputs.as_slice())?;
        let call = SharedNode::Call {
            callee,
            inputs,
            outputs,
            landing: number + 1,
        };
        let landing = SharedNode::Basic {
            bindings: Vec::new(alloc),
            next,
        };
        self.add_two(call, landing)
    }
}
