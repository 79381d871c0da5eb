ghost use Rattle.std.specs.Prelude.{◌≡◌, ◌<◌, ◌≤◌, [], length, map, IfOk, OnOk, OnErr};
ghost use Rattle.term_core_spec.specs.Value.{value};
ghost use Rattle.term_core.specs.Values.{value_of};
ghost use Rattle.term_core.specs.Assignment.{assignment_of};
ghost use Rattle.term_core_spec.specs.Subterms.{subterm_count, up_to};
ghost use Rattle.term_bank.specs.Nodes.{IsNode, build, tree_at, Holds, with_tree, Extends};
ghost use Rattle.term_bank.specs.Nodes.{AreDistinct};

use crate::count::count_found;
use crate::evaluation::evaluate;
use crate::node::TermNode;
use indexmap::IndexSet;
use std::alloc::{AllocError, Global};
use std::marker::Model;
use term_core::{Assignment, Value};

/// The index of a term in a bank.
pub type TermId = usize;

/// Terms, each once: a contract sees the list of their trees.
#[derive(Drop)]
pub struct Bank {
    nodes: IndexSet<TermNode>,
}

impl Model for Bank {
    ghost use Rattle.std.specs.Prelude.{List, []};
    ghost use Rattle.std.specs.Coded.{coded_list};
    ghost use Rattle.term_core_spec.specs.Term.{Term};
    ghost use Rattle.term_core_spec.specs.Coded.{term_code};

    ghost Value = { List Term };

    ghost coded = { coded_list term_code };

    ghost use Rattle.term_bank.specs.Trees.{grown, AreShared};

    ghost view = { λ b. grown [] b.nodes.keys };

    ghost invariant = { λ b. AreShared b.nodes.keys };
}

impl Bank {
    /// No term yet.
    pub fn new(alloc: Global) -> Bank
        ensures { result ≡ [] }
    {
        Bank {
            nodes: IndexSet::new(alloc),
        }
    }

    /// How many terms there are.
    pub fn len(&self) -> usize
        ensures { result ≡ length self.now }
    {
        self.nodes.len()
    }

    /// Equal trees have one index: two terms are the same exactly where their indices are.
    pub fn are_distinct(&self)
        ensures { AreDistinct self.now }
    {
        let _ = &self.nodes;
    }

    /// The index of the node's term, which is added where it isn't there. Out of memory, the terms
    /// are as before.
    pub fn add(&mut self, node: TermNode) -> Result<TermId, AllocError>
        requires { IsNode (length self.old) node }
        ensures id { IfOk result (λ i. Holds self.new i (build self.old node)) }
        ensures within { IfOk result (λ i. i < length self.new) }
        ensures added { OnOk result (self.new ≡ with_tree self.old (build self.old node)) }
        ensures refused { OnErr result (self.new ≡ self.old) }
        ensures extends { Extends self.old self.new }
        ensures longer { length self.old ≤ length self.new }
        ensures distinct { AreDistinct self.new }
    {
        let (id, _) = self.nodes.insert_full(node)?;
        Ok(id)
    }

    /// The node at an index.
    pub fn node(&self, id: TermId) -> TermNode
        requires { id < length self.now }
        ensures children { IsNode id result }
        ensures tree { Holds self.now id (build self.now result) }
    {
        self.nodes[id]
    }

    /// The value of each term, in their order.
    pub fn eval_all(&self, alloc: Global, assignment: &Assignment) -> Result<Vec<Value>, AllocError>
        ensures { IfOk result (λ values. map value_of values.items
            ≡ map (value (assignment_of assignment.now)) self.now) }
    {
        let mut values = Vec::new(alloc);
        for i in 0..self.len() {
            let value = evaluate(alloc, self.node(i), &values, assignment)?;
            values.push(value)?;
        }
        Ok(values)
    }

    /// How many distinct subterms a term has, itself among them, where these are at most `maximum`;
    /// else none. It holds at most eight ids more than `maximum`.
    pub fn count_subterms(
        &self,
        alloc: Global,
        id: TermId,
        maximum: usize,
    ) -> Result<Option<usize>, AllocError>
        requires { id < length self.now }
        ensures { IfOk result (λ count. count ≡ up_to maximum
            (subterm_count (tree_at self.now id))) }
    {
        let mut found = IndexSet::new(alloc);
        count_found(self, id, maximum, &mut found)
    }
}
