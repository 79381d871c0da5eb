// The first state of a block.

ghost use Rattle.std.specs.Prelude.{◌≡◌, ◌<◌, ℕ, List, Some, suc, length, slice_get, IfOk};
ghost use Rattle.std.specs.Prelude.{OnOk};
ghost use Rattle.term_core_spec.specs.Term.{Term};
ghost use Rattle.term_bank.specs.Nodes.{tree_at};
ghost use Rattle.term_sorts.specs.Order.{IsOrder};
ghost use Rattle.word_steps_spec.specs.Numbers as numbers;
ghost use Rattle.word_steps.specs.Views as views;
ghost use Rattle.word_steps.specs.Shows.{IsBlock, Shows};
ghost use Rattle.word_steps.specs.Outcomes.{IsPushed, AreSubterms};

use crate::block::Block;
use crate::number::{Marks, Number};
use attempt::attempt;
use indexmap::IndexSet;
use std::alloc::{AllocError, Global};
use term_bank::{Bank, TermId, TermNode};
use term_core_spec::Sort;
use term_sorts::{add_subterms, node_sort};

// The index of an id among some.
fn index_of(ids: &IndexSet<TermId>, id: TermId) -> usize
    ensures { result ≡ views.index_among ids.now.keys 0 id }
{
    match ids.get_index_of(&id) {
        Some(index) => index,
        None => 0,
    }
}

// A node over the indices of its arguments.
#[tactic(auto, unfolding(crate::specs::Views::node_over))]
fn over_ids(ids: &IndexSet<TermId>, node: TermNode) -> TermNode
    ensures { result ≡ views.node_over (views.index_among ids.now.keys) node }
{
    match node {
        TermNode::Leaf(atom) => TermNode::Leaf(atom),
        TermNode::Unary(operator, a) => TermNode::Unary(operator, index_of(ids, a)),
        TermNode::Binary(operator, a, b) => {
            TermNode::Binary(operator, index_of(ids, a), index_of(ids, b))
        }
        TermNode::Ternary(operator, a, b, c) => {
            let (x, y) = (index_of(ids, a), index_of(ids, b));
            TermNode::Ternary(operator, x, y, index_of(ids, c))
        }
        TermNode::Quaternary(operator, a, b, c, d) => {
            let (x, y) = (index_of(ids, a), index_of(ids, b));
            let (z, w) = (index_of(ids, c), index_of(ids, d));
            TermNode::Quaternary(operator, x, y, z, w)
        }
        TermNode::Octonary(a, b, c, d, e, f, g, h) => {
            let (s, t) = (index_of(ids, a), index_of(ids, b));
            let (u, v) = (index_of(ids, c), index_of(ids, d));
            let (w, x) = (index_of(ids, e), index_of(ids, f));
            let (y, z) = (index_of(ids, g), index_of(ids, h));
            TermNode::Octonary(s, t, u, v, w, x, y, z)
        }
    }
}

impl Block {
    // No number yet.
    fn new(alloc: Global) -> Block
        ensures { (trees : List Term) (ids : List ℕ) → AreSubterms trees ids 0 result }
    {
        Block {
            numbers: Vec::new(alloc),
            sorts: Vec::new(alloc),
            changes: 0,
            sweeps: 0,
        }
    }

    /// Adds a number of which nothing is known. Out of memory, the block is of no use.
    pub(crate) fn push_number(
        &mut self,
        operation: TermNode,
        term: TermId,
        sort: Option<Sort>,
    ) -> Result<(), AllocError>
        ensures { OnOk result (IsPushed self.old self.new (views.new_number operation term) sort) }
    {
        let marks = Marks {
            known: None,
            is_true: false,
            is_false: false,
            merged: None,
        };
        let number = Number {
            operation,
            term,
            now: term,
            marks,
        };
        self.numbers.push(number)?;
        self.sorts.push(sort)?;
        Ok(())
    }

    // Adds the number of the subterm at an index, whose arguments have numbers.
    fn add_subterm(
        &mut self,
        bank: &Bank,
        ids: &IndexSet<TermId>,
        index: usize,
        id: TermId,
    ) -> Result<(), AllocError>
        requires order { IsOrder bank.now ids.now.keys }
        requires id { slice_get ids.now.keys index ≡ Some id }
        requires before { AreSubterms bank.now ids.now.keys index self.old }
        ensures { OnOk result (AreSubterms bank.now ids.now.keys (suc index) self.new) }
    {
        bank.are_distinct();
        let operation = over_ids(ids, bank.node(id));
        let sort = node_sort(operation, self.sorts.as_slice());
        self.push_number(operation, id, sort)
    }

    // Adds the numbers of all subterms.
    fn add_all(&mut self, bank: &Bank, ids: &IndexSet<TermId>) -> Result<(), AllocError>
        requires order { IsOrder bank.now ids.now.keys }
        requires none { AreSubterms bank.now ids.now.keys 0 self.old }
        ensures { OnOk result (AreSubterms bank.now ids.now.keys (length ids.now.keys)
            self.new) }
    {
        for i in 0..ids.len() {
            attempt!(self.add_subterm(bank, ids, i, ids[i]));
        }
        Ok(())
    }

    /// The first state of a block on a goal: its distinct subterms in post-order have the numbers
    /// from 1 on, and the one fact is that the goal is false.
    pub fn start(alloc: Global, bank: &Bank, goal: TermId) -> Result<Block, AllocError>
        requires { goal < length bank.now }
        ensures block { IfOk result (IsBlock bank.now) }
        ensures shows { IfOk result (λ b. Shows bank.now b
            (numbers.start (tree_at bank.now goal))) }
    {
        bank.are_distinct();
        let mut ids = IndexSet::new(alloc);
        attempt!(add_subterms(alloc, bank, goal, &mut ids));
        let mut block = Block::new(alloc);
        attempt!(block.add_all(bank, &ids));
        let index = index_of(&ids, goal);
        block.note_fact(index, false);
        Ok(block)
    }
}
