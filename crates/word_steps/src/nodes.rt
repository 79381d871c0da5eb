// Operators over numbers.

ghost use Rattle.std.specs.Prelude.{◌≡◌, ◌<◌, length};
ghost use Rattle.term_bank.specs.Nodes.{IsNode};
ghost use Rattle.term_bank.specs.Subterms.{arguments_of};
ghost use Rattle.word_steps.specs.Views as views;

use crate::block::Block;
use term_bank::{TermId, TermNode};

// Whether all of some numbers are from 1 to a count.
#[tactic(auto, unfolding(crate::specs::Views::are_below))]
fn are_below(block: &Block, numbers: &[usize]) -> bool
    ensures { result ≡ views.are_below (views.count_of block.now) numbers.now }
{
    match numbers.split_first() {
        None => true,
        Some((number, rest)) => block.index(*number).is_some() && are_below(block, rest),
    }
}

/// Whether all numbers that a node names are there.
pub(crate) fn names_numbers(block: &Block, node: TermNode) -> bool
    ensures { result ≡ views.are_below (views.count_of block.now) (arguments_of node) }
{
    match node {
        TermNode::Leaf(_) => are_below(block, &[]),
        TermNode::Unary(_, a) => are_below(block, &[a]),
        TermNode::Binary(_, a, b) => are_below(block, &[a, b]),
        TermNode::Ternary(_, a, b, c) => are_below(block, &[a, b, c]),
        TermNode::Quaternary(_, a, b, c, d) => are_below(block, &[a, b, c, d]),
        TermNode::Octonary(a, b, c, d, e, f, g, h) => {
            are_below(block, &[a, b, c, d, e, f, g, h])
        }
    }
}

fn before(number: usize) -> usize
    ensures { result ≡ views.before 0 number }
{
    number.saturating_sub(1)
}

/// A node over indices, of one over numbers: the index of a number is one less.
#[tactic(auto, unfolding(crate::specs::Views::node_over))]
pub(crate) fn over_indices(node: TermNode) -> TermNode
    ensures { result ≡ views.node_over views.before node }
{
    match node {
        TermNode::Leaf(atom) => TermNode::Leaf(atom),
        TermNode::Unary(operator, a) => TermNode::Unary(operator, before(a)),
        TermNode::Binary(operator, a, b) => TermNode::Binary(operator, before(a), before(b)),
        TermNode::Ternary(operator, a, b, c) => {
            TermNode::Ternary(operator, before(a), before(b), before(c))
        }
        TermNode::Quaternary(operator, a, b, c, d) => {
            TermNode::Quaternary(operator, before(a), before(b), before(c), before(d))
        }
        TermNode::Octonary(a, b, c, d, e, f, g, h) => TermNode::Octonary(
            before(a),
            before(b),
            before(c),
            before(d),
            before(e),
            before(f),
            before(g),
            before(h),
        ),
    }
}

// One of some ids, at a place from 1.
fn at_place(ids: &[usize], place: usize) -> Option<usize>
    ensures { result ≡ views.place_of ids.now place }
{
    if place == 0 {
        return None;
    }
    ids.get(place - 1).copied()
}

/// The argument of a node at a place, from 1.
pub(crate) fn argument(node: TermNode, place: usize) -> Option<usize>
    ensures { result ≡ views.place_of (arguments_of node) place }
{
    match node {
        TermNode::Leaf(_) => at_place(&[], place),
        TermNode::Unary(_, a) => at_place(&[a], place),
        TermNode::Binary(_, a, b) => at_place(&[a, b], place),
        TermNode::Ternary(_, a, b, c) => at_place(&[a, b, c], place),
        TermNode::Quaternary(_, a, b, c, d) => at_place(&[a, b, c, d], place),
        TermNode::Octonary(a, b, c, d, e, f, g, h) => { at_place(&[a, b, c, d, e, f, g, h], place) }
    }
}

/// How many arguments a node has.
pub(crate) fn argument_count(node: TermNode) -> usize
    ensures { result ≡ length (arguments_of node) }
{
    match node {
        TermNode::Leaf(_) => 0,
        TermNode::Unary(_, _) => 1,
        TermNode::Binary(_, _, _) => 2,
        TermNode::Ternary(_, _, _, _) => 3,
        TermNode::Quaternary(_, _, _, _, _) => 4,
        TermNode::Octonary(_, _, _, _, _, _, _, _) => 8,
    }
}

impl Block {
    // The term `id` at one place, and else what the number at an index is now.
    fn now_at(&self, at: usize, id: TermId, place: usize, index: usize) -> TermId
        requires { index < views.count_of self.now }
        ensures { result ≡ views.now_in self.now.numbers.items at id place index }
    {
        if place == at {
            id
        } else {
            self.number(index).now
        }
    }

    /// A node over what its arguments are now, with the term `id` at one place.
    #[tactic(auto, unfolding(crate::specs::Views::node_over))]
    pub(crate) fn over_nows(&self, node: TermNode, at: usize, id: TermId) -> TermNode
        requires { IsNode (views.count_of self.now) node }
        ensures { result ≡ views.node_over (views.now_in self.now.numbers.items at id) node }
    {
        match node {
            TermNode::Leaf(atom) => TermNode::Leaf(atom),
            TermNode::Unary(operator, a) => TermNode::Unary(operator, self.now_at(at, id, 1, a)),
            TermNode::Binary(operator, a, b) => {
                let (x, y) = (self.now_at(at, id, 1, a), self.now_at(at, id, 2, b));
                TermNode::Binary(operator, x, y)
            }
            TermNode::Ternary(operator, a, b, c) => {
                let (x, y) = (self.now_at(at, id, 1, a), self.now_at(at, id, 2, b));
                TermNode::Ternary(operator, x, y, self.now_at(at, id, 3, c))
            }
            TermNode::Quaternary(operator, a, b, c, d) => {
                let (x, y) = (self.now_at(at, id, 1, a), self.now_at(at, id, 2, b));
                let (z, w) = (self.now_at(at, id, 3, c), self.now_at(at, id, 4, d));
                TermNode::Quaternary(operator, x, y, z, w)
            }
            TermNode::Octonary(a, b, c, d, e, f, g, h) => {
                let (s, t) = (self.now_at(at, id, 1, a), self.now_at(at, id, 2, b));
                let (u, v) = (self.now_at(at, id, 3, c), self.now_at(at, id, 4, d));
                let (w, x) = (self.now_at(at, id, 5, e), self.now_at(at, id, 6, f));
                let (y, z) = (self.now_at(at, id, 7, g), self.now_at(at, id, 8, h));
                TermNode::Octonary(s, t, u, v, w, x, y, z)
            }
        }
    }

    // The term of the number at an index.
    fn term_at(&self, index: usize) -> TermId
        requires { index < views.count_of self.now }
        ensures { result ≡ (views.number_in self.now.numbers.items index).term }
    {
        self.number(index).term
    }

    /// A node over the terms of its arguments.
    #[tactic(auto, unfolding(crate::specs::Views::node_over))]
    pub(crate) fn over_terms(&self, node: TermNode) -> TermNode
        requires { IsNode (views.count_of self.now) node }
        ensures { result ≡ views.node_over (views.term_in self.now.numbers.items) node }
    {
        match node {
            TermNode::Leaf(atom) => TermNode::Leaf(atom),
            TermNode::Unary(operator, a) => TermNode::Unary(operator, self.term_at(a)),
            TermNode::Binary(operator, a, b) => {
                TermNode::Binary(operator, self.term_at(a), self.term_at(b))
            }
            TermNode::Ternary(operator, a, b, c) => {
                let (x, y) = (self.term_at(a), self.term_at(b));
                TermNode::Ternary(operator, x, y, self.term_at(c))
            }
            TermNode::Quaternary(operator, a, b, c, d) => {
                let (x, y) = (self.term_at(a), self.term_at(b));
                let (z, w) = (self.term_at(c), self.term_at(d));
                TermNode::Quaternary(operator, x, y, z, w)
            }
            TermNode::Octonary(a, b, c, d, e, f, g, h) => {
                let (s, t) = (self.term_at(a), self.term_at(b));
                let (u, v) = (self.term_at(c), self.term_at(d));
                let (w, x) = (self.term_at(e), self.term_at(f));
                let (y, z) = (self.term_at(g), self.term_at(h));
                TermNode::Octonary(s, t, u, v, w, x, y, z)
            }
        }
    }
}
