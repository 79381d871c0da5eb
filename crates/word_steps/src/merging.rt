// Merges: two numbers that have one value.

ghost use Rattle.std.specs.Prelude.{◌≡◌, ◌<◌, ◌∷◌, [], suc, Some, length, IfOk, OnOk, List};
ghost use Rattle.term_core_spec.specs.Term.{Term};
ghost use Rattle.term_bank.specs.Nodes.{tree_at, Extends};
ghost use Rattle.memory_spec.specs.Viewed.{runs_of};
ghost use Rattle.word_steps_spec.specs.Lines as spec;
ghost use Rattle.word_steps.specs.Views as views;
ghost use Rattle.word_steps.specs.Shows.{IsBlock, IsOther};
ghost use Rattle.word_steps.specs.Outcomes.{Becomes, Takes, ArePaired, TriesOne};

use crate::block::{Block, WordFault};
use crate::facts::is_truth_sort;
use crate::number::{Marks, Other, Reading};
use attempt::{Refusal, allocated, attempt};
use std::alloc::{AllocError, Global};
use term_bank::{Bank, TermId, TermNode};
use term_core::sort_of_binary;
use term_core_spec::{BinaryOperator, Sort};
use term_norm::Run;

// Whether two sorts are alike: both of truth values, or of words of one width.
fn are_alike_sorts(first: Option<Sort>, second: Option<Sort>) -> bool
    ensures { result ≡ views.are_alike_sorts first second }
{
    match (first, second) {
        (Some(a), Some(b)) => is_truth_sort(sort_of_binary(BinaryOperator::Equal, a, b)),
        _ => false,
    }
}

// Whether two ids are two others, either way.
fn are_both(a: TermId, b: TermId, x: TermId, y: TermId) -> bool
    ensures { result ≡ views.are_both a b x y }
{
    (a == x && b == y) || (a == y && b == x)
}

// Whether a node is `eq` of two terms, either way.
#[tactic(auto, unfolding(crate::specs::Views::is_equality_node))]
fn is_equality_node(node: TermNode, x: TermId, y: TermId) -> bool
    ensures { result ≡ views.is_equality_node node x y }
{
    match node {
        TermNode::Leaf(_) => false,
        TermNode::Unary(_, _) => false,
        TermNode::Binary(operator, a, b) => {
            operator == BinaryOperator::Equal && are_both(a, b, x, y)
        }
        TermNode::Ternary(_, _, _, _) => false,
        TermNode::Quaternary(_, _, _, _, _) => false,
        TermNode::Octonary(_, _, _, _, _, _, _, _) => false,
    }
}

// Whether a term is `eq` of two terms, either way.
fn is_equality(bank: &Bank, fact: TermId, x: TermId, y: TermId) -> bool
    requires fact { fact < length bank.now }
    requires x { x < length bank.now }
    requires y { y < length bank.now }
    ensures { result ≡ spec.is_equality (tree_at bank.now fact ∷ []) (tree_at bank.now x)
        (tree_at bank.now y) }
{
    bank.are_distinct();
    is_equality_node(bank.node(fact), x, y)
}

// With a merge, which is the latest.
fn with_other(marks: Marks, other: Other) -> Marks
    ensures { result ≡ views.with_other marks other }
{
    Marks {
        known: marks.known,
        is_true: marks.is_true,
        is_false: marks.is_false,
        merged: Some(other),
    }
}

/// The indices of two numbers.
#[derive(Clone, Copy)]
pub(crate) struct Pair {
    pub first: usize,
    pub second: usize,
}

impl Block {
    // Notes what the number at an index is merged with.
    fn note_merge(&mut self, index: usize, other: Other)
        requires index { index < views.count_of self.old }
        requires other { IsOther (views.count_of self.old) (Some other) }
        ensures becomes { (trees : List Term) → IsBlock trees self.old
            → Becomes trees trees self.old self.new (views.noted_merge index other) }
        ensures count { views.count_of self.new ≡ views.count_of self.old }
    {
        let mut number = self.number(index);
        number.marks = with_other(number.marks, other);
        self.numbers[index] = number;
    }

    /// Merges the number at an index, and renews it.
    pub(crate) fn merge_at(
        &mut self,
        alloc: Global,
        bank: &mut Bank,
        runs: &[Run],
        index: usize,
        other: Other,
    ) -> Result<(), AllocError>
        requires block { IsBlock bank.old self.old }
        requires index { index < views.count_of self.old }
        requires other { IsOther (views.count_of self.old) (Some other) }
        ensures becomes { OnOk result (Becomes bank.old bank.new self.old self.new
            (spec.with_merge (runs_of runs.now) (suc index) (views.other_of other))) }
        ensures extends { Extends bank.old bank.new }
    {
        self.note_merge(index, other);
        self.renew_at(alloc, bank, runs, index)
    }

    // The number at an index and another, where they are alike.
    fn alike_second(&self, first: usize, second: usize) -> Option<Pair>
        requires sorts { length self.now.sorts.items ≡ views.count_of self.now }
        requires first { first < views.count_of self.now }
        ensures { ArePaired self.now (suc first) second result }
    {
        match self.index(second) {
            Some(y) => {
                if are_alike_sorts(self.sort(first), self.sort(y)) {
                    Some(Pair { first, second: y })
                } else {
                    None
                }
            }
            None => None,
        }
    }

    // The indices of two numbers that are alike, where they are.
    pub(crate) fn alike_pair(&self, first: usize, second: usize) -> Option<Pair>
        requires { length self.now.sorts.items ≡ views.count_of self.now }
        ensures { ArePaired self.now first second result }
    {
        match self.index(first) {
            Some(x) => self.alike_second(x, second),
            None => None,
        }
    }

    // A number is renewed, and merged with another where a fact reads as `eq` of what they are now.
    fn merge_by_fact(
        &mut self,
        alloc: Global,
        bank: &mut Bank,
        runs: &[Run],
        pair: Pair,
        index: usize,
        fact: Reading,
    ) -> Result<bool, AllocError>
        requires block { IsBlock bank.old self.old }
        requires first { pair.first < views.count_of self.old }
        requires second { pair.second < views.count_of self.old }
        requires index { index < views.count_of self.old }
        requires number { fact.fact.number ≡ suc index }
        ensures tries { IfOk result (TriesOne bank.old bank.new self.old self.new
            (views.merged_by_fact (runs_of runs.now) pair.first pair.second fact)) }
        ensures extends { Extends bank.old bank.new }
    {
        attempt!(self.renew_at(alloc, bank, runs, pair.first));
        let read = attempt!(self.read(alloc, bank, runs, index, fact));
        let (x, y) = (self.number(pair.first).now, self.number(pair.second).now);
        if !is_equality(bank, read, x, y) {
            return Ok(false);
        }
        attempt!(self.merge_at(alloc, bank, runs, pair.first, Other::Index(pair.second)));
        Ok(true)
    }

    // Two numbers that are alike are merged, where a fact reads as `eq` of what both are now.
    fn same_pair(
        &mut self,
        alloc: Global,
        bank: &mut Bank,
        runs: &[Run],
        pair: Pair,
        fact: Reading,
    ) -> Result<(), Refusal<WordFault>>
        requires block { IsBlock bank.old self.old }
        requires first { pair.first < views.count_of self.old }
        requires second { pair.second < views.count_of self.old }
        ensures line { Takes (views.merged_if_fact (runs_of runs.now) pair.first pair.second fact)
            bank.old bank.new self.old self.new result }
        ensures extends { Extends bank.old bank.new }
    {
        match self.fact_index(fact.fact) {
            Some(index) => {
                if allocated!(self.merge_by_fact(alloc, bank, runs, pair, index, fact)) {
                    return Ok(());
                }
                Err(Refusal::Fault(WordFault::Word))
            }
            None => Err(Refusal::Fault(WordFault::Word)),
        }
    }

    /// `same`: a number is merged with another, where a fact reads as `eq` of what both are now.
    pub fn same(
        &mut self,
        alloc: Global,
        bank: &mut Bank,
        runs: &[Run],
        first: usize,
        second: usize,
        fact: Reading,
    ) -> Result<(), Refusal<WordFault>>
        requires { IsBlock bank.old self.old }
        ensures line { Takes (λ s. spec.applied (runs_of runs.now) s (spec.MergeBy spec.Same first
            second (views.reading_of fact ∷ []))) bank.old bank.new self.old self.new result }
        ensures extends { Extends bank.old bank.new }
    {
        match self.alike_pair(first, second) {
            Some(pair) => self.same_pair(alloc, bank, runs, pair, fact),
            None => Err(Refusal::Fault(WordFault::Word)),
        }
    }
}
