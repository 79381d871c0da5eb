// Facts: which there are, how one is added, and what one says of an argument.

ghost use Rattle.std.specs.Prelude.{◌≡◌, ◌<◌, ◌||◌, suc, length, option_map, IfOk, OnOk, List};
ghost use Rattle.term_core_spec.specs.Term.{Term, truth};
ghost use Rattle.term_core_spec.specs.Same.{same_term};
ghost use Rattle.term_bank.specs.Nodes.{tree_at, Extends};
ghost use Rattle.memory_spec.specs.Viewed.{runs_of};
ghost use Rattle.term_core_spec.specs.declared.Sort.TheVariants as sorts;
ghost use Rattle.word_steps_spec.specs.Numbers as numbers;
ghost use Rattle.word_steps_spec.specs.Lines as spec;
ghost use Rattle.word_steps.specs.Views as views;
ghost use Rattle.word_steps.specs.Shows.{IsBlock};
ghost use Rattle.word_steps.specs.Outcomes.{Becomes, Tries, IsFactIndex};

use crate::block::Block;
use crate::nodes::{argument, argument_count};
use crate::number::{Fact, Marks};
use attempt::attempt;
use std::alloc::{AllocError, Global};
use term_bank::{Bank, TermId, TermNode};
use term_core_spec::{Atom, Sort};
use term_norm::Run;

// Whether a node is this truth value.
#[tactic(auto, unfolding(crate::specs::Views::is_truth_node))]
fn is_truth_node(node: TermNode, value: bool) -> bool
    ensures { result ≡ views.is_truth_node node value }
{
    match node {
        TermNode::Leaf(atom) => atom == Atom::Truth(value),
        TermNode::Unary(_, _) => false,
        TermNode::Binary(_, _, _) => false,
        TermNode::Ternary(_, _, _, _) => false,
        TermNode::Quaternary(_, _, _, _, _) => false,
        TermNode::Octonary(_, _, _, _, _, _, _, _) => false,
    }
}

/// Whether a term is this truth value.
pub(crate) fn is_truth(bank: &Bank, id: TermId, value: bool) -> bool
    requires { id < length bank.now }
    ensures { result ≡ same_term (tree_at bank.now id) (truth value) }
{
    is_truth_node(bank.node(id), value)
}

/// Whether a sort is that of truth values.
pub(crate) fn is_truth_sort(sort: Option<Sort>) -> bool
    ensures { result ≡ numbers.has_sort sort sorts.Truth }
{
    matches!(sort, Some(Sort::Truth))
}

// Whether one of two holds.
fn either(first: bool, second: bool) -> bool
    ensures { result ≡ (first || second) }
{
    first || second
}

// With one more fact.
fn with_truth(marks: Marks, holds: bool) -> Marks
    ensures { result ≡ views.with_truth marks holds }
{
    Marks {
        known: Some(holds),
        is_true: marks.is_true || holds,
        is_false: marks.is_false || !holds,
        merged: marks.merged,
    }
}

impl Block {
    // The index of a fact's number, where the fact is there.
    pub(crate) fn fact_index(&self, fact: Fact) -> Option<usize>
        ensures { IsFactIndex self.now fact result }
    {
        match self.index(fact.number) {
            Some(index) => {
                if self.has_fact(index, fact.holds) {
                    Some(index)
                } else {
                    None
                }
            }
            None => None,
        }
    }

    /// Notes that the number at an index is true, or false.
    pub(crate) fn note_fact(&mut self, index: usize, holds: bool)
        requires { index < views.count_of self.old }
        ensures becomes { (trees : List Term) → IsBlock trees self.old
            → Becomes trees trees self.old self.new
            (views.noted_fact (views.fact_at index holds)) }
        ensures count { views.count_of self.new ≡ views.count_of self.old }
    {
        let mut number = self.number(index);
        number.marks = with_truth(number.marks, holds);
        self.numbers[index] = number;
    }

    /// Makes the number at an index a fact, or its opposite, and renews it.
    pub(crate) fn add_fact(
        &mut self,
        alloc: Global,
        bank: &mut Bank,
        runs: &[Run],
        index: usize,
        holds: bool,
    ) -> Result<(), AllocError>
        requires block { IsBlock bank.old self.old }
        requires index { index < views.count_of self.old }
        ensures becomes { OnOk result (Becomes bank.old bank.new self.old self.new
            (spec.with_fact (runs_of runs.now) (views.fact_at index holds))) }
        ensures count { OnOk result (views.count_of self.new ≡ views.count_of self.old) }
        ensures extends { Extends bank.old bank.new }
    {
        self.note_fact(index, holds);
        self.renew_at(alloc, bank, runs, index)
    }

    // Whether a fact would not hold if its argument at a place were this truth value.
    fn is_refuted_by(
        &self,
        alloc: Global,
        bank: &mut Bank,
        runs: &[Run],
        index: usize,
        holds: bool,
        place: usize,
        value: bool,
    ) -> Result<bool, AllocError>
        requires block { IsBlock bank.old self.now }
        requires index { index < views.count_of self.now }
        ensures test { IfOk result (λ test. test ≡ spec.is_refuted_by (runs_of runs.now)
            (views.numbers_of bank.old self.now.numbers.items) (views.fact_at index holds) place
            value) }
        ensures extends { Extends bank.old bank.new }
    {
        let id = attempt!(bank.add(TermNode::Leaf(Atom::Truth(value))));
        let form = attempt!(self.form_with(alloc, bank, runs, index, place, id));
        Ok(is_truth(bank, form, !holds))
    }

    // What a fact says of its argument at a place, which is the number at another index.
    fn argument_value(
        &self,
        alloc: Global,
        bank: &mut Bank,
        runs: &[Run],
        index: usize,
        holds: bool,
        place: usize,
        other: usize,
    ) -> Result<Option<bool>, AllocError>
        requires block { IsBlock bank.old self.now }
        requires index { index < views.count_of self.now }
        requires other { other < views.count_of self.now }
        ensures value { IfOk result (λ found. option_map (views.fact_at other) found
            ≡ spec.argument_fact (runs_of runs.now)
            (views.numbers_of bank.old self.now.numbers.items) (views.fact_at index holds) place
            (suc other)) }
        ensures extends { Extends bank.old bank.new }
    {
        if !is_truth_sort(self.sort(other)) {
            return Ok(None);
        }
        if attempt!(self.is_refuted_by(alloc, bank, runs, index, holds, place, true)) {
            return Ok(Some(false));
        }
        if attempt!(self.is_refuted_by(alloc, bank, runs, index, holds, place, false)) {
            return Ok(Some(true));
        }
        Ok(None)
    }

    // Adds what a fact says of its argument at a place, which is the number at another index, and
    // whether it says something.
    fn add_argument(
        &mut self,
        alloc: Global,
        bank: &mut Bank,
        runs: &[Run],
        index: usize,
        holds: bool,
        place: usize,
        other: usize,
    ) -> Result<bool, AllocError>
        requires block { IsBlock bank.old self.old }
        requires index { index < views.count_of self.old }
        requires other { other < views.count_of self.old }
        ensures tries { IfOk result (Tries bank.old bank.new self.old self.new
            (views.with_said (runs_of runs.now) (views.numbers_of bank.old self.old.numbers.items)
            (views.fact_at index holds) place (suc other))) }
        ensures count { OnOk result (views.count_of self.new ≡ views.count_of self.old) }
        ensures extends { Extends bank.old bank.new }
    {
        let found = attempt!(self.argument_value(alloc, bank, runs, index, holds, place, other));
        match found {
            None => Ok(false),
            Some(value) => {
                attempt!(self.add_fact(alloc, bank, runs, other, value));
                Ok(true)
            }
        }
    }

    /// Adds what a fact says of its argument at a place, and whether it says something.
    pub(crate) fn try_argument(
        &mut self,
        alloc: Global,
        bank: &mut Bank,
        runs: &[Run],
        index: usize,
        holds: bool,
        place: usize,
    ) -> Result<bool, AllocError>
        requires block { IsBlock bank.old self.old }
        requires index { index < views.count_of self.old }
        ensures tries { IfOk result (Tries bank.old bank.new self.old self.new
            (spec.with_argument_fact (runs_of runs.now) (views.fact_at index holds) place)) }
        ensures count { OnOk result (views.count_of self.new ≡ views.count_of self.old) }
        ensures extends { Extends bank.old bank.new }
    {
        match argument(self.number(index).operation, place) {
            None => Ok(false),
            Some(other) => self.add_argument(alloc, bank, runs, index, holds, place, other),
        }
    }

    /// Adds what a fact says of its arguments, one place after the other, and whether it says
    /// something.
    pub(crate) fn try_arguments(
        &mut self,
        alloc: Global,
        bank: &mut Bank,
        runs: &[Run],
        index: usize,
        holds: bool,
    ) -> Result<bool, AllocError>
        requires block { IsBlock bank.old self.old }
        requires index { index < views.count_of self.old }
        ensures tries { IfOk result (Tries bank.old bank.new self.old self.new
            (views.with_all_places (runs_of runs.now) (views.fact_at index holds))) }
        ensures extends { Extends bank.old bank.new }
    {
        let count = argument_count(self.number(index).operation);
        let mut found = false;
        for i in 0..count {
            let more = attempt!(self.try_argument(alloc, bank, runs, index, holds, i + 1));
            found = either(found, more);
        }
        Ok(found)
    }
}
