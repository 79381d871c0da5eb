// The goals that are left after the lines of a block.

ghost use Rattle.std.specs.Prelude.{◌≡◌, ◌<◌, ◌∷◌, [], true, suc, Some, length, map, IfOk};
ghost use Rattle.std.specs.Prelude.{option_map, unwrap_or};
ghost use Rattle.term_core_spec.specs.Term.{truth};
ghost use Rattle.term_bank.specs.Nodes.{tree_at, Holds, Extends};
ghost use Rattle.memory_spec.specs.Viewed.{runs_of};
ghost use Rattle.word_steps_spec.specs.Numbers as numbers;
ghost use Rattle.word_steps_spec.specs.Lines as spec;
ghost use Rattle.word_steps.specs.Views as views;
ghost use Rattle.word_steps.specs.Shows.{IsBlock};
ghost use Rattle.word_steps.specs.Outcomes.{AreFacts, Leaves, LeavesTwo, IsConjunction, IsCase};
ghost use Rattle.word_steps.specs.Outcomes.{AreCaseGoals};

use crate::block::{Block, WordFault};
use crate::facts::is_truth_sort;
use crate::number::Reading;
use attempt::{Refusal, allocated, attempt};
use std::alloc::{AllocError, Global};
use term_bank::{Bank, TermId, TermNode};
use term_core_spec::{Atom, BinaryOperator, UnaryOperator};
use term_norm::{Run, normal};

// A term, or its opposite.
fn signed(bank: &mut Bank, term: TermId, holds: bool) -> Result<TermId, AllocError>
    requires { term < length bank.old }
    ensures form { IfOk result (λ id. Holds bank.new id
        (numbers.signed holds (tree_at bank.old term))) }
    ensures extends { Extends bank.old bank.new }
{
    if holds {
        return Ok(term);
    }
    let id = attempt!(bank.add(TermNode::Unary(UnaryOperator::Not, term)));
    Ok(id)
}

// The terms so far with one more, by `and`.
fn with_term(bank: &mut Bank, all: Option<TermId>, term: TermId) -> Result<TermId, AllocError>
    requires term { term < length bank.old }
    requires all { views.IsIdBelow (length bank.old) all }
    ensures form { IfOk result (λ id. Holds bank.new id
        (views.and_with (option_map (tree_at bank.old) all) (tree_at bank.old term))) }
    ensures extends { Extends bank.old bank.new }
{
    match all {
        None => Ok(term),
        Some(so_far) => {
            let id = attempt!(bank.add(TermNode::Binary(BinaryOperator::And, so_far, term)));
            Ok(id)
        }
    }
}

// A term, or `true` where there is none.
fn or_true(bank: &mut Bank, all: Option<TermId>) -> Result<TermId, AllocError>
    requires { views.IsIdBelow (length bank.old) all }
    ensures form { IfOk result (λ id. Holds bank.new id
        (unwrap_or (option_map (tree_at bank.old) all) (truth true))) }
    ensures extends { Extends bank.old bank.new }
{
    match all {
        Some(id) => Ok(id),
        None => bank.add(TermNode::Leaf(Atom::Truth(true))),
    }
}

// The goal that some terms, joined by `and`, are not all true.
fn not_all(
    alloc: Global,
    bank: &mut Bank,
    runs: &[Run],
    all: Option<TermId>,
) -> Result<TermId, AllocError>
    requires { views.IsIdBelow (length bank.old) all }
    ensures form { IfOk result (λ id. Holds bank.new id
        (views.not_joined (runs_of runs.now) (option_map (tree_at bank.old) all))) }
    ensures extends { Extends bank.old bank.new }
{
    let term = attempt!(or_true(bank, all));
    let opposite = attempt!(bank.add(TermNode::Unary(UnaryOperator::Not, term)));
    normal(alloc, bank, opposite, runs)
}

impl Block {
    // The term of the number at an index as it was made, or rebuilt.
    fn read_number(
        &self,
        alloc: Global,
        bank: &mut Bank,
        runs: &[Run],
        index: usize,
        as_made: bool,
    ) -> Result<TermId, AllocError>
        requires block { IsBlock bank.old self.now }
        requires index { index < views.count_of self.now }
        ensures form { IfOk result (λ id. Holds bank.new id (views.read_number (runs_of runs.now)
            (views.numbers_of bank.old self.now.numbers.items) as_made (suc index))) }
        ensures extends { Extends bank.old bank.new }
    {
        let number = self.number(index);
        if as_made {
            return Ok(number.term);
        }
        self.form_with(alloc, bank, runs, index, 0, number.now)
    }

    /// A fact about the number at an index as it is read.
    pub(crate) fn read(
        &self,
        alloc: Global,
        bank: &mut Bank,
        runs: &[Run],
        index: usize,
        reading: Reading,
    ) -> Result<TermId, AllocError>
        requires block { IsBlock bank.old self.now }
        requires index { index < views.count_of self.now }
        requires number { reading.fact.number ≡ suc index }
        ensures form { IfOk result (λ id. Holds bank.new id
            (numbers.reading (runs_of runs.now)
            (views.numbers_of bank.old self.now.numbers.items) (views.reading_of reading))) }
        ensures extends { Extends bank.old bank.new }
    {
        let term = attempt!(self.read_number(alloc, bank, runs, index, reading.as_made));
        signed(bank, term, reading.fact.holds)
    }

    // Whether all of some facts are there.
    fn are_facts(&self, kept: &[Reading]) -> bool
        ensures { AreFacts self.now kept.now result }
    {
        match kept.split_first() {
            None => true,
            Some((reading, rest)) => {
                self.fact_index(reading.fact).is_some() && self.are_facts(rest)
            }
        }
    }

    // The terms so far with one more fact as it is read, by `and`.
    fn with_reading(
        &self,
        alloc: Global,
        bank: &mut Bank,
        runs: &[Run],
        all: Option<TermId>,
        reading: Reading,
    ) -> Result<TermId, AllocError>
        requires block { IsBlock bank.old self.now }
        requires number { views.IsNumbered (views.count_of self.now) reading }
        requires all { views.IsIdBelow (length bank.old) all }
        ensures form { IfOk result (λ id. Holds bank.new id
            (views.and_with (option_map (tree_at bank.old) all) (numbers.reading (runs_of runs.now)
            (views.numbers_of bank.old self.now.numbers.items) (views.reading_of reading)))) }
        ensures extends { Extends bank.old bank.new }
    {
        let index = reading.fact.number - 1;
        let term = attempt!(self.read(alloc, bank, runs, index, reading));
        with_term(bank, all, term)
    }

    // Some facts as they are read, joined by `and`.
    fn conjunction(
        &self,
        alloc: Global,
        bank: &mut Bank,
        runs: &[Run],
        kept: &[Reading],
    ) -> Result<Option<TermId>, AllocError>
        requires block { IsBlock bank.old self.now }
        requires numbers { views.AreNumbered (views.count_of self.now) kept.now }
        ensures form { IfOk result (λ all. IsConjunction bank.new (map (numbers.reading
            (runs_of runs.now) (views.numbers_of bank.old self.now.numbers.items))
            (map views.reading_of kept.now)) all) }
        ensures extends { Extends bank.old bank.new }
    {
        let mut all = None;
        for i in 0..kept.len() {
            let more = attempt!(self.with_reading(alloc, bank, runs, all, kept[i]));
            all = Some(more);
        }
        Ok(all)
    }

    /// `keep`: the goal that is left, that the kept facts are not all true.
    pub fn keep(
        &self,
        alloc: Global,
        bank: &mut Bank,
        runs: &[Run],
        kept: &[Reading],
    ) -> Result<TermId, Refusal<WordFault>>
        requires { IsBlock bank.old self.now }
        ensures left { Leaves (λ s. spec.left (runs_of runs.now) s
            (spec.Keep (map views.reading_of kept.now))) bank.old bank.new self.now result }
        ensures extends { Extends bank.old bank.new }
    {
        if !self.are_facts(kept) {
            return Err(Refusal::Fault(WordFault::Word));
        }
        let all = allocated!(self.conjunction(alloc, bank, runs, kept));
        let goal = allocated!(not_all(alloc, bank, runs, all));
        Ok(goal)
    }

    // The goal with one more term, which is a number, rebuilt, or its opposite.
    fn with_case(
        &self,
        alloc: Global,
        bank: &mut Bank,
        runs: &[Run],
        all: Option<TermId>,
        form: TermId,
        holds: bool,
    ) -> Result<TermId, AllocError>
        requires all { views.IsIdBelow (length bank.old) all }
        requires form { form < length bank.old }
        ensures form { IfOk result (λ id. Holds bank.new id (views.not_joined (runs_of runs.now)
            (Some (views.and_with (option_map (tree_at bank.old) all)
            (numbers.signed holds (tree_at bank.old form)))))) }
        ensures extends { Extends bank.old bank.new }
    {
        let term = attempt!(signed(bank, form, holds));
        let more = attempt!(with_term(bank, all, term));
        not_all(alloc, bank, runs, Some(more))
    }

    // The index of a number that is a truth value.
    fn case_index(&self, number: usize) -> Option<usize>
        requires { length self.now.sorts.items ≡ views.count_of self.now }
        ensures { IsCase self.now number result }
    {
        match self.index(number) {
            Some(index) => {
                if is_truth_sort(self.sort(index)) {
                    Some(index)
                } else {
                    None
                }
            }
            None => None,
        }
    }

    // The goals with a number as one more fact at the end, and with its opposite.
    fn case_goals(
        &self,
        alloc: Global,
        bank: &mut Bank,
        runs: &[Run],
        kept: &[Reading],
        index: usize,
    ) -> Result<(TermId, TermId), AllocError>
        requires block { IsBlock bank.old self.now }
        requires numbers { views.AreNumbered (views.count_of self.now) kept.now }
        requires index { index < views.count_of self.now }
        ensures goals { IfOk result (λ ids. AreCaseGoals (runs_of runs.now) bank.new
            (views.numbers_of bank.old self.now.numbers.items) (map views.reading_of kept.now)
            (suc index) ids.0 ids.1) }
        ensures extends { Extends bank.old bank.new }
    {
        let all = attempt!(self.conjunction(alloc, bank, runs, kept));
        let now = self.number(index).now;
        let form = attempt!(self.form_with(alloc, bank, runs, index, 0, now));
        let first = attempt!(self.with_case(alloc, bank, runs, all, form, true));
        let second = attempt!(self.with_case(alloc, bank, runs, all, form, false));
        Ok((first, second))
    }

    /// `keep` and `case X`: the goals that are left, with a number as one more fact at the end, and
    /// with its opposite.
    pub fn case(
        &self,
        alloc: Global,
        bank: &mut Bank,
        runs: &[Run],
        kept: &[Reading],
        number: usize,
    ) -> Result<(TermId, TermId), Refusal<WordFault>>
        requires { IsBlock bank.old self.now }
        ensures left { LeavesTwo (λ s. spec.left (runs_of runs.now) s
            (spec.Case (map views.reading_of kept.now) number)) bank.old bank.new self.now
            result }
        ensures extends { Extends bank.old bank.new }
    {
        match self.case_index(number) {
            Some(index) => {
                if !self.are_facts(kept) {
                    return Err(Refusal::Fault(WordFault::Word));
                }
                let goals = allocated!(self.case_goals(alloc, bank, runs, kept, index));
                Ok(goals)
            }
            None => Err(Refusal::Fault(WordFault::Word)),
        }
    }
}
