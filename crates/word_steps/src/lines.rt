// Lines: new numbers, facts about arguments, and renewals.

ghost use Rattle.std.specs.Prelude.{◌≡◌, ◌<◌, length, OnOk};
ghost use Rattle.term_bank.specs.Nodes.{IsNode, Extends};
ghost use Rattle.memory_spec.specs.Viewed.{runs_of};
ghost use Rattle.word_steps_spec.specs.Lines as spec;
ghost use Rattle.word_steps.specs.Views as views;
ghost use Rattle.word_steps.specs.Shows.{IsBlock};
ghost use Rattle.word_steps.specs.Outcomes.{Becomes, Takes};

use crate::block::{Block, WordFault};
use crate::nodes::{names_numbers, over_indices};
use crate::number::Fact;
use attempt::{Refusal, allocated, attempt};
use std::alloc::{AllocError, Global};
use term_bank::{Bank, TermNode};
use term_core_spec::{Atom, Sort};
use term_norm::Run;
use term_sorts::node_sort;

/// At most so many lines of a block renew all numbers.
const SWEEPS: usize = 16;

// Whether an operator is a variable.
#[tactic(auto, unfolding(crate::specs::Views::named))]
fn is_open(node: TermNode) -> bool
    ensures { result ≡ spec.is_open (views.named node) }
{
    match node {
        TermNode::Leaf(Atom::Open(_)) => true,
        TermNode::Leaf(Atom::Truth(_)) => false,
        TermNode::Leaf(Atom::Constant(_, _)) => false,
        TermNode::Unary(_, _) => false,
        TermNode::Binary(_, _, _) => false,
        TermNode::Ternary(_, _, _, _) => false,
        TermNode::Quaternary(_, _, _, _, _) => false,
        TermNode::Octonary(_, _, _, _, _, _, _, _) => false,
    }
}

// Whether a sort is that of truth values or of words.
fn is_value_sort(sort: Option<Sort>) -> bool
    ensures { result ≡ views.is_value_sort sort }
{
    match sort {
        Some(Sort::Truth) | Some(Sort::Word(_)) => true,
        Some(Sort::Memory) | None => false,
    }
}

impl Block {
    // Adds a number of which nothing is known, and renews it.
    fn add_number(
        &mut self,
        alloc: Global,
        bank: &mut Bank,
        runs: &[Run],
        operation: TermNode,
    ) -> Result<(), AllocError>
        requires block { IsBlock bank.old self.old }
        requires operation { IsNode (views.count_of self.old) operation }
        ensures becomes { OnOk result (Becomes bank.old bank.new self.old self.new
            (spec.with_number (runs_of runs.now) (views.operation_of operation))) }
        ensures extends { Extends bank.old bank.new }
    {
        let sort = node_sort(operation, self.sorts.as_slice());
        let term = attempt!(bank.add(self.over_terms(operation)));
        let index = self.numbers.len();
        attempt!(self.push_number(operation, term, sort));
        self.renew_at(alloc, bank, runs, index)
    }

    /// `t`: one more number, of an operator over numbers. The line brings no new variable, and its
    /// term is a truth value or a word.
    pub fn next(
        &mut self,
        alloc: Global,
        bank: &mut Bank,
        runs: &[Run],
        operation: TermNode,
    ) -> Result<(), Refusal<WordFault>>
        requires { IsBlock bank.old self.old }
        ensures line { Takes (λ s. spec.applied (runs_of runs.now) s
            (spec.Next (views.named operation))) bank.old bank.new self.old self.new result }
        ensures extends { Extends bank.old bank.new }
    {
        if !names_numbers(self, operation) {
            return Err(Refusal::Fault(WordFault::Word));
        }
        if is_open(operation) {
            return Err(Refusal::Fault(WordFault::Word));
        }
        let over = over_indices(operation);
        if !is_value_sort(node_sort(over, self.sorts.as_slice())) {
            return Err(Refusal::Fault(WordFault::Word));
        }
        allocated!(self.add_number(alloc, bank, runs, over));
        Ok(())
    }

    /// `fact`: what a fact says of its argument at a place, from 1, becomes a fact.
    pub fn argument(
        &mut self,
        alloc: Global,
        bank: &mut Bank,
        runs: &[Run],
        fact: Fact,
        place: usize,
    ) -> Result<(), Refusal<WordFault>>
        requires { IsBlock bank.old self.old }
        ensures line { Takes (λ s. spec.applied (runs_of runs.now) s
            (spec.Argument (views.fact_of fact) place)) bank.old bank.new self.old self.new
            result }
        ensures extends { Extends bank.old bank.new }
    {
        match self.fact_index(fact) {
            Some(index) => {
                if allocated!(self.try_argument(alloc, bank, runs, index, fact.holds, place)) {
                    return Ok(());
                }
                Err(Refusal::Fault(WordFault::Word))
            }
            None => Err(Refusal::Fault(WordFault::Word)),
        }
    }

    /// `part`: what a fact says of its arguments, at least of one of them, becomes facts.
    pub fn parts(
        &mut self,
        alloc: Global,
        bank: &mut Bank,
        runs: &[Run],
        fact: Fact,
    ) -> Result<(), Refusal<WordFault>>
        requires { IsBlock bank.old self.old }
        ensures line { Takes (λ s. spec.applied (runs_of runs.now) s
            (spec.Parts (views.fact_of fact))) bank.old bank.new self.old self.new result }
        ensures extends { Extends bank.old bank.new }
    {
        match self.fact_index(fact) {
            Some(index) => {
                if allocated!(self.try_arguments(alloc, bank, runs, index, fact.holds)) {
                    return Ok(());
                }
                Err(Refusal::Fault(WordFault::Word))
            }
            None => Err(Refusal::Fault(WordFault::Word)),
        }
    }

    /// `now X`: a number is renewed.
    pub fn renew(
        &mut self,
        alloc: Global,
        bank: &mut Bank,
        runs: &[Run],
        number: usize,
    ) -> Result<(), Refusal<WordFault>>
        requires { IsBlock bank.old self.old }
        ensures line { Takes (λ s. spec.applied (runs_of runs.now) s (spec.Renew number)) bank.old
            bank.new self.old self.new result }
        ensures extends { Extends bank.old bank.new }
    {
        match self.index(number) {
            Some(index) => {
                allocated!(self.renew_at(alloc, bank, runs, index));
                Ok(())
            }
            None => Err(Refusal::Fault(WordFault::Word)),
        }
    }

    // Renews all numbers in ascending order.
    fn sweep(&mut self, alloc: Global, bank: &mut Bank, runs: &[Run]) -> Result<(), AllocError>
        requires { IsBlock bank.old self.old }
        ensures becomes { OnOk result (Becomes bank.old bank.new self.old self.new
            (views.renewed_up_to (runs_of runs.now) (views.count_of self.old))) }
        ensures extends { Extends bank.old bank.new }
    {
        let count = self.numbers.len();
        for i in 0..count {
            attempt!(self.renew_at(alloc, bank, runs, i));
        }
        Ok(())
    }

    /// `now`: all numbers are renewed, in ascending order.
    pub fn renew_all(
        &mut self,
        alloc: Global,
        bank: &mut Bank,
        runs: &[Run],
    ) -> Result<(), Refusal<WordFault>>
        requires { IsBlock bank.old self.old }
        ensures line { Takes (λ s. spec.applied (runs_of runs.now) s spec.RenewAll) bank.old
            bank.new self.old self.new result }
        ensures extends { Extends bank.old bank.new }
    {
        if self.sweeps >= SWEEPS {
            return Err(Refusal::Fault(WordFault::Word));
        }
        self.sweeps += 1;
        allocated!(self.sweep(alloc, bank, runs));
        Ok(())
    }
}
