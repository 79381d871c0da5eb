// Merges by the rule `comm`: one operator over the same arguments in another order.

ghost use Rattle.std.specs.Prelude.{◌<◌, [], IfOk};
ghost use Rattle.term_bank.specs.Nodes.{Extends};
ghost use Rattle.term_sorts.specs.Sorts.{AreSorts};
ghost use Rattle.memory_spec.specs.Viewed.{runs_of};
ghost use Rattle.word_steps_spec.specs.Lines as spec;
ghost use Rattle.word_steps.specs.Views as views;
ghost use Rattle.word_steps.specs.Shows.{IsBlock};
ghost use Rattle.word_steps.specs.Outcomes.{Takes, TriesOne};

use crate::block::{Block, WordFault};
use crate::merging::Pair;
use crate::number::Other;
use attempt::{Refusal, allocated, attempt};
use std::alloc::{AllocError, Global};
use term_bank::Bank;
use term_core_spec::Sort;
use term_norm::Run;
use term_sorts::add_sorts;
use word_steps_rules::same_up_to_order;

impl Block {
    // A number is renewed, and merged with another where both are now one operator over the same
    // arguments in another order.
    fn merge_by_order(
        &mut self,
        alloc: Global,
        bank: &mut Bank,
        runs: &[Run],
        sorts: &mut Vec<Option<Sort>>,
        pair: Pair,
    ) -> Result<bool, AllocError>
        requires block { IsBlock bank.old self.old }
        requires sorts { AreSorts bank.old sorts.old.items }
        requires first { pair.first < views.count_of self.old }
        requires second { pair.second < views.count_of self.old }
        ensures tries { IfOk result (TriesOne bank.old bank.new self.old self.new
            (views.merged_by_order (runs_of runs.now) pair.first pair.second)) }
        ensures extends { Extends bank.old bank.new }
        ensures sorts { AreSorts bank.new sorts.new.items }
    {
        attempt!(self.renew_at(alloc, bank, runs, pair.first));
        attempt!(add_sorts(bank, sorts));
        let (x, y) = (self.number(pair.first).now, self.number(pair.second).now);
        if !attempt!(same_up_to_order(alloc, bank, sorts.as_slice(), x, y)) {
            return Ok(false);
        }
        attempt!(self.merge_at(alloc, bank, runs, pair.first, Other::Index(pair.second)));
        Ok(true)
    }

    // The line `comm` for two numbers that are alike.
    fn reorder_pair(
        &mut self,
        alloc: Global,
        bank: &mut Bank,
        runs: &[Run],
        sorts: &mut Vec<Option<Sort>>,
        pair: Pair,
    ) -> Result<(), Refusal<WordFault>>
        requires block { IsBlock bank.old self.old }
        requires sorts { AreSorts bank.old sorts.old.items }
        requires first { pair.first < views.count_of self.old }
        requires second { pair.second < views.count_of self.old }
        ensures line { Takes (views.merged_by_order (runs_of runs.now) pair.first pair.second)
            bank.old bank.new self.old self.new result }
        ensures extends { Extends bank.old bank.new }
        ensures sorts { AreSorts bank.new sorts.new.items }
    {
        if allocated!(self.merge_by_order(alloc, bank, runs, sorts, pair)) {
            return Ok(());
        }
        Err(Refusal::Fault(WordFault::Word))
    }

    /// `comm`: a number is merged with another, where both are now one operator over the same
    /// arguments in another order. The sorts are those of the first terms of the bank, and more
    /// of them after this.
    pub fn comm(
        &mut self,
        alloc: Global,
        bank: &mut Bank,
        runs: &[Run],
        sorts: &mut Vec<Option<Sort>>,
        first: usize,
        second: usize,
    ) -> Result<(), Refusal<WordFault>>
        requires block { IsBlock bank.old self.old }
        requires sorts { AreSorts bank.old sorts.old.items }
        ensures line { Takes (λ s. spec.applied (runs_of runs.now) s (spec.MergeBy spec.Comm first
            second [])) bank.old bank.new self.old self.new result }
        ensures extends { Extends bank.old bank.new }
        ensures sorts { AreSorts bank.new sorts.new.items }
    {
        match self.alike_pair(first, second) {
            Some(pair) => self.reorder_pair(alloc, bank, runs, sorts, pair),
            None => Err(Refusal::Fault(WordFault::Word)),
        }
    }
}
