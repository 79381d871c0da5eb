// Renewing a number: what it is now.

ghost use Rattle.std.specs.Prelude.{◌≡◌, ◌<◌, ◌+◌, ◌==◌, suc, length, if◌then◌else◌, IfOk, OnOk, Some};
ghost use Rattle.term_bank.specs.Nodes.{Holds, Extends};
ghost use Rattle.memory_spec.specs.Viewed.{runs_of};
ghost use Rattle.word_steps_spec.specs.Numbers.{renew};
ghost use Rattle.word_steps.specs.Views as views;
ghost use Rattle.word_steps.specs.Shows.{IsBlock, IsOther};
ghost use Rattle.word_steps.specs.Outcomes.{Becomes};

use crate::block::Block;
use crate::number::{Number, Other};
use attempt::attempt;
use std::alloc::{AllocError, Global};
use term_bank::{Bank, TermId, TermNode};
use term_core_spec::Atom;
use term_norm::{Run, normal};

impl Block {
    /// The normal form of a number's operator over what its arguments are now, with the term `id`
    /// at one place.
    pub(crate) fn form_with(
        &self,
        alloc: Global,
        bank: &mut Bank,
        runs: &[Run],
        index: usize,
        at: usize,
        id: TermId,
    ) -> Result<TermId, AllocError>
        requires block { IsBlock bank.old self.now }
        requires index { index < views.count_of self.now }
        requires id { id < length bank.old }
        ensures form { IfOk result (λ form. Holds bank.new form
            (views.form_with (runs_of runs.now) bank.old self.now.numbers.items index at id)) }
        ensures extends { Extends bank.old bank.new }
    {
        let node = self.over_nows(self.number(index).operation, at, id);
        let made = attempt!(bank.add(node));
        let form = attempt!(normal(alloc, bank, made, runs));
        Ok(form)
    }

    // What a number is now that was merged with this.
    fn other_term(&self, bank: &mut Bank, other: Other) -> Result<TermId, AllocError>
        requires block { IsBlock bank.old self.now }
        requires other { IsOther (views.count_of self.now) (Some other) }
        ensures other { IfOk result (λ id. Holds bank.new id
            (views.other_in bank.old self.now.numbers.items other)) }
        ensures extends { Extends bank.old bank.new }
    {
        match other {
            Other::Index(index) => Ok(self.number(index).now),
            Other::Constant(atom) => bank.add(TermNode::Leaf(atom)),
        }
    }

    // What a number that isn't known becomes: what it was last merged with, or else its form.
    fn merged_or_rebuilt(
        &self,
        alloc: Global,
        bank: &mut Bank,
        runs: &[Run],
        index: usize,
        number: Number,
    ) -> Result<TermId, AllocError>
        requires block { IsBlock bank.old self.now }
        requires index { index < views.count_of self.now }
        requires number { number ≡ views.number_in self.now.numbers.items index }
        ensures form { IfOk result (λ id. Holds bank.new id
            (views.merged_in (runs_of runs.now) bank.old self.now.numbers.items index)) }
        ensures extends { Extends bank.old bank.new }
    {
        match number.marks.merged {
            Some(other) => self.other_term(bank, other),
            None => self.form_with(alloc, bank, runs, index, 0, number.now),
        }
    }

    // What a number becomes where it is renewed.
    fn renewed(
        &self,
        alloc: Global,
        bank: &mut Bank,
        runs: &[Run],
        index: usize,
    ) -> Result<TermId, AllocError>
        requires block { IsBlock bank.old self.now }
        requires index { index < views.count_of self.now }
        ensures form { IfOk result (λ id. Holds bank.new id
            (views.renewed_in (runs_of runs.now) bank.old self.now.numbers.items index)) }
        ensures extends { Extends bank.old bank.new }
    {
        let number = self.number(index);
        match number.marks.known {
            Some(holds) => bank.add(TermNode::Leaf(Atom::Truth(holds))),
            None => self.merged_or_rebuilt(alloc, bank, runs, index, number),
        }
    }

    // The count of changes, where the number at an index becomes this.
    fn changed(&self, index: usize, now: TermId) -> Result<usize, AllocError>
        requires { index < views.count_of self.now }
        ensures { IfOk result (λ n. n ≡ views.changes_of self.now
            + (if (views.number_in self.now.numbers.items index).now == now then 0 else 1)) }
    {
        if self.number(index).now == now {
            return Ok(self.changes);
        }
        match self.changes.checked_add(1) {
            Some(changes) => Ok(changes),
            None => Err(AllocError),
        }
    }

    /// Renews the number at an index.
    pub(crate) fn renew_at(
        &mut self,
        alloc: Global,
        bank: &mut Bank,
        runs: &[Run],
        index: usize,
    ) -> Result<(), AllocError>
        requires block { IsBlock bank.old self.old }
        requires index { index < views.count_of self.old }
        ensures becomes { OnOk result (Becomes bank.old bank.new self.old self.new
            (renew (runs_of runs.now) (suc index))) }
        ensures count { OnOk result (views.count_of self.new ≡ views.count_of self.old) }
        ensures extends { Extends bank.old bank.new }
    {
        let now = attempt!(self.renewed(alloc, bank, runs, index));
        let changes = attempt!(self.changed(index, now));
        bank.are_distinct();
        let mut number = self.number(index);
        number.now = now;
        self.numbers[index] = number;
        self.changes = changes;
        Ok(())
    }
}
