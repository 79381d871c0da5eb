// The bits of terms, each found once: a row for each of some terms and their subterms.

ghost use Rattle.std.specs.Prelude.{◌≡◌, ◌<◌, ◌≤◌, Some, suc, length, slice_get, IfOk, OnOk};
ghost use Rattle.term_core_spec.specs.Sort as spec;
ghost use Rattle.term_bank.specs.Nodes.{tree_at};
ghost use Rattle.term_sorts.specs.Sorts.{AreSorts};
ghost use Rattle.word_steps_rules.specs.Bits.{row_in, rows_of};
ghost use Rattle.word_steps_rules.specs.Tables as views;
ghost use Rattle.word_steps_rules.specs.Tables.{IsPlannedRow, IsTable, Covers, HasMore};

use crate::bit::Bit;
use crate::plan::{Plan, planned_bit, row_at};
use crate::planning::{index_of, node_plan};
use crate::words::{node_at, sort_of};
use attempt::attempt;
use indexmap::IndexSet;
use std::alloc::{AllocError, Global};
use term_bank::{Bank, TermId};
use term_core_spec::{Sort, Width};
use term_sorts::add_subterms;

/// The bits of terms of a bank, of each word as many as its width.
#[derive(Drop)]
pub struct Rows {
    // each after its arguments
    pub(crate) ids: IndexSet<TermId>,
    // the row of the term with the same index
    pub(crate) rows: Vec<Vec<Bit>>,
}

fn bits(width: Width) -> usize
    ensures value { result ≡ spec.bits width }
    ensures most { result ≤ 64 }
{
    match width {
        Width::W8 => 8,
        Width::W16 => 16,
        Width::W32 => 32,
        Width::W64 => 64,
    }
}

// How many bits a word of a sort has; none what is no word.
fn bit_count(sort: Option<Sort>) -> usize
    ensures value { result ≡ views.bit_count sort }
    ensures most { result ≤ 64 }
{
    match sort {
        Some(Sort::Word(width)) => bits(width),
        Some(Sort::Truth) => 0,
        Some(Sort::Memory) => 0,
        None => 0,
    }
}

// Adds the first so many bits of a term to a row without bits.
fn add_bits(
    bank: &Bank,
    rows: &[Vec<Bit>],
    id: TermId,
    plan: Plan,
    count: usize,
    row: &mut Vec<Bit>,
) -> Result<(), AllocError>
    requires id { id < length bank.now }
    requires count { count ≤ 64 }
    requires rows { views.AreKnown bank.now (rows_of rows.now) }
    requires none { IsPlannedRow bank.now (rows_of rows.now) (tree_at bank.now id) plan 0
        row.old.items }
    ensures { OnOk result (IsPlannedRow bank.now (rows_of rows.now) (tree_at bank.now id) plan count
        row.new.items) }
{
    for place in 0..count {
        row.push(planned_bit(bank, rows, id, plan, place))?;
    }
    Ok(())
}

// The first so many bits of a term.
#[tactic(auto, using(crate::proofs::Filled::planned_none))]
fn new_row(
    alloc: Global,
    bank: &Bank,
    rows: &[Vec<Bit>],
    id: TermId,
    plan: Plan,
    count: usize,
) -> Result<Vec<Bit>, AllocError>
    requires id { id < length bank.now }
    requires count { count ≤ 64 }
    requires rows { views.AreKnown bank.now (rows_of rows.now) }
    ensures { IfOk result (λ row. IsPlannedRow bank.now (rows_of rows.now) (tree_at bank.now id)
        plan count row.items) }
{
    let mut row = Vec::new(alloc);
    attempt!(add_bits(bank, rows, id, plan, count, &mut row));
    Ok(row)
}

impl Rows {
    /// No term yet.
    pub fn new(alloc: Global) -> Rows
        ensures { (trees : views.Trees) → IsTable trees result }
    {
        Rows {
            ids: IndexSet::new(alloc),
            rows: Vec::new(alloc),
        }
    }

    // Adds the row of the next id.
    fn add_row(
        &mut self,
        alloc: Global,
        bank: &Bank,
        sorts: &[Option<Sort>],
        id: TermId,
    ) -> Result<(), AllocError>
        requires table { IsTable bank.now self.old }
        requires sorts { AreSorts bank.now sorts.now }
        requires all { length sorts.now ≡ length bank.now }
        requires id { slice_get self.old.ids.keys (length self.old.rows.items) ≡ Some id }
        ensures more { OnOk result (HasMore bank.now self.old self.new) }
        ensures ids { self.new.ids.keys ≡ self.old.ids.keys }
        ensures table { IsTable bank.now self.new }
    {
        bank.are_distinct();
        let node = node_at(bank, id);
        let plan = node_plan(bank, &self.ids, self.rows.as_slice(), node);
        let count = bit_count(sort_of(bank, sorts, id));
        let row = attempt!(new_row(alloc, bank, self.rows.as_slice(), id, plan, count));
        self.rows.push(row)?;
        Ok(())
    }

    // Adds the rows that lack.
    fn add_rows(
        &mut self,
        alloc: Global,
        bank: &Bank,
        sorts: &[Option<Sort>],
    ) -> Result<(), AllocError>
        requires table { IsTable bank.now self.old }
        requires sorts { AreSorts bank.now sorts.now }
        requires all { length sorts.now ≡ length bank.now }
        ensures ids { self.new.ids.keys ≡ self.old.ids.keys }
        ensures whole { OnOk result (length self.new.rows.items ≡ length self.new.ids.keys) }
        ensures table { IsTable bank.now self.new }
    {
        for k in self.rows.len()..self.ids.len() {
            let id = self.ids[k];
            attempt!(self.add_row(alloc, bank, sorts, id));
        }
        Ok(())
    }

    /// Adds the bits of a term and of its subterms. Out of memory, those of some of them.
    pub(crate) fn cover(
        &mut self,
        alloc: Global,
        bank: &Bank,
        sorts: &[Option<Sort>],
        id: TermId,
    ) -> Result<(), AllocError>
        requires table { IsTable bank.now self.old }
        requires sorts { AreSorts bank.now sorts.now }
        requires all { length sorts.now ≡ length bank.now }
        requires id { id < length bank.now }
        ensures covers { OnOk result (Covers self.new id) }
        ensures kept { OnOk result (views.Keeps self.old self.new) }
        ensures table { IsTable bank.now self.new }
    {
        bank.are_distinct();
        attempt!(add_subterms(alloc, bank, id, &mut self.ids));
        self.add_rows(alloc, bank, sorts)
    }

    /// The bits of a term that is covered.
    pub(crate) fn row(&self, id: TermId) -> &[Bit]
        ensures { result.now ≡ views.row_of self.now id }
    {
        row_at(self.rows.as_slice(), index_of(&self.ids, id))
    }
}
