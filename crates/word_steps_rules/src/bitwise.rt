// The rule `bits`: of each bit of a word, whether it is 0, 1, or a bit of some other word.

ghost use Rattle.std.specs.Prelude.{◌≡◌, ◌<◌, ◌&&◌, ◌||◌, not, true, Some, length, IfOk, OnOk};
ghost use Rattle.term_core_spec.specs.Term.{Term};
ghost use Rattle.term_bank.specs.Nodes.{tree_at};
ghost use Rattle.term_sorts.specs.Sorts.{AreSorts};
ghost use Rattle.word_steps_spec.specs.Bitwise as spec;
ghost use Rattle.word_steps_spec.specs.Sides as sides;
ghost use Rattle.word_steps_rules.specs.Bits.{bit_in, bits_in, AreIn};
ghost use Rattle.word_steps_rules.specs.Pairs as views;
ghost use Rattle.word_steps_rules.specs.Tables.{AreWords, CoversBoth, HaveBits, IsTable, Keeps, row_of};
ghost use Rattle.word_steps_rules.specs.Views.{sides_in};

use crate::bit::{Bit, is_fixed, same_bit};
use crate::plan::row_bit;
use crate::rows::Rows;
use crate::words::{Sides, are_words, sides_at};
use attempt::attempt;
use std::alloc::{AllocError, Global};
use term_bank::{Bank, TermId};
use term_core_spec::{Atom, Sort};

/// Two bits, in any order.
#[derive(Clone, Copy)]
pub(crate) struct Pair {
    pub first: Bit,
    pub second: Bit,
}

/// The bits of two words.
#[derive(Clone, Copy)]
struct Words<'a> {
    first: &'a [Bit],
    second: &'a [Bit],
}

// The bits of two words at a place.
fn pair_at(words: Words<'_>, place: usize) -> Pair
    ensures { result ≡ views.pair_at words.entry.first.now words.entry.second.now place }
{
    Pair {
        first: row_bit(words.first, place),
        second: row_bit(words.second, place),
    }
}

// Whether two words have the same bits at the places below a count.
#[tactic(auto, unfolding(word_steps_spec::specs::Bitwise::all_below))]
fn are_same(bank: &Bank, words: Words<'_>, count: usize) -> bool
    requires first { AreIn (length bank.now) words.first.now }
    requires second { AreIn (length bank.now) words.second.now }
    ensures { result ≡ views.are_same count (bits_in bank.now words.entry.first.now)
        (bits_in bank.now words.entry.second.now) }
{
    if count == 0 {
        return true;
    }
    let pair = pair_at(words, count - 1);
    same_bit(bank, pair.first, pair.second) && are_same(bank, words, count - 1)
}

// Whether two pairs are the same.
fn same_pair(bank: &Bank, some: Pair, other: Pair) -> bool
    requires some { views.IsPair (length bank.now) some }
    requires other { views.IsPair (length bank.now) other }
    ensures { result ≡ spec.same_pair (views.pair_in bank.now some)
        (views.pair_in bank.now other) }
{
    (same_bit(bank, some.first, other.first) && same_bit(bank, some.second, other.second))
        || (same_bit(bank, some.first, other.second) && same_bit(bank, some.second, other.first))
}

// Whether two bits are not the same, and are this pair.
fn is_unequal_pair(bank: &Bank, pair: Pair, here: Pair) -> bool
    requires pair { views.IsPair (length bank.now) pair }
    requires here { views.IsPair (length bank.now) here }
    ensures { result ≡ (not (spec.same_bit (bit_in bank.now here.first) (bit_in bank.now
        here.second)) && spec.same_pair (views.pair_in bank.now pair) (views.pair_in bank.now
        here)) }
{
    !same_bit(bank, here.first, here.second) && same_pair(bank, pair, here)
}

// Whether two words have a pair that isn't the same bit, and is this one, at a place below a count.
#[tactic(auto, unfolding(crate::specs::Pairs::has_pair))]
fn has_pair(bank: &Bank, pair: Pair, words: Words<'_>, count: usize) -> bool
    requires pair { views.IsPair (length bank.now) pair }
    requires first { AreIn (length bank.now) words.first.now }
    requires second { AreIn (length bank.now) words.second.now }
    ensures { result ≡ views.has_pair (views.pair_in bank.now pair) count
        (bits_in bank.now words.entry.first.now) (bits_in bank.now words.entry.second.now) }
{
    if count == 0 {
        return false;
    }
    let here = pair_at(words, count - 1);
    is_unequal_pair(bank, pair, here) || has_pair(bank, pair, words, count - 1)
}

// Whether a pair is the same bit, or is one of two words, at a place below a count.
fn is_among(bank: &Bank, pair: Pair, words: Words<'_>, count: usize) -> bool
    requires pair { views.IsPair (length bank.now) pair }
    requires first { AreIn (length bank.now) words.first.now }
    requires second { AreIn (length bank.now) words.second.now }
    ensures { result ≡ (spec.same_bit (bit_in bank.now pair.first) (bit_in bank.now pair.second)
        || views.has_pair (views.pair_in bank.now pair) count (bits_in bank.now
        words.entry.first.now) (bits_in bank.now words.entry.second.now)) }
{
    same_bit(bank, pair.first, pair.second) || has_pair(bank, pair, words, count)
}

// Whether each pair of two words, at a place below a count, is one of two others.
#[tactic(auto, unfolding(crate::specs::Pairs::have_pairs))]
fn have_pairs(bank: &Bank, words: Words<'_>, count: usize, others: Words<'_>, total: usize) -> bool
    requires first { AreIn (length bank.now) words.first.now }
    requires second { AreIn (length bank.now) words.second.now }
    requires third { AreIn (length bank.now) others.first.now }
    requires fourth { AreIn (length bank.now) others.second.now }
    ensures { result ≡ views.have_pairs count (bits_in bank.now words.entry.first.now)
        (bits_in bank.now words.entry.second.now) total (bits_in bank.now others.entry.first.now)
        (bits_in bank.now others.entry.second.now) }
{
    if count == 0 {
        return true;
    }
    let pair = pair_at(words, count - 1);
    is_among(bank, pair, others, total) && have_pairs(bank, words, count - 1, others, total)
}

// Whether two words have the same pairs as two others.
fn have_same(bank: &Bank, words: Words<'_>, others: Words<'_>) -> bool
    requires first { AreIn (length bank.now) words.first.now }
    requires second { AreIn (length bank.now) words.second.now }
    requires third { AreIn (length bank.now) others.first.now }
    requires fourth { AreIn (length bank.now) others.second.now }
    ensures { result ≡ views.have_same bank.now words.entry.first.now words.entry.second.now
        others.entry.first.now others.entry.second.now }
{
    let (count, total) = (words.first.len(), others.first.len());
    have_pairs(bank, words, count, others, total) && have_pairs(bank, others, total, words, count)
}

// Whether one of two bits is 0 and the other 1.
fn are_opposite(pair: Pair) -> bool
    ensures { (trees : views.Trees) → result ≡ spec.are_opposite (views.pair_in trees pair) }
{
    (is_fixed(false, pair.first) && is_fixed(true, pair.second))
        || (is_fixed(true, pair.first) && is_fixed(false, pair.second))
}

// Whether two words have 0 and 1 at a place below a count.
#[tactic(auto, unfolding(crate::specs::Pairs::differ))]
fn differ(words: Words<'_>, count: usize) -> bool
    ensures { (trees : views.Trees) → result ≡ views.differ count
        (bits_in trees words.entry.first.now) (bits_in trees words.entry.second.now) }
{
    if count == 0 {
        return false;
    }
    are_opposite(pair_at(words, count - 1)) || differ(words, count - 1)
}

impl Rows {
    // Adds the bits of two terms.
    fn cover_both(
        &mut self,
        alloc: Global,
        bank: &Bank,
        sorts: &[Option<Sort>],
        ids: Sides,
    ) -> Result<(), AllocError>
        requires table { IsTable bank.now self.old }
        requires sorts { AreSorts bank.now sorts.now }
        requires all { length sorts.now ≡ length bank.now }
        requires left { ids.left < length bank.now }
        requires right { ids.right < length bank.now }
        ensures both { OnOk result (CoversBoth self.new ids) }
        ensures kept { OnOk result (Keeps self.old self.new) }
        ensures table { IsTable bank.now self.new }
    {
        bank.are_distinct();
        attempt!(self.cover(alloc, bank, sorts, ids.left));
        self.cover(alloc, bank, sorts, ids.right)
    }

    // The bits of two terms that are covered.
    fn words(&self, ids: Sides) -> Words<'_>
        ensures first { result.first.now ≡ row_of self.now ids.left }
        ensures second { result.second.now ≡ row_of self.now ids.right }
    {
        Words {
            first: self.row(ids.left),
            second: self.row(ids.right),
        }
    }
}

// Whether two words, whose bits are there, have the same.
fn are_same_words(bank: &Bank, rows: &Rows, ids: Sides) -> bool
    requires bits { HaveBits bank.now rows.now ids }
    requires words { sides.are_words (tree_at bank.now ids.left) (tree_at bank.now ids.right)
        ≡ true }
    ensures { result ≡ spec.have_same_bits (tree_at bank.now ids.left)
        (tree_at bank.now ids.right) }
{
    let words = rows.words(ids);
    are_same(bank, words, words.first.len())
}

// Whether two `eq`, the bits of whose sides are there, have the same pairs.
fn are_same_pairs(bank: &Bank, rows: &Rows, some: Sides, others: Sides) -> bool
    requires some { HaveBits bank.now rows.now some }
    requires others { HaveBits bank.now rows.now others }
    requires first { sides.are_words (tree_at bank.now some.left) (tree_at bank.now some.right)
        ≡ true }
    requires second { sides.are_words (tree_at bank.now others.left)
        (tree_at bank.now others.right) ≡ true }
    ensures { result ≡ spec.have_same_pairs (sides_in bank.now some)
        (sides_in bank.now others) }
{
    have_same(bank, rows.words(some), rows.words(others))
}

// What the pairs of an `eq`, the bits of whose sides are there, decide.
fn decided(bank: &Bank, rows: &Rows, ids: Sides) -> Option<Atom>
    requires bits { HaveBits bank.now rows.now ids }
    requires words { sides.are_words (tree_at bank.now ids.left) (tree_at bank.now ids.right)
        ≡ true }
    ensures { result ≡ spec.decided_by_pairs (Some (sides_in bank.now ids)) }
{
    let words = rows.words(ids);
    if are_same(bank, words, words.first.len()) {
        return Some(Atom::Truth(true));
    }
    if differ(words, words.first.len()) {
        Some(Atom::Truth(false))
    } else {
        None
    }
}

// Whether two words have the same bits.
fn have_same_bits(
    alloc: Global,
    bank: &Bank,
    sorts: &[Option<Sort>],
    rows: &mut Rows,
    ids: Sides,
) -> Result<bool, AllocError>
    requires table { IsTable bank.now rows.old }
    requires sorts { AreSorts bank.now sorts.now }
    requires all { length sorts.now ≡ length bank.now }
    requires left { ids.left < length bank.now }
    requires right { ids.right < length bank.now }
    ensures same { IfOk result (λ same. same ≡ spec.have_same_bits (tree_at bank.now ids.left)
        (tree_at bank.now ids.right)) }
    ensures table { IsTable bank.now rows.new }
{
    if !are_words(bank, sorts, ids.left, ids.right) {
        return Ok(false);
    }
    attempt!(rows.cover_both(alloc, bank, sorts, ids));
    Ok(are_same_words(bank, rows, ids))
}

// Whether two `eq` of words have the same pairs of bits.
fn have_same_pairs(
    alloc: Global,
    bank: &Bank,
    sorts: &[Option<Sort>],
    rows: &mut Rows,
    some: Sides,
    others: Sides,
) -> Result<bool, AllocError>
    requires table { IsTable bank.now rows.old }
    requires sorts { AreSorts bank.now sorts.now }
    requires all { length sorts.now ≡ length bank.now }
    requires some { AreWords bank.now some }
    requires others { AreWords bank.now others }
    ensures same { IfOk result (λ same. same ≡ spec.have_same_pairs (sides_in bank.now some)
        (sides_in bank.now others)) }
    ensures table { IsTable bank.now rows.new }
{
    attempt!(rows.cover_both(alloc, bank, sorts, some));
    attempt!(rows.cover_both(alloc, bank, sorts, others));
    Ok(are_same_pairs(bank, rows, some, others))
}

// The same of terms of which the sides of the first are known.
fn same_as_equality(
    alloc: Global,
    bank: &Bank,
    sorts: &[Option<Sort>],
    rows: &mut Rows,
    some: Sides,
    id: TermId,
) -> Result<bool, AllocError>
    requires table { IsTable bank.now rows.old }
    requires sorts { AreSorts bank.now sorts.now }
    requires all { length sorts.now ≡ length bank.now }
    requires some { AreWords bank.now some }
    requires id { id < length bank.now }
    ensures same { IfOk result (λ same. (x : Term) → same ≡ spec.same_bits_by
        (Some (sides_in bank.now some)) (sides.sides_of (tree_at bank.now id)) x
        (tree_at bank.now id)) }
    ensures table { IsTable bank.now rows.new }
{
    match sides_at(bank, sorts, id) {
        Some(others) => have_same_pairs(alloc, bank, sorts, rows, some, others),
        None => Ok(false),
    }
}

/// `bits X Y`, by bits alone: whether two words have the same bits, or two `eq` the same pairs of
/// bits that are not the same.
pub fn same_by_bits(
    alloc: Global,
    bank: &Bank,
    sorts: &[Option<Sort>],
    rows: &mut Rows,
    first: TermId,
    second: TermId,
) -> Result<bool, AllocError>
    requires table { IsTable bank.now rows.old }
    requires sorts { AreSorts bank.now sorts.now }
    requires all { length sorts.now ≡ length bank.now }
    requires first { first < length bank.now }
    requires second { second < length bank.now }
    ensures same { IfOk result (λ same. same ≡ spec.same_by_bits (tree_at bank.now first)
        (tree_at bank.now second)) }
    ensures table { IsTable bank.now rows.new }
{
    match sides_at(bank, sorts, first) {
        Some(some) => same_as_equality(alloc, bank, sorts, rows, some, second),
        None => {
            let ids = Sides {
                left: first,
                right: second,
            };
            have_same_bits(alloc, bank, sorts, rows, ids)
        }
    }
}

/// `bits X`, by bits alone: whether an `eq` of words is true, as no bit differs, or false, as one
/// does.
pub fn decided_by_bits(
    alloc: Global,
    bank: &Bank,
    sorts: &[Option<Sort>],
    rows: &mut Rows,
    id: TermId,
) -> Result<Option<Atom>, AllocError>
    requires table { IsTable bank.now rows.old }
    requires sorts { AreSorts bank.now sorts.now }
    requires all { length sorts.now ≡ length bank.now }
    requires id { id < length bank.now }
    ensures decided { IfOk result (λ decided. decided ≡ spec.decided_by_bits
        (tree_at bank.now id)) }
    ensures table { IsTable bank.now rows.new }
{
    match sides_at(bank, sorts, id) {
        Some(ids) => {
            attempt!(rows.cover_both(alloc, bank, sorts, ids));
            Ok(decided(bank, rows, ids))
        }
        None => Ok(None),
    }
}
