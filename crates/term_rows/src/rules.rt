// The tests of the rules of word steps, on terms that were read:
//
// - `comm TERM TERM`: whether both are one operator over the same arguments in another order
// - `bits TERM TERM`: whether both have the same bits, or are two `eq` of the same pairs of bits
// - `decided TERM`: the truth value of an `eq` by the bits of its sides, or `open`

ghost use Rattle.std.specs.Prelude.{◌≡◌, ◌<◌, length, IfOk};
ghost use Rattle.term_sorts.specs.Sorts.{AreSorts};

use crate::Question;
use crate::words::next;
use attempt::attempt;
use row_io::Out;
use std::alloc::{AllocError, Global};
use term_bank::{Bank, TermId};
use term_core_spec::{Atom, Sort};
use term_sorts::add_sorts;
use word_steps_rules::{Rows, decided_by_bits, same_by_bits, same_up_to_order};

/// The sorts of all terms of a bank.
#[tactic(auto, using(crate::proofs::Sorted::no_sorts))]
fn sorts(alloc: Global, bank: &Bank) -> Result<Vec<Option<Sort>>, AllocError>
    ensures sorts { IfOk result (λ sorts. AreSorts bank.now sorts.items) }
    ensures all { IfOk result (λ sorts. length sorts.items ≡ length bank.now) }
{
    let mut sorts = Vec::new(alloc);
    attempt!(add_sorts(bank, &mut sorts));
    Ok(sorts)
}

/// Whether two terms are the same by a rule: by `bits`, or else by `comm`.
fn are_same(
    alloc: Global,
    bank: &Bank,
    sorts: &[Option<Sort>],
    question: Question,
    first: TermId,
    second: TermId,
) -> Result<bool, AllocError>
    requires sorts { AreSorts bank.now sorts.now }
    requires all { length sorts.now ≡ length bank.now }
    requires first { first < length bank.now }
    requires second { second < length bank.now }
{
    match question {
        Question::Bits => {
            let mut rows = Rows::new(alloc);
            same_by_bits(alloc, bank, sorts, &mut rows, first, second)
        }
        _ => same_up_to_order(alloc, bank, sorts, first, second),
    }
}

/// Answers whether a term and the next one that was read are the same by a rule.
pub(crate) fn put_same(
    alloc: Global,
    bank: &Bank,
    read: &mut Vec<TermId>,
    id: TermId,
    question: Question,
    out: &mut Out,
) -> Result<(), AllocError>
    requires { id < length bank.now }
{
    let other = next(read, bank.len());
    let sorts = attempt!(sorts(alloc, bank));
    let same = attempt!(are_same(alloc, bank, sorts.as_slice(), question, id, other));
    out.show(&same);
    Ok(())
}

/// Answers what the bits of a term decide.
pub(crate) fn put_decided(
    alloc: Global,
    bank: &Bank,
    id: TermId,
    out: &mut Out,
) -> Result<(), AllocError>
    requires { id < length bank.now }
{
    let sorts = attempt!(sorts(alloc, bank));
    let mut rows = Rows::new(alloc);
    match attempt!(decided_by_bits(alloc, bank, sorts.as_slice(), &mut rows, id)) {
        Some(Atom::Truth(truth)) => out.show(&truth),
        _ => out.put("open"),
    }
    Ok(())
}
