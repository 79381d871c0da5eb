// Word steps on a goal, over no fixed bytes:
//
// - `steps GOAL; LINE; ..; END`: the goal that is left after the lines of a block, or `line N` for
//   the first that is refused, counted from 1
//
// A line is `t WORD N..`, `fact F K`, `part F`, `now`, `now N`, `same X Y F` or `comm X Y`. An end
// is `keep F..`; or `case X F..` for the first of two goals, and `otherwise X F..` for the second.
// A fact F is a number, after `-` for its opposite, and that after `=` for the fact as it was made.

ghost use Rattle.std.specs.Prelude.{◌<◌, length, OnOk};
ghost use Rattle.word_steps.specs.Shows.{IsBlock};

use crate::terms::compare;
use crate::words::node;
use attempt::{Refusal, allocated, attempt};
use row_io::{Out, decimal, split};
use std::alloc::{AllocError, Global};
use term_bank::{Bank, TermId, TermNode};
use word_steps::{Block, Fact, Reading, WordFault};

/// Above each number of a row.
const NUMBERS: usize = 1000;

fn fact(text: &str) -> Fact {
    match text.strip_prefix("-") {
        Some(number) => Fact {
            number: decimal(number) as usize,
            holds: false,
        },
        None => Fact {
            number: decimal(text) as usize,
            holds: true,
        },
    }
}

fn reading(text: &str) -> Reading {
    match text.strip_prefix("=") {
        Some(text) => Reading {
            fact: fact(text),
            as_made: true,
        },
        None => Reading {
            fact: fact(text),
            as_made: false,
        },
    }
}

fn readings(alloc: Global, text: &str) -> Result<Vec<Reading>, AllocError> {
    let mut all = Vec::new(alloc);
    for word in text.split(' ') {
        if !word.is_empty() {
            all.push(reading(word))?;
        }
    }
    Ok(all)
}

/// The numbers of a text, the first of them last.
fn numbers(alloc: Global, text: &str) -> Result<Vec<usize>, AllocError> {
    let mut all = Vec::new(alloc);
    for word in text.rsplit(' ') {
        all.push(decimal(word) as usize)?;
    }
    Ok(all)
}

/// A word over numbers.
fn operation(alloc: Global, text: &str) -> Result<TermNode, AllocError> {
    let (word, rest) = split(text, ' ');
    let mut named = attempt!(numbers(alloc, rest));
    Ok(node(&mut named, NUMBERS, word))
}

/// Takes a line `t`.
#[tactic(auto, using(crate::proofs::Taking::taken))]
fn take_next(
    alloc: Global,
    bank: &mut Bank,
    block: &mut Block,
    text: &str,
) -> Result<(), Refusal<WordFault>>
    requires { IsBlock bank.old block.old }
    ensures { OnOk result (IsBlock bank.new block.new) }
{
    let made = allocated!(operation(alloc, text));
    block.next(alloc, bank, &[], made)
}

/// Takes a line `fact`.
#[tactic(auto, using(crate::proofs::Taking::taken))]
fn take_argument(
    alloc: Global,
    bank: &mut Bank,
    block: &mut Block,
    text: &str,
) -> Result<(), Refusal<WordFault>>
    requires { IsBlock bank.old block.old }
    ensures { OnOk result (IsBlock bank.new block.new) }
{
    let (name, place) = split(text, ' ');
    block.argument(alloc, bank, &[], fact(name), decimal(place) as usize)
}

/// Takes a line `same`.
#[tactic(auto, using(crate::proofs::Taking::taken))]
fn take_same(
    alloc: Global,
    bank: &mut Bank,
    block: &mut Block,
    text: &str,
) -> Result<(), Refusal<WordFault>>
    requires { IsBlock bank.old block.old }
    ensures { OnOk result (IsBlock bank.new block.new) }
{
    let (first, rest) = split(text, ' ');
    let (second, name) = split(rest, ' ');
    let (x, y) = (decimal(first) as usize, decimal(second) as usize);
    block.same(alloc, bank, &[], x, y, reading(name))
}

/// Takes a line `comm`.
#[tactic(auto, using(crate::proofs::Taking::taken, crate::proofs::Sorted::no_sorts))]
fn take_comm(
    alloc: Global,
    bank: &mut Bank,
    block: &mut Block,
    text: &str,
) -> Result<(), Refusal<WordFault>>
    requires { IsBlock bank.old block.old }
    ensures { OnOk result (IsBlock bank.new block.new) }
{
    let (first, second) = split(text, ' ');
    let (x, y) = (decimal(first) as usize, decimal(second) as usize);
    let mut sorts = Vec::new(alloc);
    block.comm(alloc, bank, &[], &mut sorts, x, y)
}

/// Takes a line `now`.
#[tactic(auto, using(crate::proofs::Taking::taken))]
fn take_now(
    alloc: Global,
    bank: &mut Bank,
    block: &mut Block,
    text: &str,
) -> Result<(), Refusal<WordFault>>
    requires { IsBlock bank.old block.old }
    ensures { OnOk result (IsBlock bank.new block.new) }
{
    if text.is_empty() {
        return block.renew_all(alloc, bank, &[]);
    }
    block.renew(alloc, bank, &[], decimal(text) as usize)
}

/// Takes a line; one of another name as `part`.
#[tactic(auto, using(crate::proofs::Taking::taken))]
fn take(
    alloc: Global,
    bank: &mut Bank,
    block: &mut Block,
    line: &str,
) -> Result<(), Refusal<WordFault>>
    requires { IsBlock bank.old block.old }
    ensures { OnOk result (IsBlock bank.new block.new) }
{
    let (name, rest) = split(line, ' ');
    match name {
        "t" => take_next(alloc, bank, block, rest),
        "fact" => take_argument(alloc, bank, block, rest),
        "now" => take_now(alloc, bank, block, rest),
        "same" => take_same(alloc, bank, block, rest),
        "comm" => take_comm(alloc, bank, block, rest),
        _ => block.parts(alloc, bank, &[], fact(rest)),
    }
}

/// One of the two goals of a case.
fn case(
    alloc: Global,
    bank: &mut Bank,
    block: &Block,
    text: &str,
    first: bool,
) -> Result<TermId, Refusal<WordFault>>
    requires { IsBlock bank.old block.now }
{
    let (number, rest) = split(text, ' ');
    let kept = allocated!(readings(alloc, rest));
    match block.case(alloc, bank, &[], kept.as_slice(), decimal(number) as usize) {
        Ok((goal, other)) => Ok(if first { goal } else { other }),
        Err(error) => Err(error),
    }
}

/// The goal of an end.
fn left(
    alloc: Global,
    bank: &mut Bank,
    block: &Block,
    end: &str,
) -> Result<TermId, Refusal<WordFault>>
    requires { IsBlock bank.old block.now }
{
    let (name, rest) = split(end, ' ');
    if name == "keep" {
        let kept = allocated!(readings(alloc, rest));
        return block.keep(alloc, bank, &[], kept.as_slice());
    }
    case(alloc, bank, block, rest, name == "case")
}

fn put_refused(error: Refusal<usize>, out: &mut Out) -> Result<(), AllocError> {
    match error {
        Refusal::Fault(line) => {
            out.put("line ");
            out.show(&line);
            Ok(())
        }
        Refusal::NoMemory => Err(AllocError),
    }
}

/// The error of the line with this number.
fn at_line(error: Refusal<WordFault>, line: usize) -> Refusal<usize> {
    match error {
        Refusal::Fault(WordFault::Word) => Refusal::Fault(line),
        Refusal::NoMemory => Refusal::NoMemory,
    }
}

/// Takes lines up to the first that is refused; how many there are.
fn take_all(
    alloc: Global,
    bank: &mut Bank,
    block: &mut Block,
    lines: &str,
) -> Result<usize, Refusal<usize>>
    requires { IsBlock bank.old block.old }
    ensures { OnOk result (IsBlock bank.new block.new) }
{
    let mut count: usize = 0;
    for line in lines.split(';') {
        let line = line.trim_start_matches(' ');
        if !line.is_empty() {
            count = count.saturating_add(1);
            match take(alloc, bank, block, line) {
                Ok(()) => {}
                Err(error) => return Err(at_line(error, count)),
            }
        }
    }
    Ok(count)
}

/// The goal that is left after lines and an end.
fn goal_after(
    alloc: Global,
    bank: &mut Bank,
    goal: TermId,
    steps: &str,
) -> Result<TermId, Refusal<usize>>
    requires { goal < length bank.old }
{
    let (lines, end) = steps.rsplit_once(';').unwrap_or(("", steps));
    let mut block = allocated!(Block::start(alloc, bank, goal));
    let count = attempt!(take_all(alloc, bank, &mut block, lines));
    match left(alloc, bank, &block, end.trim_start_matches(' ')) {
        Ok(left) => Ok(left),
        Err(error) => Err(at_line(error, count.saturating_add(1))),
    }
}

/// Answers which goal word steps leave.
pub(crate) fn put_left(
    alloc: Global,
    bank: &mut Bank,
    read: &mut Vec<TermId>,
    goal: TermId,
    steps: &str,
    form: &str,
    out: &mut Out,
) -> Result<(), AllocError>
    requires { goal < length bank.old }
{
    match goal_after(alloc, bank, goal, steps) {
        Ok(left) => compare(bank, read, left, form, out),
        Err(error) => put_refused(error, out),
    }
}
