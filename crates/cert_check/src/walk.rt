//! The walk along the lines of a certificate.

ghost use Rattle.std.specs.Prelude.{◌≡◌, ℕ, ◌<◌, OnOk, length, true};
ghost use Rattle.cert_text_parse.specs.Views.{line_of};
ghost use Rattle.cert_text_spec.specs.Lines as spec;
ghost use Rattle.cert_check_frames.specs.Parts.{AreIndices};
ghost use Rattle.cert_check_lines_spec.specs.Known as checked;
ghost use Rattle.cert_check.specs.Expectations.{IsNext, AreAfter};
ghost use Rattle.cert_check.specs.Steps.{IsKept, IsStep};
ghost use Rattle.cert_check.specs.Walks.{Begins, Ends, Goes, GoesInside};
ghost use Rattle.cert_check.specs.Walks.{IsInside, IsOpened, IsPlain, IsWalk};
ghost use Rattle.cert_check.specs.Walks.{IsNextAt, named_fault};

use crate::cuts::{relation, split};
use crate::fault::{Named, NamedFault, PartFault};
use crate::rules::{case, leaf, restrict_binary, restrict_source};
use attempt::{Refusal, attempt};
use cert_check_frames::{Listed, free, known, missing};
use cert_check_jobs::{Job, at_entry, push_proof};
use cert_check_spec::RuleWord;
use cert_text_parse::{Line, Part};
use sim_rules_terms::{Known, Opening};
use std::alloc::{AllocError, Global};
use term_bank::Bank;

/// Where a walk is: the functions whose parts have begun, and the part of the last of them.
#[derive(Drop)]
pub(crate) struct Walk {
    /// The functions, by their indices among the listed ones.
    pub parts: Vec<usize>,
    /// What is expected in the part, the first of it last.
    pub jobs: Vec<Job>,
    /// The terms of the part.
    pub bank: Bank,
    /// The terms of the binary's variables at the function's entry.
    pub binary: Known,
    /// The terms of the source's.
    pub source: Known,
}

// ---- parts

// The part of a function begins: a proof of its frame is expected.
fn open(alloc: Global, function: &Listed<'_>, walk: &mut Walk) -> Result<(), AllocError>
    ensures { OnOk result (IsOpened function.now walk.old walk.new) }
{
    walk.bank = Bank::new(alloc);
    walk.jobs.clear();
    walk.binary = attempt!(known(alloc, &mut walk.bank, function.binary_terms));
    walk.source = attempt!(known(alloc, &mut walk.bank, function.source_terms));
    let extra = attempt!(at_entry(alloc));
    push_proof(&mut walk.jobs, extra)
}

// The part of the listed function of an index, where its stack is this.
fn enter(
    alloc: Global,
    listed: &[Listed<'_>],
    walk: &mut Walk,
    index: usize,
    stack: u32,
) -> Result<(), Refusal<NamedFault>>
    requires { index < length listed.now }
    ensures { Begins listed.now walk.old walk.new index stack result }
{
    let function = &listed[index];
    if function.stack != stack {
        return Err(Refusal::Fault(NamedFault::Broken(Named::Listed(index), RuleWord::Stack)));
    }
    attempt!(open(alloc, function, walk), Refusal::NoMemory);
    attempt!(walk.parts.push(index), Refusal::NoMemory);
    Ok(())
}

// `function NAME stack N`, the line of an index.
fn begin(
    alloc: Global,
    listed: &[Listed<'_>],
    walk: &mut Walk,
    part: &Part,
    line: usize,
) -> Result<(), Refusal<NamedFault>>
    requires { IsWalk listed.now walk.old (spec.Function part.now.name.items part.now.stack) }
    ensures { Goes listed.now walk.old walk.new (spec.Function part.now.name.items part.now.stack)
        line result }
{
    match free(listed, walk.parts.as_slice(), part.name.as_slice()) {
        Some(index) => enter(alloc, listed, walk, index, part.stack),
        None => Err(Refusal::Fault(NamedFault::Broken(Named::Line(line), RuleWord::Stranger))),
    }
}

// `end`
fn end(listed: &[Listed<'_>], parts: &[usize]) -> Result<(), Refusal<NamedFault>>
    requires { AreIndices (length listed.now) parts.now }
    ensures { Ends listed.now parts.now result }
{
    match missing(listed, parts) {
        Some(index) => Err(Refusal::Fault(NamedFault::Broken(
            Named::Listed(index),
            RuleWord::Missing,
        ))),
        None => Ok(()),
    }
}

// ---- inside a part

// Whether a line is of a rule that is checked.
fn is_known(line: &Line) -> bool
    ensures { result ≡ checked.is_known (line_of line.now) }
{
    !matches!(
        line,
        Line::InlineBinary(_) | Line::InlineSource(_) | Line::Call(_)
    )
}

// A line inside the part of a function.
fn part_line(
    alloc: Global,
    function: &Listed<'_>,
    opening: Opening<'_>,
    bank: &mut Bank,
    jobs: &mut Vec<Job>,
    line: &Line,
) -> Result<(), Refusal<PartFault>>
    requires kept { IsKept function.now bank.old opening jobs.old.items }
    requires next { IsNext jobs.old.items (line_of line.now) }
    requires inside { IsInside line.now }
    requires plain { IsPlain line.now }
    requires known { checked.is_known (line_of line.now) ≡ true }
    ensures step { IsStep function.now bank.old bank.new jobs.old.items jobs.new.items
        (line_of line.now) result }
    ensures kept { OnOk result (IsKept function.now bank.new opening.entry jobs.new.items) }
    ensures follows { OnOk result (AreAfter jobs.old.items (line_of line.now) jobs.new.items) }
{
    match line {
        Line::Leaf(logs) => leaf(alloc, function, opening, bank, jobs, *logs),
        Line::Case(test) => case(alloc, function, opening, bank, jobs, test.as_slice()),
        Line::RestrictBinary(line) => restrict_binary(alloc, function, opening, bank, jobs, line),
        Line::RestrictSource(line) => restrict_source(alloc, function, opening, bank, jobs, line),
        Line::Split(line) => split(alloc, function, opening, bank, jobs, line),
        Line::Relation(term) => { relation(alloc, function, opening, bank, jobs, term.as_slice()) }
        _ => unreachable!(),
    }
}

// What is wrong in the part of the listed function of an index.
fn named(index: usize, fault: Refusal<PartFault>) -> Refusal<NamedFault>
    ensures { result ≡ named_fault index fault }
{
    match fault {
        Refusal::Fault(PartFault::Broken(rule)) => Refusal::Fault(NamedFault::Broken(
            Named::Listed(index),
            rule,
        )),
        Refusal::Fault(PartFault::Above(quantity)) => Refusal::Fault(NamedFault::Above(quantity)),
        Refusal::NoMemory => Refusal::NoMemory,
    }
}

// A line inside the part of the listed function of an index.
fn inside(
    alloc: Global,
    listed: &[Listed<'_>],
    walk: &mut Walk,
    index: usize,
    line: &Line,
) -> Result<(), Refusal<NamedFault>>
    requires index { index < length listed.now }
    requires next { IsNextAt listed.now walk.old index (line_of line.now) }
    requires inside { IsInside line.now }
    requires plain { IsPlain line.now }
    ensures { GoesInside listed.now walk.old walk.new index (line_of line.now) result }
{
    if !is_known(line) {
        return Err(Refusal::Fault(NamedFault::Broken(Named::Listed(index), RuleWord::Later)));
    }
    let opening = Opening {
        binary: &walk.binary,
        source: &walk.source,
    };
    match part_line(
        alloc,
        &listed[index],
        opening,
        &mut walk.bank,
        &mut walk.jobs,
        line,
    ) {
        Ok(()) => Ok(()),
        Err(fault) => Err(named(index, fault)),
    }
}

// ---- all lines

// A line inside the part that has begun last.
fn inside_last(
    alloc: Global,
    listed: &[Listed<'_>],
    walk: &mut Walk,
    line: &Line,
) -> Result<(), Refusal<NamedFault>>
    requires walk { IsWalk listed.now walk.old (line_of line.now) }
    requires inside { IsInside line.now }
    requires plain { IsPlain line.now }
    ensures { (index : ℕ) → Goes listed.now walk.old walk.new (line_of line.now) index result }
{
    let part = walk.parts[walk.parts.len() - 1];
    inside(alloc, listed, walk, part, line)
}

/// A line that is no log and no step of one, of an index.
pub(crate) fn step(
    alloc: Global,
    listed: &[Listed<'_>],
    walk: &mut Walk,
    line: &Line,
    index: usize,
) -> Result<(), Refusal<NamedFault>>
    requires walk { IsWalk listed.now walk.old (line_of line.now) }
    requires plain { IsPlain line.now }
    ensures { Goes listed.now walk.old walk.new (line_of line.now) index result }
{
    match line {
        Line::Header => Ok(()),
        Line::Function(part) => begin(alloc, listed, walk, part, index),
        Line::End => end(listed, walk.parts.as_slice()),
        _ => inside_last(alloc, listed, walk, line),
    }
}
