//! The rule Split, and the lines of its relation.

ghost use Rattle.std.specs.Prelude.{◌≡◌, ◌↔◌, IsTrue, OnOk, length};
ghost use Rattle.cert_text_spec.specs.Lines as spec;
ghost use Rattle.proof_tree.specs.Proofs.{points_of};
ghost use Rattle.proof_tree_spec.specs.Cuts.{AreCounts};
ghost use Rattle.cert_check_jobs.specs.Jobs.{AreInside};
ghost use Rattle.cert_check.specs.Cuts.{AreAt, FindsBoth, split_line};
ghost use Rattle.cert_check.specs.Expectations.{IsNext, AreAfter};
ghost use Rattle.cert_check.specs.Steps.{IsKept, IsStep};

use crate::fault::PartFault;
use crate::rules::line_read;
use attempt::{Refusal, attempt};
use cert_check_frames::Listed;
use cert_check_jobs::{
    Draft, Job, binary_node, is_allowed, push_draft, source_node, take_draft, take_proof,
};
use cert_check_spec::RuleWord;
use cert_text_parse::Split;
use cert_text_spec::Symbol;
use proof_tree::Points;
use proof_tree_spec::{Counts, Cut, Nodes};
use sim_rules_terms::Opening;
use std::alloc::Global;
use term_bank::Bank;

// The node of a point of each side.
fn nodes_at(function: &Listed<'_>, points: &Points) -> Option<Nodes>
    ensures { FindsBoth function.now (points_of points.now) result }
{
    let binary = match binary_node(function, &points.binary) {
        Some(binary) => binary,
        None => return None,
    };
    match source_node(function, &points.source) {
        Some(source) => Some(Nodes { binary, source }),
        None => None,
    }
}

// Each side counts an arrival.
fn are_counts(counts: Counts) -> bool
    ensures { IsTrue result ↔ AreCounts counts }
{
    counts.binary > 0 && counts.source > 0
}

// So do both counts.
fn both_count(enter: Counts, step: Counts) -> bool
    ensures { IsTrue result ↔ (AreCounts enter × AreCounts step) }
{
    are_counts(enter) && are_counts(step)
}

// A Split at these nodes.
fn split_at(
    alloc: Global,
    function: &Listed<'_>,
    bank: &Bank,
    jobs: &mut Vec<Job>,
    line: &Split,
    nodes: Nodes,
) -> Result<(), Refusal<PartFault>>
    requires inside { AreInside (length bank.now) jobs.old.items }
    requires next { IsNext jobs.old.items (split_line line.now) }
    requires found { AreAt function.now (points_of line.now.points) nodes }
    ensures step { IsStep function.now bank.now bank.now jobs.old.items jobs.new.items
        (split_line line.now) result }
    ensures inside { OnOk result (AreInside (length bank.now) jobs.new.items) }
    ensures follows { OnOk result (AreAfter jobs.old.items (split_line line.now) jobs.new.items) }
{
    let extra = take_proof(jobs);
    if !both_count(line.enter, line.step) {
        return Err(Refusal::Fault(PartFault::Broken(RuleWord::Count)));
    }
    let allowed = attempt!(
        is_allowed(alloc, function, bank, &extra, Cut::At(nodes)),
        Refusal::NoMemory
    );
    if !allowed {
        return Err(Refusal::Fault(PartFault::Broken(RuleWord::Passed)));
    }
    let path = line.points.source.path.as_slice();
    let draft = attempt!(
        Draft::new(alloc, extra, nodes, path, line.enter, line.step),
        Refusal::NoMemory
    );
    attempt!(
        push_draft(alloc, jobs, draft, Vec::new(alloc), line.relations),
        Refusal::NoMemory
    );
    Ok(())
}

/// `split POINT POINT N N N N N`: a proof from the frame's start on with the cut as one goal more,
/// and one from the cut on, once the lines of the relation are read. The rules are tried in the
/// order Point, Count, Passed.
pub(crate) fn split(
    alloc: Global,
    function: &Listed<'_>,
    opening: Opening<'_>,
    bank: &mut Bank,
    jobs: &mut Vec<Job>,
    line: &Split,
) -> Result<(), Refusal<PartFault>>
    requires kept { IsKept function.now bank.old opening jobs.old.items }
    requires next { IsNext jobs.old.items (split_line line.now) }
    ensures step { IsStep function.now bank.old bank.new jobs.old.items jobs.new.items
        (split_line line.now) result }
    ensures kept { OnOk result (IsKept function.now bank.new opening.entry jobs.new.items) }
    ensures follows { OnOk result (AreAfter jobs.old.items (split_line line.now) jobs.new.items) }
{
    let _ = opening;
    match nodes_at(function, &line.points) {
        Some(nodes) => split_at(alloc, function, &*bank, jobs, line, nodes),
        None => Err(Refusal::Fault(PartFault::Broken(RuleWord::Point))),
    }
}

/// `rel TERM`: one line more of the relation that is read.
pub(crate) fn relation(
    alloc: Global,
    function: &Listed<'_>,
    opening: Opening<'_>,
    bank: &mut Bank,
    jobs: &mut Vec<Job>,
    symbols: &[Symbol],
) -> Result<(), Refusal<PartFault>>
    requires kept { IsKept function.now bank.old opening jobs.old.items }
    requires next { IsNext jobs.old.items (spec.Relation symbols.now) }
    ensures step { IsStep function.now bank.old bank.new jobs.old.items jobs.new.items
        (spec.Relation symbols.now) result }
    ensures kept { OnOk result (IsKept function.now bank.new opening.entry jobs.new.items) }
    ensures follows { OnOk result (AreAfter jobs.old.items (spec.Relation symbols.now)
        jobs.new.items) }
{
    let _ = opening;
    let mut reading = take_draft(jobs);
    let path = reading.draft.path.as_slice();
    let line = attempt!(line_read(alloc, function, path, bank, symbols));
    attempt!(reading.lines.push(line), Refusal::NoMemory);
    attempt!(
        push_draft(alloc, jobs, reading.draft, reading.lines, reading.left),
        Refusal::NoMemory
    );
    Ok(())
}
