//! The rules inside a part: Leaf, Case and Restrict.

ghost use Rattle.std.specs.Prelude.{◌≡◌, ◌<◌, IfOk, OnOk, length};
ghost use Rattle.proof_tree.specs.Proofs.{binary_point_of, source_point_of};
ghost use Rattle.term_bank.specs.Nodes.{Extends};
ghost use Rattle.cert_text_spec.specs.Lines as spec;
ghost use Rattle.cert_check.specs.Expectations.{IsNext, AreAfter};
ghost use Rattle.cert_check.specs.Steps.{HasOneLog, IsKept, IsRestricted, IsStep, IsTestIn};
ghost use Rattle.cert_check.specs.Steps.{IsTested, goal_fault_of, rule_on};
ghost use Rattle.cert_check_jobs.specs.Jobs.{IsProofOnTop};
ghost use Rattle.sim_rules.specs.Rules.{rule_of};
ghost use Rattle.cert_check.specs.Bounds.{HasBound};

use crate::fault::PartFault;
use attempt::{Refusal, attempt};
use cert_check_frames::Listed;
use cert_check_jobs::{
    Cuts, Extra, Job, binary_node, push_branches, push_goals, push_proof, rule_goals, source_node,
    start_path, take_proof,
};
use cert_check_spec::RuleWord;
use cert_check_terms::{TermFault, read_line};
use cert_text_parse::{BinaryRestriction, SourceRestriction};
use cert_text_spec::Symbol;
use graph_core_spec::Mark;
use sim_rules::Rule;
use sim_rules_spec::Side;
use sim_rules_terms::Opening;
use std::alloc::{AllocError, Global};
use term_bank::{Bank, TermId};
use tv_limits::Quantity;

// ---- Leaf

// Why a rule has no obligations. It has no line, so none is ill-sorted.
fn goal_fault(fault: Refusal<sim_rules::RuleFault>) -> Refusal<PartFault>
    ensures { result ≡ goal_fault_of fault }
{
    match fault {
        Refusal::Fault(sim_rules::RuleFault::Sort(_)) => Refusal::Fault(PartFault::Broken(
            RuleWord::Sort,
        )),
        Refusal::Fault(sim_rules::RuleFault::Cyclic(_, _)) => Refusal::Fault(PartFault::Broken(
            RuleWord::Cyclic,
        )),
        Refusal::Fault(sim_rules::RuleFault::Large(_, _)) => Refusal::Fault(PartFault::Above(
            Quantity::Visits,
        )),
        Refusal::NoMemory => Refusal::NoMemory,
    }
}

/// `leaf N`: the frame's obligations are as many as the logs that follow.
pub(crate) fn leaf(
    alloc: Global,
    function: &Listed<'_>,
    opening: Opening<'_>,
    bank: &mut Bank,
    jobs: &mut Vec<Job>,
    logs: u32,
) -> Result<(), Refusal<PartFault>>
    requires kept { IsKept function.now bank.old opening jobs.old.items }
    requires next { IsNext jobs.old.items (spec.Leaf logs) }
    ensures step { IsStep function.now bank.old bank.new jobs.old.items jobs.new.items
        (spec.Leaf logs) result }
    ensures kept { OnOk result (IsKept function.now bank.new opening.entry jobs.new.items) }
    ensures follows { OnOk result (AreAfter jobs.old.items (spec.Leaf logs) jobs.new.items) }
{
    let extra = take_proof(jobs);
    let goals = match rule_goals(alloc, function, opening, &extra, Rule::Leaf, bank) {
        Ok(goals) => goals,
        Err(refusal) => return Err(goal_fault(refusal)),
    };
    if goals.len() != logs as usize {
        return Err(Refusal::Fault(PartFault::Broken(RuleWord::Logs)));
    }
    attempt!(push_goals(jobs, goals.as_slice()), Refusal::NoMemory);
    Ok(())
}

// ---- Case

/// The line that symbols spell in the source body of a path.
pub(crate) fn line_read(
    alloc: Global,
    function: &Listed<'_>,
    path: &[u32],
    bank: &mut Bank,
    symbols: &[Symbol],
) -> Result<TermId, Refusal<PartFault>>
    ensures line { IsTested function.now path.now symbols.now bank.new result }
    ensures within { IfOk result (λ line. line < length bank.new) }
    ensures extends { Extends bank.old bank.new }
{
    match read_line(alloc, function.setting, path, symbols, bank) {
        Ok(line) => Ok(line),
        Err(Refusal::Fault(TermFault::Sort)) => Err(Refusal::Fault(PartFault::Broken(
            RuleWord::Sort,
        ))),
        Err(Refusal::NoMemory) => Err(Refusal::NoMemory),
    }
}

// The test of a Case of a frame.
fn test<'a>(
    alloc: Global,
    function: &'a Listed<'a>,
    cuts: &'a Cuts,
    bank: &mut Bank,
    symbols: &[Symbol],
) -> Result<TermId, Refusal<PartFault>>
    ensures test { IsTestIn function.now cuts.now symbols.now bank.new result }
    ensures within { IfOk result (λ test. test < length bank.new) }
    ensures extends { Extends bank.old bank.new }
{
    line_read(alloc, function, start_path(function, cuts), bank, symbols)
}

/// `case TERM`: a proof where the term holds, and one where it doesn't.
pub(crate) fn case(
    alloc: Global,
    function: &Listed<'_>,
    opening: Opening<'_>,
    bank: &mut Bank,
    jobs: &mut Vec<Job>,
    symbols: &[Symbol],
) -> Result<(), Refusal<PartFault>>
    requires kept { IsKept function.now bank.old opening jobs.old.items }
    requires next { IsNext jobs.old.items (spec.Case symbols.now) }
    ensures step { IsStep function.now bank.old bank.new jobs.old.items jobs.new.items
        (spec.Case symbols.now) result }
    ensures kept { OnOk result (IsKept function.now bank.new opening.entry jobs.new.items) }
    ensures follows { OnOk result (AreAfter jobs.old.items (spec.Case symbols.now)
        jobs.new.items) }
{
    let _ = opening;
    let extra = take_proof(jobs);
    let test = attempt!(test(alloc, &*function, &extra.cuts, bank, symbols));
    attempt!(push_branches(alloc, jobs, &extra, test), Refusal::NoMemory);
    Ok(())
}

// ---- Restrict

// The rule where a side is restricted.
fn rule_for(side: Side, bound: Mark) -> Rule<'static>
    ensures { rule_of result ≡ rule_on side bound }
{
    match side {
        Side::Binary => Rule::RestrictBinary(bound),
        Side::Source => Rule::RestrictSource(bound),
    }
}

// The same where one more arrival of a side is excluded.
fn with_bound(
    alloc: Global,
    extra: &Extra,
    side: Side,
    bound: Mark,
) -> Result<Box<Extra>, AllocError>
    ensures { IfOk result (λ more. HasBound extra.now bound more.value side) }
{
    match side {
        Side::Binary => extra.with_binary_bound(alloc, bound),
        Side::Source => extra.with_source_bound(alloc, bound),
    }
}

// So many arrivals of a side at a node don't come; from there on the bound is in force.
fn restrict(
    alloc: Global,
    function: &Listed<'_>,
    opening: Opening<'_>,
    bank: &mut Bank,
    jobs: &mut Vec<Job>,
    side: Side,
    bound: Mark,
) -> Result<(), Refusal<PartFault>>
    requires kept { IsKept function.now bank.old opening jobs.old.items }
    requires top { IsProofOnTop jobs.old.items }
    ensures step { IsRestricted function.now bank.old bank.new jobs.old.items jobs.new.items
        side bound result }
    ensures kept { OnOk result (IsKept function.now bank.new opening.entry jobs.new.items) }
    ensures follows { OnOk result (HasOneLog jobs.old.items jobs.new.items) }
{
    if bound.count == 0 {
        return Err(Refusal::Fault(PartFault::Broken(RuleWord::Count)));
    }
    let extra = take_proof(jobs);
    let goals = match rule_goals(
        alloc,
        function,
        opening,
        &extra,
        rule_for(side, bound),
        bank,
    ) {
        Ok(goals) => goals,
        Err(refusal) => return Err(goal_fault(refusal)),
    };
    let more = attempt!(with_bound(alloc, &extra, side, bound), Refusal::NoMemory);
    attempt!(push_proof(jobs, more), Refusal::NoMemory);
    attempt!(push_goals(jobs, goals.as_slice()), Refusal::NoMemory);
    Ok(())
}

/// `restrict a POINT N`
pub(crate) fn restrict_binary(
    alloc: Global,
    function: &Listed<'_>,
    opening: Opening<'_>,
    bank: &mut Bank,
    jobs: &mut Vec<Job>,
    line: &BinaryRestriction,
) -> Result<(), Refusal<PartFault>>
    requires kept { IsKept function.now bank.old opening jobs.old.items }
    requires next { IsNext jobs.old.items
        (spec.RestrictBinary (binary_point_of line.now.point) line.now.count) }
    ensures step { IsStep function.now bank.old bank.new jobs.old.items jobs.new.items
        (spec.RestrictBinary (binary_point_of line.now.point) line.now.count) result }
    ensures kept { OnOk result (IsKept function.now bank.new opening.entry jobs.new.items) }
    ensures follows { OnOk result (AreAfter jobs.old.items
        (spec.RestrictBinary (binary_point_of line.now.point) line.now.count) jobs.new.items) }
{
    match binary_node(function, &line.point) {
        Some(node) => {
            let bound = Mark {
                node,
                count: line.count as usize,
            };
            restrict(alloc, function, opening, bank, jobs, Side::Binary, bound)
        }
        None => Err(Refusal::Fault(PartFault::Broken(RuleWord::Point))),
    }
}

/// `restrict c POINT N`
pub(crate) fn restrict_source(
    alloc: Global,
    function: &Listed<'_>,
    opening: Opening<'_>,
    bank: &mut Bank,
    jobs: &mut Vec<Job>,
    line: &SourceRestriction,
) -> Result<(), Refusal<PartFault>>
    requires kept { IsKept function.now bank.old opening jobs.old.items }
    requires next { IsNext jobs.old.items
        (spec.RestrictSource (source_point_of line.now.point) line.now.count) }
    ensures step { IsStep function.now bank.old bank.new jobs.old.items jobs.new.items
        (spec.RestrictSource (source_point_of line.now.point) line.now.count) result }
    ensures kept { OnOk result (IsKept function.now bank.new opening.entry jobs.new.items) }
    ensures follows { OnOk result (AreAfter jobs.old.items
        (spec.RestrictSource (source_point_of line.now.point) line.now.count) jobs.new.items) }
{
    match source_node(function, &line.point) {
        Some(node) => {
            let bound = Mark {
                node,
                count: line.count as usize,
            };
            restrict(alloc, function, opening, bank, jobs, Side::Source, bound)
        }
        None => Err(Refusal::Fault(PartFault::Broken(RuleWord::Point))),
    }
}
