//! The obligations of a call.

ghost use Rattle.std.specs.Prelude.{◌≡◌, ◌∷◌, [], ◌++◌, ◌<◌, All, IfErr, IfOk, OnOk, length};
ghost use Rattle.proof_tree.specs.Frames.{frame_of, terms_of};
ghost use Rattle.proof_tree.specs.Scope.{setting_of};
ghost use Rattle.sim_rules_spec.specs.Calls as spec;
ghost use Rattle.sim_rules_spec.specs.Points as points;
ghost use Rattle.sim_calls.specs.Callees.{IsCalleeOf};
ghost use Rattle.sim_calls.specs.Cuts.{CanCut, IsCut};
ghost use Rattle.sim_calls.specs.Outcome.{AreObligations, HasLines, IsBadLine, IsCallFault};
ghost use Rattle.sim_calls.specs.Outcome.{IsSetup};
ghost use Rattle.sim_calls.specs.Sites.{AreWithin, pair_by};
ghost use Rattle.term_bank.specs.Nodes.{Extends};
ghost use Rattle.term_core.specs.Trees.{term_of};

use crate::begun::begins;
use crate::callee::Callee;
use crate::cut::Cut;
use crate::given::premises;
use crate::returned::returns;
use crate::sites::Calls;
use attempt::{Refusal, attempt};
use proof_tree::{Frame, Setting};
use sim_rules_terms::{Convention, first_bad, implication};
use std::alloc::{AllocError, Global};
use term_bank::{Bank, TermId};
use term_core::Term;

/// A frame, with what the obligations of its calls speak of.
#[derive(Clone, Copy)]
pub struct Setup<'a> {
    /// The frame.
    pub frame: &'a Frame<'a>,
    /// Where the memories of both sides may differ.
    pub convention: &'a Convention<'a>,
    /// The first address of the zone, over values at entry.
    pub zone_from: &'a Term,
    /// The address after its last.
    pub zone_to: &'a Term,
}

/// The lines of a call, in the source body of a path.
#[derive(Clone, Copy)]
pub struct CallLines<'a> {
    /// The path.
    pub path: &'a [u32],
    /// The relation before the calls.
    pub before: &'a [Box<Term>],
    /// The relation where both sides are back.
    pub after: &'a [Box<Term>],
}

/// Why a call has no obligations.
#[derive(Clone, Copy)]
pub enum CallFault {
    /// The line at this index is the first that is none: it is ill-sorted, no truth value, or
    /// speaks of a variable out of scope. The lines after the call come after those before it.
    Sort(usize),
}

// The index of the first line of a call that is none, if there is one.
fn bad_line(setting: &Setting, lines: &CallLines<'_>) -> Option<usize>
    ensures { IsBadLine (setting_of setting.now) lines.now.path.now
        (terms_of lines.now.before.now) (terms_of lines.now.after.now) result }
{
    match first_bad(setting, lines.path, lines.before) {
        Some(index) => Some(index),
        None => match first_bad(setting, lines.path, lines.after) {
            Some(index) => Some(lines.before.len() + index),
            None => None,
        },
    }
}

// What is left to show, over the terms at the cut.
fn terms_over(
    alloc: Global,
    bank: &mut Bank,
    setup: &Setup<'_>,
    calls: &Calls<'_>,
    callee: &Callee,
    lines: &CallLines<'_>,
    cut: &Cut,
) -> Result<(TermId, TermId), AllocError>
    requires cut { CanCut bank.old (term_of setup.now.zone_from.now) (term_of setup.now.zone_to.now)
        cut.now }
    requires calls { AreWithin calls.now }
    ensures terms { (c : points.Convention) (s : spec.Callee) → IsSetup c setup.now
        → IsCalleeOf c s callee.now → IsCut bank.old c cut.now → IfOk result (λ ids.
        AreObligations bank.new c (frame_of setup.now.frame.now) (pair_by calls.now) s
        (terms_of lines.now.before.now) (terms_of lines.now.after.now) (ids.0 ∷ ids.1 ∷ [])) }
    ensures within { IfOk result (λ ids. (ids.0 < length bank.new) × (ids.1 < length bank.new)) }
    ensures extends { Extends bank.old bank.new }
{
    let memory = &setup.convention.memory;
    let given = premises(bank, cut, setup.frame.entry, lines.before)?;
    let begins = begins(alloc, bank, cut, calls, callee.lines.as_slice(), memory)?;
    let first = implication(bank, given, begins)?;
    let returns = returns(
        alloc,
        bank,
        cut,
        &calls.source,
        setup.zone_from,
        setup.zone_to,
        callee.stack,
        &callee.result,
        lines.after,
        memory,
    )?;
    let second = implication(bank, given, returns)?;
    Ok((first, second))
}

// What is left to show.
fn call_terms(
    alloc: Global,
    bank: &mut Bank,
    setup: &Setup<'_>,
    calls: &Calls<'_>,
    callee: &Callee,
    lines: &CallLines<'_>,
) -> Result<(TermId, TermId), AllocError>
    requires { AreWithin calls.now }
    ensures terms { (c : points.Convention) (s : spec.Callee) → IsSetup c setup.now
        → IsCalleeOf c s callee.now → IfOk result (λ ids. AreObligations bank.new c
        (frame_of setup.now.frame.now) (pair_by calls.now) s (terms_of lines.now.before.now)
        (terms_of lines.now.after.now) (ids.0 ∷ ids.1 ∷ [])) }
    ensures within { IfOk result (λ ids. (ids.0 < length bank.new) × (ids.1 < length bank.new)) }
    ensures extends { Extends bank.old bank.new }
{
    let cut = Cut::new(alloc, bank, setup.zone_from, setup.zone_to)?;
    terms_over(alloc, bank, setup, calls, callee, lines, &cut)
}

// Two ids as a list.
fn two(alloc: Global, ids: (TermId, TermId)) -> Result<Vec<TermId>, AllocError>
    ensures { IfOk result (λ all. all.items ≡ ids.0 ∷ ids.1 ∷ []) }
{
    let mut all = Vec::new(alloc);
    all.push(ids.0)?;
    all.push(ids.1)?;
    Ok(all)
}

/// The obligations of a call: the relation where the callee begins, then that where both sides are
/// back, each under what holds at entry and the relation before; or the first line that is none.
/// Out of memory, the bank may have some more terms.
pub fn obligations(
    alloc: Global,
    bank: &mut Bank,
    setup: &Setup<'_>,
    calls: &Calls<'_>,
    callee: &Callee,
    lines: &CallLines<'_>,
) -> Result<Vec<TermId>, Refusal<CallFault>>
    requires { AreWithin calls.now }
    ensures terms { (c : points.Convention) (s : spec.Callee) → IsSetup c setup.now
        → IsCalleeOf c s callee.now → IfOk result (λ ids. AreObligations bank.new c
        (frame_of setup.now.frame.now) (pair_by calls.now) s (terms_of lines.now.before.now)
        (terms_of lines.now.after.now) ids.items) }
    ensures within { IfOk result (λ ids. All (λ id. id < length bank.new) ids.items) }
    ensures lines { OnOk result (HasLines (frame_of setup.now.frame.now).setting lines.now.path.now
        (terms_of lines.now.before.now) (terms_of lines.now.after.now)) }
    ensures fault { IfErr result (IsCallFault (frame_of setup.now.frame.now).setting
        lines.now.path.now (terms_of lines.now.before.now ++ terms_of lines.now.after.now)) }
    ensures extends { Extends bank.old bank.new }
{
    match bad_line(setup.frame.setting, lines) {
        Some(index) => Err(Refusal::Fault(CallFault::Sort(index))),
        None => {
            let ids = attempt!(
                call_terms(alloc, bank, setup, calls, callee, lines),
                Refusal::NoMemory
            );
            let all = attempt!(two(alloc, ids), Refusal::NoMemory);
            Ok(all)
        }
    }
}
