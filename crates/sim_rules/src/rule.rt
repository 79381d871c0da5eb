//! The rules of a proof, and their obligations.

ghost use Rattle.std.specs.Prelude.{◌≡◌, ◌∷◌, [], IfErr, IfOk, OnOk, length};
ghost use Rattle.graph_core.specs.Graphs.{graph_of};
ghost use Rattle.graph_core_spec.specs.Graph as nodes;
ghost use Rattle.term_core.specs.Trees.{term_of};
ghost use Rattle.term_bank.specs.Nodes.{Extends};
ghost use Rattle.proof_tree.specs.Frames.{terms_of};
ghost use Rattle.proof_tree.specs.Scope.{setting_of};
ghost use Rattle.sim_rules_terms.specs.Openings.{IsOpeningIn};
ghost use Rattle.sim_rules.specs.Replies.{IsAnswer};
ghost use Rattle.sim_rules_terms.specs.Lines.{AreLines};
ghost use Rattle.sim_rules.specs.Lines.{IsLineFault};
ghost use Rattle.sim_rules.specs.Rules.{rule_of};

use crate::fault::RuleFault;
use crate::leaf::leaf;
use crate::restrict::{restrict_binary, restrict_source};
use crate::setup::Setup;
use crate::wait::wait;
use attempt::Refusal;
use graph_core::Graph;
use graph_core_spec::Mark;
use proof_tree::{Hold, Setting, is_line};
use sim_rules_terms::first_bad;
use std::alloc::Global;
use term_bank::{Bank, TermId};
use term_core::Term;

/// A rule of a proof, at nodes in place of points.
#[derive(Clone, Copy)]
pub enum Rule<'a> {
    /// both sides' walks end
    Leaf,
    /// where the term holds, and where it doesn't
    Case(&'a Term),
    /// so many arrivals of the binary at the node don't come
    RestrictBinary(Mark),
    /// so many arrivals of the source at the node don't come
    RestrictSource(Mark),
    /// the cut of a Split or a Hold, in the source body of this path; the lines of the relation
    Cut(&'a [u32], &'a [Box<Term>]),
    /// the binary alone comes to an open hold
    Wait(Hold<'a>),
}

// A Case or a cut leaves nothing to show, where its terms are lines.
fn nothing(
    alloc: Global,
    setting: &Setting,
    path: &[u32],
    lines: &[Box<Term>],
) -> Result<Vec<TermId>, Refusal<RuleFault>>
    ensures lines { OnOk result (AreLines (setting_of setting.now) path.now (terms_of lines.now)) }
    ensures terms { IfOk result (λ ids. ids.items ≡ []) }
    ensures fault { IfErr result (IsLineFault (setting_of setting.now) path.now
        (terms_of lines.now)) }
{
    match first_bad(setting, path, lines) {
        Some(index) => Err(Refusal::Fault(RuleFault::Sort(index))),
        None => Ok(Vec::new(alloc)),
    }
}

// The same of one term.
fn nothing_by(
    alloc: Global,
    setting: &Setting,
    path: &[u32],
    test: &Term,
) -> Result<Vec<TermId>, Refusal<RuleFault>>
    ensures lines { OnOk result (AreLines (setting_of setting.now) path.now
        (term_of test.now ∷ [])) }
    ensures terms { IfOk result (λ ids. ids.items ≡ []) }
    ensures fault { IfErr result (IsLineFault (setting_of setting.now) path.now
        (term_of test.now ∷ [])) }
{
    if is_line(setting, path, test) {
        Ok(Vec::new(alloc))
    } else {
        Err(Refusal::Fault(RuleFault::Sort(0)))
    }
}

// The obligations of a rule at a frame; `empty` in place of graphs that are not there.
fn obligations_over(
    alloc: Global,
    setup: &Setup<'_>,
    rule: Rule<'_>,
    empty: &Graph,
    bank: &mut Bank,
) -> Result<Vec<TermId>, Refusal<RuleFault>>
    requires empty { graph_of empty.now ≡ nodes.empty }
    requires opening { IsOpeningIn (length bank.old) setup.now.opening }
    ensures answer { IsAnswer bank.old bank.new setup.now (rule_of rule.entry) result }
    ensures extends { Extends bank.old bank.new }
{
    let frame = setup.frame;
    match rule {
        Rule::Leaf => leaf(alloc, setup, empty, bank),
        Rule::Case(test) => nothing_by(alloc, frame.setting, frame.start.path, test),
        Rule::RestrictBinary(bound) => restrict_binary(alloc, setup, empty, bound, bank),
        Rule::RestrictSource(bound) => restrict_source(alloc, setup, empty, bound, bank),
        Rule::Cut(path, lines) => nothing(alloc, frame.setting, path, lines),
        Rule::Wait(hold) => wait(alloc, setup, empty, &hold, bank),
    }
}

/// The obligations of a rule at a frame, in their order, or the first of these that applies: a term
/// that is no line, a walk that is cyclic, a walk with too many visits. Out of memory, the bank may
/// have some more terms.
pub fn obligations(
    alloc: Global,
    setup: &Setup<'_>,
    rule: Rule<'_>,
    bank: &mut Bank,
) -> Result<Vec<TermId>, Refusal<RuleFault>>
    requires { IsOpeningIn (length bank.old) setup.now.opening }
    ensures answer { IsAnswer bank.old bank.new setup.now (rule_of rule.entry) result }
    ensures extends { Extends bank.old bank.new }
{
    let empty = Graph::new(alloc);
    obligations_over(alloc, setup, rule, &empty, bank)
}
