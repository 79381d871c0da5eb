//! What may be used at a call: what holds at entry, and the relation before the calls.

ghost use Rattle.std.specs.Prelude.{◌≡◌, ◌++◌, ◌≤◌, true, length, map};
ghost use Rattle.std.specs.List.{fold};
ghost use Rattle.proof_tree.specs.Frames.{terms_of};
ghost use Rattle.sim_rules_spec.specs.Points as points;
ghost use Rattle.sim_rules_spec.specs.Rules.{at_cut, terms_at_start};
ghost use Rattle.sim_calls.specs.Cuts.{IsCut};
ghost use Rattle.term_bank.specs.Nodes.{Extends};
ghost use Rattle.term_core_spec.specs.Substitution.{substituted};
ghost use Rattle.term_core_spec.specs.Term as tree;
ghost use Rattle.term_substitution.specs.States.{IsAt, IsFound};

use crate::cut::Cut;
use sim_rules_terms::{BothSides, and_lines, truth};
use std::alloc::AllocError;
use term_bank::{Bank, TermId};
use term_core::Term;

/// `and` of `true`, what holds at entry and the lines before the calls, nested to the left. Out of
/// memory, the bank may have some more terms.
pub(crate) fn premises(
    bank: &mut Bank,
    cut: &Cut,
    entry: &[Box<Term>],
    before: &[Box<Term>],
) -> Result<TermId, AllocError>
    requires { (c : points.Convention) × IsCut bank.old c cut.now }
    ensures tree { (c : points.Convention) → IsCut bank.old c cut.now → IsAt bank.new result
        (fold tree.and_term (tree.truth true) (map (substituted (terms_at_start (at_cut c)))
        (terms_of entry.now ++ terms_of before.now))) }
    ensures within { IsFound bank.new result }
    ensures extends { Extends bank.old bank.new }
    ensures longer { length bank.old ≤ length bank.new }
{
    let terms = BothSides {
        binary: &cut.binary,
        source: &cut.source,
        zone: None,
    };
    let always = truth(bank, true)?;
    let all = and_lines(bank, always, entry, &terms)?;
    and_lines(bank, all, before, &terms)
}
