//! Lines of a relation and premises, over the terms of their variables.

ghost use Rattle.std.specs.Prelude.{◌∷◌, [], ◌++◌, ◌<◌, ◌≤◌, length, map};
ghost use Rattle.std.specs.List.{fold};
ghost use Rattle.term_core_spec.specs.Term as tree;
ghost use Rattle.term_core_spec.specs.Substitution.{State as Terms, substituted};
ghost use Rattle.term_core.specs.Trees.{term_of};
ghost use Rattle.term_bank.specs.Nodes.{Extends, Holds};
ghost use Rattle.term_substitution.specs.States.{AreBelow, IsAt, IsFound};
ghost use Rattle.path_cond.specs.States.{IsMapOf};
ghost use Rattle.proof_tree.specs.Frames.{premise_of, terms_of};
ghost use Rattle.sim_rules_spec.specs.Rules.{all_of};

use crate::logic::{both, negation};
use proof_tree::Premise;
use std::alloc::AllocError;
use std::collections::HashMap;
use term_bank::{Bank, TermId};
use term_core::Term;
use term_core_spec::Variable;
use term_substitution::{Lookup, substitute};

/// The term of each variable of a side; one that has none is itself.
pub type Known = HashMap<Variable, TermId>;

// A line over the terms of its variables.
fn line_at<L: Lookup>(bank: &mut Bank, line: &Term, terms: &L) -> Result<TermId, AllocError>
    requires { AreBelow (length bank.old) (L.terms terms.now) }
    ensures tree { (s : Terms) → IsMapOf bank.old (L.terms terms.now) s
        → IsAt bank.new result (substituted s (term_of line.now)) }
    ensures within { IsFound bank.new result }
    ensures extends { Extends bank.old bank.new }
    ensures longer { length bank.old ≤ length bank.new }
{
    substitute(bank, line, terms)
}

/// `and` of a term and some lines, nested to the left.
pub fn and_lines<L: Lookup>(
    bank: &mut Bank,
    first: TermId,
    lines: &[Box<Term>],
    terms: &L,
) -> Result<TermId, AllocError>
    requires first { first < length bank.old }
    requires terms { AreBelow (length bank.old) (L.terms terms.now) }
    ensures tree { (t : tree.Term) (s : Terms) → Holds bank.old first t
        → IsMapOf bank.old (L.terms terms.now) s → IsAt bank.new result
        (fold tree.and_term t (map (substituted s) (terms_of lines.now))) }
    ensures within { IsFound bank.new result }
    ensures extends { Extends bank.old bank.new }
    ensures longer { length bank.old ≤ length bank.new }
{
    let mut all = first;
    for i in 0..lines.len() {
        let next = line_at(bank, &lines[i], terms)?;
        all = both(bank, all, next)?;
    }
    Ok(all)
}

// `and` of a line, more lines and a last one.
fn all_from<L: Lookup>(
    bank: &mut Bank,
    first: &Term,
    rest: &[Box<Term>],
    last: &Term,
    terms: &L,
) -> Result<TermId, AllocError>
    requires { AreBelow (length bank.old) (L.terms terms.now) }
    ensures tree { (s : Terms) → IsMapOf bank.old (L.terms terms.now) s → IsAt bank.new result
        (all_of (map (substituted s) (term_of first.now ∷ (terms_of rest.now
        ++ term_of last.now ∷ [])))) }
    ensures within { IsFound bank.new result }
    ensures extends { Extends bank.old bank.new }
    ensures longer { length bank.old ≤ length bank.new }
{
    let all = line_at(bank, first, terms)?;
    let all = and_lines(bank, all, rest, terms)?;
    let last = line_at(bank, last, terms)?;
    both(bank, all, last)
}

/// `and` of some lines and a last one.
pub fn all_lines<L: Lookup>(
    bank: &mut Bank,
    lines: &[Box<Term>],
    last: &Term,
    terms: &L,
) -> Result<TermId, AllocError>
    requires { AreBelow (length bank.old) (L.terms terms.now) }
    ensures tree { (s : Terms) → IsMapOf bank.old (L.terms terms.now) s → IsAt bank.new result
        (all_of (map (substituted s) (terms_of lines.now ++ term_of last.now ∷ []))) }
    ensures within { IsFound bank.new result }
    ensures extends { Extends bank.old bank.new }
    ensures longer { length bank.old ≤ length bank.new }
{
    match lines {
        [] => line_at(bank, last, terms),
        [first, rest @ ..] => all_from(bank, first, rest, last, terms),
    }
}

// A premise over the terms of its variables.
#[tactic(auto, unfolding(term_core_spec::specs::Substitution::substituted))]
fn premise_at<L: Lookup>(
    bank: &mut Bank,
    premise: &Premise<'_>,
    terms: &L,
) -> Result<TermId, AllocError>
    requires { AreBelow (length bank.old) (L.terms terms.now) }
    ensures tree { (s : Terms) → IsMapOf bank.old (L.terms terms.now) s
        → IsAt bank.new result (substituted s (premise_of premise.now)) }
    ensures within { IsFound bank.new result }
    ensures extends { Extends bank.old bank.new }
    ensures longer { length bank.old ≤ length bank.new }
{
    let term = line_at(bank, premise.term, terms)?;
    if premise.holds {
        Ok(term)
    } else {
        negation(bank, term)
    }
}

/// `and` of a term and some premises, nested to the left.
pub(crate) fn and_premises<L: Lookup>(
    bank: &mut Bank,
    first: TermId,
    premises: &[Premise<'_>],
    terms: &L,
) -> Result<TermId, AllocError>
    requires first { first < length bank.old }
    requires terms { AreBelow (length bank.old) (L.terms terms.now) }
    ensures tree { (t : tree.Term) (s : Terms) → Holds bank.old first t
        → IsMapOf bank.old (L.terms terms.now) s → IsAt bank.new result
        (fold tree.and_term t (map (substituted s) (map premise_of premises.now))) }
    ensures within { IsFound bank.new result }
    ensures extends { Extends bank.old bank.new }
    ensures longer { length bank.old ≤ length bank.new }
{
    let mut all = first;
    for i in 0..premises.len() {
        let next = premise_at(bank, &premises[i], terms)?;
        all = both(bank, all, next)?;
    }
    Ok(all)
}
