//! Premises: those of a frame, that no bound is broken, and that the source doesn't fail.

ghost use Rattle.std.specs.Prelude.{◌≡◌, ◌<◌, ◌≤◌, true, length, map};
ghost use Rattle.std.specs.List.{fold};
ghost use Rattle.term_core_spec.specs.Term as tree;
ghost use Rattle.term_core_spec.specs.Substitution.{substituted};
ghost use Rattle.term_bank.specs.Nodes.{Extends, Holds};
ghost use Rattle.term_substitution.specs.States.{IsAt, IsFound};
ghost use Rattle.proof_tree_spec.specs.Frames.{Frame};
ghost use Rattle.proof_tree.specs.Frames.{mark_of, premise_of, start_of};
ghost use Rattle.sim_rules_spec.specs.Rules as spec;
ghost use Rattle.sim_rules_spec.specs.Rules.{Seen, premise_terms, terms_at_start, unbroken_if};
ghost use Rattle.sim_rules_spec.specs.Rules.{unfailed_if, wait_premises};
ghost use Rattle.sim_rules_spec.specs.Sides as sides;
ghost use Rattle.sim_rules_terms.specs.Openings.{IsOpening, IsOpeningIn};
ghost use Rattle.sim_rules_terms.specs.Seen.{IsSeen};
ghost use Rattle.sim_rules_terms.specs.Ways.{IsSight};

use crate::lines::and_premises;
use crate::logic::{both, negation, truth};
use crate::points::{BothSides, Opening};
use crate::sight::Sight;
use crate::which::Which;
use graph_core_spec::Mark;
use proof_tree::{Premise, Start};
use std::alloc::{AllocError, Global};
use term_bank::{Bank, TermId};

// `and` of a term and that the bound at an index is not broken.
fn and_bound(
    alloc: Global,
    bank: &mut Bank,
    first: TermId,
    sight: &Sight<'_>,
    bound: Mark,
    index: usize,
) -> Result<TermId, AllocError>
    requires first { first < length bank.old }
    requires sight { (w : sides.Way) × IsSight bank.old w sight.now }
    ensures tree { (w : sides.Way) (t : tree.Term) → IsSight bank.old w sight.now
        → Holds bank.old first t → IsAt bank.new result (tree.and_term t (tree.not_term
        (sides.condition_where w sight.now.visits.now.visits
        (sides.breaks w.walk (sides.visit_mark (mark_of bound)) index)))) }
    ensures within { IsFound bank.new result }
    ensures extends { Extends bank.old bank.new }
    ensures longer { length bank.old ≤ length bank.new }
{
    let Mark { node, count } = bound;
    let which = Which::Breaks(Mark { node, count }, index);
    let broken = sight.condition(alloc, which, bank)?;
    let kept = negation(bank, broken)?;
    both(bank, first, kept)
}

// `and` of a term and that no bound is broken, nested to the left.
fn and_bounds(
    alloc: Global,
    bank: &mut Bank,
    first: TermId,
    sight: &Sight<'_>,
    bounds: &[Mark],
) -> Result<TermId, AllocError>
    requires first { first < length bank.old }
    requires sight { (w : sides.Way) × IsSight bank.old w sight.now }
    ensures tree { (w : sides.Way) (t : tree.Term) → IsSight bank.old w sight.now
        → Holds bank.old first t → IsAt bank.new result (fold tree.and_term t
        (sides.unbroken w sight.now.visits.now.visits 0 (map mark_of bounds.now))) }
    ensures within { IsFound bank.new result }
    ensures extends { Extends bank.old bank.new }
    ensures longer { length bank.old ≤ length bank.new }
{
    let mut all = first;
    for index in 0..bounds.len() {
        all = and_bound(alloc, bank, all, sight, bounds[index], index)?;
    }
    Ok(all)
}

// The same of a side whose walk may be cyclic: then nothing.
fn and_bounds_if(
    alloc: Global,
    bank: &mut Bank,
    first: TermId,
    sight: Option<Sight<'_>>,
    bounds: &[Mark],
) -> Result<TermId, AllocError>
    requires first { first < length bank.old }
    requires sight { (s : Seen) × IsSeen bank.old s sight }
    ensures tree { (s : Seen) (t : tree.Term) → IsSeen bank.old s sight.entry
        → Holds bank.old first t
        → IsAt bank.new result (fold tree.and_term t
        (unbroken_if s.way s.visits (map mark_of bounds.now))) }
    ensures within { IsFound bank.new result }
    ensures extends { Extends bank.old bank.new }
    ensures longer { length bank.old ≤ length bank.new }
{
    match sight {
        Some(sight) => and_bounds(alloc, bank, first, &sight, bounds),
        None => Ok(first),
    }
}

// `and` of a term and that a side doesn't fail, where its walk is acyclic.
fn and_unfailed_if(
    alloc: Global,
    bank: &mut Bank,
    first: TermId,
    sight: Option<Sight<'_>>,
) -> Result<TermId, AllocError>
    requires first { first < length bank.old }
    requires sight { (s : Seen) × IsSeen bank.old s sight }
    ensures tree { (s : Seen) (t : tree.Term) → IsSeen bank.old s sight.entry
        → Holds bank.old first t
        → IsAt bank.new result (fold tree.and_term t (unfailed_if s.way s.visits)) }
    ensures within { IsFound bank.new result }
    ensures extends { Extends bank.old bank.new }
    ensures longer { length bank.old ≤ length bank.new }
{
    match sight {
        Some(sight) => {
            let fails = sight.condition(alloc, Which::Fails, bank)?;
            let holds = negation(bank, fails)?;
            both(bank, first, holds)
        }
        None => Ok(first),
    }
}

// `and` of `true` and of a frame's premises, nested to the left.
fn frame_premises(
    bank: &mut Bank,
    opening: Opening<'_>,
    premises: &[Premise<'_>],
) -> Result<TermId, AllocError>
    requires { IsOpeningIn (length bank.old) opening }
    ensures tree { (o : spec.Opening) → IsOpening bank.old o opening.entry → IsAt bank.new result
        (fold tree.and_term (tree.truth true)
        (map (substituted (terms_at_start o)) (map premise_of premises.now))) }
    ensures within { IsFound bank.new result }
    ensures extends { Extends bank.old bank.new }
    ensures longer { length bank.old ≤ length bank.new }
{
    let Opening { binary, source } = opening;
    let terms = BothSides {
        binary,
        source,
        zone: None,
    };
    let always = truth(bank, true)?;
    and_premises(bank, always, premises, &terms)
}

/// What a rule may use of a frame: its premises, over the terms of both sides' variables where it
/// starts, and that no bound is broken, the binary's before the source's. A side whose walk is
/// cyclic gives nothing.
pub fn bounded_premises(
    alloc: Global,
    bank: &mut Bank,
    opening: Opening<'_>,
    start: &Start<'_>,
    binary: Option<Sight<'_>>,
    source: Option<Sight<'_>>,
) -> Result<TermId, AllocError>
    requires opening { IsOpeningIn (length bank.old) opening }
    requires binary { (s : Seen) × IsSeen bank.old s binary }
    requires source { (s : Seen) × IsSeen bank.old s source }
    ensures tree { (o : spec.Opening) (f : Frame) (a c : Seen) → IsOpening bank.old o opening.entry
        → f.start ≡ start_of start.now → IsSeen bank.old a binary.entry
        → IsSeen bank.old c source.entry
        → IsAt bank.new result (fold tree.and_term (tree.truth true) (wait_premises o f a c)) }
    ensures within { IsFound bank.new result }
    ensures extends { Extends bank.old bank.new }
    ensures longer { length bank.old ≤ length bank.new }
{
    let given = frame_premises(bank, opening, start.premises.as_slice())?;
    let given = and_bounds_if(alloc, bank, given, binary, start.binary_bounds.as_slice())?;
    and_bounds_if(alloc, bank, given, source, start.source_bounds.as_slice())
}

/// These, and that the source doesn't fail.
pub fn premises(
    alloc: Global,
    bank: &mut Bank,
    opening: Opening<'_>,
    start: &Start<'_>,
    binary: Option<Sight<'_>>,
    source: Option<Sight<'_>>,
) -> Result<TermId, AllocError>
    requires opening { IsOpeningIn (length bank.old) opening }
    requires binary { (s : Seen) × IsSeen bank.old s binary }
    requires source { (s : Seen) × IsSeen bank.old s source }
    ensures tree { (o : spec.Opening) (f : Frame) (a c : Seen) → IsOpening bank.old o opening.entry
        → f.start ≡ start_of start.now → IsSeen bank.old a binary.entry
        → IsSeen bank.old c source.entry
        → IsAt bank.new result (fold tree.and_term (tree.truth true) (premise_terms o f a c)) }
    ensures within { IsFound bank.new result }
    ensures extends { Extends bank.old bank.new }
    ensures longer { length bank.old ≤ length bank.new }
{
    let given = bounded_premises(alloc, bank, opening, start, binary, source)?;
    and_unfailed_if(alloc, bank, given, source)
}
