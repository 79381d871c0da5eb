//! The terms of both sides' variables where a frame starts at a cut.

ghost use Rattle.std.specs.Prelude.{◌≡◌, ◌≤◌, ℕ, if◌then◌else◌, length, IfOk, OnOk, List};
ghost use Rattle.std.specs.HashMap.{get};
ghost use Rattle.path_cond.specs.States.{IsMapOf};
ghost use Rattle.sim_rules_spec.specs.Points as points;
ghost use Rattle.sim_calls.specs.Cuts.{IsCut, IsPut, zone_over};
ghost use Rattle.term_bank.specs.Nodes.{Extends, Holds};
ghost use Rattle.term_core.specs.Trees.{term_of};
ghost use Rattle.term_core_spec.specs.Same.{same_variable};
ghost use Rattle.term_core_spec.specs.Term as tree;

use crate::variables::{BINARY_MEMORY, ZONE_MEMORY};
use c_graph_terms::{MEMORY, ZONE_HIGH, ZONE_LOW};
use sim_rules_terms::{Known, open, overlaid};
use std::alloc::{AllocError, Global};
use std::collections::HashMap;
use term_bank::{Bank, TermId};
use term_core::Term;
use term_core_spec::Variable;
use term_substitution::intern;

/// The terms of both sides' variables where a frame starts at a cut (`sim_rules_spec`,
/// `specs/Rules.antt`): each is itself, but the binary's memory, which is the source's with the
/// zone's over it, and the source's words for the zone's ends.
#[derive(Drop)]
pub struct Cut {
    /// Of the binary's.
    pub binary: Known,
    /// Of the source's.
    pub source: Known,
    /// The binary's memory.
    pub memory: TermId,
}

// The source's memory with the zone's over it.
fn zone_over(alloc: Global, from: &Term, to: &Term) -> Result<Box<Term>, AllocError>
    ensures { IfOk result (λ t. term_of t.value ≡ zone_over (term_of from.now) (term_of to.now)) }
{
    overlaid(
        alloc,
        open(alloc, MEMORY),
        open(alloc, ZONE_MEMORY),
        from.copy(alloc),
        to.copy(alloc),
    )
}

// Gives a variable its term.
fn put(terms: &mut Known, variable: Variable, id: TermId) -> Result<(), AllocError>
    ensures { OnOk result (IsPut variable id (get same_variable terms.old)
        (get same_variable terms.new)) }
{
    terms.insert(variable, id)?;
    Ok(())
}

// The terms of the binary's variables, of which its memory has this one.
fn binary_terms(alloc: Global, memory: TermId) -> Result<Known, AllocError>
    ensures { (trees : List tree.Term) (m : tree.Term) → Holds trees memory m
        → IfOk result (λ terms. IsMapOf trees (get same_variable terms)
        (λ v. if same_variable v points.binary_memory then m else tree.open_term v)) }
{
    let mut terms = HashMap::new(alloc);
    put(&mut terms, BINARY_MEMORY, memory)?;
    Ok(terms)
}

// The terms of the source's variables, of which the words for the zone's ends have these.
fn source_terms(alloc: Global, low: TermId, high: TermId) -> Result<Known, AllocError>
    ensures { (trees : List tree.Term) (s t : tree.Term) → Holds trees low s → Holds trees high t
        → IfOk result (λ terms. IsMapOf trees (get same_variable terms)
        (λ v. if same_variable v points.zone_low then s else (if same_variable v points.zone_high
        then t else tree.open_term v))) }
{
    let mut terms = HashMap::new(alloc);
    put(&mut terms, ZONE_HIGH, high)?;
    put(&mut terms, ZONE_LOW, low)?;
    Ok(terms)
}

impl Cut {
    /// The zone is from the first address to below the second, which are terms over values at
    /// entry. Out of memory, the bank may have some more terms.
    pub fn new(alloc: Global, bank: &mut Bank, from: &Term, to: &Term) -> Result<Cut, AllocError>
        ensures cut { (c : points.Convention) → c.zone_from ≡ term_of from.now
            → c.zone_to ≡ term_of to.now → IfOk result (IsCut bank.new c) }
        ensures extends { Extends bank.old bank.new }
        ensures longer { length bank.old ≤ length bank.new }
    {
        let over = zone_over(alloc, from, to)?;
        let memory = intern(alloc, bank, &over)?;
        let low = intern(alloc, bank, from)?;
        let high = intern(alloc, bank, to)?;
        let binary = binary_terms(alloc, memory)?;
        let source = source_terms(alloc, low, high)?;
        Ok(Cut {
            binary,
            source,
            memory,
        })
    }
}
