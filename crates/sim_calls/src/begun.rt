//! What is left to show where the callee begins.

ghost use Rattle.std.specs.Prelude.{◌≡◌, ◌∷◌, [], ◌++◌, ◌≤◌, length, map, unwrap_or, IfOk};
ghost use Rattle.std.specs.HashMap.{get};
ghost use Rattle.graph_core.specs.Shared.{AreSharedBindings};
ghost use Rattle.proof_tree.specs.Frames.{terms_of};
ghost use Rattle.sim_rules_spec.specs.Calls.{CallPair};
ghost use Rattle.sim_rules_spec.specs.Points as points;
ghost use Rattle.sim_rules_spec.specs.Rules.{all_of, at_cut};
ghost use Rattle.sim_calls.specs.Begun.{AreZeros, begins_by, begun_by, entered_id, zero_id};
ghost use Rattle.sim_calls.specs.Bound.{AreBound};
ghost use Rattle.sim_calls.specs.Cuts.{IsCut};
ghost use Rattle.sim_calls.specs.Sites.{AreWithin, pair_by};
ghost use Rattle.term_bank.specs.Nodes.{Extends};
ghost use Rattle.term_core.specs.Trees.{term_of};
ghost use Rattle.term_core_spec.specs.Same.{same_variable};
ghost use Rattle.term_core_spec.specs.Substitution.{substituted};
ghost use Rattle.term_core_spec.specs.Term as tree;
ghost use Rattle.term_substitution.specs.States.{AreBelow, IsAt, IsFound};

use crate::bound::bound_terms;
use crate::cut::Cut;
use crate::sites::Calls;
use crate::variables::{BINARY_MEMORY, ZONE_MEMORY, is_shared};
use sim_rules_terms::{Known, all_lines, truth};
use std::alloc::{AllocError, Global};
use term_bank::{Bank, TermId, TermNode};
use term_core::Term;
use term_core_spec::{Atom, Family, Sort, Variable, Width};
use term_substitution::Lookup;

/// False, and the words that are 0.
#[derive(Clone, Copy)]
pub struct Zeros {
    /// False.
    pub truth: TermId,
    /// Of 8 bits.
    pub byte: TermId,
    /// Of 16 bits.
    pub half: TermId,
    /// Of 32 bits.
    pub word: TermId,
    /// Of 64 bits.
    pub double: TermId,
}

// The word that is 0.
fn zero(bank: &mut Bank, width: Width) -> Result<TermId, AllocError>
    ensures tree { IsAt bank.new result (tree.constant width 0) }
    ensures extends { Extends bank.old bank.new }
    ensures longer { length bank.old ≤ length bank.new }
{
    bank.add(TermNode::Leaf(Atom::Constant(width, 0)))
}

impl Zeros {
    // Out of memory, the bank may have some more terms.
    fn new(bank: &mut Bank) -> Result<Zeros, AllocError>
        ensures zeros { IfOk result (AreZeros bank.new) }
        ensures extends { Extends bank.old bank.new }
        ensures longer { length bank.old ≤ length bank.new }
    {
        let truth = truth(bank, false)?;
        let byte = zero(bank, Width::W8)?;
        let half = zero(bank, Width::W16)?;
        let word = zero(bank, Width::W32)?;
        let double = zero(bank, Width::W64)?;
        Ok(Zeros {
            truth,
            byte,
            half,
            word,
            double,
        })
    }

    // What a function's own variable of a sort holds before it is bound.
    fn unset(&self, sort: Sort) -> Option<TermId>
        ensures { result ≡ zero_id self.now sort }
    {
        match sort {
            Sort::Truth => Some(self.truth),
            Sort::Word(Width::W8) => Some(self.byte),
            Sort::Word(Width::W16) => Some(self.half),
            Sort::Word(Width::W32) => Some(self.word),
            Sort::Word(Width::W64) => Some(self.double),
            Sort::Memory => None,
        }
    }
}

// What a variable of a callee has, by what the call binds and by the terms before.
fn entered(bound: &Known, before: &Known, zeros: &Zeros, variable: &Variable) -> Option<TermId>
    ensures { result ≡ entered_id (get same_variable bound.now) (get same_variable before.now)
        zeros.now variable.now }
{
    let other = if is_shared(variable) {
        before.get(variable).copied()
    } else {
        zeros.unset(variable.sort)
    };
    bound.get(variable).copied().or(other)
}

/// The terms of both sides' variables where the callee begins.
#[derive(Clone, Copy)]
pub struct Begun<'a> {
    /// The binary's memory, which is that in the zone, too.
    pub memory: TermId,
    /// What is not bound.
    pub zeros: Zeros,
    /// What the binary's call binds.
    pub binary_bound: &'a Known,
    /// The terms of the binary's variables before.
    pub binary: &'a Known,
    /// What the source's call binds.
    pub source_bound: &'a Known,
    /// The terms of the source's variables before.
    pub source: &'a Known,
}

impl Lookup for Begun<'_> {
    ghost terms = { λ b. λ v. begun_by b.zeros b.memory (get same_variable b.binary_bound.now)
        (get same_variable b.binary.now) (get same_variable b.source_bound.now)
        (get same_variable b.source.now) v.family v };

    fn term(&self, variable: &Variable) -> Option<TermId> {
        match variable.family {
            Family::Entry => self.binary.get(variable).copied(),
            Family::Register | Family::BinaryMemory => {
                entered(self.binary_bound, self.binary, &self.zeros, variable)
            }
            Family::Parameter
            | Family::Local
            | Family::IsSet
            | Family::SourceMemory
            | Family::Further => entered(self.source_bound, self.source, &self.zeros, variable),
            Family::ZoneMemory => {
                if *variable == ZONE_MEMORY {
                    Some(self.memory)
                } else {
                    None
                }
            }
            Family::Address | Family::LoadedByte => None,
        }
    }
}

// The binary's memory where the callee begins.
fn memory_there(bound: &Known, cut: &Cut) -> TermId
    ensures { result ≡ unwrap_or (get same_variable bound.now points.binary_memory)
        cut.now.memory }
{
    bound.get(&BINARY_MEMORY).copied().unwrap_or(cut.memory)
}

// The lines, over what both calls bind.
fn begins_over(
    bank: &mut Bank,
    cut: &Cut,
    binary: &Known,
    source: &Known,
    lines: &[Box<Term>],
    memory: &Term,
) -> Result<TermId, AllocError>
    requires cut { (c : points.Convention) × IsCut bank.old c cut.now }
    requires binary { AreBelow (length bank.old) (get same_variable binary.now) }
    requires source { AreBelow (length bank.old) (get same_variable source.now) }
    ensures tree { (c : points.Convention) (calls : CallPair) → IsCut bank.old c cut.now
        → AreBound bank.old calls.binary_inputs (at_cut c).binary (get same_variable binary.now)
        → AreBound bank.old calls.source_inputs (at_cut c).source (get same_variable source.now)
        → IsAt bank.new result (all_of (map (substituted (begins_by c calls)) (terms_of lines.now
        ++ term_of memory.now ∷ []))) }
    ensures within { IsFound bank.new result }
    ensures extends { Extends bank.old bank.new }
    ensures longer { length bank.old ≤ length bank.new }
{
    let zeros = Zeros::new(bank)?;
    let terms = Begun {
        memory: memory_there(binary, cut),
        zeros,
        binary_bound: binary,
        binary: &cut.binary,
        source_bound: source,
        source: &cut.source,
    };
    all_lines(bank, lines, memory, &terms)
}

/// `and` of some lines and of memory, over the terms of both sides' variables where the callee
/// begins. Out of memory, the bank may have some more terms.
pub(crate) fn begins(
    alloc: Global,
    bank: &mut Bank,
    cut: &Cut,
    calls: &Calls<'_>,
    lines: &[Box<Term>],
    memory: &Term,
) -> Result<TermId, AllocError>
    requires cut { (c : points.Convention) × IsCut bank.old c cut.now }
    requires calls { AreWithin calls.now }
    ensures tree { (c : points.Convention) → IsCut bank.old c cut.now
        → IsAt bank.new result (all_of (map (substituted (begins_by c (pair_by calls.now)))
        (terms_of lines.now ++ term_of memory.now ∷ []))) }
    ensures within { IsFound bank.new result }
    ensures extends { Extends bank.old bank.new }
    ensures longer { length bank.old ≤ length bank.new }
{
    let from = calls.binary.graph.bank();
    let binary = bound_terms(alloc, bank, from, calls.binary.inputs, &cut.binary)?;
    let from = calls.source.graph.bank();
    let source = bound_terms(alloc, bank, from, calls.source.inputs, &cut.source)?;
    begins_over(bank, cut, &binary, &source, lines, memory)
}
