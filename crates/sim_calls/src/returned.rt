//! What is left to show where both sides are back.

ghost use Rattle.std.specs.Prelude.{◌≡◌, ◌∷◌, [], ◌++◌, ◌≤◌, length, map, option_map, IfOk};
ghost use Rattle.std.specs.HashMap.{get};
ghost use Rattle.graph_core.specs.Graphs.{boxed_term};
ghost use Rattle.graph_core.specs.Shared.{AreSharedBindings};
ghost use Rattle.proof_tree.specs.Frames.{terms_of};
ghost use Rattle.sim_rules_spec.specs.Calls as spec;
ghost use Rattle.sim_rules_spec.specs.Points as points;
ghost use Rattle.sim_rules_spec.specs.Rules.{all_of};
ghost use Rattle.sim_calls.specs.Cuts.{CanCut, IsCut};
ghost use Rattle.sim_calls.specs.Listed.{AreListedIn};
ghost use Rattle.sim_calls.specs.Returned.{HasResult, IsExit, left_memory_by, register_id};
ghost use Rattle.sim_calls.specs.Returned.{returned_by, returns_by, source_id};
ghost use Rattle.sim_calls.specs.Sites.{outputs_of};
ghost use Rattle.term_bank.specs.Nodes.{Extends};
ghost use Rattle.term_core.specs.Trees.{term_of};
ghost use Rattle.term_core_spec.specs.Same.{same_variable};
ghost use Rattle.term_core_spec.specs.Substitution.{substituted};
ghost use Rattle.term_substitution.specs.States.{AreBelow, IsAt, IsFound};

use crate::bound::bound_terms;
use crate::cut::Cut;
use crate::left::left_terms;
use crate::listing::list_variables;
use crate::sites::CallSite;
use crate::variables::{
    BINARY_MEMORY, FIRST_ARGUMENT, STACK_POINTER, ZONE_MEMORY, fresh, is_kept, machine_register,
};
use c_graph_terms::MEMORY;
use indexmap::IndexSet;
use sim_rules_terms::{Known, all_lines, open, over_two, overlaid, word};
use std::alloc::{AllocError, Global};
use term_bank::{Bank, TermId};
use term_core::Term;
use term_core_spec::{BinaryOperator, Family, Sort, Variable, WordOperator};
use term_substitution::{Lookup, intern, rename};

/// The difference of two words.
const SUBTRACT: BinaryOperator = BinaryOperator::Word(WordOperator::Subtract);

/// All families of variables.
const FAMILIES: [Family; 11] = [
    Family::Register,
    Family::Entry,
    Family::Parameter,
    Family::Local,
    Family::IsSet,
    Family::SourceMemory,
    Family::BinaryMemory,
    Family::ZoneMemory,
    Family::Address,
    Family::LoadedByte,
    Family::Further,
];

/// The terms of both sides' variables where both are back.
#[derive(Clone, Copy)]
pub struct Returned<'a> {
    /// The binary's memory, which is that in the zone, too.
    pub memory: TermId,
    /// The result in x10, if there is one.
    pub result: Option<TermId>,
    /// What the callee leaves.
    pub left: &'a Known,
    /// What the source's call binds.
    pub bound: &'a Known,
    /// The terms of the binary's variables before.
    pub binary: &'a Known,
    /// The terms of the source's variables before.
    pub source: &'a Known,
}

impl<'a> Returned<'a> {
    // A register: the result, as before, or what the callee leaves.
    fn register(&self, variable: &Variable) -> Option<TermId>
        ensures { result ≡ register_id self.now.result (get same_variable self.now.left.now)
            (get same_variable self.now.binary.now) variable.now }
    {
        if is_kept(variable.index) {
            return self.binary.get(variable).copied();
        }
        let left = self.left.get(variable).copied();
        if variable.index == FIRST_ARGUMENT {
            self.result.or(left)
        } else {
            left
        }
    }

    // A variable of the source: what the call binds, what the callee leaves of its memory, or as
    // before.
    fn of_source(&self, variable: &Variable) -> Option<TermId>
        ensures { result ≡ source_id (get same_variable self.now.bound.now)
            (get same_variable self.now.left.now) (get same_variable self.now.source.now)
            variable.now }
    {
        let other = match variable.sort {
            Sort::Memory => self.left.get(variable).copied(),
            Sort::Truth | Sort::Word(_) => self.source.get(variable).copied(),
        };
        self.bound.get(variable).copied().or(other)
    }
}

impl Lookup for Returned<'_> {
    ghost terms = { λ r. λ v. returned_by r.memory r.result (get same_variable r.left.now)
        (get same_variable r.bound.now) (get same_variable r.binary.now)
        (get same_variable r.source.now) v.family v };

    fn term(&self, variable: &Variable) -> Option<TermId> {
        match variable.family {
            Family::Register => self.register(variable),
            Family::Entry => self.binary.get(variable).copied(),
            Family::BinaryMemory => {
                if *variable == BINARY_MEMORY {
                    Some(self.memory)
                } else {
                    self.binary.get(variable).copied()
                }
            }
            Family::Parameter
            | Family::Local
            | Family::IsSet
            | Family::SourceMemory
            | Family::Further => self.of_source(variable),
            Family::ZoneMemory => {
                if *variable == ZONE_MEMORY {
                    Some(self.memory)
                } else {
                    None
                }
            }
            Family::Address | Family::LoadedByte => None,
        }
    }
}

// The binary's memory, as a tree: the zone is as before, but for the callee's stack, and the rest
// is what the callee leaves of the source's memory.
fn left_memory(alloc: Global, from: &Term, to: &Term, stack: u32) -> Result<Box<Term>, AllocError>
    ensures { IfOk result (λ t. term_of t.value
        ≡ left_memory_by (term_of from.now) (term_of to.now) stack) }
{
    let pointer = machine_register(STACK_POINTER);
    let below = over_two(alloc, SUBTRACT, open(alloc, pointer), word(alloc, stack));
    let zone = overlaid(
        alloc,
        open(alloc, ZONE_MEMORY),
        open(alloc, fresh(ZONE_MEMORY)),
        below,
        open(alloc, pointer),
    );
    let memory = open(alloc, fresh(MEMORY));
    overlaid(alloc, memory, zone, from.copy(alloc), to.copy(alloc))
}

// The result, over what the callee leaves.
fn left_result(
    alloc: Global,
    bank: &mut Bank,
    term: &Option<Box<Term>>,
) -> Result<Option<TermId>, AllocError>
    ensures held { IfOk result (HasResult bank.new (option_map boxed_term term.now)) }
    ensures extends { Extends bank.old bank.new }
    ensures longer { length bank.old ≤ length bank.new }
{
    match term {
        None => Ok(None),
        Some(term) => {
            let left = rename(alloc, term, &FAMILIES, 1)?;
            let id = intern(alloc, bank, &left)?;
            Ok(Some(id))
        }
    }
}

// The lines, over the memory and the result that the callee leaves, and some variables, in which
// those of the lines and of the source's graph are.
fn returns_over(
    alloc: Global,
    bank: &mut Bank,
    cut: &Cut,
    source: &CallSite<'_>,
    binary_memory: TermId,
    returned: Option<TermId>,
    variables: &IndexSet<Variable>,
    lines: &[Box<Term>],
    memory: &Term,
) -> Result<TermId, AllocError>
    requires exit { (c : points.Convention) × (callee : spec.Callee)
        × IsExit bank.old c callee cut.now binary_memory returned }
    requires source { AreSharedBindings (length source.now.graph.now.trees) source.now.outputs.now }
    requires listed { AreListedIn variables.now.keys (terms_of lines.now) (term_of memory.now)
        source.now.graph.now.trees }
    ensures tree { (c : points.Convention) (callee : spec.Callee)
        → IsExit bank.old c callee cut.now binary_memory returned
        → IsAt bank.new result (all_of (map (substituted (returns_by c callee
        (outputs_of source.now))) (terms_of lines.now ++ term_of memory.now ∷ []))) }
    ensures within { IsFound bank.new result }
    ensures extends { Extends bank.old bank.new }
    ensures longer { length bank.old ≤ length bank.new }
{
    let left = left_terms(alloc, bank, variables)?;
    let bound = bound_terms(alloc, bank, source.graph.bank(), source.outputs, &left)?;
    let terms = Returned {
        memory: binary_memory,
        result: returned,
        left: &left,
        bound: &bound,
        binary: &cut.binary,
        source: &cut.source,
    };
    all_lines(bank, lines, memory, &terms)
}

/// `and` of some lines and of memory, over the terms of both sides' variables where both are back
/// from a callee that takes so much stack and has this result, in a caller whose zone is from the
/// first address to below the second. Out of memory, the bank may have some more terms.
pub(crate) fn returns(
    alloc: Global,
    bank: &mut Bank,
    cut: &Cut,
    source: &CallSite<'_>,
    from: &Term,
    to: &Term,
    stack: u32,
    term: &Option<Box<Term>>,
    lines: &[Box<Term>],
    memory: &Term,
) -> Result<TermId, AllocError>
    requires cut { CanCut bank.old (term_of from.now) (term_of to.now) cut.now }
    requires source { AreSharedBindings (length source.now.graph.now.trees) source.now.outputs.now }
    ensures tree { (c : points.Convention) (callee : spec.Callee) → IsCut bank.old c cut.now
        → c.zone_from ≡ term_of from.now → c.zone_to ≡ term_of to.now → callee.stack ≡ stack
        → callee.result ≡ option_map boxed_term term.now
        → IsAt bank.new result (all_of (map (substituted (returns_by c callee
        (outputs_of source.now))) (terms_of lines.now ++ term_of memory.now ∷ []))) }
    ensures within { IsFound bank.new result }
    ensures extends { Extends bank.old bank.new }
    ensures longer { length bank.old ≤ length bank.new }
{
    let over = left_memory(alloc, from, to, stack)?;
    let binary_memory = intern(alloc, bank, &over)?;
    let returned = left_result(alloc, bank, term)?;
    let variables = list_variables(alloc, lines, memory, source.graph.bank())?;
    returns_over(
        alloc,
        bank,
        cut,
        source,
        binary_memory,
        returned,
        &variables,
        lines,
        memory,
    )
}
