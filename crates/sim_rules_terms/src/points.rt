//! The terms of both sides' variables at a point, and what holds there.

ghost use Rattle.std.specs.Prelude.{◌≡◌, ◌∷◌, [], ◌++◌, ◌≤◌, length, map};
ghost use Rattle.std.specs.HashMap.{get};
ghost use Rattle.term_core_spec.specs.Same.{same_variable};
ghost use Rattle.term_core_spec.specs.Substitution.{State as Terms, substituted};
ghost use Rattle.term_core.specs.Trees.{term_of};
ghost use Rattle.term_bank.specs.Nodes.{Extends};
ghost use Rattle.term_substitution.specs.States.{AreBelow, IsAt, IsFound};
ghost use Rattle.path_cond.specs.States.{IsMapOf};
ghost use Rattle.proof_tree.specs.Frames.{terms_of};
ghost use Rattle.sim_rules_spec.specs.Rules.{all_of, terms_at};
ghost use Rattle.sim_rules_terms.specs.Both.{both_ids};

use crate::families::{binary_memory, is_binary, is_source, is_zone_memory};
use crate::lines::{Known, all_lines};
use std::alloc::AllocError;
use term_bank::{Bank, TermId, TermNode};
use term_core::Term;
use term_core_spec::{Atom, Variable};
use term_substitution::Lookup;

/// The terms of both sides' variables where a frame starts.
#[derive(Clone, Copy)]
pub struct Opening<'a> {
    /// Of the binary's.
    pub binary: &'a Known,
    /// Of the source's.
    pub source: &'a Known,
}

/// The terms of both sides' variables at a point.
#[derive(Clone, Copy)]
pub struct BothSides<'a> {
    /// Of the binary's.
    pub binary: &'a Known,
    /// Of the source's.
    pub source: &'a Known,
    /// Of the memory in the zone, which is the binary's at a point; where a frame starts it is a
    /// variable of its own.
    pub zone: Option<TermId>,
}

impl Lookup for BothSides<'_> {
    ghost terms = { λ b. both_ids (get same_variable b.binary.now) (get same_variable b.source.now)
        b.zone };

    fn term(&self, variable: &Variable) -> Option<TermId> {
        if is_binary(variable.family) {
            return self.binary.get(variable).copied();
        }
        if is_source(variable.family) {
            return self.source.get(variable).copied();
        }
        if is_zone_memory(variable) {
            self.zone
        } else {
            None
        }
    }
}

// The term of a variable.
fn term_in(bank: &mut Bank, terms: &Known, variable: Variable) -> Result<TermId, AllocError>
    requires { AreBelow (length bank.old) (get same_variable terms.now) }
    ensures tree { (s : Terms) → IsMapOf bank.old (get same_variable terms.now) s
        → IsAt bank.new result (s variable) }
    ensures within { IsFound bank.new result }
    ensures extends { Extends bank.old bank.new }
    ensures longer { length bank.old ≤ length bank.new }
{
    match terms.get(&variable) {
        Some(id) => Ok(*id),
        None => bank.add(TermNode::Leaf(Atom::Open(variable))),
    }
}

/// What holds at a point: `and` of the lines and of memory, over the terms of both sides' variables
/// there.
pub fn relation(
    bank: &mut Bank,
    binary: &Known,
    source: &Known,
    lines: &[Box<Term>],
    memory: &Term,
) -> Result<TermId, AllocError>
    requires binary { AreBelow (length bank.old) (get same_variable binary.now) }
    requires source { AreBelow (length bank.old) (get same_variable source.now) }
    ensures tree { (a c : Terms) → IsMapOf bank.old (get same_variable binary.now) a
        → IsMapOf bank.old (get same_variable source.now) c → IsAt bank.new result
        (all_of (map (substituted (terms_at a c)) (terms_of lines.now ++ term_of memory.now ∷
        []))) }
    ensures within { IsFound bank.new result }
    ensures extends { Extends bank.old bank.new }
    ensures longer { length bank.old ≤ length bank.new }
{
    let zone = term_in(bank, binary, binary_memory())?;
    let terms = BothSides {
        binary,
        source,
        zone: Some(zone),
    };
    all_lines(bank, lines, memory, &terms)
}
