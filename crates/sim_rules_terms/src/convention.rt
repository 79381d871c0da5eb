//! What holds where both sides have returned, and where their memories may differ.

ghost use Rattle.std.specs.Prelude.{◌≡◌, IfOk};
ghost use Rattle.term_core_spec.specs.Term as tree;
ghost use Rattle.term_core.specs.Trees.{term_of};
ghost use Rattle.proof_tree.specs.Frames.{terms_of};
ghost use Rattle.sim_rules_spec.specs.Points as spec;
ghost use Rattle.sim_rules_terms.specs.Conventions.{IsConventionOf, in_zone, same_bytes};

use crate::families::{address, binary_memory, source_memory};
use crate::trees::{negated, open, over_two};
use attempt::attempt;
use std::alloc::{AllocError, Global};
use term_core::Term;
use term_core_spec::{BinaryOperator, Variable};

/// What holds where both sides have returned, and at each point beside a relation's lines: that
/// memories are equal outside the zone (`sim_rules_spec`, `specs/Points.antt`).
#[derive(Drop)]
pub struct Convention<'a> {
    /// The lines of the relation where both sides have returned.
    pub returns: &'a [Box<Term>],
    /// That both memories have the same byte at any address outside the zone.
    pub memory: Box<Term>,
}

// The address is in the zone.
fn inside(alloc: Global, from: &Term, to: &Term) -> Result<Box<Term>, AllocError>
    ensures { IfOk result (λ x. term_of x.value ≡ in_zone (term_of from.now) (term_of to.now)) }
{
    let below = over_two(
        alloc,
        BinaryOperator::Less,
        open(alloc, address()),
        from.copy(alloc),
    );
    let from_there = negated(alloc, below);
    let below_end = over_two(
        alloc,
        BinaryOperator::Less,
        open(alloc, address()),
        to.copy(alloc),
    );
    over_two(alloc, BinaryOperator::And, from_there, below_end)
}

// The byte of a memory at the address.
fn byte_of(alloc: Global, memory: Variable) -> Result<Box<Term>, AllocError>
    ensures { IfOk result (λ x. term_of x.value
        ≡ tree.load (tree.open_term memory) (tree.open_term spec.address)) }
{
    over_two(
        alloc,
        BinaryOperator::Load,
        open(alloc, memory),
        open(alloc, address()),
    )
}

// Both memories have the same byte at the address, or it is in the zone.
fn same_byte(alloc: Global, from: &Term, to: &Term) -> Result<Box<Term>, AllocError>
    ensures { IfOk result (λ x. term_of x.value ≡ same_bytes (term_of from.now) (term_of to.now)) }
{
    let equal = over_two(
        alloc,
        BinaryOperator::Equal,
        byte_of(alloc, binary_memory()),
        byte_of(alloc, source_memory()),
    );
    over_two(alloc, BinaryOperator::Or, inside(alloc, from, to), equal)
}

impl<'a> Convention<'a> {
    /// The memories may differ from the first address to below the second, which are terms over
    /// values at entry; these lines hold where both sides have returned.
    pub fn new(
        alloc: Global,
        from: &Term,
        to: &Term,
        returns: &'a [Box<Term>],
    ) -> Result<Self, AllocError>
        ensures { (c : spec.Convention) → c.zone_from ≡ term_of from.now
            → c.zone_to ≡ term_of to.now → c.returns ≡ terms_of returns.now
            → IfOk result (λ made. IsConventionOf made c) }
    {
        let memory = attempt!(same_byte(alloc, from, to));
        Ok(Convention { returns, memory })
    }
}
