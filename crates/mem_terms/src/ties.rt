// What says that loads of one memory at equal addresses are equal.

ghost use Rattle.std.specs.Prelude.{◌<◌, ◌≡◌, ◌∷◌, ◌++◌, [], List, length, map, filter, true};
ghost use Rattle.std.specs.Prelude.{if◌then◌else◌, IfOk, OnOk, OnErr};
ghost use Rattle.term_core_spec.specs.Term.{Term, truth, and_term};
ghost use Rattle.term_core_spec.specs.Same.{same_variable};
ghost use Rattle.term_bank.specs.Nodes.{tree_at, Extends};
ghost use Rattle.mem_terms_spec.specs.Flat.{agree, pairs, is_among, memories_of, is_from, pairs_of};
ghost use Rattle.mem_terms_spec.specs.Flat.{all_of, consistent};
ghost use Rattle.mem_terms.specs.Ids.{load_at, is_load_from, IsWithin, AreWithin, IsTreeAt};

use crate::build::{and, equal, implied, truth};
use crate::ids::LoadIds;
use attempt::attempt;
use std::alloc::{AllocError, Global};
use term_bank::{Bank, TermId};
use term_core_spec::Variable;

/// Where the addresses are equal, so are the bytes.
fn agree(bank: &mut Bank, x: LoadIds, y: LoadIds) -> Result<TermId, AllocError>
    requires x_within { IsWithin (length bank.old) x }
    requires y_within { IsWithin (length bank.old) y }
    ensures tree { IfOk result (λ i. IsTreeAt bank.new i
        (agree (load_at bank.old x) (load_at bank.old y))) }
    ensures extends { Extends bank.old bank.new }
{
    let same_address = equal(bank, x.address, y.address)?;
    let same_byte = equal(bank, x.byte, y.byte)?;
    implied(bank, same_address, same_byte)
}

/// A term, and that two loads agree.
fn with_agreement(
    bank: &mut Bank,
    so_far: TermId,
    x: LoadIds,
    y: LoadIds,
) -> Result<TermId, AllocError>
    requires so_far_within { so_far < length bank.old }
    requires x_within { IsWithin (length bank.old) x }
    requires y_within { IsWithin (length bank.old) y }
    ensures tree { IfOk result (λ i. IsTreeAt bank.new i
        (and_term (tree_at bank.old so_far) (agree (load_at bank.old x) (load_at bank.old y)))) }
    ensures extends { Extends bank.old bank.new }
{
    let agreement = attempt!(agree(bank, x, y));
    and(bank, so_far, agreement)
}

/// A term, and that a load agrees with each of the later ones.
fn with_later(
    bank: &mut Bank,
    so_far: TermId,
    load: LoadIds,
    later: &[LoadIds],
) -> Result<TermId, AllocError>
    requires so_far_within { so_far < length bank.old }
    requires load_within { IsWithin (length bank.old) load }
    requires later_within { AreWithin (length bank.old) later.now }
    ensures tree { IfOk result (λ i. IsTreeAt bank.new i
        (all_of (tree_at bank.old so_far)
        (map (agree (load_at bank.old load)) (map (load_at bank.old) later.now)))) }
    ensures extends { Extends bank.old bank.new }
{
    let mut all = so_far;
    for other in later {
        all = with_agreement(bank, all, load, *other)?;
    }
    Ok(all)
}

/// A term, and that each two of some loads agree, each with the later ones in their order.
fn with_pairs(bank: &mut Bank, so_far: TermId, loads: &[LoadIds]) -> Result<TermId, AllocError>
    requires so_far_within { so_far < length bank.old }
    requires loads_within { AreWithin (length bank.old) loads.now }
    ensures tree { IfOk result (λ i. IsTreeAt bank.new i
        (all_of (tree_at bank.old so_far) (pairs (map (load_at bank.old) loads.now)))) }
    ensures extends { Extends bank.old bank.new }
{
    let mut all = so_far;
    for i in 0..loads.len() {
        all = with_later(bank, all, loads[i], &loads[i + 1..])?;
    }
    Ok(all)
}

/// Whether a variable is among some.
fn is_among(memories: &[Variable], memory: Variable) -> bool
    ensures { result ≡ is_among memory memories.now }
{
    for other in memories {
        if memory == *other {
            return true;
        }
    }
    false
}

/// Adds a variable to some, where it is not among them.
fn note(memories: &mut Vec<Variable>, memory: Variable) -> Result<(), AllocError>
    ensures { OnOk result (memories.new.items
        ≡ (if is_among memory memories.old.items then memories.old.items else memories.old.items ++
        memory ∷ [])) }
{
    if !is_among(memories, memory) {
        memories.push(memory)?;
    }
    Ok(())
}

/// The memories of loads, in the order of their first loads.
pub fn memories(alloc: Global, loads: &[LoadIds]) -> Result<Vec<Variable>, AllocError>
    ensures { (trees : List Term) → IfOk result (λ memories. memories.items
        ≡ memories_of (map (load_at trees) loads.now)) }
{
    let mut memories = Vec::new(alloc);
    for load in loads {
        note(&mut memories, load.memory)?;
    }
    Ok(memories)
}

/// The loads of one memory.
pub fn loads_from(
    alloc: Global,
    memory: Variable,
    loads: &[LoadIds],
) -> Result<Vec<LoadIds>, AllocError>
    ensures { IfOk result (λ own. own.items ≡ filter (is_load_from memory) loads.now) }
{
    loads
        .iter()
        .copied()
        .filter(|load| memory == load.memory)
        .collect(alloc)
}

/// The loads of each memory agree, in the order of its first load.
pub fn consistent(alloc: Global, bank: &mut Bank, loads: &[LoadIds]) -> Result<TermId, AllocError>
    requires { AreWithin (length bank.old) loads.now }
    ensures tree { IfOk result (λ i. IsTreeAt bank.new i
        (consistent (map (load_at bank.old) loads.now))) }
    ensures extends { Extends bank.old bank.new }
{
    let mut all = truth(bank)?;
    let memories = memories(alloc, loads)?;
    for memory in &memories {
        let own = loads_from(alloc, *memory, loads)?;
        all = with_pairs(bank, all, &own)?;
    }
    Ok(all)
}
