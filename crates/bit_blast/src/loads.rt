// Loads of one memory at equal addresses are equal.

ghost use Rattle.std.specs.Prelude.{◌≡◌, ◌==◌, ◌++◌, ◌∷◌, [], not, map, filter, IfOk, OnOk};
ghost use Rattle.std.specs.Option.{option_to_list};
ghost use Rattle.bit_blast_spec.specs.Gates.{claim};
ghost use Rattle.bit_blast_spec.specs.Goal as goal;
ghost use Rattle.bit_blast_circuits.specs.Built.{MakesClauses};
ghost use Rattle.bit_blast.specs.Loads as spec;
ghost use Rattle.bit_blast.specs.Within.{BuiltWithin};

use crate::table::TermTable;
use attempt::attempt;
use bit_blast_circuits::Gates;
use cnf_core::{Literal, negation};
use std::alloc::{AllocError, Global};
use term_bank::TermNode;
use term_core_spec::BinaryOperator;

/// The indices of a load and of its memory and address.
#[derive(Clone, Copy)]
pub(crate) struct LoadIndices {
    pub(crate) memory: usize,
    pub(crate) address: usize,
    pub(crate) byte: usize,
}

/// The load that the node of an index is.
fn load_of(byte: usize, node: TermNode) -> Option<LoadIndices>
    ensures { result ≡ spec.load_of byte node }
{
    match node {
        TermNode::Binary(BinaryOperator::Load, memory, address) => Some(LoadIndices {
            memory,
            address,
            byte,
        }),
        _ => None,
    }
}

fn push_some(loads: &mut Vec<LoadIndices>, load: Option<LoadIndices>) -> Result<(), AllocError>
    ensures { OnOk result (loads.new.items ≡ loads.old.items ++ option_to_list load) }
{
    if let Some(load) = load {
        attempt!(loads.push(load), AllocError);
    }
    Ok(())
}

/// The loads among the terms of a table, in their order.
pub(crate) fn loads_of(alloc: Global, table: &TermTable) -> Result<Vec<LoadIndices>, AllocError>
    ensures loads { IfOk result (λ loads. map (spec.load_at table.now) loads.items
        ≡ goal.loads_of table.now table.now) }
    ensures within { IfOk result (λ loads. spec.AreWithin table.now loads.items) }
{
    table.is_distinct();
    let mut loads = Vec::new(alloc);
    'terms: for index in 0..table.len() {
        let node = table.node(index);
        attempt!(push_some(&mut loads, load_of(index, node)));
    }
    Ok(loads)
}

/// Where the literal holds the two words are equal.
fn claim_equal(
    gates: &mut Gates,
    same: Literal,
    x: &[Literal],
    y: &[Literal],
) -> Result<(), AllocError>
    ensures { MakesClauses result (claim (goal.equal_where same x.now y.now)) gates.old gates.new }
{
    match (x.split_first(), y.split_first()) {
        (Some((a, xs)), Some((b, ys))) => {
            attempt!(gates.claim(&[negation(same), negation(*a), *b]));
            attempt!(gates.claim(&[negation(same), *a, negation(*b)]));
            attempt!(claim_equal(gates, same, xs, ys));
            Ok(())
        }
        _ => Ok(()),
    }
}

/// Ties a load to later ones of its memory, until there are more variables than the maximum.
fn tie(
    alloc: Global,
    gates: &mut Gates,
    table: &TermTable,
    load: LoadIndices,
    later: &[LoadIndices],
    maximum: usize,
) -> Result<(), AllocError>
    requires first { spec.IsWithin table.now load }
    requires others { spec.AreWithin table.now later.now }
    ensures { let ties = goal.tie (spec.load_at table.now load)
        (map (spec.load_at table.now) later.now) in OnOk result
        (BuiltWithin maximum ties gates.old tt gates.new) }
{
    'ties: for other in later {
        if gates.last() > maximum {
            return Ok(());
        }
        let same = attempt!(gates.equal_bits(
            alloc,
            table.bits(load.address),
            table.bits(other.address)
        ));
        attempt!(claim_equal(gates, same, table.bits(load.byte), table.bits(other.byte)));
    }
    Ok(())
}

/// Ties each of some loads of one memory to the later ones, until there are more variables than the
/// maximum.
fn tie_all(
    alloc: Global,
    gates: &mut Gates,
    table: &TermTable,
    loads: &[LoadIndices],
    maximum: usize,
) -> Result<(), AllocError>
    requires { spec.AreWithin table.now loads.now }
    ensures { let ties = goal.tie_all (map (spec.load_at table.now) loads.now) in OnOk result
        (BuiltWithin maximum ties gates.old tt gates.new) }
{
    'ties: for index in 0..loads.len() {
        if gates.last() > maximum {
            return Ok(());
        }
        attempt!(tie(
            alloc,
            gates,
            table,
            loads[index],
            &loads[index + 1..],
            maximum,
        ));
    }
    Ok(())
}

fn push_other(memories: &mut Vec<usize>, memory: usize, other: usize) -> Result<(), AllocError>
    ensures { OnOk result (memories.new.items
        ≡ memories.old.items ++ filter (λ o. not (o == memory)) (other ∷ [])) }
{
    if other != memory {
        attempt!(memories.push(other), AllocError);
    }
    Ok(())
}

/// A memory before the others.
fn with_memory(alloc: Global, memory: usize, memories: &[usize]) -> Result<Vec<usize>, AllocError>
    ensures { IfOk result (λ all. all.items ≡ spec.with_memory memory memories.now) }
{
    let mut all = Vec::new(alloc);
    attempt!(all.push(memory), AllocError);
    'others: for other in memories {
        attempt!(push_other(&mut all, memory, *other));
    }
    Ok(all)
}

/// The memories of some loads, in the order of their first loads.
fn memories_of(alloc: Global, loads: &[LoadIndices]) -> Result<Vec<usize>, AllocError>
    ensures { IfOk result (λ memories. memories.items ≡ spec.memories_of loads.now) }
{
    let mut memories = Vec::new(alloc);
    let mut index = loads.len();
    'backwards: while index > 0 {
        index -= 1;
        memories = attempt!(with_memory(alloc, loads[index].memory, &memories));
    }
    Ok(memories)
}

/// The loads of one memory.
pub(crate) fn loads_from(
    alloc: Global,
    loads: &[LoadIndices],
    memory: usize,
) -> Result<Vec<LoadIndices>, AllocError>
    ensures { IfOk result (λ found. found.items
        ≡ filter (λ load. load.memory == memory) loads.now) }
{
    loads
        .iter()
        .filter(|load| load.memory == memory)
        .copied()
        .collect(alloc)
}

/// Ties the loads among the terms of a table, memory by memory, until there are more variables than
/// the maximum.
pub(crate) fn tie_memories(
    alloc: Global,
    gates: &mut Gates,
    table: &TermTable,
    maximum: usize,
) -> Result<(), AllocError>
    ensures { let loads = goal.loads_of table.now table.now in
        let ties = goal.tie_memories (goal.memories_of loads) loads in OnOk result
        (BuiltWithin maximum ties gates.old tt gates.new) }
{
    table.is_distinct();
    let loads = attempt!(loads_of(alloc, table));
    let memories = attempt!(memories_of(alloc, &loads));
    'memories: for memory in &memories {
        if gates.last() > maximum {
            return Ok(());
        }
        let own = attempt!(loads_from(alloc, &loads, *memory));
        attempt!(tie_all(alloc, gates, table, &own, maximum));
    }
    Ok(())
}
