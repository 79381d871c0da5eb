ghost use Rattle.std.specs.Prelude.{◌≡◌, ◌<◌, ◌≤◌, [], Some, length, IfOk, IfErr, OnOk};
ghost use Rattle.term_core_spec.specs.declared.Sort.TheVariants as sort;
ghost use Rattle.term_core_spec.specs.Sort.{sort_of};
ghost use Rattle.term_bank.specs.Nodes.{tree_at};
ghost use Rattle.bit_blast_spec.specs.Goal.{visit, cnf_of};
ghost use Rattle.bit_blast_laws.specs.Back.{TableLoadsFromVariables};
ghost use Rattle.bit_blast.specs.Models.{HasModel, CanBeFalse};
ghost use Rattle.bit_blast.specs.Within.{IfLarge};

use crate::error::BlastFault;
use crate::indices::index_of;
use crate::loads::tie_memories;
use crate::operators::bit_of;
use crate::state::Traversal;
use crate::table::TermTable;
use crate::traversal::traversal;
use attempt::{Refusal, attempt};
use bit_blast_circuits::Gates;
use cnf_core::{Cnf, negation};
use std::alloc::Global;
use term_bank::{Bank, TermId};

/// The clauses of a goal, with its terms and their bits.
#[derive(Drop)]
pub struct Blasted {
    /// the clauses: they have a model where the goal can be false, and only there if it loads from
    /// variables alone
    pub cnf: Cnf,
    /// the terms, each after its arguments
    pub table: TermTable,
}

/// Refuses gates with more variables than the maximum.
fn within(gates: &Gates, maximum: usize) -> Result<(), Refusal<BlastFault>>
    ensures within { OnOk result (gates.now.variables ≤ maximum) }
    ensures large { IfErr result
        (λ error. (error ≡ Refusal.Fault (BlastFault.Large gates.now.variables))
        × (maximum < gates.now.variables)) }
{
    if gates.last() > maximum {
        return Err(Refusal::Fault(BlastFault::Large(gates.last())));
    }
    Ok(())
}

/// The clauses of a truth value: that it is false.
///
/// They have at most so many variables; else `Large` reports a number above the maximum, which the
/// variables reached. Work and memory stop there: past the maximum come at most the gates of one
/// term, or those that tie two loads.
pub fn blast(
    alloc: Global,
    bank: &Bank,
    goal: TermId,
    maximum: usize,
) -> Result<Blasted, Refusal<BlastFault>>
    requires { goal < length bank.now }
    ensures clauses { IfOk result (λ blasted. blasted.cnf ≡ cnf_of (tree_at bank.now goal)) }
    ensures terms { IfOk result (λ blasted. blasted.table
        ≡ (visit (tree_at bank.now goal) [] 1).out) }
    ensures within { IfOk result (λ blasted. blasted.cnf.variables ≤ maximum) }
    ensures large { IfErr result (IfLarge maximum (cnf_of (tree_at bank.now goal))) }

    // The clauses have a model where the truth value can be false; and only there, if it loads from
    // variables alone.
    ensures model { IfOk result (λ blasted. let t = tree_at bank.now goal in sort_of t
        ≡ Some sort.Truth → CanBeFalse t → HasModel blasted.cnf) }
    ensures only_model { IfOk result (λ blasted. let t = tree_at bank.now goal in sort_of t
        ≡ Some sort.Truth → TableLoadsFromVariables blasted.table → HasModel blasted.cnf
        → CanBeFalse t) }
{
    let mut gates = Gates::new(alloc);
    let _truth = attempt!(gates.truth(), Refusal::NoMemory);
    let traversal = attempt!(
        traversal(alloc, bank, gates, goal, maximum),
        Refusal::NoMemory
    );
    attempt!(within(&traversal.gates, maximum));
    let index = index_of(&traversal.indices, goal);
    let Traversal {
        mut gates,
        table,
        ..
    } = traversal;
    attempt!(
        tie_memories(alloc, &mut gates, &table, maximum),
        Refusal::NoMemory
    );
    attempt!(within(&gates, maximum));
    attempt!(
        gates.claim(&[negation(bit_of(table.bits(index)))]),
        Refusal::NoMemory
    );
    let cnf = gates.into_cnf();
    Ok(Blasted { cnf, table })
}
