// The assignment of a model of the clauses.

ghost use Rattle.std.specs.Prelude.{◌≡◌, ◌+◌, ◌*◌, ◌%◌, ◌^◌, ◌<◌, ◌≤◌, [], ℕ, length, map, true};
ghost use Rattle.std.specs.Prelude.{false, Some, IfOk, OnOk, if◌then◌else◌, ◌==◌};
ghost use Rattle.clause_check_spec.specs.Clause as clause;
ghost use Rattle.cnf_core.specs.Bits.{valuation};
ghost use Rattle.term_core_spec.specs.declared.Variable.{Variable};
ghost use Rattle.term_core_spec.specs.declared.Sort.TheVariants as sort;
ghost use Rattle.term_core_spec.specs.declared.Atom.TheVariants as atom;
ghost use Rattle.term_core_spec.specs.Term.{Term, Leaf};
ghost use Rattle.term_core_spec.specs.Sort.{sort_of};
ghost use Rattle.term_core_spec.specs.Value as term_value;
ghost use Rattle.term_bank.specs.Nodes.{Holds};
ghost use Rattle.bit_blast_spec.specs.Goal as goal;
ghost use Rattle.bit_blast_laws.specs.Meaning as meaning;
ghost use Rattle.bit_blast_laws.specs.Back as back;
ghost use Rattle.term_core.specs.Memory.{bytes_of};
ghost use Rattle.term_core.specs.Values.{value_of};
ghost use Rattle.term_core.specs.Assignment.{assignment_of};
ghost use Rattle.bit_blast.specs.Terms.{terms_in};
ghost use Rattle.bit_blast.specs.Loads as spec;
ghost use Rattle.bit_blast.specs.Backs.{AreShort};

use crate::blasted::Blasted;
use crate::loads::{LoadIndices, loads_from, loads_of};
use crate::operators::bit_of;
use crate::table::TermTable;
use attempt::attempt;
use cnf_core::Literal;
use std::alloc::{AllocError, Global};
use term_bank::TermNode;
use term_core::{Assignment, Memory, Value, low_bits};
use term_core_spec::{Atom, Sort, Variable};

fn holds(values: &[bool], literal: Literal) -> bool
    ensures { result ≡ clause.holds (valuation values.now) literal }
{
    let index = literal.variable().saturating_sub(1);
    let value = index < values.len() && values[index];
    if literal.is_negated() { !value } else { value }
}

/// A number with a bit below its bits, in 64 bits.
fn with_bit(values: &[bool], number: u64, bit: Literal) -> u64
    ensures { result ≡ (number * 2 % 2 ^ 64 + meaning.digit
        (clause.holds (valuation values.now) bit)) % 2 ^ 64 }
{
    let digit = if holds(values, bit) { 1 } else { 0 };
    number.wrapping_mul(2).wrapping_add(digit)
}

/// The low 64 bits of the number of a word.
fn number_of(values: &[bool], bits: &[Literal]) -> u64
    ensures { result ≡ meaning.number_of (valuation values.now) bits.now % 2 ^ 64 }
{
    let mut number = 0u64;
    let mut index = bits.len();
    'bits: while index > 0 {
        index -= 1;
        number = with_bit(values, number, bits[index]);
    }
    number
}

/// Writes the byte of a load at its address.
fn write_back(
    values: &[bool],
    table: &TermTable,
    load: LoadIndices,
    memory: &mut Memory,
) -> Result<(), AllocError>
    requires { spec.IsWithin table.now load }
    ensures { let made = spec.load_at table.now load in OnOk result (length made.address ≤ 32
        → bytes_of memory.new ≡ term_value.with_byte (bytes_of memory.old)
        (meaning.number_of (valuation values.now) made.address)
        (term_value.low_bits 8 (meaning.number_of (valuation values.now) made.byte))) }
{
    let address = number_of(values, table.bits(load.address));
    let byte = number_of(values, table.bits(load.byte)) % 0x100;
    if address < 0x1_0000_0000 {
        attempt!(memory.set(address as u32, byte as u8));
    }
    Ok(())
}

/// The bytes of some loads at their addresses; of two at one address that of the first.
fn memory_back(
    alloc: Global,
    values: &[bool],
    table: &TermTable,
    loads: &[LoadIndices],
) -> Result<Memory, AllocError>
    requires { spec.AreWithin table.now loads.now }
    ensures { let made = map (spec.load_at table.now) loads.now in IfOk result
        (λ memory. AreShort made → (address : ℕ)
        → bytes_of memory address ≡ term_value.low_bits 8
        (back.first_byte (valuation values.now) address made)) }
{
    let mut memory = Memory::new(alloc);
    let mut index = loads.len();
    'backwards: while index > 0 {
        index -= 1;
        attempt!(write_back(values, table, loads[index], &mut memory));
    }
    Ok(memory)
}

/// The value of a variable whose term has this index.
fn value_back(
    alloc: Global,
    values: &[bool],
    table: &TermTable,
    loads: &[LoadIndices],
    index: usize,
    variable: Variable,
) -> Result<Value, AllocError>
    requires loads { map (spec.load_at table.now) loads.now ≡ goal.loads_of table.now table.now }
    requires within { spec.AreWithin table.now loads.now }
    requires below { index < length table.now }
    requires term { Holds (terms_in table.now) index (Leaf (atom.Open variable)) }
    ensures { IfOk result (λ value. AreShort (goal.loads_of table.now table.now)
        → value_of value ≡ back.read_back (valuation values.now) table.now variable) }
{
    table.is_distinct();
    match variable.sort {
        Sort::Truth => Ok(Value::Truth(holds(values, bit_of(table.bits(index))))),
        Sort::Word(width) => Ok(Value::Number(
            width,
            low_bits(width, number_of(values, table.bits(index))),
        )),
        Sort::Memory => {
            let own = attempt!(loads_from(alloc, loads, index));
            let memory = attempt!(memory_back(alloc, values, table, &own));
            Ok(Value::Bytes(memory))
        }
    }
}

/// The variable that a node is.
fn variable_of(node: TermNode) -> Option<Variable>
    ensures { result ≡ spec.variable_of node }
{
    match node {
        TermNode::Leaf(Atom::Open(variable)) => Some(variable),
        _ => None,
    }
}

/// Reconstructs the assignment of a model, the values of the clauses' variables, that of variable 1
/// first: each variable of the terms has the value of its bits, and each memory the bytes that are
/// loaded from it.
pub fn read_back(
    alloc: Global,
    blasted: &Blasted,
    values: &[bool],
) -> Result<Assignment, AllocError>
    ensures reads { IfOk result (λ assignment. valuation values.now 1 ≡ true
        → AreShort (goal.loads_of blasted.now.table blasted.now.table) → (variable : Variable)
        → assignment_of assignment variable
        ≡ back.read_back (valuation values.now) blasted.now.table variable) }
    ensures falsifies { IfOk result (λ assignment. (term : Term) → sort_of term ≡ Some sort.Truth
        → back.TableLoadsFromVariables (goal.visit term [] 1).out
        → blasted.now.table ≡ (goal.visit term [] 1).out
        → clause.satisfies (valuation values.now) (goal.cnf_of term).clauses ≡ true
        → term_value.value (assignment_of assignment) term ≡ term_value.Truth false) }
{
    let table = &blasted.table;
    table.is_distinct();
    let loads = attempt!(loads_of(alloc, table));
    let mut assignment = Assignment::new(alloc);
    'terms: for index in 0..table.len() {
        if let Some(variable) = variable_of(table.node(index)) {
            let value = attempt!(value_back(alloc, values, table, &loads, index, variable));
            attempt!(assignment.set(variable, value));
        }
    }
    Ok(assignment)
}
