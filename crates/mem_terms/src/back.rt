// From assignments of a flat term to those of its term.

ghost use Rattle.std.specs.Prelude.{◌≡◌, ◌<◌, ◌&&◌, length, map, false, if◌then◌else◌, Some, IfOk};
ghost use Rattle.std.specs.Prelude.{OnOk};
ghost use Rattle.term_core_spec.specs.declared.Sort.TheVariants as sort;
ghost use Rattle.term_core_spec.specs.declared.Variable.{Variable};
ghost use Rattle.term_core_spec.specs.Term.{Term};
ghost use Rattle.term_core_spec.specs.Sort.{is_memory, sort_of};
ghost use Rattle.term_core_spec.specs.Same.{same_variable};
ghost use Rattle.term_core_spec.specs.Value as spec;
ghost use Rattle.term_core_spec.specs.Value.{value, low_bits};
ghost use Rattle.term_core.specs.Values.{value_of};
ghost use Rattle.term_core.specs.Memory.{bytes_of};
ghost use Rattle.term_core.specs.Assignment.{assignment_of};
ghost use Rattle.term_bank.specs.Nodes.{tree_at, value_at};
ghost use Rattle.mem_terms_spec.specs.Assignments.{LoadsFromVariables, number_of, rebuilt};
ghost use Rattle.mem_terms.specs.Ids.{load_at, AreWithin, IsFlatOf};
ghost use Rattle.mem_terms.specs.Back.{first_among, memory_among};

use crate::ids::{Flat, LoadIds};
use crate::ties::{loads_from, memories};
use std::alloc::{AllocError, Global};
use term_bank::Bank;
use term_core::{Assignment, Memory, Value};
use term_core_spec::{Sort, Variable};

/// The number of a word, 0 where the value is none.
fn number_of(value: &Value) -> u64
    ensures { result ≡ number_of (value_of value.now) }
{
    match value {
        Value::Number(_, number) => *number,
        _ => 0,
    }
}

/// The address of a load.
fn address_of(values: &[Value], load: LoadIds) -> u32
    requires { load.address < length values.now }
    ensures { result ≡ low_bits 32 (number_of (value_at (map value_of values.now) load.address)) }
{
    let number = number_of(&values[load.address]);
    (number % 0x1_0000_0000) as u32
}

/// The byte of a load.
fn byte_of(values: &[Value], load: LoadIds) -> u8
    requires { load.byte < length values.now }
    ensures { result ≡ low_bits 8 (number_of (value_at (map value_of values.now) load.byte)) }
{
    let number = number_of(&values[load.byte]);
    (number % 0x100) as u8
}

/// The memory that gives some loads their bytes, the first at an address its own.
fn memory_back(alloc: Global, loads: &[LoadIds], values: &[Value]) -> Result<Memory, AllocError>
    requires { AreWithin (length values.now) loads.now }
    ensures { IfOk result (λ m. bytes_of m
        ≡ (λ address. first_among (map value_of values.now) address loads.now)) }
{
    let mut memory = Memory::new(alloc);
    for i in (0..loads.len()).rev() {
        let load = loads[i];
        memory.set(address_of(values, load), byte_of(values, load))?;
    }
    Ok(memory)
}

/// Gives a memory the bytes that its loads have.
fn restore(
    alloc: Global,
    assignment: &mut Assignment,
    memory: Variable,
    loads: &[LoadIds],
    values: &[Value],
) -> Result<(), AllocError>
    requires { AreWithin (length values.now) loads.now }
    ensures { OnOk result ((v : Variable)
        → assignment_of assignment.new v
        ≡ (if is_memory v.sort && same_variable v memory then memory_among
        (map value_of values.now) loads.now v else assignment_of assignment.old v)) }
{
    match memory.sort {
        Sort::Memory => {
            let own = loads_from(alloc, memory, loads)?;
            let bytes = memory_back(alloc, &own, values)?;
            assignment.set(memory, Value::Bytes(bytes))
        }
        Sort::Truth | Sort::Word(_) => Ok(()),
    }
}

/// From an assignment of a flat term to one of its term: each memory that is loaded from gives its
/// loads their bytes, and 0 elsewhere; all else is kept. Takes the value of each term in the bank.
pub fn rebuild(
    alloc: Global,
    flat: &Flat,
    bank: &Bank,
    assignment: Assignment,
) -> Result<Assignment, AllocError>
    requires { AreWithin (length bank.now) flat.now.loads.items }
    ensures rebuilt { IfOk result (λ back. assignment_of back
        ≡ rebuilt (map (load_at bank.now) flat.now.loads.items) (assignment_of assignment)) }
    ensures falsifies { IfOk result (λ back. (t : Term) → IsFlatOf bank.now flat.now t
        → sort_of t ≡ Some sort.Truth → LoadsFromVariables t
        → value (assignment_of assignment) (tree_at bank.now flat.now.term) ≡ spec.Truth false
        → value (assignment_of back) t ≡ spec.Truth false) }
{
    assignment.is_assignment();
    let values = bank.eval_all(alloc, &assignment)?;
    let memories = memories(alloc, &flat.loads)?;
    let mut rebuilt = assignment;
    for memory in &memories {
        restore(alloc, &mut rebuilt, *memory, &flat.loads, &values)?;
    }
    Ok(rebuilt)
}
