//! Variables that the obligations of a call speak of.

ghost use Rattle.std.specs.Prelude.{◌≡◌};
ghost use Rattle.graph_core_spec.specs.Run as run;
ghost use Rattle.sim_rules_spec.specs.Calls as spec;

use term_core_spec::{Family, Sort, Variable, Width};

/// The memory of the binary.
pub(crate) const BINARY_MEMORY: Variable = Variable {
    family: Family::BinaryMemory,
    index: 0,
    instance: 0,
    sort: Sort::Memory,
};

/// The memory in the zone.
pub(crate) const ZONE_MEMORY: Variable = Variable {
    family: Family::ZoneMemory,
    index: 0,
    instance: 0,
    sort: Sort::Memory,
};

/// The global pointer at the caller's entry.
pub(crate) const ENTRY_GLOBAL_POINTER: Variable = Variable {
    family: Family::Entry,
    index: 3,
    instance: 0,
    sort: Sort::Word(Width::W32),
};

/// The number of the register of the return address.
pub(crate) const RETURN_ADDRESS: usize = 1;

/// The number of the stack pointer.
pub(crate) const STACK_POINTER: usize = 2;

/// The number of the global pointer.
pub(crate) const GLOBAL_POINTER: usize = 3;

/// The number of the first register of arguments, which is that of the result, too.
pub(crate) const FIRST_ARGUMENT: usize = 10;

/// How many further words are ends of the zone: the first ones.
const ZONE_ENDS: usize = 2;

/// The registers that a callee leaves as they are: the stack, the global and the thread pointer,
/// and those that it saves (psABI).
const KEPT_REGISTERS: [usize; 15] = [2, 3, 4, 8, 9, 18, 19, 20, 21, 22, 23, 24, 25, 26, 27];

/// Whether a callee leaves the register of a number as it is.
pub(crate) fn is_kept(register: usize) -> bool
    ensures { result ≡ spec.is_kept_register register }
{
    KEPT_REGISTERS.contains(&register)
}

/// The machine's register of a number.
pub(crate) fn machine_register(number: usize) -> Variable
    ensures { result ≡ spec.machine_register number }
{
    Variable {
        family: Family::Register,
        index: number,
        instance: 0,
        sort: Sort::Word(Width::W32),
    }
}

/// Whether caller and callee share a variable.
pub(crate) fn is_shared(variable: &Variable) -> bool
    ensures { result ≡ run.is_shared variable.now }
{
    match variable.sort {
        Sort::Memory => true,
        Sort::Truth | Sort::Word(_) => match variable.family {
            Family::Register => true,
            Family::Further => variable.index < ZONE_ENDS,
            _ => false,
        },
    }
}

/// What a callee leaves of a variable: a variable of another instance.
pub(crate) fn fresh(variable: Variable) -> Variable
    ensures { result ≡ spec.fresh variable }
{
    Variable {
        family: variable.family,
        index: variable.index,
        instance: 1,
        sort: variable.sort,
    }
}
