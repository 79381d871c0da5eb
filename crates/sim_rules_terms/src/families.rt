//! Which side of a frame a variable belongs to.

ghost use Rattle.std.specs.Prelude.{◌≡◌};
ghost use Rattle.term_core_spec.specs.Same.{same_variable};
ghost use Rattle.sim_rules_spec.specs.Points as spec;

use term_core_spec::{Family, Sort, Variable, Width};

/// Whether variables of a family belong to the binary's runs.
pub(crate) fn is_binary(family: Family) -> bool
    ensures { result ≡ spec.is_binary family }
{
    match family {
        Family::Register | Family::Entry | Family::BinaryMemory => true,
        Family::Parameter
        | Family::Local
        | Family::IsSet
        | Family::SourceMemory
        | Family::ZoneMemory
        | Family::Address
        | Family::LoadedByte
        | Family::Further => false,
    }
}

/// Whether variables of a family belong to the source's runs.
pub(crate) fn is_source(family: Family) -> bool
    ensures { result ≡ spec.is_source family }
{
    match family {
        Family::Parameter
        | Family::Local
        | Family::IsSet
        | Family::SourceMemory
        | Family::Further => true,
        Family::Register
        | Family::Entry
        | Family::BinaryMemory
        | Family::ZoneMemory
        | Family::Address
        | Family::LoadedByte => false,
    }
}

// The only variable of a family of memories.
fn memory(family: Family) -> Variable
    ensures { result ≡ record { family = family; index = 0; instance = 0; sort = Sort.Memory } }
{
    Variable {
        family,
        index: 0,
        instance: 0,
        sort: Sort::Memory,
    }
}

/// The memory of the binary.
pub(crate) fn binary_memory() -> Variable
    ensures { result ≡ spec.binary_memory }
{
    memory(Family::BinaryMemory)
}

/// The memory of the source.
pub(crate) fn source_memory() -> Variable
    ensures { result ≡ spec.source_memory }
{
    memory(Family::SourceMemory)
}

/// Any address.
pub(crate) fn address() -> Variable
    ensures { result ≡ spec.address }
{
    Variable {
        family: Family::Address,
        index: 0,
        instance: 0,
        sort: Sort::Word(Width::W32),
    }
}

/// Whether a variable is the memory in the zone.
pub(crate) fn is_zone_memory(variable: &Variable) -> bool
    ensures { result ≡ same_variable variable.now spec.zone_memory }
{
    *variable == memory(Family::ZoneMemory)
}
