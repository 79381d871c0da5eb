//! The variables of a C function.

ghost use Rattle.std.specs.Prelude.{◌≡◌};
ghost use Rattle.c_graph_spec.specs.State as state;

use c_types_spec::Scalar;
use term_core_spec::{Family, Sort, Variable, Width};

/// The width of the words of a type.
pub fn width_of(of: Scalar) -> Width
    ensures { result ≡ state.width_of of }
{
    if of.width == 8 {
        Width::W8
    } else if of.width == 16 {
        Width::W16
    } else if of.width == 64 {
        Width::W64
    } else {
        Width::W32
    }
}

/// A local, by its number; parameters come first.
pub fn local(number: usize, of: Scalar) -> Variable
    ensures { result ≡ state.local number of }
{
    Variable {
        family: Family::Local,
        index: number,
        instance: 0,
        sort: Sort::Word(width_of(of)),
    }
}

/// Whether a local is set.
pub fn is_set(number: usize) -> Variable
    ensures { result ≡ state.is_set number }
{
    Variable {
        family: Family::IsSet,
        index: number,
        instance: 0,
        sort: Sort::Truth,
    }
}

/// The memory.
pub const MEMORY: Variable = Variable {
    family: Family::SourceMemory,
    index: 0,
    instance: 0,
    sort: Sort::Memory,
};

/// The first address of the zone that no access meets.
pub const ZONE_LOW: Variable = Variable {
    family: Family::Further,
    index: 0,
    instance: 0,
    sort: Sort::Word(Width::W32),
};

/// The address after the zone's last.
pub const ZONE_HIGH: Variable = Variable {
    family: Family::Further,
    index: 1,
    instance: 0,
    sort: Sort::Word(Width::W32),
};

/// The result of a function.
pub fn result_of(of: Scalar) -> Variable
    ensures { result ≡ state.result of }
{
    Variable {
        family: Family::Further,
        index: 2,
        instance: 0,
        sort: Sort::Word(width_of(of)),
    }
}
