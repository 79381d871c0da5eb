// Terms with their flat terms, worked by hand: each function's clause is a table, and its body is
// empty. The tables are in `specs/Examples.antt`.

ghost use Rattle.mem_terms_spec.specs.Examples.{AreFlat, no_loads, two_addresses, nested};
ghost use Rattle.mem_terms_spec.specs.Examples.{two_memories};

/// Nothing is loaded.
pub fn terms_without_loads_are_kept()
    ensures { AreFlat no_loads }
{}

/// One memory is loaded from at two addresses, and twice at one.
pub fn loads_at_two_addresses_are_two_bytes()
    ensures { AreFlat two_addresses }
{}

/// The address of a load is itself loaded.
pub fn addresses_are_flat()
    ensures { AreFlat nested }
{}

/// Loads of two memories are constrained apart.
pub fn memories_are_tied_apart()
    ensures { AreFlat two_memories }
{}
