//! Laws of the scan over tokens that finds which structs and enums a unit defines within initial
//! values of its globals: it finds those that the derivation of the unit has there
//! (`specs/Definitions.antt` and `specs/InitialValues.antt` say which these are).

ghost use Rattle.c_parse_laws.specs.InitialStatements.{DefinesSame, FindsAll};
ghost use Rattle.c_parse_laws.specs.InitialStatements.{FindsDefinitions, FindsFirst, FindsValues};

/// The scan is within an initial value of a global exactly where the derivation of the unit is.
pub fn scan_finds_initial_values()
    ensures { FindsValues }
{}

/// In the tokens of an initial value it finds exactly the definitions that the derivation has.
pub fn scan_finds_definitions_of_value()
    ensures { FindsDefinitions }
{}

/// In the tokens of a unit it finds exactly those that the derivation has within initial values.
pub fn scan_finds_definitions_of_unit()
    ensures { FindsAll }
{}

/// It stops at the first of them, or there is none.
pub fn scan_stops_at_first_definition()
    ensures { FindsFirst }
{}

/// A text that has a tree defines within initial values first what its derivation does.
pub fn texts_define_what_derivations_do()
    ensures { DefinesSame }
{}
