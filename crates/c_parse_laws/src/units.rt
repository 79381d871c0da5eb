//! The laws of units, and of the one fault of tokens that are no unit.

ghost use Rattle.c_parse_laws.specs.UnitExactness.{UnitExact, UnitReports};
ghost use Rattle.c_parse_laws.specs.UnitSamples.{ReadsFunction, ReadsTypedef, RefusesName};
ghost use Rattle.c_parse_laws.specs.UnitSamples.{RefusesSecond};

/// The law of units: their parser is exact.
pub fn unit_is_exact()
    ensures { UnitExact }
{}

/// The law of faults: what the parser refuses has this fault and no other, and a unit has none.
pub fn unit_reports()
    ensures { UnitReports }
{}

/// A worked sample: a name is a typedef name after its typedef, and a `,` may follow the last
/// initial value.
pub fn reads_typedef()
    ensures { ReadsTypedef }
{}

/// A worked sample: a function with no parameter and an empty body, and the offset of its `}`.
pub fn reads_function()
    ensures { ReadsFunction }
{}

/// A worked sample: a name that is no typedef name begins no external declaration.
pub fn refuses_name()
    ensures { RefusesName }
{}

/// A worked sample: in `{1 2` the second number is wrong, where the first operand ended.
pub fn refuses_second()
    ensures { RefusesSecond }
{}
