//! The laws of parameters and of declarators in external declarations, whatever typedef names are
//! in scope.

ghost use Rattle.c_parse_laws.specs.GlobalExactness.{GlobalsReport};
ghost use Rattle.c_parse_laws.specs.GlobalSamples.{LeavesFunction, ReadsConst, ReadsVoid};
ghost use Rattle.c_parse_laws.specs.GlobalSamples.{RefusesPointer};

/// The law of parameters and of declarators in external declarations: each parser is exact and
/// keeps roles.
pub fn globals_report()
    ensures { GlobalsReport }
{}

/// A worked sample: `(void)` has no parameter.
pub fn reads_void()
    ensures { ReadsVoid }
{}

/// A worked sample: `(void const)` has one.
pub fn reads_const()
    ensures { ReadsConst }
{}

/// A worked sample: in `(void (` the second bracket is wrong, where a name was expected.
pub fn refuses_pointer()
    ensures { RefusesPointer }
{}

/// A worked sample: a typedef's declarator is no function's.
pub fn leaves_function()
    ensures { LeavesFunction }
{}
