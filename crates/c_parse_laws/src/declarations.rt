//! The laws of values, expression statements and declarations of locals, whatever typedef names are
//! in scope and however many constructs are open.

ghost use Rattle.c_parse_laws.specs.DeclarationExactness.{DeclarationsExact, DeclarationsReport};
ghost use Rattle.c_parse_laws.specs.DeclarationSamples.{LeavesSum, ReadsAssignment, ReadsLocals};
ghost use Rattle.c_parse_laws.specs.DeclarationSamples.{RefusesStatic};

/// The law of values, expression statements and declarations of locals: each parser is exact and
/// keeps roles.
pub fn declarations_report()
    ensures { DeclarationsReport }
{}

/// So each parser is exact.
pub fn declarations_are_exact()
    ensures { DeclarationsExact }
{}

/// A worked sample: `a = f(1)` is an assignment of what a call gives.
pub fn reads_assignment()
    ensures { ReadsAssignment }
{}

/// A worked sample: of `a + 1 = 2` the sum is read, since it is no target.
pub fn leaves_sum()
    ensures { LeavesSum }
{}

/// A worked sample: `int a = 1;` is a declaration of one local.
pub fn reads_locals()
    ensures { ReadsLocals }
{}

/// A worked sample: `static` is wrong after `int a = 1`, where an operand's end was expected.
pub fn refuses_static()
    ensures { RefusesStatic }
{}
