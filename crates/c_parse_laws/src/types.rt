//! The laws of declarators, types and expressions, whatever typedef names are in scope, however
//! many constructs are open and however many operators come before.

ghost use Rattle.c_parse_laws.specs.Declarators.{DeclaratorsReport};
ghost use Rattle.c_parse_laws.specs.TypeExactness.{AllReport, ExpressionsExact};
ghost use Rattle.c_parse_laws.specs.Samples.{ReadsCast, RefusesWord, RefusesDepth, ReadsValue};
ghost use Rattle.c_parse_laws.specs.Samples.{RefusesValue};

/// The law of declarators: where the parser of array lengths is exact and keeps roles, so is and
/// does that of declarators.
pub fn declarators_report()
    ensures { DeclaratorsReport }
{}

/// The law of expressions and types: each parser is exact and keeps roles.
pub fn expressions_and_types_report()
    ensures { AllReport }
{}

/// So each parser is exact.
pub fn expressions_are_exact()
    ensures { ExpressionsExact }
{}

/// A worked sample: `(int const *)0` is a cast of 0.
pub fn reads_cast()
    ensures { ReadsCast }
{}

/// A worked sample: in `(int const long)0` the keyword `long` is wrong, since `const` ends the type
/// specifier.
pub fn refuses_word()
    ensures { RefusesWord }
{}

/// A worked sample: with 128 constructs open around it, the `(` of `(int)0` exceeds the nesting
/// limit.
pub fn refuses_depth()
    ensures { RefusesDepth }
{}

/// A worked sample: with 126 operators before it, `(enum{A=1+1})0` is read: its `(` is the 127th,
/// its `+` the 128th.
pub fn reads_value()
    ensures { ReadsValue }
{}

/// A worked sample: with 127 operators before it, its `+` exceeds the operator limit.
pub fn refuses_value()
    ensures { RefusesValue }
{}
