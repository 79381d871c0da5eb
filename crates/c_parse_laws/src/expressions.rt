//! The law of expressions, as far as the types in them and their subexpressions obey it.

ghost use Rattle.c_parse_laws.specs.Exactness.{ExpressionsReport};

/// The law of expressions: where the parsers of their parts are exact and keep roles, so are and do
/// those of cast, unary and conditional expressions.
pub fn expressions_report()
    ensures { ExpressionsReport }
{}
