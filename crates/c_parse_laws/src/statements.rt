//! The laws of statements and of the contents of blocks and `switch`es, whatever typedef names are
//! in scope and however many constructs are open.

ghost use Rattle.c_parse_laws.specs.StatementExactness.{CompoundsReport, StatementsReport};
ghost use Rattle.c_parse_laws.specs.StatementSamples.{ReadsElse, ReadsGroup, RefusesElse};
ghost use Rattle.c_parse_laws.specs.StatementSamples.{RefusesStatement};

/// The law of blocks: where the parser of statements is exact and keeps roles, so are and do those
/// of the contents of a block and of a `switch`.
pub fn compounds_report()
    ensures { CompoundsReport }
{}

/// The law of statements: the parser of a statement, and that of the contents of a block, are exact
/// and keep roles.
pub fn statements_report()
    ensures { StatementsReport }
{}

/// A worked sample: in `if(1)if(1);else;` the `else` belongs to the second `if`.
pub fn reads_else()
    ensures { ReadsElse }
{}

/// A worked sample: a `switch` with one group.
pub fn reads_group()
    ensures { ReadsGroup }
{}

/// A worked sample: a statement before the first label of a `switch` is wrong.
pub fn refuses_statement()
    ensures { RefusesStatement }
{}

/// A worked sample: an `if` and its `else` both count as open in the statement after the `else`.
pub fn refuses_else()
    ensures { RefusesElse }
{}
