//! The verdicts of a run (`specs/Verdict.antt`), and the report of each, byte for byte
//! (`specs/Report.antt`). Definitions alone, but for the enum of refusals of the C source,
//! which runs: [`SourceKind`].
#![tactic(auto)]

use c_parse_spec::ParseFaultKind;
use c_token_spec::token::TokenFaultKind;
use c_types_spec::TypeFaultKind;

/// Why the C source is refused.
#[derive(Clone, Copy)]
pub enum SourceKind {
    /// The text has no tokens.
    Token(TokenFaultKind),
    /// The tokens are no unit of the grammar.
    Syntax(ParseFaultKind),
    /// The unit has no types.
    Typing(TypeFaultKind),
}
