//! The reference parsers of C on lists of tokens: of expressions, types and declarators
//! (`specs/Parsers.antt`, `specs/Types.antt`), of calls, declarations and parameters, of
//! statements, initial values and units; and the laws that they read exactly what the grammar
//! derives (`c_parse_spec`) and call a wrong token by the role that it expects (`Roled` of
//! `exact_read`). Each function's clause is one law. Nothing of the crate runs.
#![tactic(auto)]

pub mod declarations;
pub mod expressions;
pub mod globals;
pub mod initial_scan;
pub mod statements;
pub mod types;
pub mod units;
