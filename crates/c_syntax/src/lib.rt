//! The tree of a C unit as the program keeps it (ISO C11, 6.5 to 6.9).
//!
//! The main type is [`TranslationUnit`](unit::TranslationUnit). Names borrow their bytes from the
//! text, brackets stay in the tree, and each offset is in bytes from the start of the
//! text. `expression_of`, `statement_of`, `external_declaration_of` and their kin in `specs/` take
//! a tree to the tree without pointers of `c_syntax_spec`, of which clauses speak; each function
//! that makes a part ensures of which tree it is. A part is made in memory of its own, so a parser
//! hands on boxes alone.
#![tactic(auto)]

pub mod expression;
pub mod simple;
pub mod statement;
pub mod unit;
