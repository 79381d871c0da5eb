//! Parsers of values, expression statements, declarations, parameters and declarators (ISO C11,
//! 6.5.16, 6.7, 6.9).
//!
//! The main calls are [`simple`], [`locals`] and [`global`]. Each parser takes its tokens off
//! [`Tokens`](c_parse_token::Tokens), and gives exactly what the reference parser gives that its
//! contract names, of `specs/Values.antt`, `specs/Declarations.antt` and `specs/Around.antt` of
//! `c_parse_laws` and of `specs/Parameters.antt` of `c_parse_laws`.
#![tactic(auto)]

mod declaration;
mod item;
mod statement;

use attempt::Refusal;
use c_parse_token::{SyntaxFault, TypedefNames};
pub use declaration::{external_specifiers, locals, starts_locals, value_end};
pub use item::global;
pub use statement::{simple, value};
use std::alloc::Global;

/// Where a part is parsed.
#[derive(Clone, Copy)]
pub struct Scope<'n, 't> {
    /// Where memory comes from.
    pub alloc: Global,
    /// The typedef names in scope.
    pub names: &'n TypedefNames<'t>,
    /// How many constructs are open around.
    pub depth: usize,
}

/// What a parser of a part gives.
pub type Parsed<T> = Result<Box<T>, Refusal<SyntaxFault>>;
