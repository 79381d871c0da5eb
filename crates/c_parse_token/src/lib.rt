//! Parsers of one token of C, and of the words of a C type that hold nothing inside.
//!
//! The main type is [`Tokens`], the tokens that are left. A parser of one token is a method of it:
//! it gives a value and takes its token, or gives a [`Refusal`] and leaves the tokens from the one
//! at fault on. Each parser has one contract (`Gives` of `specs/Lists.antt`): it gives exactly what
//! the reference parser gives that it names, of `specs/Parsers.antt` and `specs/Types.antt` of
//! `c_parse_laws`. [`TypedefNames`] are the typedef names in scope, [`class`] says what a
//! token is, and [`Head`] is what a type specifier begins with.
#![tactic(auto)]

pub mod class;
mod head;
mod integer;
mod mark;
mod names;
mod outcome;
mod tokens;

pub use attempt::{allocated, attempt};
pub use head::{Head, type_specifier_head};
pub use integer::integer_type;
pub use mark::{consts, pointer};
pub use names::TypedefNames;
pub use outcome::SyntaxFault;
pub use tokens::Tokens;
