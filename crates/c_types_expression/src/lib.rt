//! Expressions and types (ISO C11, 6.5 to 6.7): from their trees to operands of the typed core and
//! to types, or to the first fault. Each function gives what the definition of its name in
//! `c_types_spec` gives (`Runs` of `c_types_scope`).
#![tactic(auto)]

pub mod expression;
pub mod types;
