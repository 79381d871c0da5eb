//! Types of C and their layouts, as the program keeps them (ISO C11, 6.2.5, 6.7.2.1). `type_of` in
//! `specs/` takes a type to that of `c_types_spec`, of which clauses speak. Nothing here recurses
//! on a type, since a type may be as long as a text.
#![tactic(auto)]

pub mod extents;
pub mod structs;
pub mod types;
