//! The tokens of C (`specs/Lexical.antt`, ISO C11, 6.4), and the first fault of a text that has
//! none. Beside enums nothing runs.
#![tactic(auto)]

pub mod token;
