//! What statements consist of (ISO C11, 6.8): assignments (6.5.16), calls (6.5.2.2), declarations
//! of locals (6.7), expression statements (6.8.3) and `return` (6.8.6.4): from their trees to
//! actions of the typed core, or to the first fault. Each function gives what the definition of its
//! name in `c_types_spec` gives (`Runs` of `c_types_scope`).
#![tactic(auto)]

pub mod assignment;
pub mod calls;
pub mod context;
pub mod locals;
pub mod simple;
