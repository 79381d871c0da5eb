//! Laws of the graphs of code (`decompile_spec`): the term of each instruction evaluates to what
//! the machine computes (`instruction_terms`), machine and graphs step together and return together
//! (`runs`), a graph that is laid out by address is a graph of its function (`layout`), and such a
//! graph is valid and binds registers and memory alone (`validity`). Nothing of the crate runs.
#![tactic(auto)]

pub mod instruction_terms;
pub mod layout;
pub mod runs;
pub mod validity;
