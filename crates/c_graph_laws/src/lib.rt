//! Laws of the graphs of C functions (`c_graph_spec`): the graph of a function runs as the
//! function does (`runs`), and the graphs of a typed unit are valid (`validity`); both for each
//! unit that has a typed core (`units`); what every step of a run keeps (`keeping`); and graphs
//! of small functions, counted by hand (`examples`). Nothing of the crate runs: each function's
//! clause is one law, and its body is empty.
#![tactic(auto)]

pub mod examples;
pub mod keeping;
pub mod runs;
pub mod units;
pub mod validity;
