//! What holds at a function's entry and where it returns, as terms: [`Relations::new`] makes
//! exactly the lines of `sim_rules_spec` (`specs/Calling.antt`), with the result and the fixed
//! bytes of `agreement_laws` (`specs/EntryFrame.antt`).
#![tactic(auto)]

mod relations;
mod terms;

pub use relations::Relations;
pub use terms::{STACK_POINTER, at_entry, variable, widened, zone_from};
