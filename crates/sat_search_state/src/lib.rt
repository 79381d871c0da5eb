//! The state of a search: the trail of literals that are true, two watched literals a clause, and
//! unit propagation.
//!
//! Contracts see a [`Trail`] as the list of its entries, in the order in which they became true,
//! each with its reason and its level (`Trailed` in `sat_search_spec`, `specs/Trail.antt`), and
//! [`Watches`] as the watches of all clauses and a list of clauses for each literal (`Watched`
//! there, `specs/Watches.antt`). [`propagate`] makes true what the clauses force, until nothing is
//! left or a clause is false; `IsRunning` holds before and after.
#![tactic(auto)]

mod entries;
mod lists;
mod propagation;
mod watched;

pub use entries::Trail;
pub use propagation::propagate;
pub use sat_search_spec::Entry;
pub use watched::Watches;
