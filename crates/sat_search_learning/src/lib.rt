//! A search for a model of clauses from one conflict to the next (CDCL).
//!
//! A [`Search`] is made by [`new_search`], and clauses are added by [`load`]. [`run`] decides and
//! propagates until a clause more is learnt, the empty clause is, or every variable has a value;
//! what holds between two conflicts is `IsSearching` (`specs/Search.antt`), and `specs/Stages.antt`
//! has how far a search came. Which variable is decided, and when the search restarts, is chosen by
//! [`Order`](order) and rests on no contract. Where the search takes long, variables that have equal
//! or opposite values in all patterns of a simulation (`simulation`) are decided apart now and then,
//! lowest first ([`equate_variables`]), so that their equality is learnt before the search needs it.
#![tactic(auto)]

mod choice;
mod equivalences;
mod learning;
mod loading;
mod models;
mod order;
mod search;
mod signatures;
mod simulation;

pub use equivalences::equate_variables;
pub use loading::load;
pub use models::bits_of;
pub use order::Order;
pub use search::{Progress, Search, back, new_search, restart, run};
