//! Terms with terms of a bank in place of their variables: [`substitute`] gives the index of
//! exactly the substituted tree of `term_core_spec` (`specs/Substitution.antt` there), where a
//! state ([`Lookup`]) has the index of each variable's term; a variable that has none stays.
//! [`transfer`] gives the same of a term of another bank, each subterm once and however deep;
//! [`intern`] gives the index of a tree as it is. [`rename`] gives exactly the tree whose variables
//! of some families belong to an instance (`specs/Renaming.antt`). What the value, the sort and the
//! variables of such trees are is said by `term_core::laws`.
#![tactic(auto)]

mod lookup;
mod moving;
mod nodes;
mod renaming;
mod state;

pub use lookup::Lookup;
pub use moving::{Taken, transfer, transfer_one};
pub use nodes::arguments;
pub use renaming::rename;
pub use state::{intern, substitute};
