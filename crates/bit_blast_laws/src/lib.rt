//! Laws of the clauses of a goal (`bit_blast_spec`): what an assignment that satisfies the clauses
//! of a circuit makes of its bits (`circuits`) and of a goal's terms (`terms`), that a goal which
//! can be false has a model (`models`), the assignment that is reconstructed from a model
//! (`assignments`), what it makes of a goal before normal form (`normal_forms`), and that folded
//! gates keep values and models (`folding`). Nothing of the crate runs.
#![tactic(auto)]

pub mod assignments;
pub mod circuits;
pub mod folding;
pub mod models;
pub mod normal_forms;
pub mod terms;
