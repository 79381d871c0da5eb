//! Hash-consed terms: each term once. A contract sees a [`Bank`] as the list of its trees
//! (`term_core_spec`, `specs/Term.antt`), arguments before their term, and a [`TermId`] as an index
//! in it. [`Bank::add`] adds the tree of a [`TermNode`] (`build` of `specs/Nodes.antt`);
//! `eval_all` gives the value of each tree, `count_subterms` how many distinct subterms one has.

#![tactic(auto)]

mod bank;
mod count;
mod evaluation;
mod node;

pub use bank::{Bank, TermId};
pub use evaluation::evaluate;
pub use node::TermNode;
