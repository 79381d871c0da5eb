//! Where the nodes of C statements are: how many a statement has, at which one it begins, and which
//! are its points, exactly as `c_graph_spec` has them (`specs/Layout.antt` and
//! `specs/SourceGraph.antt` there). The number of tests of an expression, and so the size of a
//! statement, depends on the expression or statement alone (`specs/Counts.antt`).
#![tactic(auto)]

mod counts;
mod entries;

pub use counts::{argument_count, count, size, with_cases};
pub use entries::{Exits, entry, first, otherwise};
