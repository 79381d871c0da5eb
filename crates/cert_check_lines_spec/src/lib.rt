//! What each line of a certificate asks and leaves, one line at a time: the rules Leaf, Case,
//! Restrict, Split and Call, lines of relations, logs and their steps; and around them where parts
//! begin, the calls that they inline, and the end (`specs/Parts.antt`).
//!
//! `specs/Sites.antt` has the nodes of points, `specs/Jobs.antt` what is expected inside a part,
//! `specs/LineRules.antt` which lines pass, and the first rule or limit that another one breaks. No
//! line depends on those after it. Its laws ([`passing`]): lines that pass show a tree of rules,
//! each of whose obligations is closed. Nothing of the crate runs.
#![tactic(auto)]

pub mod passing;
pub mod samples;
