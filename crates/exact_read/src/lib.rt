//! What it means that a parser reads a text format exactly: it reads all of the format and nothing
//! else, and refuses at the first token with which the tokens so far begin no text (`Exact` in
//! `specs/Exact.antt`), by the kind that the grammar expects there (`Roled` in `specs/Roles.antt`).
//! `proofs/` has one law for each operator of `specs/Grammar.antt`. Nothing runs.
#![tactic(auto)]
