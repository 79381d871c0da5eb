//! Word steps: a block of lines that leads from a goal to a goal that is easier, each line by a
//! named rule. `specs/Numbers.antt` has the state (numbered terms, facts and merges),
//! `specs/Lines.antt` the lines and what is left after a block, `specs/Invariant.antt` what every
//! line keeps, `specs/Polynomial.antt` and `specs/Ring.antt` the rule `ring`,
//! `specs/Commuting.antt` the rule `comm`, `specs/Bitwise.antt` and `specs/Order.antt` the rule
//! `bits`, `specs/LowBits.antt` the rule `low`, `specs/Ranges.antt` the rule
//! `range`, `specs/Zones.antt` the rules `zone` and `within`, `specs/Quotients.antt` the rule
//! `quot`, `specs/Choices.antt` the rule `lift`, `specs/Spans.antt` the rule `fit`.
//!
//! Its laws ([`laws`]): each line of a block keeps the invariant, the goals that are left after a
//! block are enough, in normal form and without new variables, each rule's test says that terms
//! have one value, and the polynomial of a word has the word's value. [`examples`] has worked
//! blocks, and pairs and near misses for each rule. Nothing of the crate runs.
#![tactic(auto)]

pub mod examples;
pub mod laws;
