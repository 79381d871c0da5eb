//! What the search for a proof of a function finds: logs that prove it, or a trail, which says why
//! there are none.
//!
//! `specs/Proofs.antt` defines proofs by a bare Leaf and logs, `specs/Trails.antt` trails,
//! `specs/Written.antt` the certificate of what is proved. Of the crate only the types run.
#![tactic(auto)]

use discharge_spec::GoalQuantity;
use sim_rules_spec::Side;

/// A quantity that has a maximum, and of what it is one.
#[derive(Clone, Copy)]
pub enum Measure {
    /// the visits of the walk of a side from the function's entry
    Visits(Side),
    /// a quantity of the obligation of this number, counted from 0
    Obligation(usize, GoalQuantity),
}
