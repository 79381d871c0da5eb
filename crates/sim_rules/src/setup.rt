//! What the rules of a proof are applied to.

use proof_tree::Frame;
use sim_rules_terms::{Convention, Opening};

/// A frame, with what its obligations speak of.
#[derive(Clone, Copy)]
pub struct Setup<'a> {
    /// The frame.
    pub frame: &'a Frame<'a>,
    /// What holds where both sides have returned, and where their memories may differ.
    pub convention: &'a Convention<'a>,
    /// The terms of both sides' variables where the frame starts.
    pub opening: Opening<'a>,
    /// How many visits a walk may have.
    pub maximum: usize,
}
