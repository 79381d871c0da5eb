//! The visits of a side's walk, with their conditions and states, and several of them as one.

ghost use Rattle.std.specs.Prelude.{◌<◌, ◌≤◌, length, IfOk};
ghost use Rattle.std.specs.List.{All};
ghost use Rattle.term_bank.specs.Nodes.{Extends};
ghost use Rattle.term_substitution.specs.States.{IsAt, IsFound};
ghost use Rattle.sim_rules_spec.specs.Sides as sides;
ghost use Rattle.sim_rules_terms.specs.Ways.{IsPart, IsPartOf, IsSight, condition_by};
ghost use Rattle.sim_rules_terms.specs.Which.{test_of};

use crate::lines::Known;
use crate::which::{Which, find_members};
use graph_core_spec::Mark;
use path_cond::{Conditions, several, state_map};
use std::alloc::{AllocError, Global};
use term_bank::{Bank, TermId};
use visit_walk::Visits;

/// The visits of a side's walk, with their conditions and states in a bank.
#[derive(Clone, Copy)]
pub struct Sight<'a> {
    /// The stops of the walk.
    pub stops: &'a [Mark],
    /// The terms of the side's variables where it starts.
    pub terms: &'a Known,
    /// The visits.
    pub visits: &'a Visits,
    /// Their conditions and states.
    pub found: &'a Conditions,
}

/// Several visits as one.
#[derive(Drop)]
pub struct Part {
    /// Whether there is one.
    pub any: bool,
    /// Under which condition a run comes to one of them.
    pub condition: TermId,
    /// The terms of the side's variables there.
    pub terms: Known,
}

impl<'a> Sight<'a> {
    // The visits at some positions as one.
    fn part_at(&self, alloc: Global, members: &[usize], bank: &mut Bank) -> Result<Part, AllocError>
        requires sight { (w : sides.Way) × IsSight bank.old w self.now }
        requires members { All (λ m. m < length self.now.visits.now.visits) members.now }
        ensures part { (w : sides.Way) → IsSight bank.old w self.now
            → IfOk result (IsPartOf bank.new w self.now.visits.now.visits members.now) }
        ensures extends { Extends bank.old bank.new }
        ensures longer { length bank.old ≤ length bank.new }
    {
        let (condition, ids) = several(alloc, bank, self.found, members)?;
        let terms = state_map(self.found, self.terms, &ids)?;
        Ok(Part {
            any: members.len() > 0,
            condition,
            terms,
        })
    }

    /// The visits asked for as one. Out of memory, the bank may have some more terms.
    pub fn part(&self, alloc: Global, which: Which, bank: &mut Bank) -> Result<Part, AllocError>
        requires { (w : sides.Way) × IsSight bank.old w self.now }
        ensures part { (w : sides.Way) → IsSight bank.old w self.now
            → IfOk result (IsPart bank.new w self.now.visits.now.visits
            (test_of w.walk.stops which)) }
        ensures extends { Extends bank.old bank.new }
        ensures longer { length bank.old ≤ length bank.new }
    {
        let mut members = Vec::new(alloc);
        find_members(&mut members, which, self.visits, self.stops)?;
        self.part_at(alloc, members.as_slice(), bank)
    }

    // The condition of the visits at some positions.
    fn condition_at(
        &self,
        alloc: Global,
        members: &[usize],
        bank: &mut Bank,
    ) -> Result<TermId, AllocError>
        requires sight { (w : sides.Way) × IsSight bank.old w self.now }
        requires members { All (λ m. m < length self.now.visits.now.visits) members.now }
        ensures tree { (w : sides.Way) → IsSight bank.old w self.now → IsAt bank.new result
            (condition_by w self.now.visits.now.visits members.now) }
        ensures within { IsFound bank.new result }
        ensures extends { Extends bank.old bank.new }
        ensures longer { length bank.old ≤ length bank.new }
    {
        let (condition, _) = several(alloc, bank, self.found, members)?;
        Ok(condition)
    }

    /// The condition of the visits asked for. Out of memory, the bank may have some more terms.
    pub fn condition(
        &self,
        alloc: Global,
        which: Which,
        bank: &mut Bank,
    ) -> Result<TermId, AllocError>
        requires { (w : sides.Way) × IsSight bank.old w self.now }
        ensures tree { (w : sides.Way) → IsSight bank.old w self.now → IsAt bank.new result
            (sides.condition_where w self.now.visits.now.visits (test_of w.walk.stops which)) }
        ensures within { IsFound bank.new result }
        ensures extends { Extends bank.old bank.new }
        ensures longer { length bank.old ≤ length bank.new }
    {
        let mut members = Vec::new(alloc);
        find_members(&mut members, which, self.visits, self.stops)?;
        self.condition_at(alloc, members.as_slice(), bank)
    }
}
