//! Logs as their checker sees them.

ghost use Rattle.std.specs.Prelude.{◌≡◌, ◌<◌, ◌≤◌, length, List};
ghost use Rattle.clause_check_spec.specs.Log.{Step as step};
ghost use Rattle.discharge.specs.Answers.{TakesFirst};

use attempt::Refusal;
use clause_check::{Log, StepFault};
use cnf_core::MAX_VARIABLE;
use sat_search_analysis::Step;
use std::alloc::Global;

/// The steps of a log that are left, wherever their literals and hints lie.
pub trait Steps {
    // The steps, in order.
    ghost left: { Self → List step };

    /// How many there are.
    fn count(&self) -> usize
        ensures { result ≡ length (left self.now) };

    /// Takes the first step, and adds it to a checker if it follows.
    fn add_first(&mut self, alloc: Global, checker: &mut Log) -> Result<(), Refusal<StepFault>>
        requires some { 0 < length (left self.old) }
        requires variables { checker.old.cnf.variables ≤ MAX_VARIABLE }
        ensures { TakesFirst (left self.old) (left self.new) checker.old checker.new result };
}

/// The steps of a list.
#[derive(Drop)]
pub struct Listing<'a> {
    /// The steps that are left.
    pub steps: &'a [Step],
}

impl<'a> Steps for Listing<'a> {
    ghost left = { λ listing. listing.steps.now };

    fn count(&self) -> usize {
        self.steps.len()
    }

    fn add_first(&mut self, _: Global, checker: &mut Log) -> Result<(), Refusal<StepFault>> {
        match self.steps.split_first() {
            Some((step, left)) => {
                self.steps = left;
                checker.step(step.literals(), step.hints())
            }
            None => unreachable!(),
        }
    }
}
