//! What the search finds of a function.

ghost use Rattle.std.specs.Prelude.{IfOk};
ghost use Rattle.sim_rules_spec.specs.Obligations as rule;
ghost use Rattle.cert_check_spec.specs.Verdict as spec;
ghost use Rattle.attempt.specs.declared.refusal.Refusal.TheVariants.{Fault};
ghost use Rattle.prove_run_spec.specs.Trails.{IsFound, IsTrail};
ghost use Rattle.sim_rules.specs.Outcome.{IsRuleFault};
ghost use Rattle.cert_check_frames.specs.Goals.{IsLeafFault};
ghost use Rattle.prove_run.specs.Found.{found_of, trail_of};

use attempt::Refusal;
use prove_run_spec::Measure;
use sat_search_analysis::Step;
use sim_rules::RuleFault;
use sim_rules_spec::Side;
use std::alloc::AllocError;
use term_core::Assignment;
use tv_limits::MAX_VISITS;

/// Why a function is unproved. Obligations are numbered from 0, in the order of a Leaf's.
#[derive(Drop)]
pub enum Trail {
    /// The walk of a side goes round at this node: a bare Leaf is no proof, and the rules for loops
    /// are not tried yet. The source is named where the binary's walk doesn't go round.
    Later(Side, usize),
    /// A quantity is above its maximum: it is at least so many.
    Large(Measure, usize),
    /// The obligation of this number is false under this assignment.
    Refuted(usize, Assignment),
    /// The search for a log of the obligation of this number has learnt as many clauses as it may:
    /// these.
    Spent(usize, Vec<Step>),
}

/// What the search finds of a function.
#[derive(Drop)]
pub enum Found {
    /// The logs of its obligations, in their order.
    Proved(Vec<Vec<Step>>),
    /// Why it is unproved.
    Unproved(Trail),
}

/// The trail of a function of which a Leaf has no obligations, for this fault.
fn reason(fault: RuleFault) -> Trail
    requires { IsLeafFault (Fault fault) }
    ensures { (f : spec.Listed) → IsRuleFault f.opening f.frame MAX_VISITS rule.Leaf (Fault fault)
        → IsTrail f (trail_of result) }
{
    match fault {
        RuleFault::Cyclic(side, node) => Trail::Later(side, node),
        RuleFault::Large(side, count) => Trail::Large(Measure::Visits(side), count),
        RuleFault::Sort(_) => unreachable!(),
    }
}

/// What is found of a function of which a Leaf has no obligations.
pub(crate) fn why(refusal: Refusal<RuleFault>) -> Result<Found, AllocError>
    requires { IsLeafFault refusal }
    ensures { (f : spec.Listed) → IsRuleFault f.opening f.frame MAX_VISITS rule.Leaf refusal
        → IfOk result (λ found. IsFound f (found_of found)) }
{
    match refusal {
        Refusal::Fault(fault) => Ok(Found::Unproved(reason(fault))),
        Refusal::NoMemory => Err(AllocError),
    }
}
