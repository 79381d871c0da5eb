//! What is expected inside a part: proofs of frames, and logs of obligations.

ghost use Rattle.std.specs.Prelude.{◌≡◌, ◌∷◌, [], ◌++◌, OnOk};
ghost use Rattle.cert_check_jobs.specs.Jobs.{logs_last, HasBranches, IsDraftOnTop, IsGoalOnTop};
ghost use Rattle.cert_check_jobs.specs.Jobs.{IsProofOnTop};

use crate::drafts::Reading;
use crate::extra::Extra;
use attempt::attempt;
use cert_check_frames::Branch;
use std::alloc::{AllocError, Global};
use term_bank::TermId;

/// What is expected: the last of a list comes first.
#[derive(Drop)]
pub enum Job {
    /// A proof of the frame at the entry with all that.
    Prove(Box<Extra>),
    /// A line of the relation of a cut.
    Relate(Reading),
    /// The log of an obligation.
    Close(TermId),
}

/// One more proof is expected, and comes first.
pub fn push_proof(jobs: &mut Vec<Job>, extra: Box<Extra>) -> Result<(), AllocError>
    ensures { OnOk result (jobs.new.items ≡ jobs.old.items ++ Job.Prove extra ∷ []) }
{
    attempt!(jobs.push(Job::Prove(extra)), AllocError);
    Ok(())
}

/// What the frame has whose proof comes first, which is taken.
pub fn take_proof(jobs: &mut Vec<Job>) -> Box<Extra>
    requires { IsProofOnTop jobs.old.items }
    ensures { jobs.old.items ≡ jobs.new.items ++ Job.Prove result ∷ [] }
{
    match jobs.pop() {
        Some(Job::Prove(extra)) => extra,
        Some(Job::Relate(_)) => unreachable!(),
        Some(Job::Close(_)) => unreachable!(),
        None => unreachable!(),
    }
}

/// The cut of which a line comes first, which is taken.
pub fn take_draft(jobs: &mut Vec<Job>) -> Reading
    requires { IsDraftOnTop jobs.old.items }
    ensures { jobs.old.items ≡ jobs.new.items ++ Job.Relate result ∷ [] }
{
    match jobs.pop() {
        Some(Job::Relate(reading)) => reading,
        Some(Job::Prove(_)) => unreachable!(),
        Some(Job::Close(_)) => unreachable!(),
        None => unreachable!(),
    }
}

/// The obligation whose log comes first, which is taken.
pub fn take_goal(jobs: &mut Vec<Job>) -> TermId
    requires { IsGoalOnTop jobs.old.items }
    ensures { jobs.old.items ≡ jobs.new.items ++ Job.Close result ∷ [] }
{
    match jobs.pop() {
        Some(Job::Close(goal)) => goal,
        Some(Job::Prove(_)) => unreachable!(),
        Some(Job::Relate(_)) => unreachable!(),
        None => unreachable!(),
    }
}

/// The two proofs after a Case: first the one where the test holds.
pub fn push_branches(
    alloc: Global,
    jobs: &mut Vec<Job>,
    extra: &Extra,
    test: TermId,
) -> Result<(), AllocError>
    ensures { OnOk result (HasBranches jobs.old.items jobs.new.items extra.now test) }
{
    let fails = attempt!(extra.with_premise(alloc, Branch { test, holds: false }));
    let holds = attempt!(extra.with_premise(alloc, Branch { test, holds: true }));
    attempt!(push_proof(jobs, fails));
    push_proof(jobs, holds)
}

/// The logs after a rule, in the order of its obligations.
pub fn push_goals(jobs: &mut Vec<Job>, goals: &[TermId]) -> Result<(), AllocError>
    ensures { OnOk result (jobs.new.items ≡ jobs.old.items ++ logs_last goals.now) }
{
    let count = goals.len();
    for index in 0..count {
        attempt!(jobs.push(Job::Close(goals[count - 1 - index])), AllocError);
    }
    Ok(())
}
