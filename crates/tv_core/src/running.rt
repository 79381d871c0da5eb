ghost use Rattle.std.specs.Prelude.{◌≡◌, ℕ, List, IfOk, OnErr, map};
ghost use Rattle.std.specs.Prelude.{option_map, string_bytes};
ghost use Rattle.tv_words.specs.Jobs.{job_of};
ghost use Rattle.report_text_spec.specs.Verdict.{status_of};
ghost use Rattle.tv_core.specs.Decisions.{decision_of, trails_of};
ghost use Rattle.tv_core.specs.Objects.{state_of, outputs_of};
ghost use Rattle.tv_core.specs.Ends.{AskFor, Ends, Publishes, RunsTo};
ghost use Rattle.tv_core.specs.Tasks.{asked_of};

use crate::decision::{Decision, plain};
use crate::files::judge_files;
use crate::publish::publish;
use attempt::Refusal;
use prove_run::Trails;
use report_text::{Verdict, status};
use std::alloc::{AllocError, Global};
use tv_base::{Desk, Notes, OutsideFault, Sink, Store};
use tv_core_spec::{one_verdict, proved_is_checked, unproved_is_missing};
use tv_words::{Job, WordsFault, command};

/// What the words ask for, or `None` where they are no command.
fn asked(alloc: Global, words: &[String]) -> Result<Option<Job<'_>>, AllocError>
    ensures { IfOk result (λ job. AskFor (map string_bytes words.now) (option_map job_of job)) }
{
    match command(alloc, words) {
        Ok(job) => Ok(Some(job)),
        Err(Refusal::Fault(WordsFault::Words)) => Ok(None),
        Err(Refusal::NoMemory) => Err(AllocError),
    }
}

/// The name of the certificate that is asked for; without one the empty name.
fn name_of<'a>(job: &Job<'a>) -> &'a str
    ensures { result.now ≡ (asked_of (job_of job.now)).certificate }
{
    match job {
        Job::Prove(job) => job.certificate,
        Job::Check(_) => "",
        Job::Show(_) => "",
    }
}

/// Gives the certificate and the report of what is decided, and then the trails, and answers the
/// status.
fn give<R: Sink, K: Store>(
    alloc: Global,
    name: &str,
    decision: Decision,
    report: &mut R,
    certificate: &mut K,
    trails: &mut Trails,
) -> Result<u8, Refusal<OutsideFault>>
    ensures published { Publishes name.now (decision_of decision) (outputs_of (R.state report.old)
        (K.state certificate.old)) (outputs_of (R.state report.new) (K.state certificate.new))
        result }
    ensures status { IfOk result (λ code. (code ≡ status_of (decision_of decision).verdict)
        × (trails_of trails.new ≡ (decision_of decision).trails)) }
    ensures kept { OnErr result (trails_of trails.new ≡ trails_of trails.old) }
{
    match publish(alloc, name, &decision, report, certificate) {
        Ok(()) => {
            let code = status(&decision.verdict);
            *trails = decision.trails;
            Ok(code)
        }
        Err(fault) => Err(fault),
    }
}

/// A run on a job, or on words that are no command, up to its status, or to what cut it off.
fn run_job<D: Desk, R: Sink, K: Store, N: Notes>(
    alloc: Global,
    job: &Option<Job<'_>>,
    desk: &mut D,
    report: &mut R,
    certificate: &mut K,
    trails: &mut Trails,
    notes: &mut N,
) -> Result<u8, Refusal<OutsideFault>>
    ensures { (words : List (List ℕ)) → AskFor words (option_map job_of job.now)
        → RunsTo words (state_of (D.state desk.old) (R.state report.old) (K.state certificate.old))
        (state_of (D.state desk.new) (R.state report.new) (K.state certificate.new))
        (trails_of trails.old) (trails_of trails.new) result }
{
    match job {
        Some(job) => match judge_files(alloc, job, desk, notes) {
            Ok(decision) => give(alloc, name_of(job), decision, report, certificate, trails),
            Err(fault) => Err(fault),
        },
        None => {
            let decision = plain(alloc, Verdict::RefusedWords);
            give(alloc, "", decision, report, certificate, trails)
        }
    }
}

/// A run of the program on these words: it reads the two files that they name from `desk`, judges
/// the listed functions, writes the certificate of the valid ones to `certificate` under the name
/// that the words give, and then its report to `report`; or it reads a third file, a certificate of
/// the listed functions, and reports whether it is a proof (`check`); or it reports the code of one
/// function (`show`). The last two write no certificate. At status 0 and 1 `trails` has the
/// unproved functions in the order of the list, each with why no proof of it was found; where the
/// certificate is longer than its maximum (status 7) it has that certificate; at every other end it
/// is empty. While it works `notes` is told which function is in work and what was tried; a note
/// has no answer, so that its faults change nothing. The answer is the exit status:
///
/// | Status | Meaning |
/// |---|---|
/// | 0 | all listed functions are valid, or the code of one is reported |
/// | 1 | some are unproved |
/// | 2 | the words are no command |
/// | 3 | an input is refused |
/// | 4 | a read or a write failed |
/// | 5 | out of memory |
/// | 6 | the certificate is none, or no proof |
/// | 7 | a file or a certificate is too long, the list too large, or a graph |
///
/// The order of refusals is: the words; reading the executable, then its length; reading the
/// source, then its length; the executable; the source: its tokens, its grammar, its types; the
/// length of the list; for each function in its turn the names that it needs, then for each its
/// code, then for each cycles and the depth of the stack; the nodes of graphs; reading the
/// certificate, then its length; its grammar; its lines. Memory may run out at any growth.
///
/// The contract is [`Ends`](../specs/Ends.antt): its field `valid` is the validity theorem, and
/// the others give the cause of every status and what was written.
pub fn run<D: Desk, R: Sink, K: Store, N: Notes>(
    alloc: Global,
    words: &[String],
    desk: &mut D,
    report: &mut R,
    certificate: &mut K,
    trails: &mut Trails,
    notes: &mut N,
) -> u8
    ensures { Ends (map string_bytes words.now) (state_of (D.state desk.old) (R.state report.old)
        (K.state certificate.old)) (state_of (D.state desk.new) (R.state report.new)
        (K.state certificate.new)) (trails_of trails.new) result }
{
    // laws, of which nothing runs
    one_verdict();
    proved_is_checked();
    unproved_is_missing();
    *trails = Trails::new(alloc);
    match asked(alloc, words) {
        Ok(job) => match run_job(alloc, &job, desk, report, certificate, trails, notes) {
            Ok(code) => code,
            Err(Refusal::Fault(OutsideFault::Failed)) => 4,
            Err(Refusal::NoMemory) => 5,
        },
        Err(_) => 5,
    }
}
