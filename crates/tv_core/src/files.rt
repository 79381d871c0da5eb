ghost use Rattle.std.specs.Prelude.{◌≡◌, ◌<◌, ◌^◌, IfOk};
ghost use Rattle.tv_limits.specs.declared.TheConstants.{MAX_ELF_BYTES as ELF_BYTES};
ghost use Rattle.tv_words.specs.Jobs.{job_of};
ghost use Rattle.tv_core.specs.Tasks.{asked_of};
ghost use Rattle.tv_core.specs.Decisions.{decision_of};
ghost use Rattle.tv_core.specs.Files.{KeepsDesk, AreOf, ReadsFile, JudgesFiles, ReadsFiles};
ghost use Rattle.tv_core.specs.Files.{ReadsSource};

use crate::decision::{Decision, plain};
use crate::judge::judge;
use attempt::Refusal;
use report_text::Verdict;
use std::alloc::Global;
use tv_base::{Desk, Notes, OutsideFault, read_up_to};
use tv_limits::{MAX_C_BYTES, MAX_ELF_BYTES, Quantity};
use tv_words::Job;

/// The name of the executable.
fn elf_name<'a>(job: &Job<'a>) -> &'a str
    ensures { result.now ≡ (asked_of (job_of job.now)).elf }
{
    match job {
        Job::Prove(job) => job.elf,
        Job::Check(job) => job.elf,
        Job::Show(job) => job.elf,
    }
}

/// The name of the C source.
fn source_name<'a>(job: &Job<'a>) -> &'a str
    ensures { result.now ≡ (asked_of (job_of job.now)).source }
{
    match job {
        Job::Prove(job) => job.source,
        Job::Check(job) => job.source,
        Job::Show(job) => job.source,
    }
}

/// The bytes of a file, or the first ones of it: one more than this number where it has more.
pub(crate) fn read_file<D: Desk>(
    alloc: Global,
    desk: &mut D,
    name: &str,
    maximum: usize,
) -> Result<Vec<u8>, Refusal<OutsideFault>>
    requires { maximum < 2 ^ 32 }
    ensures reads { ReadsFile name.now maximum (D.state desk.old) (D.state desk.new) result }
    ensures kept { KeepsDesk (D.state desk.old) (D.state desk.new) result }
{
    match desk.begin(name) {
        Ok(()) => read_up_to(alloc, desk, maximum + 1),
        Err(fault) => Err(fault),
    }
}

/// The verdict on the files of a job, of which the executable is read. It reads the source.
fn judge_with_elf<D: Desk, N: Notes>(
    alloc: Global,
    job: &Job<'_>,
    desk: &mut D,
    elf: &[u8],
    notes: &mut N,
) -> Result<Decision, Refusal<OutsideFault>>
    requires { AreOf (D.state desk.old).files (asked_of (job_of job.now)).elf ELF_BYTES elf.now }
    ensures judged { IfOk result (λ decision. JudgesFiles (D.state desk.old).files (job_of job.now)
        (decision_of decision)) }
    ensures reads { ReadsSource (job_of job.now) elf.now (D.state desk.old) (D.state desk.new) }
    ensures kept { KeepsDesk (D.state desk.old) (D.state desk.new) result }
{
    if elf.len() > MAX_ELF_BYTES {
        return Ok(plain(alloc, Verdict::TooLarge(Quantity::Elf)));
    }
    match read_file(alloc, desk, source_name(job), MAX_C_BYTES) {
        Ok(source) => {
            if source.len() > MAX_C_BYTES {
                return Ok(plain(alloc, Verdict::TooLarge(Quantity::C)));
            }
            judge(alloc, elf, source.as_slice(), job, desk, notes)
        }
        Err(fault) => Err(fault),
    }
}

/// The verdict on the files of a job, which it reads.
pub(crate) fn judge_files<D: Desk, N: Notes>(
    alloc: Global,
    job: &Job<'_>,
    desk: &mut D,
    notes: &mut N,
) -> Result<Decision, Refusal<OutsideFault>>
    ensures judged { IfOk result (λ decision. JudgesFiles (D.state desk.old).files (job_of job.now)
        (decision_of decision)) }
    ensures reads { ReadsFiles (job_of job.now) (D.state desk.old) (D.state desk.new) }
    ensures kept { KeepsDesk (D.state desk.old) (D.state desk.new) result }
{
    match read_file(alloc, desk, elf_name(job), MAX_ELF_BYTES) {
        Ok(elf) => judge_with_elf(alloc, job, desk, elf.as_slice(), notes),
        Err(fault) => Err(fault),
    }
}
