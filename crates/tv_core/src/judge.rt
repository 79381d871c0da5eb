ghost use Rattle.std.specs.Prelude.{ℕ, List, IfOk, OnErr, IsErrOf};
ghost use Rattle.elf_read_spec.specs.Image.{Image as elf_image};
ghost use Rattle.elf_read_spec.specs.File.{IsElf};
ghost use Rattle.elf_read.specs.Refusal as file;
ghost use Rattle.attempt.specs.declared.refusal.Refusal.TheVariants.{NoMemory};
ghost use Rattle.report_text.specs.Verdicts.{verdict_of};
ghost use Rattle.tv_words.specs.Jobs.{job_of};
ghost use Rattle.tv_core.specs.Decisions.{decision_of};
ghost use Rattle.tv_core_spec.specs.Decisions.{plain};
ghost use Rattle.tv_core_spec.specs.Listing.{Task};
ghost use Rattle.tv_core_spec.specs.Verdicts.{Judges, IsSound};
ghost use Rattle.c_types_spec.specs.HasType.{IsTypedUnit};
ghost use Rattle.c_types.specs.Typed.{typed_of};
ghost use Rattle.validity_spec.specs.Source.{IsC};
ghost use Rattle.c_graph_spec.specs.Sizes.{UnitSizes};
ghost use Rattle.cert_run.specs.Sides.{IsRead};
ghost use Rattle.tv_core.specs.Cores.{IsRefused};
ghost use Rattle.tv_core.specs.Files.{JudgesBy, JudgesWith, KeepsDesk, ReadsCertificate};

use crate::decision::{Decision, plainly};
use crate::functions::judge_names;
use crate::listing::names;
use crate::source::{SourceFault, core_of, token_fault};
use attempt::{Refusal, attempt};
use c_token::tokens;
use c_types::typed::Typed;
use c_types_laws::laws::{cores_have_small_sizes, cores_of_units_are_typed};
use cert_run::image_is_read;
use elf_read::{ElfFault, Image};
use report_text::Verdict;
use std::alloc::Global;
use tv_base::{Desk, Notes, OutsideFault};
use tv_words::Job;

/// The verdict on an executable and a source within their limits. It fails only out of memory.
pub(crate) fn judge<D: Desk, N: Notes>(
    alloc: Global,
    elf: &[u8],
    source: &[u8],
    job: &Job<'_>,
    desk: &mut D,
    notes: &mut N,
) -> Result<Decision, Refusal<OutsideFault>>
    ensures judged { IfOk result (λ decision. JudgesWith (D.state desk.old).files elf.now source.now
        (job_of job.now) (decision_of decision)) }
    ensures reads { ReadsCertificate elf.now source.now (job_of job.now) (D.state desk.old)
        (D.state desk.new) }
    ensures kept { KeepsDesk (D.state desk.old) (D.state desk.new) result }
{
    match elf_read::read(alloc, elf) {
        Ok(image) => {
            // a law, of which nothing runs
            image_is_read(elf, &image);
            judge_source(alloc, &image, source, job, desk, notes)
        }
        Err(error) => plainly(alloc, refused_elf(error)),
    }
}

/// The verdict on an image and a source.
fn judge_source<D: Desk, N: Notes>(
    alloc: Global,
    image: &Image<'_>,
    source: &[u8],
    job: &Job<'_>,
    desk: &mut D,
    notes: &mut N,
) -> Result<Decision, Refusal<OutsideFault>>
    requires { IsRead image.now }
    ensures { JudgesBy image.now source.now (job_of job.now) (D.state desk.old) (D.state desk.new)
        result }
{
    // laws, of which nothing runs
    cores_of_units_are_typed();
    cores_have_small_sizes();
    match tokens(alloc, source) {
        Ok(lexed) => match core_of(alloc, source, lexed.as_slice()) {
            Ok(unit) => {
                let judged = judge_unit(alloc, image, &unit, job, desk, notes);
                drop(unit);
                judged
            }
            Err(error) => plainly(alloc, refused_source(error)),
        },
        Err(error) => plainly(alloc, refused_source(token_fault(error))),
    }
}

/// The verdict on an image and a source of this typed core.
fn judge_unit<D: Desk, N: Notes>(
    alloc: Global,
    image: &Image<'_>,
    unit: &Typed<'_>,
    job: &Job<'_>,
    desk: &mut D,
    notes: &mut N,
) -> Result<Decision, Refusal<OutsideFault>>
    requires read { IsRead image.now }
    requires typed { IsTypedUnit (typed_of unit.now) }
    requires sizes { UnitSizes (typed_of unit.now) }
    ensures { (c : List ℕ) → IsC c (typed_of unit.now) → JudgesBy image.now c (job_of job.now)
        (D.state desk.old) (D.state desk.new) result }
{
    let names = attempt!(names(alloc, job, image, unit), Refusal::NoMemory);
    judge_names(alloc, image, unit, job, names.as_slice(), desk, notes)
}

/// The verdict where there is no image.
fn refused_elf(error: Refusal<ElfFault>) -> Result<Verdict, Refusal<OutsideFault>>
    ensures exact { (elf c : List ℕ) (task : Task) → file.IsRefusal elf error
        → IfOk result (λ verdict. Judges elf c task (plain (verdict_of verdict))) }
    ensures sound { (elf c : List ℕ) (task : Task)
        → IfOk result (λ verdict. IsSound elf c task (verdict_of verdict)) }
    ensures memory { OnErr result (IsErrOf result NoMemory) }
{
    match error {
        Refusal::Fault(fault) => Ok(Verdict::RefusedElf {
            kind: fault.kind,
            offset: fault.offset,
        }),
        Refusal::NoMemory => Err(Refusal::NoMemory),
    }
}

/// The verdict where there is an image and the source is refused.
fn refused_source(error: Refusal<SourceFault>) -> Result<Verdict, Refusal<OutsideFault>>
    ensures exact { (elf c : List ℕ) (task : Task) (image : elf_image)
        → IsElf elf image → IsRefused c error
        → IfOk result (λ verdict. Judges elf c task (plain (verdict_of verdict))) }
    ensures sound { (elf c : List ℕ) (task : Task)
        → IfOk result (λ verdict. IsSound elf c task (verdict_of verdict)) }
    ensures memory { OnErr result (IsErrOf result NoMemory) }
{
    match error {
        Refusal::Fault(fault) => Ok(Verdict::RefusedC {
            kind: fault.kind,
            offset: fault.offset,
        }),
        Refusal::NoMemory => Err(Refusal::NoMemory),
    }
}
