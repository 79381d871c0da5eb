ghost use Rattle.std.specs.Prelude.{◌≡◌, ◌≤◌, ◌<◌, ◌+◌, ℕ, true, List, Some, IfOk, OnErr};
ghost use Rattle.std.specs.Prelude.{IsErrOf, length, map};
ghost use Rattle.c_types_spec.specs.HasType.{IsTypedUnit};
ghost use Rattle.c_graph_spec.specs.Sizes.{UnitSizes};
ghost use Rattle.c_types.specs.Typed.{typed_of};
ghost use Rattle.pair_setup_calls.specs.Names.{names_of, texts_of};
ghost use Rattle.pair_setup.specs.Answers.{IsNamed, IsPairError, pairs_of};
ghost use Rattle.report_text.specs.Judgements.{judgement_of, judgements_of};
ghost use Rattle.report_text.specs.Verdicts.{verdict_of};
ghost use Rattle.attempt.specs.declared.refusal.Refusal.TheVariants.{NoMemory};
ghost use Rattle.tv_limits.specs.declared.TheConstants.{
  MAX_CERTIFICATE_BYTES as CERTIFICATE_BYTES,
};
ghost use Rattle.cert_run.specs.Sides.{IsRead};
ghost use Rattle.cert_run.specs.Runs.{CanRun};
ghost use Rattle.tv_core_spec.specs.Verdicts as spec;
ghost use Rattle.tv_words.specs.Jobs.{job_of};
ghost use Rattle.tv_core.specs.Files.{AreOf, BeginsFile, KeepsDesk};
ghost use Rattle.tv_core.specs.Decisions.{decision_of, trails_of};
ghost use Rattle.tv_core.specs.Listed.{AnswersPaired, IsCertificateDecision};
ghost use Rattle.tv_core.specs.Listed.{IsCertificateVerdict, IsOfOutcome, IsRefusal};
ghost use Rattle.tv_core.specs.Listed.{JudgesList, Shows, decided, decided_by, judged};
ghost use Rattle.tv_core.specs.Listed.{judgement_on};
ghost use Rattle.tv_core.specs.Functions.{IsListed};

use crate::decision::{Decision, from_memory, plain, plain_from_memory};
use crate::files::read_file;
use attempt::{Refusal, attempt};
use c_types::typed::Typed;
use cert_run::{Outcome, Search, check, prove};
use code_reach::code;
use elf_read::Image;
use pair_setup::{Function, Named, PairFault, Pairs, pair};
use pair_setup_calls::name_at;
use prove_run::Trails;
use report_text::{Judgement, Shown, Verdict};
use std::alloc::{AllocError, Global};
use tv_base::{Bytes, Desk, Notes, OutsideFault};
use tv_limits::{MAX_CERTIFICATE_BYTES, MAX_FUNCTIONS, Quantity};
use tv_words::Job;

/// The judgement on a function.
fn judgement(
    alloc: Global,
    name: &[u8],
    valid: bool,
    function: &Function,
) -> Result<Judgement, AllocError>
    ensures { IfOk result (λ made. judgement_of made ≡ judgement_on name.now valid function.now) }
{
    let name = attempt!(Bytes::copied(alloc, name));
    if valid {
        let stack = function.stack;
        return Ok(Judgement { name, valid, stack });
    }
    let stack = 0;
    Ok(Judgement { name, valid, stack })
}

/// The judgements on the functions of a list, each of which is valid where it was found so.
fn judgements(
    alloc: Global,
    list: &[&[u8]],
    functions: &[Function],
    found: &[bool],
) -> Result<Vec<Judgement>, AllocError>
    requires many { length found.now ≡ length list.now }
    requires enough { length list.now ≤ length functions.now }
    ensures { IfOk result (λ made. judgements_of made.items
        ≡ judged (texts_of list.now) functions.now found.now) }
{
    let mut made = Vec::new(alloc);
    'names: for i in 0..list.len() {
        let judgement = attempt!(judgement(alloc, list[i], found[i], &functions[i]));
        made.push(judgement)?;
    }
    Ok(made)
}

/// What a search of the functions of a list decides, where the certificate is within its maximum.
fn judge_searched(
    alloc: Global,
    list: &[&[u8]],
    functions: &[Function],
    valid: &[bool],
    certificate: Vec<u8>,
    trails: Trails,
) -> Result<Decision, AllocError>
    requires many { length valid.now ≡ length list.now }
    requires enough { length list.now ≤ length functions.now }
    ensures { IfOk result (λ decision. decision_of decision ≡ decided (judged
        (texts_of list.now) functions.now valid.now) (Some certificate.items) (trails_of trails)) }
{
    match judgements(alloc, list, functions, valid) {
        Ok(judgements) => Ok(Decision {
            verdict: Verdict::Judged(judgements),
            certificate: Some(certificate),
            trails,
        }),
        Err(error) => Err(error),
    }
}

/// What a search of the functions of a list decides.
fn decide(
    alloc: Global,
    list: &[&[u8]],
    functions: &[Function],
    search: Search,
) -> Result<Decision, AllocError>
    requires many { length search.valid.items ≡ length list.now }
    requires enough { length list.now ≤ length functions.now }
    ensures { IfOk result (λ decision. decision_of decision ≡ decided_by (texts_of list.now)
        functions.now search) }
{
    let Search {
        valid,
        certificate,
        trails,
    } = search;
    match certificate {
        Some(text) => judge_searched(alloc, list, functions, valid.as_slice(), text, trails),
        None => Ok(Decision {
            verdict: Verdict::TooLarge(Quantity::Certificate),
            certificate: None,
            trails,
        }),
    }
}

/// The judgements that all functions of a list are valid.
fn all_valid(
    alloc: Global,
    list: &[&[u8]],
    functions: &[Function],
) -> Result<Vec<Judgement>, AllocError>
    requires { length list.now ≤ length functions.now }
    ensures { IfOk result (λ made. judgements_of made.items
        ≡ judged (texts_of list.now) functions.now (map (λ f. true) functions.now)) }
{
    let mut made = Vec::new(alloc);
    'names: for i in 0..list.len() {
        let judgement = attempt!(judgement(alloc, list[i], true, &functions[i]));
        made.push(judgement)?;
    }
    Ok(made)
}

/// The verdict of an outcome of a certificate.
fn certificate_verdict(
    alloc: Global,
    list: &[&[u8]],
    functions: &[Function],
    outcome: Outcome,
) -> Result<Verdict, AllocError>
    requires { length list.now ≤ length functions.now }
    ensures { IfOk result (IsOfOutcome (texts_of list.now) functions.now outcome) }
{
    match outcome {
        Outcome::Unread(offset) => Ok(Verdict::RefusedCertificate { offset }),
        Outcome::Broken {
            function,
            offset,
            rule,
        } => Ok(Verdict::NotProof {
            name: function,
            offset,
            rule,
        }),
        Outcome::Above(quantity) => Ok(Verdict::TooLarge(quantity)),
        Outcome::Proof => {
            let judgements = attempt!(all_valid(alloc, list, functions));
            Ok(Verdict::Checked(judgements))
        }
    }
}

/// The verdict on the bytes that were read of a certificate.
fn check_bytes(
    alloc: Global,
    image: &Image<'_>,
    unit: &Typed<'_>,
    list: &[&[u8]],
    pairs: &Pairs,
    certificate: &[u8],
) -> Result<Verdict, AllocError>
    requires { CanRun image.now (typed_of unit.now) (texts_of list.now) pairs.now }
    ensures { IfOk result (λ verdict. IsCertificateVerdict image.now (typed_of unit.now)
        (pairs_of (texts_of list.now) pairs.now) certificate.now (verdict_of verdict)) }
{
    if certificate.len() > MAX_CERTIFICATE_BYTES {
        return Ok(Verdict::TooLarge(Quantity::Certificate));
    }
    let outcome = attempt!(check(alloc, image, unit, list, pairs, certificate));
    certificate_verdict(alloc, list, pairs.functions.as_slice(), outcome)
}

/// The verdict of `check`, which reads the certificate.
fn check_all<D: Desk>(
    alloc: Global,
    image: &Image<'_>,
    unit: &Typed<'_>,
    list: &[&[u8]],
    pairs: &Pairs,
    name: &str,
    desk: &mut D,
) -> Result<Decision, Refusal<OutsideFault>>
    requires { CanRun image.now (typed_of unit.now) (texts_of list.now) pairs.now }
    ensures judged { IfOk result
        (λ decision. (bytes : List ℕ) × AreOf (D.state desk.old).files name.now
        CERTIFICATE_BYTES bytes × IsCertificateDecision image.now (typed_of unit.now)
        (pairs_of (texts_of list.now) pairs.now) bytes (decision_of decision)) }
    ensures begins { BeginsFile name.now CERTIFICATE_BYTES (D.state desk.old) (D.state desk.new) }
    ensures kept { KeepsDesk (D.state desk.old) (D.state desk.new) result }
{
    match read_file(alloc, desk, name, MAX_CERTIFICATE_BYTES) {
        Ok(bytes) => plain_from_memory(
            alloc,
            check_bytes(alloc, image, unit, list, pairs, bytes.as_slice()),
        ),
        Err(fault) => Err(fault),
    }
}

/// What is shown of the function of a name: its code, and the numbers of its source.
fn show_function(
    alloc: Global,
    image: &Image<'_>,
    unit: &Typed<'_>,
    name: &[u8],
    function: &Function,
) -> Result<Verdict, AllocError>
    requires { IsListed image.now (typed_of unit.now) name.now function.now }
    ensures { IfOk result (λ verdict. Shows image.now (typed_of unit.now) name.now
        (verdict_of verdict)) }
{
    let words = match code(alloc, image, function.entry) {
        Ok(words) => words,
        Err(Refusal::Fault(_)) => unreachable!(),
        Err(Refusal::NoMemory) => return Err(AllocError),
    };
    let counts = unit.counts(name).unwrap();
    let name = attempt!(Bytes::copied(alloc, name));
    Ok(Verdict::Showed(Shown {
        name,
        entry: function.entry,
        size: function.size,
        stack: function.stack,
        words,
        params: counts.params,
        loops: counts.loops,
        calls: counts.calls,
    }))
}

/// The verdict on the functions of a list, which have pairs.
fn judge_paired<D: Desk, N: Notes>(
    alloc: Global,
    image: &Image<'_>,
    unit: &Typed<'_>,
    job: &Job<'_>,
    list: &[&[u8]],
    pairs: &Pairs,
    desk: &mut D,
    notes: &mut N,
) -> Result<Decision, Refusal<OutsideFault>>
    requires run { CanRun image.now (typed_of unit.now) (texts_of list.now) pairs.now }
    requires some { 0 < length list.now }
    ensures { AnswersPaired image.now (typed_of unit.now) (job_of job.now) (texts_of list.now)
        (pairs_of (texts_of list.now) pairs.now) (D.state desk.old) (D.state desk.new) result }
{
    match job {
        Job::Prove(_) => match prove(alloc, image, unit, list, pairs, notes) {
            Ok(search) => from_memory(decide(alloc, list, pairs.functions.as_slice(), search)),
            Err(_) => Err(Refusal::NoMemory),
        },
        Job::Check(job) => check_all(alloc, image, unit, list, pairs, job.certificate, desk),
        Job::Show(_) => plain_from_memory(
            alloc,
            show_function(alloc, image, unit, list[0], &pairs.functions[0]),
        ),
    }
}

/// The name of which a fault of a list speaks.
fn name_of(
    alloc: Global,
    unit: &Typed<'_>,
    list: &[&[u8]],
    named: Named,
) -> Result<Bytes, AllocError>
    requires { (name : List ℕ) × IsNamed (names_of unit.now) (texts_of list.now) named name }
    ensures { IfOk result (λ name. IsNamed (names_of unit.now) (texts_of list.now) named name) }
{
    match named {
        Named::Nothing => Bytes::copied(alloc, b"-"),
        Named::Listed(index) => Bytes::copied(alloc, list[index]),
        Named::Declared(number) => Bytes::copied(alloc, name_at(unit, number).unwrap()),
    }
}

/// The verdict where a list has no pairs.
fn refused(
    alloc: Global,
    image: &Image<'_>,
    unit: &Typed<'_>,
    list: &[&[u8]],
    error: Refusal<PairFault>,
) -> Result<Verdict, AllocError>
    requires { IsPairError image.now (typed_of unit.now) (names_of unit.now) (texts_of list.now)
        error }
    ensures { IfOk result (λ verdict. IsRefusal image.now (typed_of unit.now) (texts_of list.now)
        (verdict_of verdict)) }
{
    match error {
        Refusal::Fault(PairFault::Refused(kind, named)) => {
            let name = attempt!(name_of(alloc, unit, list, named));
            Ok(Verdict::RefusedPair { kind, name })
        }
        Refusal::Fault(PairFault::Code(fault, index)) => {
            let name = attempt!(Bytes::copied(alloc, list[index]));
            Ok(Verdict::RefusedCode {
                kind: fault.kind,
                name,
                address: fault.address,
            })
        }
        Refusal::Fault(PairFault::Nodes) => Ok(Verdict::TooLarge(Quantity::Nodes)),
        Refusal::NoMemory => Err(AllocError),
    }
}

/// The verdict on a list within its limit.
fn judge_list<D: Desk, N: Notes>(
    alloc: Global,
    image: &Image<'_>,
    unit: &Typed<'_>,
    job: &Job<'_>,
    list: &[&[u8]],
    desk: &mut D,
    notes: &mut N,
) -> Result<Decision, Refusal<OutsideFault>>
    requires read { IsRead image.now }
    requires typed { IsTypedUnit (typed_of unit.now) }
    requires sizes { UnitSizes (typed_of unit.now) }
    requires few { length (texts_of list.now) ≤ MAX_FUNCTIONS }
    ensures { JudgesList image.now (typed_of unit.now) (job_of job.now) (texts_of list.now)
        (D.state desk.old) (D.state desk.new) result }
{
    match pair(alloc, image, unit, list) {
        Ok(pairs) => judge_paired(alloc, image, unit, job, list, &pairs, desk, notes),
        Err(error) => plain_from_memory(alloc, refused(alloc, image, unit, list, error)),
    }
}

/// The names of a list.
fn texts<'n>(alloc: Global, names: &'n [Bytes]) -> Result<Vec<&'n [u8]>, AllocError>
    ensures { IfOk result (λ texts. texts_of texts.items ≡ names.now) }
{
    let mut texts = Vec::new(alloc);
    for name in names {
        texts.push(name.as_slice())?;
    }
    Ok(texts)
}

/// The verdict on an image, a unit and the names that a job lists.
pub(crate) fn judge_names<D: Desk, N: Notes>(
    alloc: Global,
    image: &Image<'_>,
    unit: &Typed<'_>,
    job: &Job<'_>,
    names: &[Bytes],
    desk: &mut D,
    notes: &mut N,
) -> Result<Decision, Refusal<OutsideFault>>
    requires read { IsRead image.now }
    requires typed { IsTypedUnit (typed_of unit.now) }
    requires sizes { UnitSizes (typed_of unit.now) }
    ensures { JudgesList image.now (typed_of unit.now) (job_of job.now) names.now (D.state desk.old)
        (D.state desk.new) result }
{
    if names.len() > MAX_FUNCTIONS {
        return Ok(plain(alloc, Verdict::TooLarge(Quantity::Functions)));
    }
    let list = attempt!(texts(alloc, names), Refusal::NoMemory);
    judge_list(alloc, image, unit, job, list.as_slice(), desk, notes)
}
