//! The verdict on a certificate.

ghost use Rattle.std.specs.Prelude.{◌≡◌, IfOk};
ghost use Rattle.cert_text.specs.Certificates.{certificate_of};
ghost use Rattle.cert_text.specs.Laws.{AreLines};
ghost use Rattle.cert_run_spec.specs.Verdict as spec;
ghost use Rattle.cert_run.specs.Outcomes.{IsFaultOf, IsOutcomeOf, IsOutcomeOn, IsUnreadOf};
ghost use Rattle.cert_run.specs.Outcomes.{outcome_of};

use attempt::{Refusal, attempt};
use cert_check::{CheckFault, check, name};
use cert_check_frames::Listed;
use cert_check_spec::RuleWord;
use cert_text::{Cert, ReadFault, read};
use std::alloc::{AllocError, Global};
use tv_base::Bytes;
use tv_limits::Quantity;

/// The verdict on the bytes of a certificate.
#[derive(Drop)]
pub enum Outcome {
    /// They are no certificate: their longest prefix that begins one has this length.
    Unread(usize),
    /// A line breaks a rule.
    Broken {
        /// the name of the function in whose part it is
        function: Bytes,
        /// where the line begins, in bytes
        offset: usize,
        /// the rule
        rule: RuleWord,
    },
    /// A quantity is above its maximum.
    Above(Quantity),
    /// The certificate is a proof of the listed functions.
    Proof,
}

// A line breaks a rule in the part of the function of this name.
fn broken(alloc: Global, name: &[u8], offset: usize, rule: RuleWord) -> Result<Outcome, AllocError>
    ensures { IfOk result (λ o. outcome_of o ≡ spec.Broken name.now offset rule) }
{
    let function = attempt!(Bytes::copied(alloc, name));
    Ok(Outcome::Broken {
        function,
        offset,
        rule,
    })
}

// The verdict where the check of a certificate has a fault.
fn faulty(
    alloc: Global,
    listed: &[Listed<'_>],
    cert: &Cert,
    fault: CheckFault,
) -> Result<Outcome, AllocError>
    ensures { IfOk result (IsFaultOf listed.now cert.now fault) }
{
    match fault {
        CheckFault::NotProof {
            function,
            offset,
            rule,
        } => match name(listed, cert, function) {
            Some(name) => broken(alloc, name, offset, rule),
            None => broken(alloc, b"", offset, rule),
        },
        CheckFault::Limit { quantity } => Ok(Outcome::Above(quantity)),
    }
}

// The verdict on a certificate as it was read.
fn checked(alloc: Global, listed: &[Listed<'_>], cert: &Cert) -> Result<Outcome, AllocError>
    requires { AreLines (certificate_of cert.now) }
    ensures { IfOk result (IsOutcomeOn listed.now cert.now) }
{
    match check(alloc, listed, cert) {
        Ok(()) => Ok(Outcome::Proof),
        Err(Refusal::Fault(fault)) => faulty(alloc, listed, cert, fault),
        Err(Refusal::NoMemory) => Err(AllocError),
    }
}

// The verdict on bytes that were not read.
fn refused(fault: ReadFault) -> Outcome
    ensures { IsUnreadOf fault result }
{
    match fault {
        ReadFault::Refused(offset) => Outcome::Unread(offset),
    }
}

/// The verdict on the bytes of a certificate, of the listed functions.
pub(crate) fn verdict(
    alloc: Global,
    listed: &[Listed<'_>],
    bytes: &[u8],
) -> Result<Outcome, AllocError>
    ensures { IfOk result (IsOutcomeOf listed.now bytes.now) }
{
    match read(alloc, bytes) {
        Ok(cert) => checked(alloc, listed, &cert),
        Err(Refusal::Fault(fault)) => Ok(refused(fault)),
        Err(Refusal::NoMemory) => Err(AllocError),
    }
}
