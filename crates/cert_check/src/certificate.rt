//! The check of a whole certificate.

ghost use Rattle.std.specs.Prelude.{◌<◌, length};
ghost use Rattle.cert_text.specs.Certificates.{certificate_of};
ghost use Rattle.cert_text.specs.Laws.{AreLines};
ghost use Rattle.cert_check.specs.Checkers.{IsNew};
ghost use Rattle.cert_check.specs.Outcomes.{IsChecked, IsPlaced, IsVerdict};

use crate::checker::{Checker, Given};
use crate::fault::{CheckFault, NamedFault, Placed};
use crate::logs::{counts, rest};
use attempt::{Refusal, attempt};
use cert_check_frames::Listed;
use cert_text::{Cert, offset};
use std::alloc::Global;

// The first line that breaks a rule or a limit, by its index, and what it breaks.
fn first_fault(alloc: Global, cert: &Cert, checker: &mut Checker<'_>) -> Result<(), Refusal<Placed>>
    requires lines { AreLines (certificate_of cert.now) }
    requires nothing { IsNew checker.old }
    ensures { IsChecked checker.old.listed.now cert.now result }
{
    let mut literals = cert.logs.literals.as_slice();
    let mut hints = cert.logs.hints.as_slice();
    for index in 0..cert.lines.len() {
        let line = &cert.lines[index];
        let given = Given {
            line,
            literals,
            hints,
            place: index,
        };
        attempt!(checker.line(alloc, given));
        let (literal_count, hint_count) = counts(line);
        literals = rest(literals, literal_count);
        hints = rest(hints, hint_count);
    }
    Ok(())
}

// A fault at the line of an index, with the offset at which the line begins.
fn placed(alloc: Global, cert: &Cert, at: Placed) -> Refusal<CheckFault>
    requires { at.place < length cert.now.lines.items }
    ensures { IsPlaced cert.now at result }
{
    match at.fault {
        NamedFault::Broken(function, rule) => match offset(alloc, cert, at.place) {
            Ok(offset) => Refusal::Fault(CheckFault::NotProof {
                function,
                offset,
                rule,
            }),
            Err(_) => Refusal::NoMemory,
        },
        NamedFault::Above(quantity) => Refusal::Fault(CheckFault::Limit { quantity }),
    }
}

/// Whether a certificate, as it was read, is a proof of the listed functions, and else the first
/// rule or limit that a line breaks. Each listed function needs a part, in any order; a part is
/// checked in a bank of its own. Work is linear in the certificate beside what its obligations
/// take, and in its parts times the listed functions.
pub fn check(alloc: Global, listed: &[Listed<'_>], cert: &Cert) -> Result<(), Refusal<CheckFault>>
    requires { AreLines (certificate_of cert.now) }
    ensures { IsVerdict listed.now cert.now result }
{
    let mut checker = Checker::new(alloc, listed);
    match first_fault(alloc, cert, &mut checker) {
        Ok(()) => Ok(()),
        Err(Refusal::Fault(at)) => Err(placed(alloc, cert, at)),
        Err(Refusal::NoMemory) => Err(Refusal::NoMemory),
    }
}
