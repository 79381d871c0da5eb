//! Where a line begins in the text of a certificate.

ghost use Rattle.std.specs.Prelude.{◌≡◌, ◌≤◌, IfOk, length, take};
ghost use Rattle.cert_text.specs.Certificates.{certificate_of, text_of};

use crate::certificates::Cert;
use crate::writing::{Left, push_lines};
use attempt::attempt;
use std::alloc::{AllocError, Global};

/// Where the line of an index begins in the spelling of a certificate, in bytes. It spells the
/// lines before it: so it is for the fault of a certificate, and not for each of its lines.
pub fn offset(alloc: Global, cert: &Cert, line: usize) -> Result<usize, AllocError>
    requires { line ≤ length cert.now.lines.items }
    ensures { IfOk result (λ at. at ≡ length (text_of (take line (certificate_of cert.now)))) }
{
    let mut left = Left {
        literals: cert.logs.literals.as_slice(),
        hints: cert.logs.hints.as_slice(),
    };
    let mut text = Vec::new(alloc);
    attempt!(push_lines(alloc, &mut text, &cert.lines.as_slice()[..line], &mut left));
    Ok(text.len())
}
