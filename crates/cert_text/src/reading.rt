//! Bytes to a certificate.

ghost use Rattle.std.specs.Prelude.{◌∷◌, []};
ghost use Rattle.cert_text_spec.specs.Certificates.{AHeader, after};
ghost use Rattle.cert_text_laws.specs.Lines as lines;
ghost use Rattle.cert_text_laws.specs.Readers.{read_items};
ghost use Rattle.cert_text_parse.specs.Keywords.{expected_of};
ghost use Rattle.cert_text.specs.Certificates.{IsEmpty, IsRead};
ghost use Rattle.cert_text.specs.Outcomes.{AddsOne, ReadsLines, ReadsWhole};
ghost use Rattle.cert_text.specs.Stack.{stack_of};

use crate::certificates::{Cert, ReadFault};
use crate::sizes::empty;
use crate::stack::{Group, next_expected, push_after, push_expected};
use attempt::{Refusal, attempt};
use cert_text_parse::{Cursor, Expected, TextFault, next_line};
use std::alloc::Global;

// A line where this is expected is added to the certificate, and what is expected after it to the
// stack.
fn add_line(
    alloc: Global,
    cursor: &mut Cursor<'_>,
    expected: Expected,
    stack: &mut Vec<Group>,
    cert: &mut Cert,
) -> Result<(), Refusal<TextFault>>
    ensures { AddsOne (expected_of expected) cursor.old cursor.new stack.old.items stack.new.items
        cert.old cert.new result }
{
    let line = attempt!(next_line(alloc, cursor, expected, &mut cert.logs));
    attempt!(push_after(stack, expected, &line), Refusal::NoMemory);
    attempt!(cert.lines.push(line), Refusal::NoMemory);
    Ok(())
}

// The lines that are expected.
fn read_lines(
    alloc: Global,
    cursor: &mut Cursor<'_>,
    stack: &mut Vec<Group>,
    cert: &mut Cert,
) -> Result<(), Refusal<TextFault>>
    requires { IsEmpty cert.old }
    ensures { ReadsLines (read_items lines.read_line after (stack_of stack.old.items)) cursor.old
        cursor.new cert.new result }
{
    loop {
        let next = match next_expected(stack) {
            Ok(next) => next,
            Err(_) => return Err(Refusal::NoMemory),
        };
        match next {
            Some(expected) => match add_line(alloc, cursor, expected, stack, cert) {
                Ok(()) => {}
                Err(stopped) => return Err(stopped),
            },
            None => return Ok(()),
        }
    }
}

// The lines of a certificate.
fn read_all(
    alloc: Global,
    cursor: &mut Cursor<'_>,
    cert: &mut Cert,
) -> Result<(), Refusal<TextFault>>
    requires { IsEmpty cert.old }
    ensures { ReadsLines (read_items lines.read_line after (AHeader ∷ [])) cursor.old cursor.new
        cert.new result }
{
    let mut stack = Vec::new(alloc);
    match push_expected(&mut stack, Expected::Header, 1) {
        Ok(()) => {}
        Err(_) => return Err(Refusal::NoMemory),
    }
    read_lines(alloc, cursor, &mut stack, cert)
}

// The lines of a certificate, and the end of the bytes.
fn read_whole(
    alloc: Global,
    cursor: &mut Cursor<'_>,
    cert: &mut Cert,
) -> Result<(), Refusal<TextFault>>
    requires { IsEmpty cert.old }
    ensures { ReadsWhole cursor.old cursor.new cert.new result }
{
    attempt!(read_all(alloc, cursor, cert));
    if cursor.rest.is_empty() {
        return Ok(());
    }
    Err(Refusal::Fault(TextFault::Wrong))
}

/// The certificate that the bytes are.
///
/// # Errors
///
/// Where they are none, the length of their longest prefix that begins one.
pub fn read(alloc: Global, bytes: &[u8]) -> Result<Cert, Refusal<ReadFault>>
    ensures { IsRead bytes.now result }
{
    let mut cert = attempt!(empty(alloc, bytes), Refusal::NoMemory);
    let mut cursor = Cursor { rest: bytes };
    match read_whole(alloc, &mut cursor, &mut cert) {
        Ok(()) => Ok(cert),
        Err(Refusal::NoMemory) => Err(Refusal::NoMemory),
        Err(Refusal::Fault(TextFault::Wrong)) => Err(Refusal::Fault(ReadFault::Refused(
            bytes.len() - cursor.rest.len(),
        ))),
    }
}
