//! Rows of certificates.

ghost use Rattle.std.specs.Prelude.{IfSome};
ghost use Rattle.c_graph_spec.specs.Sizes.{UnitSizes};
ghost use Rattle.c_types_spec.specs.HasType.{IsTypedUnit};
ghost use Rattle.c_types.specs.Typed.{typed_of};
ghost use Rattle.pair_setup_calls.specs.Names.{texts_of};
ghost use Rattle.pair_setup.specs.Answers.{ArePairs};
ghost use Rattle.cert_text.specs.Certificates.{certificate_of};
ghost use Rattle.validity_laws.specs.CheckStatements.{AreLines};

use crate::obligations::put_obligations;
use crate::outcomes::put_cert;
use attempt::Refusal;
use c_types::typed::Typed;
use cert_check_frames::Listed;
use cert_run::Sides;
use cert_text::{Cert, ReadFault, read};
use elf_read::Image;
use pair_setup::{Pairs, pair};
use row_io::{Out, split};
use std::alloc::{AllocError, Global};

/// Adds the bytes of a text, a line feed for each `|`.
fn add_bytes(bytes: &mut Vec<u8>, text: &str) -> Result<(), AllocError> {
    for byte in text.bytes() {
        bytes.push(if byte == b'|' { b'\n' } else { byte })?;
    }
    Ok(())
}

/// Adds the names of a list, which blanks separate.
fn add_names<'a>(names: &mut Vec<&'a [u8]>, list: &'a str) -> Result<(), AllocError> {
    for name in list.split(' ') {
        names.push(name.as_bytes())?;
    }
    Ok(())
}

/// What the check says of a certificate of functions, or their obligations where there is none.
fn put_functions(alloc: Global, listed: &[Listed<'_>], cert: Option<&Cert>, out: &mut Out)
    requires { IfSome cert (λ cert. AreLines (certificate_of cert.now)) }
{
    match cert {
        Some(cert) => put_cert(alloc, listed, cert, out),
        None => put_obligations(alloc, listed, out),
    }
}

/// The same of functions of both sides.
fn put_sides(alloc: Global, sides: &Sides<'_>, cert: Option<&Cert>, out: &mut Out)
    requires { IfSome cert (λ cert. AreLines (certificate_of cert.now)) }
{
    match sides.conventions(alloc) {
        Ok(conventions) => match sides.listed(alloc, conventions.as_slice()) {
            Ok(listed) => put_functions(alloc, listed.as_slice(), cert, out),
            Err(_) => out.fail(),
        },
        Err(_) => out.fail(),
    }
}

/// The same of the functions of a list that has pairs.
fn put_paired(
    alloc: Global,
    image: &Image<'_>,
    unit: &Typed<'_>,
    list: &[&[u8]],
    pairs: &Pairs,
    cert: Option<&Cert>,
    out: &mut Out,
)
    requires typed { IsTypedUnit (typed_of unit.now) }
    requires sizes { UnitSizes (typed_of unit.now) }
    requires paired { ArePairs image.now (typed_of unit.now) (texts_of list.now) pairs.now }
    requires lines { IfSome cert (λ cert. AreLines (certificate_of cert.now)) }
{
    match Sides::new(alloc, image, unit, list, pairs) {
        Ok(sides) => put_sides(alloc, &sides, cert, out),
        Err(_) => out.fail(),
    }
}

/// The same of the functions of a list.
fn put_listed(
    alloc: Global,
    image: &Image<'_>,
    unit: &Typed<'_>,
    list: &[&[u8]],
    cert: Option<&Cert>,
    out: &mut Out,
)
    requires typed { IsTypedUnit (typed_of unit.now) }
    requires sizes { UnitSizes (typed_of unit.now) }
    requires lines { IfSome cert (λ cert. AreLines (certificate_of cert.now)) }
{
    match pair(alloc, image, unit, list) {
        Ok(pairs) => put_paired(alloc, image, unit, list, &pairs, cert, out),
        Err(_) => out.put("no pairs"),
    }
}

/// The outcome of a certificate's text.
fn put_certificate(
    alloc: Global,
    image: &Image<'_>,
    unit: &Typed<'_>,
    list: &[&[u8]],
    text: &[u8],
    out: &mut Out,
)
    requires typed { IsTypedUnit (typed_of unit.now) }
    requires sizes { UnitSizes (typed_of unit.now) }
{
    match read(alloc, text) {
        Ok(cert) => put_listed(alloc, image, unit, list, Some(&cert), out),
        Err(Refusal::Fault(ReadFault::Refused(offset))) => {
            out.put("refused at ");
            out.show(&offset);
        }
        Err(Refusal::NoMemory) => out.fail(),
    }
}

/// The outcome of a certificate's text, or of the word `goals`.
fn put_text(
    alloc: Global,
    image: &Image<'_>,
    unit: &Typed<'_>,
    list: &[&[u8]],
    text: &[u8],
    out: &mut Out,
)
    requires typed { IsTypedUnit (typed_of unit.now) }
    requires sizes { UnitSizes (typed_of unit.now) }
{
    if text == b"goals".as_slice() {
        put_listed(alloc, image, unit, list, None, out);
    } else {
        put_certificate(alloc, image, unit, list, text, out);
    }
}

/// The outcome of a row: the functions are in brackets at the end of its name.
pub(crate) fn put_row(
    alloc: Global,
    image: &Image<'_>,
    unit: &Typed<'_>,
    name: &str,
    text: &str,
    out: &mut Out,
)
    requires typed { IsTypedUnit (typed_of unit.now) }
    requires sizes { UnitSizes (typed_of unit.now) }
{
    let (_, names) = split(name, '(');
    let (names, _) = split(names, ')');
    let mut list = Vec::new(alloc);
    let mut bytes = Vec::new(alloc);
    if add_names(&mut list, names).is_err() || add_bytes(&mut bytes, text).is_err() {
        out.fail();
    }
    put_text(alloc, image, unit, list.as_slice(), bytes.as_slice(), out);
}
