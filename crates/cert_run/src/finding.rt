//! What the search for proofs of functions finds.

ghost use Rattle.std.specs.Prelude.{◌≡◌, [], All, IfOk, List, None, Some};
ghost use Rattle.std.specs.Prelude.{length, map};
ghost use Rattle.cert_text_spec.specs.Points.{IsNumber};
ghost use Rattle.cert_text.specs.Certificates.{certificate_of};
ghost use Rattle.cert_check_frames.specs.Listed.{AreListed};
ghost use Rattle.cert_check_spec.specs.Verdict as spec;
ghost use Rattle.prove_run_spec.specs.Written.{failures, proof_lines};
ghost use Rattle.prove_run.specs.Found.{found_of};
ghost use Rattle.prove_run.specs.Trails.{failures_of, over_in, unproved_in};
ghost use Rattle.cert_run.specs.Searches.{IsSearch, Searches, is_proved};

use attempt::attempt;
use cert_check_frames::Listed;
use cert_text::{Cert, write};
use prove_run::{Found, Trails, certificate, prove};
use std::alloc::{AllocError, Global};
use tv_base::Notes;
use tv_limits::MAX_CERTIFICATE_BYTES;

/// What the search for proofs of the functions of a list finds.
#[derive(Drop)]
pub struct Search {
    /// Of each function, in the order of the list, whether a proof of it was found.
    pub valid: Vec<bool>,
    /// The text of the certificate of those that are proved, unless it is longer than
    /// [`MAX_CERTIFICATE_BYTES`].
    pub certificate: Option<Vec<u8>>,
    /// Why the others are unproved; or the certificate, where its text is longer.
    pub trails: Trails,
}

// Whether a proof was found.
fn is_valid(found: &Found) -> bool
    ensures { result ≡ is_proved (found_of found.now) }
{
    match found {
        Found::Proved(_) => true,
        Found::Unproved(_) => false,
    }
}

// Of each function, whether a proof of it was found.
fn valid_ones(alloc: Global, found: &[Found]) -> Result<Vec<bool>, AllocError>
    ensures { IfOk result (λ valid. valid.items
        ≡ map is_proved (map found_of found.now)) }
{
    let mut valid = Vec::new(alloc);
    for one in found {
        attempt!(valid.push(is_valid(one)), AllocError);
    }
    Ok(valid)
}

// What was found, where the certificate is within its maximum.
fn within(
    alloc: Global,
    listed: &[Listed<'_>],
    found: Vec<Found>,
    valid: Vec<bool>,
    text: Vec<u8>,
) -> Result<Search, AllocError>
    requires { length found.items ≡ length listed.now }
    ensures trails { (functions : List spec.Listed) → AreListed listed.now functions
        → IfOk result (λ search. (over_in search.trails ≡ None)
        × (failures_of (unproved_in search.trails)
        ≡ failures functions (map found_of found.items))) }
    ensures text { IfOk result (λ search. search.certificate ≡ Some text) }
    ensures valid { IfOk result (λ search. search.valid ≡ valid) }
{
    match Trails::of(alloc, listed, found) {
        Ok(trails) => Ok(Search {
            valid,
            certificate: Some(text),
            trails,
        }),
        Err(error) => Err(error),
    }
}

// What was found, where the certificate is too large.
fn over(alloc: Global, valid: Vec<bool>, cert: Cert) -> Search
    ensures over { over_in result.trails ≡ Some cert }
    ensures unproved { unproved_in result.trails ≡ [] }
    ensures rest { (result.certificate ≡ None) × (result.valid ≡ valid) }
{
    Search {
        valid,
        certificate: None,
        trails: Trails::too_large(alloc, cert),
    }
}

// The hints of a certificate in memory are numbers of certificates.
fn are_numbers(hints: &[u32])
    ensures { All IsNumber hints.now }
{}

// What was found of each function, with the certificate of the proofs.
fn search_of(
    alloc: Global,
    listed: &[Listed<'_>],
    found: Vec<Found>,
    cert: Cert,
) -> Result<Search, AllocError>
    requires { length found.items ≡ length listed.now }
    ensures { (functions : List spec.Listed) → AreListed listed.now functions
        → certificate_of cert ≡ proof_lines functions (map found_of found.items)
        → IfOk result (IsSearch functions (map found_of found.items)) }
{
    let valid = attempt!(valid_ones(alloc, found.as_slice()));
    let text = attempt!(write(alloc, &cert));
    let hints = cert.logs.hints.as_slice();
    // a law, of which nothing runs
    are_numbers(hints);
    if text.len() > MAX_CERTIFICATE_BYTES {
        Ok(over(alloc, valid, cert))
    } else {
        within(alloc, listed, found, valid, text)
    }
}

/// What the search for proofs finds of each of the functions.
pub(crate) fn find<N: Notes>(
    alloc: Global,
    listed: &[Listed<'_>],
    notes: &mut N,
) -> Result<Search, AllocError>
    ensures { IfOk result (Searches listed.now) }
{
    let found = attempt!(prove(alloc, listed, notes));
    let cert = attempt!(certificate(alloc, listed, found.as_slice()));
    search_of(alloc, listed, found, cert)
}
