//! Certificates of the functions of a list with pairs.

ghost use Rattle.std.specs.Prelude.{IfOk};
ghost use Rattle.c_types.specs.Typed.{typed_of};
ghost use Rattle.pair_setup_calls.specs.Names.{texts_of};
ghost use Rattle.pair_setup.specs.Answers.{pairs_of};
ghost use Rattle.cert_run.specs.Runs.{Answers, CanRun, Finds, IsOutcomeBy, SearchesSides};

use crate::Sides;
use crate::finding::{Search, find};
use crate::outcome::{Outcome, verdict};
use attempt::attempt;
use c_types::typed::Typed;
use cert_run_spec::laws::{files_have_words, logged_leaves_are_valid, proofs_are_valid};
use elf_read::Image;
use pair_setup::Pairs;
use std::alloc::{AllocError, Global};
use tv_base::Notes;
use validity_laws::trails::functions_have_truths;

// The verdict on the bytes of a certificate, of functions of both sides.
fn outcome_of_sides(
    alloc: Global,
    sides: &Sides<'_>,
    certificate: &[u8],
) -> Result<Outcome, AllocError>
    ensures { IfOk result (IsOutcomeBy sides.now certificate.now) }
{
    match sides.conventions(alloc) {
        Ok(conventions) => match sides.listed(alloc, conventions.as_slice()) {
            Ok(listed) => verdict(alloc, listed.as_slice(), certificate),
            Err(error) => Err(error),
        },
        Err(error) => Err(error),
    }
}

/// The verdict on the bytes of a certificate, for the functions of a list with pairs.
pub fn check(
    alloc: Global,
    image: &Image<'_>,
    unit: &Typed<'_>,
    list: &[&[u8]],
    pairs: &Pairs,
    certificate: &[u8],
) -> Result<Outcome, AllocError>
    requires { CanRun image.now (typed_of unit.now) (texts_of list.now) pairs.now }
    ensures { IfOk result (Answers image.now (typed_of unit.now)
        (pairs_of (texts_of list.now) pairs.now) certificate.now) }
{
    // laws, of which nothing runs
    files_have_words();
    proofs_are_valid();
    let sides = attempt!(Sides::new(alloc, image, unit, list, pairs));
    outcome_of_sides(alloc, &sides, certificate)
}

// What a search finds of the functions of both sides.
fn search_sides<N: Notes>(
    alloc: Global,
    sides: &Sides<'_>,
    notes: &mut N,
) -> Result<Search, AllocError>
    ensures { IfOk result (SearchesSides sides.now) }
{
    match sides.conventions(alloc) {
        Ok(conventions) => match sides.listed(alloc, conventions.as_slice()) {
            Ok(listed) => find(alloc, listed.as_slice(), notes),
            Err(error) => Err(error),
        },
        Err(error) => Err(error),
    }
}

/// What a search finds of the functions of a list with pairs: which it proves, each by a bare Leaf
/// and logs, the certificate of these, and the trails of the others. `notes` is told how it goes
/// on.
pub fn prove<N: Notes>(
    alloc: Global,
    image: &Image<'_>,
    unit: &Typed<'_>,
    list: &[&[u8]],
    pairs: &Pairs,
    notes: &mut N,
) -> Result<Search, AllocError>
    requires { CanRun image.now (typed_of unit.now) (texts_of list.now) pairs.now }
    ensures { IfOk result (Finds image.now (typed_of unit.now)
        (pairs_of (texts_of list.now) pairs.now)) }
{
    // laws, of which nothing runs
    files_have_words();
    functions_have_truths();
    logged_leaves_are_valid();
    let sides = attempt!(Sides::new(alloc, image, unit, list, pairs));
    search_sides(alloc, &sides, notes)
}
