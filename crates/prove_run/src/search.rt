//! The search for proofs of functions.

ghost use Rattle.std.specs.Prelude.{◌≡◌, ◌<◌, [], All, IfOk, List, OnOk, length, map};
ghost use Rattle.cert_check_spec.specs.Verdict as spec;
ghost use Rattle.cert_check_frames.specs.Listed.{AreListed, IsListed};
ghost use Rattle.prove_run_spec.specs.Proofs.{HasTruths};
ghost use Rattle.prove_run_spec.specs.Trails.{AreFound, IsFound};
ghost use Rattle.prove_run.specs.Found.{found_of};

use crate::goals::leaf_obligations;
use crate::logs::search;
use crate::trail::{Found, why};
use attempt::attempt;
use cert_check_frames::Listed;
use std::alloc::{AllocError, Global};
use term_bank::Bank;
use tv_base::{Note, Notes};

// What the search finds of a function; its terms have a bank of their own.
fn find<N: Notes>(alloc: Global, function: &Listed<'_>, notes: &mut N) -> Result<Found, AllocError>
    ensures { (f : spec.Listed) → IsListed function.now f → HasTruths f
        → IfOk result (λ found. IsFound f (found_of found)) }
{
    let mut bank = Bank::new(alloc);
    match leaf_obligations(alloc, function, &mut bank) {
        Ok(goals) => search(alloc, &mut bank, goals.as_slice(), function.runs, notes),
        Err(refusal) => why(refusal),
    }
}

// Notes that a function is the next.
fn begin<N: Notes>(listed: &[Listed<'_>], index: usize, notes: &mut N)
    requires { index < length listed.now }
{
    notes.note(&Note::Begun {
        name: listed[index].name,
        done: index,
        all: listed.len(),
    });
}

// Adds what the search finds of each function.
fn add_found<N: Notes>(
    alloc: Global,
    listed: &[Listed<'_>],
    all: &mut Vec<Found>,
    notes: &mut N,
) -> Result<(), AllocError>
    requires { all.old.items ≡ [] }
    ensures found { (functions : List spec.Listed) → AreListed listed.now functions
        → All HasTruths functions
        → OnOk result (AreFound functions (map found_of all.new.items)) }
    ensures count { OnOk result (length all.new.items ≡ length listed.now) }
{
    for index in 0..listed.len() {
        begin(listed, index, notes);
        let found = attempt!(find(alloc, &listed[index], notes));
        attempt!(all.push(found), AllocError);
    }
    Ok(())
}

/// What the search finds of each listed function, in their order: the logs of its obligations, or
/// the trail of an obligation that has none: of the first that a few assignments refute, or else of
/// the first whose search finds none. Each function has a bank of its own, and each obligation a
/// search that learns at most [`SEARCH_LIMIT`](tv_limits::SEARCH_LIMIT) clauses. `notes` is told
/// which function is in work, and what each search took.
pub fn prove<N: Notes>(
    alloc: Global,
    listed: &[Listed<'_>],
    notes: &mut N,
) -> Result<Vec<Found>, AllocError>
    ensures found { (functions : List spec.Listed) → AreListed listed.now functions
        → All HasTruths functions
        → IfOk result (λ all. AreFound functions (map found_of all.items)) }
    ensures count { IfOk result (λ all. length all.items ≡ length listed.now) }
{
    let mut all = Vec::new(alloc);
    attempt!(add_found(alloc, listed, &mut all, notes));
    notes.note(&Note::Finished);
    Ok(all)
}
