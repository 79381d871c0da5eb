//! The functions that are unproved, and why.

ghost use Rattle.std.specs.Prelude.{◌≡◌, ◌<◌, ◌∷◌, ◌++◌, [], IfOk, List, None, OnOk, Some};
ghost use Rattle.std.specs.Prelude.{length, map, option_map, slice_get};
ghost use Rattle.cert_check_spec.specs.Verdict as spec;
ghost use Rattle.cert_check_frames.specs.Listed.{AreListed};
ghost use Rattle.prove_run_spec.specs.Written.{failures};
ghost use Rattle.prove_run.specs.Found.{found_of, trail_of};
ghost use Rattle.prove_run.specs.Trails.{failure_in, failures_in, failures_of, over_in};
ghost use Rattle.prove_run.specs.Trails.{unproved_in};

use crate::trail::{Found, Trail};
use attempt::attempt;
use cert_check_frames::Listed;
use cert_text::Cert;
use std::alloc::{AllocError, Global};

/// A function that is unproved.
#[derive(Drop)]
pub struct Unproved {
    /// Its name.
    pub name: Vec<u8>,
    /// Why, one for each way to prove it that was tried.
    pub trails: Vec<Trail>,
}

/// The functions that are unproved, in the order of the list; or a certificate that is too large to
/// be written, and no function.
#[derive(Drop)]
pub struct Trails {
    unproved: Vec<Unproved>,
    over: Option<Cert>,
}

// Adds a function and its trail.
fn add_unproved(
    alloc: Global,
    unproved: &mut Vec<Unproved>,
    name: &[u8],
    trail: Trail,
) -> Result<(), AllocError>
    ensures { OnOk result (failures_of unproved.new.items ≡ failures_of unproved.old.items
        ++ record { name = name.now; trails = trail_of trail ∷ [] } ∷ []) }
{
    let name = attempt!(Vec::from_slice(alloc, name), AllocError);
    let mut trails = Vec::new(alloc);
    attempt!(trails.push(trail), AllocError);
    attempt!(unproved.push(Unproved { name, trails }), AllocError);
    Ok(())
}

// Adds a function, if it is unproved.
fn add_if(
    alloc: Global,
    unproved: &mut Vec<Unproved>,
    name: &[u8],
    found: Found,
) -> Result<(), AllocError>
    ensures { OnOk result (failures_of unproved.new.items ≡ failures_of unproved.old.items
        ++ failure_in name.now found) }
{
    match found {
        Found::Proved(_) => Ok(()),
        Found::Unproved(trail) => add_unproved(alloc, unproved, name, trail),
    }
}

// Adds the functions that are unproved.
fn add_all(
    alloc: Global,
    unproved: &mut Vec<Unproved>,
    listed: &[Listed<'_>],
    found: Vec<Found>,
) -> Result<(), AllocError>
    requires { length found.items ≡ length listed.now }
    ensures { OnOk result (failures_of unproved.new.items ≡ failures_of unproved.old.items
        ++ failures_in listed.now found.items) }
{
    let mut index = 0;
    for one in found {
        attempt!(add_if(alloc, unproved, listed[index].name, one));
        index += 1;
    }
    Ok(())
}

impl Trails {
    /// No function is unproved, and no certificate is too large.
    pub fn new(alloc: Global) -> Trails
        ensures unproved { unproved_in result ≡ [] }
        ensures over { over_in result ≡ None }
    {
        Trails {
            unproved: Vec::new(alloc),
            over: None,
        }
    }

    /// How many functions are unproved.
    pub fn len(&self) -> usize
        ensures { result ≡ length (unproved_in self.now) }
    {
        self.unproved.len()
    }

    /// The unproved function of an index.
    pub fn get(&self, index: usize) -> &Unproved
        requires { index < length (unproved_in self.now) }
        ensures { slice_get (unproved_in self.now) index ≡ Some result.now }
    {
        &self.unproved[index]
    }

    /// The certificate that is too large, if there is one.
    pub fn over(&self) -> Option<&Cert>
        ensures { option_map (λ cert. cert.now) result ≡ over_in self.now }
    {
        self.over.as_ref()
    }

    /// The listed functions that are unproved by what was found of each.
    pub fn of(alloc: Global, listed: &[Listed<'_>], found: Vec<Found>) -> Result<Trails, AllocError>
        requires { length found.items ≡ length listed.now }
        ensures { (functions : List spec.Listed) → AreListed listed.now functions
            → IfOk result (λ trails. (over_in trails ≡ None)
            × (failures_of (unproved_in trails) ≡ failures functions (map found_of found.items))) }
    {
        let mut unproved = Vec::new(alloc);
        attempt!(add_all(alloc, &mut unproved, listed, found));
        Ok(Trails {
            unproved,
            over: None,
        })
    }

    /// A certificate is too large.
    pub fn too_large(alloc: Global, cert: Cert) -> Trails
        ensures unproved { unproved_in result ≡ [] }
        ensures over { over_in result ≡ Some cert }
    {
        Trails {
            unproved: Vec::new(alloc),
            over: Some(cert),
        }
    }
}
