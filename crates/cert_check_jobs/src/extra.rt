//! What a frame inside a part has beside the frame at the function's entry.

ghost use Rattle.std.specs.Prelude.{◌≡◌, ◌++◌, ◌∷◌, [], IfOk};
ghost use Rattle.cert_check_jobs.specs.Extras.{HasBinaryBound, HasNothing, HasPremise};
ghost use Rattle.cert_check_jobs.specs.Extras.{HasSourceBound, IsMade};

use crate::cuts::{Cuts, copied, no_cuts};
use attempt::attempt;
use cert_check_frames::Branch;
use graph_core_spec::Mark;
use std::alloc::{AllocError, Global};

/// What a frame inside a part has beside the frame at the function's entry.
#[derive(Drop)]
pub struct Extra {
    /// Where it starts, if at a cut, and its goals.
    pub cuts: Box<Cuts>,
    /// The lines of the cut at which it starts, and the tests of Cases from there on, each as it
    /// holds.
    pub premises: Vec<Branch>,
    /// Arrivals of the binary that are excluded, in the order of their restrictions.
    pub binary_bounds: Vec<Mark>,
    /// Arrivals of the source that are excluded.
    pub source_bounds: Vec<Mark>,
}

// All that, in memory of its own.
pub(crate) fn made(
    alloc: Global,
    cuts: Box<Cuts>,
    premises: Vec<Branch>,
    binary_bounds: Vec<Mark>,
    source_bounds: Vec<Mark>,
) -> Result<Box<Extra>, AllocError>
    ensures { IfOk result (λ x. IsMade x.value cuts premises binary_bounds source_bounds) }
{
    let extra = Extra {
        cuts,
        premises,
        binary_bounds,
        source_bounds,
    };
    Ok(Box::new(alloc, extra)?)
}

/// Nothing: the frame is that at the entry.
pub fn at_entry(alloc: Global) -> Result<Box<Extra>, AllocError>
    ensures { IfOk result (λ x. HasNothing x.value) }
{
    let cuts = attempt!(no_cuts(alloc));
    made(
        alloc,
        cuts,
        Vec::new(alloc),
        Vec::new(alloc),
        Vec::new(alloc),
    )
}

// The same items and one more.
fn with_one<T: Copy>(alloc: Global, items: &[T], item: T) -> Result<Vec<T>, AllocError>
    ensures { IfOk result (λ all. all.items ≡ items.now ++ item ∷ []) }
{
    let mut all = attempt!(copied(alloc, items));
    attempt!(all.push(item), AllocError);
    Ok(all)
}

impl Extra {
    /// The same with one premise more.
    pub fn with_premise(&self, alloc: Global, branch: Branch) -> Result<Box<Self>, AllocError>
        ensures { IfOk result (λ x. HasPremise self.now branch x.value) }
    {
        let premises = attempt!(with_one(alloc, self.premises.as_slice(), branch));
        let binary_bounds = attempt!(copied(alloc, self.binary_bounds.as_slice()));
        let source_bounds = attempt!(copied(alloc, self.source_bounds.as_slice()));
        let cuts = attempt!(self.cuts.copy(alloc));
        made(alloc, cuts, premises, binary_bounds, source_bounds)
    }

    /// The same where one more arrival of the binary is excluded.
    pub fn with_binary_bound(&self, alloc: Global, bound: Mark) -> Result<Box<Self>, AllocError>
        ensures { IfOk result (λ x. HasBinaryBound self.now bound x.value) }
    {
        let premises = attempt!(copied(alloc, self.premises.as_slice()));
        let binary_bounds = attempt!(with_one(alloc, self.binary_bounds.as_slice(), bound));
        let source_bounds = attempt!(copied(alloc, self.source_bounds.as_slice()));
        let cuts = attempt!(self.cuts.copy(alloc));
        made(alloc, cuts, premises, binary_bounds, source_bounds)
    }

    /// The same where one more arrival of the source is excluded.
    pub fn with_source_bound(&self, alloc: Global, bound: Mark) -> Result<Box<Self>, AllocError>
        ensures { IfOk result (λ x. HasSourceBound self.now bound x.value) }
    {
        let premises = attempt!(copied(alloc, self.premises.as_slice()));
        let binary_bounds = attempt!(copied(alloc, self.binary_bounds.as_slice()));
        let source_bounds = attempt!(with_one(alloc, self.source_bounds.as_slice(), bound));
        let cuts = attempt!(self.cuts.copy(alloc));
        made(alloc, cuts, premises, binary_bounds, source_bounds)
    }
}
