//! Why a rule has no obligations.

ghost use Rattle.std.specs.Prelude.{◌≡◌};
ghost use Rattle.sim_rules.specs.Faults as spec;
ghost use Rattle.sim_rules.specs.Faults.{fault_in};

use attempt::Refusal;
use sim_rules_spec::Side;
use visit_walk::{Visits, WalkFault};

/// Why a rule has no obligations.
#[derive(Clone, Copy)]
pub enum RuleFault {
    /// The line at this index is the first that isn't one: it is ill-sorted, no truth value, or
    /// speaks of a variable out of scope. At a call the lines after it come after those before it.
    Sort(usize),
    /// The walk of this side has to be acyclic and goes round at this node. The source is named
    /// where the binary's walk doesn't go round, or may.
    Cyclic(Side, usize),
    /// The walk of this side has more visits than the maximum; this is a number above it, and there
    /// are at least so many.
    Large(Side, usize),
}

/// Which walks a rule needs acyclic.
#[derive(Clone, Copy)]
pub(crate) struct Needs {
    /// Whether the binary's has to be.
    pub binary: bool,
    /// Whether the source's has to be.
    pub source: bool,
}

/// Why a walk has no list of visits, if it has none.
pub(crate) fn walk_fault(visits: &Result<Visits, Refusal<WalkFault>>) -> Option<Refusal<WalkFault>>
    ensures { result ≡ fault_in visits.now }
{
    match visits {
        Ok(_) => None,
        Err(fault) => Some(*fault),
    }
}

// A walk is cyclic and has to be acyclic, or there was no memory.
fn cyclic_if(
    side: Side,
    needed: bool,
    fault: Option<Refusal<WalkFault>>,
) -> Option<Refusal<RuleFault>>
    ensures { result ≡ spec.cyclic_if side needed fault }
{
    match fault {
        Some(Refusal::Fault(WalkFault::Cyclic(node))) => {
            if needed {
                Some(Refusal::Fault(RuleFault::Cyclic(side, node)))
            } else {
                None
            }
        }
        Some(Refusal::NoMemory) => Some(Refusal::NoMemory),
        Some(Refusal::Fault(WalkFault::TooMany(_))) | None => None,
    }
}

// A walk has too many visits.
fn large_if(side: Side, fault: Option<Refusal<WalkFault>>) -> Option<Refusal<RuleFault>>
    ensures { result ≡ spec.large_if side fault }
{
    match fault {
        Some(Refusal::Fault(WalkFault::TooMany(count))) => Some(Refusal::Fault(RuleFault::Large(
            side, count,
        ))),
        Some(Refusal::Fault(WalkFault::Cyclic(_))) | Some(Refusal::NoMemory) | None => None,
    }
}

// The one fault, or else the other.
fn first_of(
    fault: Option<Refusal<RuleFault>>,
    other: Option<Refusal<RuleFault>>,
) -> Option<Refusal<RuleFault>>
    ensures { result ≡ spec.first_of fault other }
{
    match fault {
        Some(fault) => Some(fault),
        None => other,
    }
}

/// Why a rule has no obligations, by what it needs and by both walks' faults: a cycle of the
/// binary's comes first, then one of the source's, then a number.
pub(crate) fn first_fault(
    needs: Needs,
    binary: Option<Refusal<WalkFault>>,
    source: Option<Refusal<WalkFault>>,
) -> Option<Refusal<RuleFault>>
    ensures { result ≡ spec.first_fault needs binary source }
{
    let cyclic = first_of(
        cyclic_if(Side::Binary, needs.binary, binary),
        cyclic_if(Side::Source, needs.source, source),
    );
    first_of(
        cyclic,
        first_of(
            large_if(Side::Binary, binary),
            large_if(Side::Source, source),
        ),
    )
}
