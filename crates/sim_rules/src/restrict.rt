//! Restrict: so many arrivals of a side at a node don't come.

ghost use Rattle.std.specs.Prelude.{◌≡◌, [], OnOk, length};
ghost use Rattle.graph_core.specs.Graphs.{graph_of};
ghost use Rattle.graph_core_spec.specs.Graph as nodes;
ghost use Rattle.term_bank.specs.Nodes.{Extends};
ghost use Rattle.proof_tree.specs.Frames.{frame_of};
ghost use Rattle.sim_rules_spec.specs.Obligations as spec;
ghost use Rattle.sim_rules_spec.specs.Rules as rules;
ghost use Rattle.sim_rules_terms.specs.Held.{AreHeld};
ghost use Rattle.sim_rules_terms.specs.Openings.{IsOpeningIn};
ghost use Rattle.sim_rules.specs.Compared.{Compared};
ghost use Rattle.sim_rules.specs.Replies.{IsAnswer};
ghost use Rattle.sim_rules.specs.Setups.{IsSetupOver};
ghost use Rattle.sim_rules.specs.Sides.{bounds_at};
ghost use Rattle.sim_rules.specs.Terms.{main_seen, restrict_all};
ghost use Rattle.sim_rules.specs.Walks.{AreSeen, CanSee};

use crate::change::Change;
use crate::denied::{add_never, denied};
use crate::fault::{Needs, RuleFault};
use crate::setup::Setup;
use crate::sides::{Both, Sides};
use attempt::{Refusal, attempt};
use graph_core::Graph;
use graph_core_spec::Mark;
use sim_rules_spec::Side;
use sim_rules_terms::Which;
use std::alloc::{AllocError, Global};
use term_bank::{Bank, TermId};

// Adds that the arrival of a side that the new bound counts doesn't come.
fn add_excluded(
    alloc: Global,
    bank: &mut Bank,
    both: &Both<'_>,
    side: Side,
    bound: Mark,
    ids: &mut Vec<TermId>,
) -> Result<(), AllocError>
    requires see { CanSee bank.old both.now }
    requires ids { ids.old.items ≡ [] }
    ensures terms { (c : Compared) (o : rules.Opening) (a d : rules.Seen)
        → IsSetupOver bank.old c o both.now.setup.now → AreSeen bank.old a d both.now
        → OnOk result (AreHeld bank.new ids.new.items (restrict_all o
        (frame_of both.now.setup.now.frame.now) a d (main_seen side a d)
        (bounds_at (frame_of both.now.setup.now.frame.now) side) bound)) }
    ensures extends { Extends bank.old bank.new }
{
    let start = &both.setup.frame.start;
    let denied = attempt!(denied(alloc, bank, both, true));
    match side {
        Side::Binary => {
            let which = Which::Breaks(bound, start.binary_bounds.len());
            add_never(alloc, bank, denied, both.binary, which, ids)
        }
        Side::Source => {
            let which = Which::Breaks(bound, start.source_bounds.len());
            add_never(alloc, bank, denied, both.source, which, ids)
        }
    }
}

/// The obligation where the binary is restricted, or why there is none: its walk, which has to end,
/// goes round, or a walk has too many visits.
pub(crate) fn restrict_binary(
    alloc: Global,
    setup: &Setup<'_>,
    empty: &Graph,
    bound: Mark,
    bank: &mut Bank,
) -> Result<Vec<TermId>, Refusal<RuleFault>>
    requires empty { graph_of empty.now ≡ nodes.empty }
    requires opening { IsOpeningIn (length bank.old) setup.now.opening }
    ensures answer { IsAnswer bank.old bank.new setup.now (spec.RestrictBinary bound) result }
    ensures extends { Extends bank.old bank.new }
{
    let needs = Needs {
        binary: true,
        source: false,
    };
    let change = Change::Restricting(bound);
    let sides = attempt!(
        Sides::of(alloc, setup, change, Change::Plain, empty),
        Refusal::NoMemory
    );
    match sides.ends(needs) {
        Ok(()) => {}
        Err(refusal) => {
            drop(sides);
            return Err(refusal);
        }
    }
    let found = match sides.conditions(alloc, bank) {
        Ok(found) => found,
        Err(_) => {
            drop(sides);
            return Err(Refusal::NoMemory);
        }
    };
    let mut ids = Vec::new(alloc);
    let both = sides.seen(setup, &found);
    let added = add_excluded(alloc, bank, &both, Side::Binary, bound, &mut ids);
    drop(found);
    drop(sides);
    match added {
        Ok(()) => Ok(ids),
        Err(_) => Err(Refusal::NoMemory),
    }
}

/// The same where the source is.
pub(crate) fn restrict_source(
    alloc: Global,
    setup: &Setup<'_>,
    empty: &Graph,
    bound: Mark,
    bank: &mut Bank,
) -> Result<Vec<TermId>, Refusal<RuleFault>>
    requires empty { graph_of empty.now ≡ nodes.empty }
    requires opening { IsOpeningIn (length bank.old) setup.now.opening }
    ensures answer { IsAnswer bank.old bank.new setup.now (spec.RestrictSource bound) result }
    ensures extends { Extends bank.old bank.new }
{
    let needs = Needs {
        binary: false,
        source: true,
    };
    let change = Change::Restricting(bound);
    let sides = attempt!(
        Sides::of(alloc, setup, Change::Plain, change, empty),
        Refusal::NoMemory
    );
    match sides.ends(needs) {
        Ok(()) => {}
        Err(refusal) => {
            drop(sides);
            return Err(refusal);
        }
    }
    let found = match sides.conditions(alloc, bank) {
        Ok(found) => found,
        Err(_) => {
            drop(sides);
            return Err(Refusal::NoMemory);
        }
    };
    let mut ids = Vec::new(alloc);
    let both = sides.seen(setup, &found);
    let added = add_excluded(alloc, bank, &both, Side::Source, bound, &mut ids);
    drop(found);
    drop(sides);
    match added {
        Ok(()) => Ok(ids),
        Err(_) => Err(Refusal::NoMemory),
    }
}
