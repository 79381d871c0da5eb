//! Leaf: both sides' walks end.

ghost use Rattle.std.specs.Prelude.{◌≡◌, ◌<◌, [], OnOk, length};
ghost use Rattle.term_core_spec.specs.Term as tree;
ghost use Rattle.graph_core.specs.Graphs.{graph_of};
ghost use Rattle.graph_core_spec.specs.Graph as nodes;
ghost use Rattle.term_bank.specs.Nodes.{Extends, Holds};
ghost use Rattle.proof_tree.specs.Frames.{frame_of};
ghost use Rattle.sim_rules_spec.specs.Obligations as spec;
ghost use Rattle.sim_rules_spec.specs.Rules as rules;
ghost use Rattle.sim_rules_terms.specs.Held.{AreHeld};
ghost use Rattle.sim_rules_terms.specs.Openings.{IsOpeningIn};
ghost use Rattle.sim_rules.specs.Compared.{AreCompared, Compared, stops};
ghost use Rattle.sim_rules.specs.Held.{HasAdded};
ghost use Rattle.sim_rules.specs.Replies.{IsAnswer};
ghost use Rattle.sim_rules.specs.Setups.{IsSetupOver};
ghost use Rattle.sim_rules.specs.Terms.{leaf_all, stop_terms_if};
ghost use Rattle.sim_rules.specs.Walks.{AreSeen, CanSee};

use crate::change::Change;
use crate::denied::{add_never, denied};
use crate::fault::{Needs, RuleFault};
use crate::point::Meeting;
use crate::setup::Setup;
use crate::sides::{Both, Sides};
use crate::stops::add_met;
use attempt::{Refusal, attempt};
use graph_core::Graph;
use sim_rules_terms::Which;
use std::alloc::{AllocError, Global};
use term_bank::{Bank, TermId};

// Adds what is left to show at the stops, where each side has a list of visits.
fn add_met_if(
    alloc: Global,
    bank: &mut Bank,
    both: &Both<'_>,
    denied: TermId,
    ids: &mut Vec<TermId>,
) -> Result<(), AllocError>
    requires see { CanSee bank.old both.now }
    requires denied { denied < length bank.old }
    ensures added { (c : Compared) (a d : rules.Seen) (t : tree.Term)
        → AreCompared both.now.setup.now.convention.now c → AreSeen bank.old a d both.now
        → Holds bank.old denied t → OnOk result (HasAdded bank.old bank.new
        (stop_terms_if t c a.way d.way a.visits d.visits
        (stops c (frame_of both.now.setup.now.frame.now))) ids.old.items ids.new.items) }
    ensures extends { Extends bank.old bank.new }
{
    let Both { setup, .. } = *both;
    match both.binary {
        None => Ok(()),
        Some(binary) => match both.source {
            None => Ok(()),
            Some(source) => {
                let meeting = Meeting {
                    binary,
                    source,
                    memory: &setup.convention.memory,
                    denied,
                };
                add_met(alloc, bank, setup, &meeting, ids)
            }
        },
    }
}

// Adds what is left to show: that the binary doesn't fail, and then at the stops.
fn add_leaf(
    alloc: Global,
    bank: &mut Bank,
    both: &Both<'_>,
    ids: &mut Vec<TermId>,
) -> Result<(), AllocError>
    requires see { CanSee bank.old both.now }
    requires ids { ids.old.items ≡ [] }
    ensures terms { (c : Compared) (o : rules.Opening) (a d : rules.Seen)
        → IsSetupOver bank.old c o both.now.setup.now → AreSeen bank.old a d both.now
        → OnOk result (AreHeld bank.new ids.new.items
        (leaf_all c o (frame_of both.now.setup.now.frame.now) a d)) }
    ensures extends { Extends bank.old bank.new }
{
    let denied = attempt!(denied(alloc, bank, both, true));
    attempt!(add_never(alloc, bank, denied, both.binary, Which::Fails, ids));
    add_met_if(alloc, bank, both, denied, ids)
}

/// The obligations of a Leaf, or why it has none: a walk goes round or has too many visits.
pub(crate) fn leaf(
    alloc: Global,
    setup: &Setup<'_>,
    empty: &Graph,
    bank: &mut Bank,
) -> Result<Vec<TermId>, Refusal<RuleFault>>
    requires empty { graph_of empty.now ≡ nodes.empty }
    requires opening { IsOpeningIn (length bank.old) setup.now.opening }
    ensures answer { IsAnswer bank.old bank.new setup.now spec.Leaf result }
    ensures extends { Extends bank.old bank.new }
{
    let needs = Needs {
        binary: true,
        source: true,
    };
    let sides = attempt!(
        Sides::of(alloc, setup, Change::Plain, Change::Plain, empty),
        Refusal::NoMemory
    );
    match sides.ends(needs) {
        Ok(()) => {}
        Err(refusal) => {
            drop(sides);
            return Err(refusal);
        }
    }
    let found = match sides.conditions(alloc, bank) {
        Ok(found) => found,
        Err(_) => {
            drop(sides);
            return Err(Refusal::NoMemory);
        }
    };
    let mut ids = Vec::new(alloc);
    let both = sides.seen(setup, &found);
    let added = add_leaf(alloc, bank, &both, &mut ids);
    drop(found);
    drop(sides);
    match added {
        Ok(()) => Ok(ids),
        Err(_) => Err(Refusal::NoMemory),
    }
}
