//! Wait: the binary alone comes to an open hold.

ghost use Rattle.std.specs.Prelude.{◌≡◌, ◌++◌, ◌∷◌, [], ◌<◌, length, OnOk};
ghost use Rattle.std.specs.HashMap.{get};
ghost use Rattle.term_core_spec.specs.Same.{same_variable};
ghost use Rattle.term_core_spec.specs.Substitution.{State as Terms};
ghost use Rattle.term_core_spec.specs.Term as tree;
ghost use Rattle.graph_core.specs.Graphs.{graph_of};
ghost use Rattle.graph_core_spec.specs.Graph as nodes;
ghost use Rattle.term_bank.specs.Nodes.{Extends, Holds};
ghost use Rattle.term_substitution.specs.States.{AreBelow, IsAt};
ghost use Rattle.path_cond.specs.States.{IsMapOf};
ghost use Rattle.proof_tree.specs.Frames.{frame_of, hold_of, terms_of};
ghost use Rattle.sim_rules_spec.specs.Obligations as spec;
ghost use Rattle.sim_rules_spec.specs.Rules as rules;
ghost use Rattle.sim_rules_spec.specs.Sides as sides;
ghost use Rattle.sim_rules_terms.specs.Held.{AreHeld};
ghost use Rattle.sim_rules_terms.specs.Openings.{IsOpeningIn};
ghost use Rattle.sim_rules_terms.specs.Ways.{IsSight};
ghost use Rattle.sim_rules.specs.Compared.{Compared, held_there};
ghost use Rattle.sim_rules.specs.Held.{HasAdded};
ghost use Rattle.sim_rules.specs.Replies.{IsAnswer};
ghost use Rattle.sim_rules.specs.Setups.{IsSetupOver};
ghost use Rattle.sim_rules.specs.Terms.{held_terms, held_terms_if, wait_all};
ghost use Rattle.sim_rules.specs.Walks.{AreSeen, CanSee};

use crate::change::Change;
use crate::denied::{add_never, denied};
use crate::fault::{Needs, RuleFault};
use crate::setup::Setup;
use crate::sides::{Both, Sides};
use attempt::{Refusal, attempt};
use graph_core::Graph;
use graph_core_spec::Mark;
use proof_tree::Hold;
use sim_rules_terms::{Known, Sight, Which, either, relation};
use std::alloc::{AllocError, Global};
use term_bank::{Bank, TermId};
use term_core::Term;

// Under what may be used, a relation holds, with the source where it starts.
fn related(
    bank: &mut Bank,
    setup: &Setup<'_>,
    denied: TermId,
    binary: &Known,
    lines: &[Box<Term>],
) -> Result<TermId, AllocError>
    requires denied { denied < length bank.old }
    requires opening { IsOpeningIn (length bank.old) setup.now.opening }
    requires binary { AreBelow (length bank.old) (get same_variable binary.now) }
    ensures tree { (c : Compared) (o : rules.Opening) (t : tree.Term) (s : Terms)
        → IsSetupOver bank.old c o setup.now → Holds bank.old denied t
        → IsMapOf bank.old (get same_variable binary.now) s → IsAt bank.new result
        (tree.or_term t (held_there c o s (terms_of lines.now))) }
    ensures extends { Extends bank.old bank.new }
{
    let memory: &Term = &setup.convention.memory;
    let holds = attempt!(relation(bank, binary, setup.opening.source, lines, memory));
    either(bank, denied, holds)
}

// Adds two ids.
fn add_two(ids: &mut Vec<TermId>, first: TermId, second: TermId) -> Result<(), AllocError>
    ensures { OnOk result (ids.new.items ≡ ids.old.items ++ first ∷ second ∷ []) }
{
    attempt!(ids.push(first), AllocError);
    attempt!(ids.push(second), AllocError);
    Ok(())
}

// Adds that the binary comes to the hold, and that its relation holds there, with the source where
// it starts.
fn add_held(
    alloc: Global,
    bank: &mut Bank,
    setup: &Setup<'_>,
    denied: TermId,
    main: &Sight<'_>,
    hold: &Hold<'_>,
    ids: &mut Vec<TermId>,
) -> Result<(), AllocError>
    requires denied { denied < length bank.old }
    requires opening { IsOpeningIn (length bank.old) setup.now.opening }
    requires main { (w : sides.Way) × IsSight bank.old w main.now }
    ensures added { (c : Compared) (o : rules.Opening) (t : tree.Term) (w : sides.Way)
        → IsSetupOver bank.old c o setup.now → Holds bank.old denied t → IsSight bank.old w main.now
        → OnOk result (HasAdded bank.old bank.new (held_terms t c o w main.now.visits.now.visits
        (hold_of hold.now)) ids.old.items ids.new.items) }
    ensures extends { Extends bank.old bank.new }
{
    let node = hold.nodes.binary;
    let which = Which::Arrives(Mark { node, count: 1 }, 0);
    let there = attempt!(main.part(alloc, which, bank));
    let comes = attempt!(either(bank, denied, there.condition));
    let holds = attempt!(related(bank, setup, denied, &there.terms, hold.relation));
    add_two(ids, comes, holds)
}

// Adds that, where the binary has a list of visits.
fn add_held_if(
    alloc: Global,
    bank: &mut Bank,
    both: &Both<'_>,
    denied: TermId,
    hold: &Hold<'_>,
    ids: &mut Vec<TermId>,
) -> Result<(), AllocError>
    requires see { CanSee bank.old both.now }
    requires denied { denied < length bank.old }
    ensures added { (c : Compared) (o : rules.Opening) (a d : rules.Seen) (t : tree.Term)
        → IsSetupOver bank.old c o both.now.setup.now → AreSeen bank.old a d both.now
        → Holds bank.old denied t → OnOk result (HasAdded bank.old bank.new
        (held_terms_if t c o a.way a.visits (hold_of hold.now)) ids.old.items ids.new.items) }
    ensures extends { Extends bank.old bank.new }
{
    match both.binary {
        Some(main) => add_held(alloc, bank, both.setup, denied, &main, hold, ids),
        None => Ok(()),
    }
}

// Adds what is left to show: that the binary doesn't fail, and then at the hold.
fn add_wait(
    alloc: Global,
    bank: &mut Bank,
    both: &Both<'_>,
    hold: &Hold<'_>,
    ids: &mut Vec<TermId>,
) -> Result<(), AllocError>
    requires see { CanSee bank.old both.now }
    requires ids { ids.old.items ≡ [] }
    ensures terms { (c : Compared) (o : rules.Opening) (a d : rules.Seen)
        → IsSetupOver bank.old c o both.now.setup.now → AreSeen bank.old a d both.now
        → OnOk result (AreHeld bank.new ids.new.items
        (wait_all c o (frame_of both.now.setup.now.frame.now) (hold_of hold.now) a d)) }
    ensures extends { Extends bank.old bank.new }
{
    let denied = attempt!(denied(alloc, bank, both, false));
    attempt!(add_never(alloc, bank, denied, both.binary, Which::Fails, ids));
    add_held_if(alloc, bank, both, denied, hold, ids)
}

/// The obligations of a Wait, or why it has none: the binary's walk, which has to end, goes round,
/// or a walk has too many visits.
pub(crate) fn wait(
    alloc: Global,
    setup: &Setup<'_>,
    empty: &Graph,
    hold: &Hold<'_>,
    bank: &mut Bank,
) -> Result<Vec<TermId>, Refusal<RuleFault>>
    requires empty { graph_of empty.now ≡ nodes.empty }
    requires opening { IsOpeningIn (length bank.old) setup.now.opening }
    ensures answer { IsAnswer bank.old bank.new setup.now (spec.Wait (hold_of hold.now)) result }
    ensures extends { Extends bank.old bank.new }
{
    let needs = Needs {
        binary: true,
        source: false,
    };
    let change = Change::Holding(hold.nodes.binary);
    let sides = attempt!(
        Sides::of(alloc, setup, change, Change::Plain, empty),
        Refusal::NoMemory
    );
    match sides.ends(needs) {
        Ok(()) => {}
        Err(refusal) => {
            drop(sides);
            return Err(refusal);
        }
    }
    let found = match sides.conditions(alloc, bank) {
        Ok(found) => found,
        Err(_) => {
            drop(sides);
            return Err(Refusal::NoMemory);
        }
    };
    let mut ids = Vec::new(alloc);
    let both = sides.seen(setup, &found);
    let added = add_wait(alloc, bank, &both, hold, &mut ids);
    drop(found);
    drop(sides);
    match added {
        Ok(()) => Ok(ids),
        Err(_) => Err(Refusal::NoMemory),
    }
}
