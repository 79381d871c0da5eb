ghost use Rattle.std.specs.Prelude.{◌≡◌, ◌+◌, ◌<◌, ◌++◌, ◌∷◌, [], List, true, length, OnOk};
ghost use Rattle.std.specs.List.{list_all};
ghost use Rattle.clause_check_spec.specs.Clause.{is_of};
ghost use Rattle.sat_search_spec.specs.Trail.{IsRising};
ghost use Rattle.sat_search_analysis.specs.Explained.{IsAnalysed};
ghost use Rattle.sat_search_learning.specs.Search.{IsSearching, IsHighest, IsRewound, AreOnce};
ghost use Rattle.clause_check_spec.specs.declared.Literal.{Literal as Lit};

use crate::order::Order;
use crate::search::Search;
use cnf_core::{ClauseList, Cnf, Literal, negation};
use sat_search_analysis::Step;
use sat_search_spec::Watch;
use sat_search_state::{Trail, Watches};
use std::alloc::AllocError;

/// A literal and the level at which its negation became true.
#[derive(Clone, Copy)]
struct Leveled {
    literal: Literal,
    level: usize,
}

/// The literal of the highest level among false ones; the asserting literal where none is above
/// level 0.
fn highest(trail: &Trail, asserting: Literal, others: &[Literal], order: &mut Order) -> Leveled
    requires of_variables { list_all (is_of trail.now.variables) others.now ≡ true }
    requires once { AreOnce trail.now.entries }
    ensures { IsHighest trail.now asserting others.now result.literal result.level }
{
    let mut best = Leveled {
        literal: asserting,
        level: 0,
    };
    for literal in others {
        best = higher(trail, best, *literal, order);
    }
    best
}

/// The one of the higher level.
fn higher(trail: &Trail, best: Leveled, literal: Literal, order: &mut Order) -> Leveled
    requires of_variables { is_of trail.now.variables literal ≡ true }
    requires once { AreOnce trail.now.entries }
    ensures { (asserting : Lit) (others : List Lit)
        → IsHighest trail.now asserting others best.literal best.level
        → IsHighest trail.now asserting (others ++ literal ∷ []) result.literal result.level }
{
    match trail.place(negation(literal)) {
        Some(place) => {
            let level = trail.entry(place).level;
            order.see_level(level);
            if level > best.level {
                return Leveled { literal, level };
            }
            best
        }
        None => best,
    }
}

/// Tells the order which variables lose their values.
fn release(trail: &Trail, order: &mut Order, start: usize) {
    for place in start..trail.len() {
        let literal = trail.entry(place).literal;
        order.release(literal.variable(), literal.is_negated());
    }
}

/// Goes back to a level.
pub fn rewind(trail: &mut Trail, watches: &mut Watches, order: &mut Order, level: usize)
    requires { IsRising trail.old.entries }
    ensures { IsRewound trail.old trail.new watches.old watches.new level }
{
    let place = trail.cut(level);
    release(trail, order, place);
    trail.shorten(place, level);
    watches.set_head(place);
}

/// The variables of a clause become more active.
fn bump_clause(clause: &[Literal], order: &mut Order) {
    for literal in clause {
        order.bump(literal.variable());
    }
}

/// The variables of the clauses that a learnt one follows from become more active.
fn bump(clauses: &ClauseList, hints: &[usize], order: &mut Order) {
    for number in hints {
        if let Some(clause) = clauses.get(number.wrapping_sub(1)) {
            bump_clause(clause, order);
        }
    }
    order.end_conflict();
}

/// Adds a learnt clause, back at the level at which its first literal is forced.
pub fn learn(cnf: &Cnf, search: &mut Search, step: Step) -> Result<(), AllocError>
    requires searching { IsSearching cnf.now search.old.clauses.clauses search.old.trail
        search.old.watches search.old.log.items }
    requires decided { 0 < search.old.trail.level }
    requires analysed { IsAnalysed search.old.clauses.clauses search.old.trail step }
    ensures searching { OnOk result (IsSearching cnf.now search.new.clauses.clauses search.new.trail
        search.new.watches search.new.log.items) }
    ensures count { OnOk result (length search.new.log.items ≡ length search.old.log.items + 1) }
{
    let asserting = step.literals()[0];
    let best = highest(
        &search.trail,
        asserting,
        &step.literals()[1..],
        &mut search.order,
    );
    bump(&search.clauses, step.hints(), &mut search.order);
    rewind(
        &mut search.trail,
        &mut search.watches,
        &mut search.order,
        best.level,
    );
    search.clauses.push(step.literals())?;
    search.watches.attach(Watch {
        first: asserting,
        second: best.literal,
    })?;
    search.trail.push(asserting, search.clauses.len())?;
    search.log.push(step)?;
    Ok(())
}
