ghost use Rattle.std.specs.Prelude.{◌≤◌, ◌<◌, ◌+◌, length, IsTrue, IfSome, IfNone};
ghost use Rattle.sat_search_learning.specs.Search.{IsUndecided, HasValue, AllHaveValue};

use crate::order::Order;
use cnf_core::{Literal, MAX_VARIABLE, negation};
use sat_search_state::Trail;

/// A literal of the variable, if it has no value.
fn open_literal(trail: &Trail, variable: usize, is_negated: bool) -> Option<Literal>
    requires positive { 1 ≤ variable }
    requires within { variable ≤ trail.now.variables }
    requires small { trail.now.variables ≤ MAX_VARIABLE }
    ensures found { IfSome result (λ l. IsUndecided trail.now l) }
    ensures nowhere { IfNone result (HasValue trail.now variable) }
{
    let literal = Literal::new(variable, is_negated);
    if trail.place(literal).is_some() || trail.place(negation(literal)).is_some() {
        return None;
    }
    Some(literal)
}

/// A literal without value, by the order; none where that has no more variables.
fn first_open(order: &mut Order, trail: &Trail) -> Option<Literal>
    requires { trail.now.variables ≤ MAX_VARIABLE }
    ensures { IfSome result (λ l. IsUndecided trail.now l) }
{
    for _count in 0..trail.variables() {
        let variable = order.pop()?;
        if variable == 0 || variable > trail.variables() {
            return None;
        }
        if let Some(literal) = open_literal(trail, variable, order.is_negated(variable)) {
            return Some(literal);
        }
    }
    None
}

/// A literal without value; none where every variable has one.
fn scanned(trail: &Trail) -> Option<Literal>
    requires { trail.now.variables ≤ MAX_VARIABLE }
    ensures found { IfSome result (λ l. IsUndecided trail.now l) }
    ensures nowhere { IfNone result (AllHaveValue trail.now trail.now.variables) }
{
    for index in 0..trail.variables() {
        if let Some(literal) = open_literal(trail, index + 1, true) {
            return Some(literal);
        }
    }
    None
}

/// The last level up to which the decisions come before the next variable in the order: the search
/// would make them again.
pub fn kept_level(order: &mut Order, trail: &Trail) -> usize
    requires { trail.now.variables ≤ MAX_VARIABLE }
{
    let Some(next) = first_open(order, trail) else {
        return trail.level();
    };
    order.insert(next.variable());
    let mut kept = 0;
    for place in 0..trail.len() {
        let entry = trail.entry(place);
        if entry.level > kept {
            if !order.is_before(entry.literal.variable(), next.variable()) {
                return kept;
            }
            kept = entry.level;
        }
    }
    kept
}

/// Whether a literal is true; none where it has no value.
pub fn value(trail: &Trail, literal: Literal) -> Option<bool>
    ensures { IfNone result (IsUndecided trail.now literal) }
{
    if !literal.is_of(trail.variables()) {
        return Some(false);
    }
    if trail.place(negation(literal)).is_some() {
        return Some(false);
    }
    if trail.place(literal).is_some() {
        return Some(true);
    }
    None
}

/// Whether an assumed literal is false, and those before it are true.
pub fn are_refuted(trail: &Trail, assumed: &[Literal]) -> bool
    ensures { IsTrue result → 0 < length assumed.now }
{
    if assumed.is_empty() {
        return false;
    }
    for literal in assumed {
        match value(trail, *literal) {
            Some(true) => {}
            Some(false) => return true,
            None => return false,
        }
    }
    false
}

/// The first assumed literal without value.
fn first_assumed(trail: &Trail, assumed: &[Literal]) -> Option<Literal>
    ensures { IfSome result (λ l. IsUndecided trail.now l) }
{
    for literal in assumed {
        if value(trail, *literal).is_none() {
            return Some(*literal);
        }
    }
    None
}

/// The literal that is decided next, an assumed one first; none where every variable has a value.
pub fn pick(order: &mut Order, trail: &Trail, assumed: &[Literal]) -> Option<Literal>
    requires { trail.now.variables ≤ MAX_VARIABLE }
    ensures found { IfSome result (λ l. IsUndecided trail.now l) }
    ensures nowhere { IfNone result (AllHaveValue trail.now trail.now.variables) }
{
    if let Some(literal) = first_assumed(trail, assumed) {
        return Some(literal);
    }
    match first_open(order, trail) {
        Some(literal) => Some(literal),
        None => scanned(trail),
    }
}
