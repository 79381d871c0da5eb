// The questions `conditions`, and `stops`, `bounds`, `returns` and `failures`, of a graph, as in
// `graphs`, and after ` | ` of a walk over it, as in `walks`; without it, of one from node 0.
// `sizes` has how many visits there are, and how many terms with their conditions and states.
//
// `conditions` has for each visit its place, its condition, and the terms of the variables that
// differ from those at the start; terms are written as in `graphs`. The others have the same of all
// visits that are a stop's, that break a bound, that return or that fail, as one.

ghost use Rattle.std.specs.Prelude.{ℕ, ◌<◌, length, List};
ghost use Rattle.std.specs.List.{All};
ghost use Rattle.visit_walk_spec.specs.Listing.{IsListing};
ghost use Rattle.visit_walk_spec.specs.Visits.{Walk};
ghost use Rattle.path_cond_spec.specs.Junctions.{junctions};
ghost use Rattle.graph_core_spec.specs.Graph.{Graph as GraphOf};
ghost use Rattle.path_cond.specs.Result.{AreConditions, AreMembers};
ghost use Rattle.term_core_spec.specs.Substitution.{State as Terms};

use crate::lists::add_place;
use crate::walks::Words;
use crate::{graphs, walks};
use attempt::attempt;
use graph_core::Graph;
use graph_core_spec::Next;
use path_cond::{Conditions, Ids, State, conditions, several};
use row_io::Out;
use std::alloc::{AllocError, Global};
use std::collections::HashMap;
use term_bank::{Bank, TermId, TermNode};
use term_core_spec::{
    Atom, BinaryOperator, Family, QuaternaryOperator, TernaryOperator, UnaryOperator, Variable,
    WordOperator,
};
use visit_walk::{Shape, Visits, visits};

/// Adds the letter of a variable.
fn add_variable(out: &mut Out, variable: Variable) {
    match variable.family {
        Family::Address => out.put("@"),
        Family::BinaryMemory => out.put("$"),
        Family::SourceMemory => out.put("%"),
        Family::ZoneMemory => out.put("^"),
        _ => out.display(&char::from((variable.index % 128) as u8)),
    }
}

fn add_atom(out: &mut Out, atom: Atom) {
    match atom {
        Atom::Truth(true) => out.put("T"),
        Atom::Truth(false) => out.put("F"),
        Atom::Constant(_, number) => out.show(&number),
        Atom::Open(variable) => add_variable(out, variable),
    }
}

fn unary(operator: UnaryOperator) -> &'static str {
    match operator {
        UnaryOperator::Not => "!",
        _ => "#",
    }
}

fn binary(operator: BinaryOperator) -> &'static str {
    match operator {
        BinaryOperator::And => "&",
        BinaryOperator::Or => "|",
        BinaryOperator::Less => "<",
        BinaryOperator::Equal => "=",
        BinaryOperator::Load => "*",
        BinaryOperator::Word(WordOperator::Add) => "+",
        BinaryOperator::Word(WordOperator::Subtract) => "-",
        _ => "#",
    }
}

/// Adds a term of the bank.
fn add_term(out: &mut Out, bank: &Bank, id: TermId)
    requires { id < length bank.now }
{
    match bank.node(id) {
        TermNode::Leaf(atom) => add_atom(out, atom),
        TermNode::Unary(operator, a) => {
            out.put(unary(operator));
            add_term(out, bank, a);
        }
        TermNode::Binary(operator, a, b) => {
            out.put(binary(operator));
            add_term(out, bank, a);
            add_term(out, bank, b);
        }
        TermNode::Ternary(TernaryOperator::Choose, a, b, c) => {
            out.put(":");
            add_term(out, bank, a);
            add_term(out, bank, b);
            add_term(out, bank, c);
        }
        TermNode::Quaternary(QuaternaryOperator::Over, a, b, c, d) => {
            out.put("~");
            add_term(out, bank, a);
            add_term(out, bank, b);
            add_term(out, bank, c);
            add_term(out, bank, d);
        }
        _ => out.put("#"),
    }
}

/// Adds a term of the bank, if it is there.
pub(crate) fn add_known(out: &mut Out, bank: &Bank, id: TermId) {
    if id < bank.len() {
        add_term(out, bank, id);
    } else {
        out.put("#");
    }
}

/// Whether a term is this variable.
fn is_itself(bank: &Bank, id: TermId, variable: Variable) -> bool {
    id < bank.len() && bank.node(id) == TermNode::Leaf(Atom::Open(variable))
}

fn add_value(out: &mut Out, bank: &Bank, variable: Variable, id: Option<TermId>) {
    match id {
        Some(id) if !is_itself(bank, id, variable) => {
            out.put(" ");
            add_variable(out, variable);
            out.put("=");
            add_known(out, bank, id);
        }
        _ => {}
    }
}

/// Adds a condition, and the terms of a state that differ from those of the start.
fn add_one(out: &mut Out, bank: &Bank, found: &Conditions, condition: TermId, state: &Ids) {
    add_known(out, bank, condition);
    for number in 0..found.variables.len() {
        add_value(out, bank, found.variables[number], state.get(number));
    }
}

fn add_visit(out: &mut Out, bank: &Bank, found: &Conditions, position: usize) {
    let known = &found.known;
    match (known.conditions.get(position), known.states.get(position)) {
        (Some(condition), Some(state)) => add_one(out, bank, found, *condition, state),
        _ => out.put("#"),
    }
}

fn add_visits(out: &mut Out, bank: &Bank, visits: &Visits, found: &Conditions) {
    let mut before = "";
    for position in 0..visits.len() {
        out.put(before);
        add_place(out, visits.place(position));
        out.put(" ");
        add_visit(out, bank, found, position);
        before = "; ";
    }
}

/// Adds how many visits there are, and how many terms of the bank.
fn add_sizes(out: &mut Out, bank: &Bank, visits: &Visits) {
    out.show(&visits.len());
    out.put(" visits ");
    out.show(&bank.len());
    out.put(" terms");
}

/// Whether the question is about the visit at a position.
fn is_asked(name: &str, walk: &Words, visits: &Visits, position: usize) -> bool
    requires { position < length visits.now.visits }
{
    let (stops, bounds) = (walk.stops.as_slice(), walk.bounds.as_slice());
    match name {
        "stops" => visits.is_stop(position, stops),
        "bounds" => visits.is_bounded(position, stops, bounds),
        "returns" => matches!(visits.place(position), Next::Ret),
        _ => matches!(visits.place(position), Next::Err),
    }
}

fn find_members(
    members: &mut Vec<usize>,
    name: &str,
    walk: &Words,
    visits: &Visits,
) -> Result<(), AllocError>
    requires { All (λ m. m < length visits.now.visits) members.old.items }
    ensures { All (λ m. m < length visits.now.visits) members.new.items }
{
    for position in 0..visits.len() {
        if is_asked(name, walk, visits, position) {
            attempt!(members.push(position), AllocError);
        }
    }
    Ok(())
}

/// Adds the visits asked for, as one.
fn add_several(
    alloc: Global,
    out: &mut Out,
    bank: &mut Bank,
    found: &Conditions,
    members: &[usize],
) -> Result<(), AllocError>
    requires { AreMembers bank.old found.now members.now }
{
    let (condition, state) = attempt!(several(alloc, bank, found, members));
    add_one(out, bank, found, condition, &state);
    Ok(())
}

/// Adds the answer to a question about some of the visits.
fn add_some(
    alloc: Global,
    out: &mut Out,
    name: &str,
    walk: &Words,
    visits: &Visits,
    bank: &mut Bank,
    found: &Conditions,
) -> Result<(), AllocError>
    requires { (s : Terms) × (g : GraphOf) × (w : Walk) × AreConditions bank.old s g
        (junctions w visits.now.visits) found.now }
{
    let mut members = Vec::new(alloc);
    attempt!(find_members(&mut members, name, walk, visits));
    add_several(alloc, out, bank, found, members.as_slice())
}

/// Adds the answer to a question about a list of visits.
fn add_found(
    alloc: Global,
    out: &mut Out,
    name: &str,
    graph: &Graph,
    walk: &Words,
    visits: &Visits,
) -> Result<(), AllocError>
    requires { (w : Walk) × (maximum : ℕ) × IsListing w maximum visits.now }
{
    let mut bank = Bank::new(alloc);
    let start: State = HashMap::new(alloc);
    let found = attempt!(conditions(alloc, graph, visits, &start, &mut bank));
    match name {
        "conditions" => Ok(add_visits(out, &bank, visits, &found)),
        "sizes" => Ok(add_sizes(out, &bank, visits)),
        _ => add_some(alloc, out, name, walk, visits, &mut bank, &found),
    }
}

/// Adds the answer of a walk over a graph.
fn add_walk(
    alloc: Global,
    out: &mut Out,
    name: &str,
    graph: &Graph,
    walk: &Words,
) -> Result<(), AllocError> {
    let shape = attempt!(Shape::of(alloc, graph));
    let (stops, bounds) = (walk.stops.as_slice(), walk.bounds.as_slice());
    match visits(alloc, &shape, walk.start, stops, bounds, walk.maximum) {
        Ok(found) => add_found(alloc, out, name, graph, walk, &found),
        Err(_) => Ok(out.put("no visits")),
    }
}

/// Adds the answer.
pub(crate) fn answer(
    alloc: Global,
    out: &mut Out,
    name: &str,
    text: &str,
) -> Result<(), AllocError> {
    let (nodes, rest) = text.split_once(" | ").unwrap_or((text, "from 0"));
    let graph = attempt!(graphs::read(alloc, nodes));
    let walk = attempt!(walks::read(alloc, rest));
    add_walk(alloc, out, name, &graph, &walk)
}
