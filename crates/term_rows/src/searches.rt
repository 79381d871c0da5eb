// The question `sat WORDS`: what a search for a model of clauses finds, checked. It is `closed`
// where each step of its log follows and the log is closed, `model` where its bits satisfy the
// clauses, and `limit N` where its log has as many clauses as it may learn at most, of which N
// follow.
//
// The clauses are `clauses VARIABLES CLAUSE,..`, or a family: `pigeons PIGEONS HOLES`, `cycle SIZE`
// in two colours, and `parity SIZE DIFFERENT`. After the first word there may be a colon and the
// maximum of clauses that are learnt, which else is 65,536. After `count` the answer has the steps,
// literals and hints of the log, which isn't checked, and how many clauses were learnt and literals
// made true; after `log` it is the log.

ghost use Rattle.std.specs.Prelude.{◌≤◌};

use crate::{clauses, families};
use attempt::attempt;
use clause_check::Log;
use cnf_core::{Cnf, MAX_VARIABLE, eval};
use row_io::{Out, decimal, split};
use sat_search::{Counts, Found, Step, solve, solve_counting};
use std::alloc::{AllocError, Global};

/// How many steps follow, one after the other.
fn steps_that_follow(log: &mut Log, steps: &[Step]) -> usize {
    for (done, step) in steps.iter().enumerate() {
        if log.step(step.literals(), step.hints()).is_err() {
            return done;
        }
    }
    steps.len()
}

/// How many steps of a log over the clauses follow, and whether it is closed after them.
fn checked(alloc: Global, cnf: Cnf, steps: &[Step]) -> Result<(usize, bool), AllocError> {
    let mut log = attempt!(Log::new(alloc, cnf));
    let count = steps_that_follow(&mut log, steps);
    Ok((count, log.is_closed()))
}

fn put_closed(alloc: Global, cnf: Cnf, steps: &[Step], out: &mut Out) -> Result<(), AllocError> {
    let (count, is_closed) = attempt!(checked(alloc, cnf, steps));
    out.put("closed");
    if count < steps.len() || !is_closed {
        out.put(" after ");
        out.show(&count);
        out.put(" steps");
    }
    Ok(())
}

fn put_limit(alloc: Global, cnf: Cnf, steps: &[Step], out: &mut Out) -> Result<(), AllocError> {
    let (count, _) = attempt!(checked(alloc, cnf, steps));
    out.put("limit ");
    out.show(&count);
    Ok(())
}

/// Whether the bits satisfy the clauses.
fn put_model(cnf: &Cnf, bits: &[bool], out: &mut Out) {
    let is_model = bits.len() == cnf.variables() && eval(cnf, bits);
    out.put(if is_model { "model" } else { "no model" });
}

/// Writes what a search finds, checked.
fn put_found(alloc: Global, cnf: Cnf, limit: usize, out: &mut Out) -> Result<(), AllocError>
    requires { cnf.variables ≤ MAX_VARIABLE }
{
    match attempt!(solve(alloc, &cnf, limit)) {
        Found::Closed(steps) => put_closed(alloc, cnf, &steps, out),
        Found::Model(bits) => Ok(put_model(&cnf, &bits, out)),
        Found::Limit(steps) => put_limit(alloc, cnf, &steps, out),
    }
}

/// How many steps, literals and hints a log has, and what the search took.
fn put_counts(steps: &[Step], counts: Counts, out: &mut Out) {
    let mut literals: u64 = 0;
    let mut hints: u64 = 0;
    for step in steps {
        literals = literals.wrapping_add(step.literals().len() as u64);
        hints = hints.wrapping_add(step.hints().len() as u64);
    }
    let counted = [literals, hints, counts.learnt, counts.assignments];
    out.show(&steps.len());
    for count in &counted {
        out.put(" ");
        out.show(count);
    }
}

/// Writes what a search finds, with the size of its log, which isn't checked.
fn put_counted(alloc: Global, cnf: &Cnf, limit: usize, out: &mut Out) -> Result<(), AllocError>
    requires { cnf.now.variables ≤ MAX_VARIABLE }
{
    let mut counts = Counts::new();
    match solve_counting(alloc, cnf, limit, &mut counts)? {
        Found::Closed(steps) => {
            out.put("closed ");
            put_counts(&steps, counts, out);
        }
        Found::Model(_bits) => out.put("model"),
        Found::Limit(steps) => {
            out.put("limit ");
            put_counts(&steps, counts, out);
        }
    }
    Ok(())
}

/// A step: its literals and its hints, with a 0 after each.
fn put_step(step: &Step, out: &mut Out) {
    clauses::put(step.literals(), out);
    for number in step.hints() {
        out.put(" ");
        out.show(number);
    }
    out.put(" 0");
}

/// Writes the log that closes the clauses, if there is one.
fn put_log(alloc: Global, cnf: &Cnf, limit: usize, out: &mut Out) -> Result<(), AllocError>
    requires { cnf.now.variables ≤ MAX_VARIABLE }
{
    if let Found::Closed(steps) = attempt!(solve(alloc, cnf, limit)) {
        for step in &steps {
            put_step(step, out);
        }
    }
    Ok(())
}

/// Clauses over so many variables.
fn listed(alloc: Global, variables: usize, text: &str) -> Result<Cnf, AllocError> {
    let mut cnf = Cnf::new(alloc, variables);
    if !text.is_empty() {
        attempt!(clauses::add_all(alloc, &mut cnf, text));
    }
    Ok(cnf)
}

/// The clauses of some words after their first one.
fn clauses_of(alloc: Global, name: &str, words: &str) -> Result<Cnf, AllocError> {
    let (first, rest) = split(words, ' ');
    let size = decimal(first) as usize;
    match name {
        "pigeons" => families::pigeons(alloc, size, decimal(rest) as usize),
        "cycle" => families::parity(alloc, size, size),
        "parity" => families::parity(alloc, size, decimal(rest) as usize),
        _ => listed(alloc, size, rest),
    }
}

/// Writes what is asked of a search over the clauses.
fn put_asked(
    alloc: Global,
    kind: &str,
    cnf: Cnf,
    limit: usize,
    out: &mut Out,
) -> Result<(), AllocError> {
    if cnf.variables() > MAX_VARIABLE {
        return Ok(out.put("too many variables"));
    }
    match kind {
        "count" => put_counted(alloc, &cnf, limit, out),
        "log" => put_log(alloc, &cnf, limit, out),
        _ => put_found(alloc, cnf, limit, out),
    }
}

/// Answers the question on a search.
pub(crate) fn answer(alloc: Global, text: &str, out: &mut Out) -> Result<(), AllocError> {
    let (kind, rest) = match text.split_once(' ') {
        Some((first, rest)) if first == "count" || first == "log" => (first, rest),
        _ => ("", text),
    };
    let (first, words) = split(rest, ' ');
    let (name, limit) = first.split_once(':').unwrap_or((first, "65536"));
    let cnf = attempt!(clauses_of(alloc, name, words));
    put_asked(alloc, kind, cnf, decimal(limit) as usize, out)
}
