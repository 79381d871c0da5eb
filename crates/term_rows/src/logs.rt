// The question `log:VARIABLES CLAUSE, .., CLAUSE; LITERALS by HINTS; ..`: the outcome of each step
// of a log over these clauses, and whether the log is closed.

use crate::clauses;
use attempt::Refusal;
use clause_check::{Literal, Log};
use cnf_core::Cnf;
use row_io::{Out, decimal, split};
use sat_search::Step;
use std::alloc::{AllocError, Global};

fn hints(alloc: Global, text: &str) -> Result<Vec<usize>, AllocError> {
    let mut hints = Vec::new(alloc);
    for word in text.split(' ') {
        if !word.is_empty() {
            hints.push(decimal(word) as usize)?;
        }
    }
    Ok(hints)
}

fn put_step(log: &mut Log, literals: &[Literal], hints: &[usize], out: &mut Out) {
    match log.step(literals, hints) {
        Ok(()) => out.put("ok, "),
        Err(Refusal::Fault(fault)) => {
            out.display(&fault);
            out.put(", ");
        }
        Err(Refusal::NoMemory) => out.fail(),
    }
}

fn step(alloc: Global, log: &mut Log, text: &str, out: &mut Out) -> Result<(), AllocError> {
    let (names, numbers) = text.split_once("by").unwrap_or((text, ""));
    let literals = clauses::read(alloc, names)?;
    let hints = hints(alloc, numbers)?;
    put_step(log, &literals, &hints, out);
    Ok(())
}

/// Adds the step of a text to a log that isn't checked.
fn add_step(alloc: Global, log: &mut Vec<Step>, text: &str) -> Result<(), AllocError> {
    let (names, numbers) = text.split_once("by").unwrap_or((text, ""));
    let literals = clauses::read(alloc, names)?;
    let hints = hints(alloc, numbers)?;
    log.push(Step::new(literals, hints))?;
    Ok(())
}

/// Adds the steps of a text, each after a `;`, to a log that isn't checked.
pub(crate) fn add_steps(alloc: Global, log: &mut Vec<Step>, text: &str) -> Result<(), AllocError> {
    for part in text.split(';') {
        if !part.is_empty() {
            add_step(alloc, log, part)?;
        }
    }
    Ok(())
}

fn steps(alloc: Global, log: &mut Log, text: &str, out: &mut Out) -> Result<(), AllocError> {
    log.reserve(8)?;
    for part in text.split(';') {
        step(alloc, log, part, out)?;
    }
    out.put(if log.is_closed() { "closed" } else { "open" });
    Ok(())
}

/// Answers the question on a log.
pub(crate) fn answer(
    alloc: Global,
    variables: u64,
    text: &str,
    out: &mut Out,
) -> Result<(), AllocError> {
    let (given, added) = split(text, ';');
    let mut cnf = Cnf::new(alloc, variables as usize);
    clauses::add_all(alloc, &mut cnf, given)?;
    let mut log = Log::new(alloc, cnf)?;
    steps(alloc, &mut log, added, out)
}
