// Clauses as words: a literal is the number of its variable, after a `-` where it is negated; a
// clause is its literals, with blanks between them, or `none` where it has none; clauses have
// commas between them.

ghost use Rattle.std.specs.Prelude.{◌≡◌};
ghost use Rattle.std.specs.List.{list_all};
ghost use Rattle.clause_check_spec.specs.Clause.{is_of};

use attempt::attempt;
use cnf_core::{Cnf, Literal};
use row_io::{Out, decimal};
use std::alloc::{AllocError, Global};

/// The literal of a variable. Where its number is too large for one it is 0, which no clauses have
/// either.
pub(crate) fn literal(variable: usize, is_negated: bool) -> Literal {
    match Literal::try_new(variable, is_negated) {
        Some(literal) => literal,
        None => Literal::new(0, is_negated),
    }
}

/// The literal of a word.
fn read_literal(word: &str) -> Literal {
    match word.strip_prefix('-') {
        Some(rest) => literal(decimal(rest) as usize, true),
        None => literal(decimal(word) as usize, false),
    }
}

/// The literals of a text.
pub(crate) fn read(alloc: Global, text: &str) -> Result<Vec<Literal>, AllocError> {
    let mut literals = Vec::new(alloc);
    for word in text.split(' ') {
        if !word.is_empty() && word != "none" {
            attempt!(literals.push(read_literal(word)), AllocError);
        }
    }
    Ok(literals)
}

/// Whether the literals are of the variables from 1 to the last.
fn are_of(clause: &[Literal], last: usize) -> bool
    ensures { result ≡ list_all (is_of last) clause.now }
{
    clause.iter().all(|literal| literal.is_of(last))
}

/// Adds a clause, if its literals are of the variables.
pub(crate) fn add(cnf: &mut Cnf, clause: &[Literal]) -> Result<(), AllocError> {
    if are_of(clause, cnf.variables()) {
        attempt!(cnf.push(clause));
    }
    Ok(())
}

/// Adds the clauses of a text.
pub(crate) fn add_all(alloc: Global, cnf: &mut Cnf, text: &str) -> Result<(), AllocError> {
    for part in text.split(',') {
        let clause = attempt!(read(alloc, part));
        attempt!(add(cnf, &clause));
    }
    Ok(())
}

/// Writes literals, each after a blank, and a 0.
pub(crate) fn put(literals: &[Literal], out: &mut Out) {
    for literal in literals {
        out.put(if literal.is_negated() { " -" } else { " " });
        out.show(&literal.variable());
    }
    out.put(" 0");
}
