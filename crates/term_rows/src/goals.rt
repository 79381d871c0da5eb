// Questions on goals:
//
// - `clauses:FIRST GOAL`: how many variables and clauses it has, and its clauses from that one on,
//   counted from 0
// - `digest GOAL`: how many variables and clauses it has, and a digest of all clauses
// - `within:MAXIMUM GOAL`: how many variables and clauses it has, or `large` where it has more
//   variables than this
// - `model:BITS GOAL`: whether this assignment of the clauses' variables satisfies them, and the
//   goal's value under the model reconstructed from it, which the variables keep

ghost use Rattle.std.specs.Prelude.{◌<◌, length};

use crate::{Question, Row, clauses};
use attempt::{Refusal, attempt};
use bit_blast::{BlastFault, Blasted, blast, read_back};
use cnf_core::{Cnf, Literal, eval};
use row_io::{Out, decimal};
use std::alloc::{AllocError, Global};
use term_bank::{Bank, TermId};
use term_core::Assignment;

/// How many variables and clauses there are.
fn put_size(cnf: &Cnf, out: &mut Out) {
    out.show(&cnf.variables());
    out.put(" ");
    out.show(&cnf.len());
}

fn put_clauses(cnf: &Cnf, from: u64, out: &mut Out) {
    out.put(":");
    for index in from as usize..cnf.len() {
        if let Some(clause) = cnf.clause(index) {
            clauses::put(clause, out);
        }
    }
}

/// The next digest, by the rule of FNV-1a on 64 bits at a time.
fn with_literal(digest: u64, code: u64) -> u64 {
    (digest ^ code).wrapping_mul(0x100_0000_01b3)
}

fn with_clause(digest: u64, clause: &[Literal]) -> u64 {
    let mut digest = digest;
    for literal in clause {
        digest = with_literal(digest, literal.code() as u64);
    }
    with_literal(digest, 0)
}

fn put_digest(cnf: &Cnf, out: &mut Out) {
    let mut digest: u64 = 0xcbf2_9ce4_8422_2325;
    for index in 0..cnf.len() {
        if let Some(clause) = cnf.clause(index) {
            digest = with_clause(digest, clause);
        }
    }
    out.put(" ");
    out.hexadecimal(digest);
}

fn bits(alloc: Global, text: &str) -> Result<Vec<bool>, AllocError> {
    let mut bits = Vec::new(alloc);
    for digit in text.bytes() {
        bits.push(digit == b'1')?;
    }
    Ok(bits)
}

fn put_model(
    alloc: Global,
    values: &mut Assignment,
    blasted: &Blasted,
    text: &str,
    out: &mut Out,
) -> Result<(), AllocError> {
    let bits = attempt!(bits(alloc, text));
    *values = attempt!(read_back(alloc, blasted, &bits));
    out.show(&(bits.len() == blasted.cnf.variables() && eval(&blasted.cnf, &bits)));
    out.put(" ");
    Ok(())
}

fn put_blasted(
    alloc: Global,
    values: &mut Assignment,
    blasted: &Blasted,
    row: Row<'_>,
    out: &mut Out,
) -> Result<(), AllocError> {
    if matches!(row.question, Question::Model) {
        return put_model(alloc, values, blasted, row.detail, out);
    }
    put_size(&blasted.cnf, out);
    match row.question {
        Question::Clauses => put_clauses(&blasted.cnf, decimal(row.detail), out),
        Question::Digest => put_digest(&blasted.cnf, out),
        _ => {}
    }
    Ok(())
}

/// Why there are no clauses; the number that is reported is to be above the maximum.
fn put_error(error: Refusal<BlastFault>, maximum: usize, out: &mut Out) -> Result<(), AllocError> {
    match error {
        Refusal::Fault(BlastFault::Large(count)) if count > maximum => out.put("large"),
        Refusal::Fault(BlastFault::Large(count)) => {
            out.put("large ");
            out.show(&count);
        }
        Refusal::NoMemory => return Err(AllocError),
    }
    Ok(())
}

/// Answers a question on a goal.
pub(crate) fn answer(
    alloc: Global,
    values: &mut Assignment,
    bank: &Bank,
    id: TermId,
    row: Row<'_>,
    out: &mut Out,
) -> Result<(), AllocError>
    requires { id < length bank.now }
{
    let maximum = match row.question {
        Question::Within => decimal(row.detail) as usize,
        _ => usize::MAX,
    };
    match blast(alloc, bank, id, maximum) {
        Ok(blasted) => put_blasted(alloc, values, &blasted, row, out),
        Err(error) => put_error(error, maximum, out),
    }
}
