//! The clauses of the obligations of functions, as SAT solvers read them.

use bit_blast::blast;
use cert_check_frames::Listed;
use cnf_core::{Cnf, Literal};
use memory_spec::Run;
use prove_run::leaf_obligations;
use row_io::Out;
use std::alloc::Global;
use term_bank::{Bank, TermId};
use term_norm::normal;
use tv_limits::MAX_VARIABLES;

fn put_clause(clause: &[Literal], out: &mut Out) {
    for literal in clause {
        out.put(if literal.is_negated() { "-" } else { "" });
        out.show(&literal.variable());
        out.put(" ");
    }
    out.put("0\n");
}

/// Clauses in the DIMACS format.
fn put_clauses(cnf: &Cnf, out: &mut Out) {
    out.put("p cnf ");
    out.show(&cnf.variables());
    out.put(" ");
    out.show(&cnf.len());
    out.put("\n");
    for index in 0..cnf.len() {
        if let Some(clause) = cnf.clause(index) {
            put_clause(clause, out);
        }
    }
}

/// The clauses of an obligation's normal form.
fn put_goal(alloc: Global, bank: &mut Bank, goal: TermId, runs: &[Run], out: &mut Out) {
    if goal >= bank.len() {
        return;
    }
    let Ok(form) = normal(alloc, bank, goal, runs) else {
        return out.fail();
    };
    match blast(alloc, bank, form, MAX_VARIABLES) {
        Ok(blasted) => put_clauses(&blasted.cnf, out),
        Err(_) => out.put("large\n"),
    }
}

/// The clauses of the obligations of a function.
fn put_goals(alloc: Global, function: &Listed<'_>, out: &mut Out) {
    let mut bank = Bank::new(alloc);
    let Ok(found) = leaf_obligations(alloc, function, &mut bank) else {
        return out.put("none\n");
    };
    for goal in &found {
        put_goal(alloc, &mut bank, *goal, function.runs, out);
    }
}

/// The clauses of the obligations of a Leaf at the entry of each function, one after the other.
pub(crate) fn put_obligations(alloc: Global, listed: &[Listed<'_>], out: &mut Out) {
    for function in listed {
        put_goals(alloc, function, out);
    }
}
