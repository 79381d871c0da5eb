// Families of clause sets: pigeons in holes, graphs of one cycle in two colours, chains of
// parities.

use crate::clauses;
use attempt::attempt;
use cnf_core::{Cnf, Literal};
use std::alloc::{AllocError, Global};

/// Adds a clause of two literals.
fn add_two(cnf: &mut Cnf, first: Literal, second: Literal) -> Result<(), AllocError> {
    clauses::add(cnf, &[first, second])
}

/// The literal that says whether a pigeon is in a hole.
fn placed(pigeon: usize, hole: usize, holes: usize, is_negated: bool) -> Literal {
    let before = pigeon.wrapping_mul(holes).wrapping_add(hole);
    clauses::literal(before.wrapping_add(1), is_negated)
}

/// A pigeon is in some hole.
fn add_pigeon(alloc: Global, cnf: &mut Cnf, pigeon: usize, holes: usize) -> Result<(), AllocError> {
    let mut clause = Vec::new(alloc);
    for hole in 0..holes {
        attempt!(clause.push(placed(pigeon, hole, holes, false)), AllocError);
    }
    clauses::add(cnf, &clause)
}

/// Two pigeons aren't in one hole.
fn part(cnf: &mut Cnf, pigeon: usize, other: usize, holes: usize) -> Result<(), AllocError> {
    for hole in 0..holes {
        let first = placed(pigeon, hole, holes, true);
        let second = placed(other, hole, holes, true);
        attempt!(add_two(cnf, first, second));
    }
    Ok(())
}

/// So many pigeons are in so many holes, no two in one.
pub(crate) fn pigeons(alloc: Global, pigeons: usize, holes: usize) -> Result<Cnf, AllocError> {
    let mut cnf = Cnf::new(alloc, pigeons.wrapping_mul(holes));
    for pigeon in 0..pigeons {
        attempt!(add_pigeon(alloc, &mut cnf, pigeon, holes));
        for other in 0..pigeon {
            attempt!(part(&mut cnf, pigeon, other, holes));
        }
    }
    Ok(cnf)
}

/// Two variables differ, or are the same.
fn relate(cnf: &mut Cnf, first: usize, second: usize, is_same: bool) -> Result<(), AllocError> {
    let (is, is_not) = (
        clauses::literal(first, false),
        clauses::literal(first, true),
    );
    attempt!(add_two(cnf, is, clauses::literal(second, is_same)));
    add_two(cnf, is_not, clauses::literal(second, !is_same))
}

/// On a cycle, so many neighbours differ, and the others are the same; where all differ, they have
/// two colours.
pub(crate) fn parity(alloc: Global, size: usize, different: usize) -> Result<Cnf, AllocError> {
    let mut cnf = Cnf::new(alloc, size);
    for index in 0..size {
        let variable = index.wrapping_add(1);
        let next = if variable < size {
            variable.wrapping_add(1)
        } else {
            1
        };
        attempt!(relate(&mut cnf, variable, next, index >= different));
    }
    Ok(cnf)
}
