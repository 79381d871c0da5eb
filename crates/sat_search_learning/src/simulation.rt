ghost use Rattle.std.specs.Prelude.{◌<◌};

use crate::choice::value;
use crate::search::Search;
use crate::signatures::{Candidate, Signatures};
use attempt::attempt;
use cnf_core::{Cnf, Literal};
use sat_search_state::Trail;
use std::alloc::{AllocError, Global};
use std::mem;

/// In how many words of patterns the variables get values; a word has 64 patterns.
const WORDS: usize = 8;

/// Pseudo-random bits (xorshift), the same ones in each search.
#[derive(Drop)]
struct Bits {
    state: u64,
}

impl Bits {
    fn new() -> Bits {
        Bits {
            state: 0x9E37_79B9_7F4A_7C15,
        }
    }

    fn next_word(&mut self) -> u64 {
        self.state ^= self.state << 13;
        self.state ^= self.state >> 7;
        self.state ^= self.state << 17;
        self.state
    }
}

/// The patterns in which a variable is forced to be true, and those in which it is forced to be
/// false.
#[derive(Clone, Copy)]
struct Forced {
    to_true: u64,
    to_false: u64,
}

/// The last variable of a clause.
fn last_variable(clause: &[Literal]) -> usize {
    let mut last = 0;
    for literal in clause {
        if literal.variable() > last {
            last = literal.variable();
        }
    }
    last
}

/// The clauses in which each variable is the last one, as lists linked backwards, in four bytes a
/// clause, since there may be millions. Clauses have numbers from 1; 0 ends a list.
#[derive(Drop)]
struct Definitions {
    /// By variable: the last clause.
    last: Vec<u32>,
    /// By clause: the one before it, of the same variable.
    before: Vec<u32>,
}

impl Definitions {
    /// The last clause of a variable.
    fn last(&self, variable: usize) -> u32 {
        self.last.get(variable).copied().unwrap_or(0)
    }

    /// The clause before one.
    fn before(&self, number: u32) -> u32
        ensures { 0 < number → result < number }
    {
        let index = number.saturating_sub(1) as usize;
        self.before
            .get(index)
            .copied()
            .unwrap_or(0)
            .min(number.saturating_sub(1))
    }

    /// Adds a clause.
    fn add(&mut self, variable: usize, number: u32) -> Result<(), AllocError> {
        let before = match self.last.get_mut(variable) {
            Some(last) => mem::replace(last, number),
            None => 0,
        };
        attempt!(self.before.push(before), AllocError);
        Ok(())
    }
}

/// The clauses in which each variable is the last one.
fn find_definitions(alloc: Global, cnf: &Cnf) -> Result<Definitions, AllocError> {
    let count = cnf.variables().saturating_add(1);
    let mut found = Definitions {
        last: attempt!(vec![in alloc; 0; count]),
        before: Vec::new(alloc),
    };
    for index in 0..cnf.len() {
        if let (Some(clause), Ok(number)) = (cnf.clause(index), u32::try_from(index + 1)) {
            attempt!(found.add(last_variable(clause), number));
        }
    }
    Ok(found)
}

/// Adds the patterns in which a clause forces its last variable, the others being false in it.
fn add_forced(forced: &mut Forced, clause: &[Literal], variable: usize, signatures: &Signatures) {
    let mut patterns = u64::MAX;
    let mut is_negated = false;
    for literal in clause {
        if literal.variable() == variable {
            is_negated = literal.is_negated();
        } else if literal.is_negated() {
            patterns &= signatures.word(literal.variable());
        } else {
            patterns &= !signatures.word(literal.variable());
        }
    }
    if is_negated {
        forced.to_false |= patterns;
    } else {
        forced.to_true |= patterns;
    }
}

/// The patterns in which its clauses force a variable.
fn force(cnf: &Cnf, definitions: &Definitions, variable: usize, signatures: &Signatures) -> Forced {
    let mut forced = Forced {
        to_true: 0,
        to_false: 0,
    };
    let mut number = definitions.last(variable);
    'clauses: while number > 0 {
        if let Some(clause) = cnf.clause(number as usize - 1) {
            add_forced(&mut forced, clause, variable, signatures);
        }
        number = definitions.before(number);
    }
    forced
}

/// The values of a variable in 64 patterns: its value before every decision, if it has one, else
/// what its clauses force, else pseudo-random bits.
fn simulated(
    cnf: &Cnf,
    trail: &Trail,
    definitions: &Definitions,
    variable: usize,
    signatures: &Signatures,
    random: u64,
) -> u64 {
    if let Some(literal) = Literal::try_new(variable, false) {
        match value(trail, literal) {
            Some(true) => return u64::MAX,
            Some(false) => return 0,
            None => {}
        }
    }
    let forced = force(cnf, definitions, variable, signatures);
    forced.to_true | random & !forced.to_false
}

/// Notes the values of all variables in 64 patterns more.
fn simulate(
    cnf: &Cnf,
    trail: &Trail,
    definitions: &Definitions,
    signatures: &mut Signatures,
    bits: &mut Bits,
) {
    for variable in 1..=cnf.variables() {
        let random = bits.next_word();
        let word = simulated(cnf, trail, definitions, variable, signatures, random);
        signatures.note(variable, word);
    }
}

/// The variables that have the same values in all patterns, or opposite ones. The search must be
/// before every decision.
pub fn candidates(alloc: Global, cnf: &Cnf, search: &Search) -> Result<Vec<Candidate>, AllocError> {
    let definitions = attempt!(find_definitions(alloc, cnf));
    let mut signatures = attempt!(Signatures::new(alloc, cnf.variables()));
    let mut bits = Bits::new();
    for _word in 0..WORDS {
        simulate(cnf, &search.trail, &definitions, &mut signatures, &mut bits);
    }
    signatures.candidates(alloc, &search.order)
}
